//! Loads: many requests at once over one shared cache of polled sockets, their figures, and the
//! account of the cache.
#![tactic(auto)]

mod account;
mod counted_results;
mod error;
mod load;
mod load_clock;
mod load_timer;
mod loading;
mod logs;
mod pace;
mod plan;
mod progress;
mod tools;
mod url_jobs;
mod wait_sum;
mod watch;

pub use error::LoadError;
pub use load::failure::LoadFailure;
pub use load::fault::LoadFault;
pub use load::outcome::LoadOutcome;
pub use load::system::load_on_system;
pub use loading::{LoadedMany, load_many};
pub use pace::Rate;
pub use plan::{LoadTimes, ManyPlan};
pub use watch::{Seen, Unwatched, Watch};
