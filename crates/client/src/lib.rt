//! A client, which sends one request after another over a pool and keeps its connections; and
//! input of crawls: addresses of host names, looked up on separate threads, and lines of URL files.
#![tactic(auto)]

mod client;
mod fetched;
mod lines;
mod look_ups;
mod names;
mod system_names;
mod time_limit;
mod worked;

pub use client::Client;
pub use fetched::Fetched;
pub use lines::{Line, UrlLines};
pub use look_ups::LookUps;
pub use names::{Answer, KnownNames, Names, Resolver};
pub use system_names::{SystemNames, SystemResolver};
pub use worked::worked_lines;
