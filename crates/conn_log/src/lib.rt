//! What happens to one host's connections, as a log: its entries, the questions that it answers,
//! and the plain readers that answer them by scanning.
#![tactic(auto)]

mod base;
mod counts;
mod entry;
pub mod laws;
mod log;
mod past;
mod readers;
mod stamp;
mod still_waiting;
pub mod worked;

pub use base::{Base, OpenConnection};
pub use counts::Counts;
pub use entry::{Cause, DEFAULT_MAX_AGE, Entry, Event, Want};
pub use log::{Log, LogFault};
pub use past::Past;
pub use readers::{holder, idle_oldest, open_count, waiting_len};
pub use stamp::Stamp;
