//! Whether what a connection pool did is lawful: its logs are judged entry by entry, as they come,
//! with memory for what is open and what waits.
#![tactic(auto)]

mod connections;
mod due;
mod held;
mod host;
mod judging;
pub mod laws;
mod monitor;
mod rules;
mod tables;
mod taken;
mod taking;
mod totals;
mod unrest;
mod violation;
mod waiters;

pub use crate::monitor::Monitor;
pub use host::HostMonitor;
pub use unrest::Unrest;
pub use violation::{Fault, Violation};
