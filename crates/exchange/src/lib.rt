//! One request and its response over a connection of a cache.
#![tactic(auto)]

mod alarm;
mod connecting;
mod done;
mod ending;
mod exchange;
mod job;
mod job_control;
mod job_run;
mod job_runner;
mod phases;
mod polled;
mod ready;
mod reason;
mod state;
mod transfer;
mod transferring;
mod wire;

pub use alarm::Alarm;
pub use done::{Answer, Done, FAULT_NAMES, Fault};
pub use exchange::Exchange;
pub use job::{Job, Prepared};
pub use job_control::JobControl;
pub use job_run::{JobRun, JobStop};
pub use job_runner::JobRunner;
pub use phases::Phases;
pub use polled::Polled;
pub use ready::{Place, Ready};
pub use reason::Reason;
pub use state::Stage;
pub use transfer::Transfer;
pub use wire::{Clock, Dial, Dialled, Read, Turned, Wire, Written};
