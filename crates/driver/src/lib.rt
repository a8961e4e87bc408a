//! Threads that draw jobs and carry each out over a shared cache: one transfer at a time each, or
//! any number in a loop.
#![tactic(auto)]

mod bell;
mod carrying;
mod collecting;
mod context;
mod control;
mod fault;
mod faults;
mod gate;
mod many;
mod quit;
mod running;
mod stopped;
mod storage;
mod worker;

pub use fault::DriverFault;
pub use gate::{Gate, NoGate};
pub use many::{Finished, JobSource, ListedJobs, ManyReport, NotBegun, Tools, run_many};
pub use running::{RunReport, run};
