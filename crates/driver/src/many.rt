//! A run with many jobs at once: each worker has places for some of them, in a loop over a desk.

mod drawn_jobs;
mod gathering;
mod job_source;
mod listed_jobs;
mod loop_states;
mod loops_with_waiters;
mod run_timer;
mod running;
mod storage;
mod worker;

pub use job_source::JobSource;
pub use listed_jobs::ListedJobs;
pub use running::{ManyReport, NotBegun, run_many};
pub use worker::{Finished, Tools};
