//! A worker's loop: any number of jobs at once over one cache, each carried out by a transfer. The
//! numbers of the jobs are drawn from a counter that workers share.
#![tactic(auto)]

mod begins;
mod job_counter;
mod job_draws;
mod jobs;
mod late;
mod results;
mod run_end;
mod run_loop;
mod spares;
mod time_limit;
mod timer;
mod until;

pub use job_counter::{JobCounter, JobSeat};
pub use jobs::{Draw, Jobs};
pub use results::{Results, Span};
pub use run_end::RunEnd;
pub use run_loop::RunLoop;
pub use time_limit::is_late;
pub use timer::{MicroClock, Timer};
pub use until::Until;
