//! The language of traces: what a line of a trace says, and the log of a host as such lines. A
//! trace has what a pool was asked, in the commands of a script, and what it did, in the lines of a
//! transcript.
#![tactic(auto)]

mod asking;
mod givers;
mod head;
mod host_trace;
mod line;
mod reading;
mod uses;
pub mod worked;
mod writing;

pub use head::{add_limits, add_site};
pub use host_trace::HostTrace;
pub use line::{Line, Traced, TracedEvent};
pub use reading::read_line;
pub use writing::{Stop, Told, write_lines};
