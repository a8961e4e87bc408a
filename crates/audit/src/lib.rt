//! Whether a trace of what a connection pool was asked and did is lawful: it is read line by line,
//! and each violation is told with the rule, its numbers and the earlier line that matters.
#![tactic(auto)]

mod audit;
mod ended;
mod fault;
mod finding;
mod host;
mod hosts;
mod judging;
pub mod laws;
mod report;
mod rests;
mod rule;
mod state;

pub use audit::Audit;
pub use ended::Ended;
pub use fault::AuditFault;
pub use finding::{Broken, Earlier, Finding, Happened};
pub use report::{FindingLines, LawfulLine, PassedByLine};
pub use rule::{Name, Rule};
