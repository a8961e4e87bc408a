//! A trace from the stream that it is read from to the audit's answer.
#![tactic(auto)]

mod audit_output;
mod json;
pub mod laws;
mod line_ends;
mod reading;
mod stop;
mod teller;

pub use audit_output::{AuditOutput, Verdict};
pub use reading::{audit_file, audit_stream};
pub use stop::AuditStop;
