//! The command line of curlpool: its commands and their options, the plans that words give, and the
//! refusals of other words.
#![tactic(auto)]

mod audit_words;
mod get_plan;
mod get_urls;
mod help;
mod input;
mod load_measured;
mod load_numbers;
mod load_planning;
mod load_urls;
mod memory;
mod numbers;
mod options;
mod refusal;
mod request;
mod resolve;
mod script_words;
mod system_words;
mod url_target;
mod values;
mod words;
mod worked;

pub use audit_words::AuditWords;
pub use input::Input;
pub use load_numbers::load_options;
pub use memory::{ArgsAlloc, CountedArgsAlloc};
pub use refusal::Refusal;
pub use request::{ErrorClass, Request};
pub use script_words::ScriptWords;
pub use system_words::given_words;
pub use words::Words;
pub use worked::{worked_audit_lines, worked_command_lines, worked_percentages};
