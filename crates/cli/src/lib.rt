//! The parts of the program curlpool: it fetches URLs, runs loads and scripts, and audits traces,
//! as its command line says.
#![tactic(auto)]

mod auditing;
mod get;
mod loading;
mod program;
mod script;
mod system;

pub use get::look_up_threads::look_up_threads;
pub use get::run_get;
pub use get::system_network::SystemNetwork;
pub use loading::run_load;
pub use program::run_program;
pub use system::System;
