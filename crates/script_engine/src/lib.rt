//! The meaning of scripts, as definitions over their lines, with laws of transcripts; and the
//! engine, which reads a script from a stream, runs it over a pool and writes its transcript.
#![tactic(auto)]

mod facts;
mod hosts;
pub mod law;
mod line;
mod machine;
mod reading;
mod script;
mod site_leases;
mod telling;
mod viewer;
pub mod worked;

pub use line::line_text;
pub use machine::{Engine, Machine};
pub use reading::{SCRIPT_LIMIT, read_script};
pub use script::{
    run_bytes, run_file, run_file_for, run_lines, run_script, run_script_for,
    untraced_outputs_are_transcripts,
};
pub use viewer::{Unseen, Viewer};
