//! The language of scripts and transcripts: reads a line of a script, and prints the lines of
//! events and replies.
#![tactic(auto)]

mod command;
mod fault;
mod grammar;
mod options;
mod printing;
mod replies;
mod site;

pub use command::{Action, Command, Ending, HostCommand, Limits};
pub use fault::{FaultKind, ScriptFault};
pub use grammar::{LINE_LIMIT, command_of, read_line};
pub use printing::LookLine;
pub use replies::{claimed, lines_since, reply, still_waiting, too_many_leased, upkeep};
pub use site::SiteWord;
