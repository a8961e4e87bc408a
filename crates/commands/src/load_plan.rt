//! Plans of loads.

ghost use Rattle.commands.specs.Numbering.{AreNumbered, numbered_prop};

use crate::load_limits::LoadOptions;
use crate::load_settings::{LoadFlags, LoadNumbers};
use crate::resolved::Resolved;
use exchange::Job;

/// The plan of a load, made from the command line.
#[derive(Drop)]
pub struct LoadPlan {
    /// Its six numbers.
    pub options: LoadOptions,
    /// Its other numbers.
    pub numbers: LoadNumbers,
    pub flags: LoadFlags,
    /// Its URLs, at most eight. Without URLs, the load starts a server and requests that.
    pub urls: Vec<String>,
    /// Its requests, sent round robin. Sites are numbered in the order in which the requests name
    /// them first.
    pub jobs: Vec<Job>,
    /// The addresses given for hosts.
    pub resolved: Vec<Resolved>,
    /// The file for its trace.
    pub trace: Option<String>,
    /// The file for its picture.
    pub picture: Option<String>,
    /// True if only the six numbers and the trace's file were given as options. Such a load prints
    /// only its report, and has status 0 even if no response is good.
    pub is_plain: bool,
    ghost numbered: { AreNumbered 0 jobs.items } by { numbered_prop 0 jobs.items },
}
