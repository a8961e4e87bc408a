//! Words of the command `soak`.

use crate::words::{count_at, number_at, ports_of};
use std::alloc::Global;

/// Maximum number of threads.
const MOST_THREADS: u32 = 64;

/// Maximum number of hosts.
const MOST_HOSTS: usize = 64;

/// The run.
#[derive(Drop)]
pub(crate) struct Task {
    /// Length of the run.
    pub(crate) seconds: u64,
    /// Number of threads.
    pub(crate) threads: u32,
    /// Maximum number of connections open to all hosts; 0 means no limit.
    pub(crate) total: u32,
    /// The ports of 127.0.0.1 at which the hosts listen.
    pub(crate) ports: Vec<u16>,
}

/// Parses the words: three numbers, and ports. `None` if they are something else, or an allocation
/// fails.
pub(crate) fn task_of(alloc: Global, words: &[String]) -> Option<Task> {
    let seconds = number_at(words, 0)?;
    let (threads, total) = (count_at(words, 1)?, count_at(words, 2)?);
    let ports = ports_of(alloc, words.get(3..)?)?;
    let few = ports.len() <= MOST_HOSTS && threads <= MOST_THREADS;
    if threads == 0 || ports.is_empty() || !few {
        return None;
    }
    Some(Task {
        seconds,
        threads,
        total,
        ports,
    })
}
