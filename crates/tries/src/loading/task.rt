//! Words of the command `load each`.

use crate::words::{count_at, ports_of};
use std::alloc::Global;

/// The requests to be sent.
#[derive(Drop)]
pub(crate) struct Task {
    /// Number of threads.
    pub(crate) workers: u32,
    /// Maximum number of connections open to all sites; 0 means no limit.
    pub(crate) total: u32,
    /// Number of requests.
    pub(crate) jobs: u32,
    /// The ports of 127.0.0.1 at which the sites listen.
    pub(crate) ports: Vec<u16>,
}

/// Parses the words: `each`, three numbers, and ports. `None` if they are something else, or an
/// allocation fails.
pub(crate) fn task_of(alloc: Global, words: &[String]) -> Option<Task> {
    let (each, numbers) = words.split_first()?;
    if each.as_str() != "each" {
        return None;
    }
    Some(Task {
        workers: count_at(numbers, 0)?,
        total: count_at(numbers, 1)?,
        jobs: count_at(numbers, 2)?,
        ports: ports_of(alloc, numbers.get(3..)?)?,
    })
}
