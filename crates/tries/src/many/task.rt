//! Words of the command `many`.

use crate::words::{count_at, ports_of};
use std::alloc::Global;

/// The requests to be sent.
#[derive(Drop)]
pub(crate) struct Task {
    /// Number of threads.
    pub(crate) workers: u32,
    /// Maximum number of requests in flight, of all threads together.
    pub(crate) places: u32,
    /// Maximum number of connections open to all sites; 0 means no limit.
    pub(crate) total: u32,
    /// Number of requests.
    pub(crate) jobs: u32,
    /// The ports of 127.0.0.1 at which the sites listen.
    pub(crate) ports: Vec<u16>,
}

/// Parses the words: four numbers, and ports. `None` if they are something else, or an allocation
/// fails.
pub(crate) fn task_of(alloc: Global, words: &[String]) -> Option<Task> {
    let (workers, places) = (count_at(words, 0)?, count_at(words, 1)?);
    let (total, jobs) = (count_at(words, 2)?, count_at(words, 3)?);
    let ports = ports_of(alloc, words.get(4..)?)?;
    Some(Task {
        workers,
        places,
        total,
        jobs,
        ports,
    })
}
