//! Jobs, and the lines of their results.

use conn_key::Target;
use conn_log::Want;
use exchange::{Done, Job};
use persistence::Method;
use std::alloc::{AllocError, Global};
use std::io::Write;

/// Makes a GET of the target, at the site with that index. It takes any idle connection.
pub(crate) fn job_of(site: u32, transfer: u64, target: Target) -> Job {
    Job {
        site,
        want: Want::of(transfer),
        method: Method::Get,
        target,
    }
}

/// Makes `count` jobs. Job k asks for the path `/k` of 127.0.0.1, at the port with the index k
/// modulo the number of ports. Without ports there are none.
///
/// # Errors
///
/// An allocation failed.
pub(crate) fn jobs_at(alloc: Global, count: u32, ports: &[u16]) -> Result<Vec<Job>, AllocError> {
    let mut jobs = Vec::new(alloc);
    if ports.is_empty() {
        return Ok(jobs);
    }
    for number in 0..count {
        let site = number as usize % ports.len();
        let target = target_of(alloc, ports[site], number)?;
        jobs.push(job_of(site as u32, number as u64, target))?;
    }
    Ok(jobs)
}

// Returns the target of that number's path, at that port of 127.0.0.1.
fn target_of(alloc: Global, port: u16, number: u32) -> Result<Target, AllocError> {
    let host = String::from_str(alloc, "127.0.0.1")?;
    let path = format!(in alloc; "/{number}")?;
    Ok(Target { host, port, path })
}

/// Prints the result of a job, as `curlpool get` prints that of a URL. `None` if printing failed.
pub(crate) fn print_line(rt: &HostRuntime, name: &str, done: &Done) -> Option<()> {
    match done {
        Done::Good(answer) => {
            let status = answer.status;
            let length = answer.body_len;
            let reused = if answer.reused { "reused" } else { "new" };
            let retried = if answer.retried { " retried" } else { "" };
            println!(rt; "{status} {length} {reused}{retried} {name}").ok()
        }
        Done::Bad(fault) => {
            let fault = fault.name();
            println!(rt; "{fault} {name}").ok()
        }
    }
}
