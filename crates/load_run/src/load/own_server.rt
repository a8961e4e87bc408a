//! The requests of a load without URLs.

ghost use Rattle.std.specs.Prelude.{◌≡◌, ◌<◌, ◌^◌, length, map, string_bytes, IfOk, OnOk};
ghost use Rattle.load_run.specs.LoadJobs.{AreOwnJobs, AsksOwn, IsOwnJob, own_count, own_url};

use commands::{LoadFlags, LoadOptions, LoadPlan, job_of};
use conn_key::Target;
use exchange::Job;
use std::alloc::{AllocError, Global};

/// Adds the requests and URLs of a load without URLs, whose own server listens on these ports of
/// 127.0.0.1, one for each site. Request K is `/K` at site K modulo the number of sites. A load
/// with `--seconds` has one request for each site, and repeats them.
///
/// # Errors
///
/// Memory ran out.
pub(crate) fn add_own(alloc: Global, plan: &mut LoadPlan, ports: &[u16]) -> Result<(), AllocError>
    requires some { 0 < length ports.now }
    requires few { length ports.now < 2 ^ 32 }
    ensures asks { OnOk result (AsksOwn ports.now plan.old plan.new) }
{
    let count = own_count(plan.options, plan.numbers.seconds);
    plan.urls = own_urls(alloc, ports)?;
    plan.jobs = own_jobs(alloc, count, ports, plan.flags)?;
    Ok(())
}

// Returns the number of different requests: one for each job, and at least one for each site.
fn own_count(options: LoadOptions, seconds: Option<u32>) -> u32
    ensures { result ≡ own_count options seconds }
{
    match seconds {
        Some(_) => options.sites,
        None => options.jobs.max(options.sites),
    }
}

// Returns the URL of each site.
fn own_urls(alloc: Global, ports: &[u16]) -> Result<Vec<String>, AllocError>
    ensures { IfOk result (λ urls. map string_bytes urls.items ≡ map own_url ports.now) }
{
    let mut urls = Vec::new(alloc);
    for port in ports {
        let url = format!(in alloc; "http://127.0.0.1:{port}/")?;
        urls.push(url)?;
    }
    Ok(urls)
}

// Makes `count` requests for the sites at these ports.
fn own_jobs(
    alloc: Global,
    count: u32,
    ports: &[u16],
    flags: LoadFlags,
) -> Result<Vec<Job>, AllocError>
    requires some { 0 < length ports.now }
    requires few { length ports.now < 2 ^ 32 }
    ensures jobs { IfOk result (λ jobs. AreOwnJobs flags ports.now 0 jobs.items) }
    ensures count { IfOk result (λ jobs. length jobs.items ≡ count) }
{
    let mut jobs = Vec::new(alloc);
    for number in 0..count {
        let job = own_job(alloc, number, ports, flags)?;
        jobs.push(job)?;
    }
    Ok(jobs)
}

// Makes the request with that number.
fn own_job(alloc: Global, number: u32, ports: &[u16], flags: LoadFlags) -> Result<Job, AllocError>
    requires some { 0 < length ports.now }
    requires few { length ports.now < 2 ^ 32 }
    ensures { IfOk result (IsOwnJob flags ports.now number) }
{
    let site = number % (ports.len() as u32);
    let target = Target {
        host: String::from_str(alloc, "127.0.0.1")?,
        port: ports[site as usize],
        path: format!(in alloc; "/{number}")?,
    };
    Ok(job_of(site, target, flags))
}
