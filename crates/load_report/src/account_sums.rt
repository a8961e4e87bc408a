//! Sums and counts of the report.

ghost use Rattle.std.specs.Prelude.{◌≡◌, count_by, sum_by, IfOk};
ghost use Rattle.load_report.specs.Accounts.{shown_sum, site_totals, sums_of, totals};
ghost use Rattle.load_report.specs.Accounts.{body_len, is_bad, is_reused, is_retried};

use exchange::Done;
use shared_cache::HostCount;
use std::alloc::{AllocError, Global};

/// The numbers of the line `jobs` of a report.
#[derive(Clone, Copy, Debug, PartialEq, Eq)]
pub struct JobSums {
    /// Transfers that ended.
    pub jobs: u64,
    /// Transfers that failed.
    pub failed: u64,
    /// Whole responses over a connection that had been used before.
    pub reused: u64,
    /// Whole responses after a retry.
    pub retried: u64,
    /// Bytes of the bodies of whole responses.
    pub bytes: u64,
}

impl JobSums {
    /// Returns the numbers of transfers with these results.
    pub(crate) fn of(results: &[Done]) -> JobSums
        ensures { result ≡ sums_of results.now }
    {
        JobSums {
            jobs: results.len() as u64,
            failed: bad_count(results),
            reused: reused_count(results),
            retried: retried_count(results),
            bytes: body_total(results),
        }
    }
}

/// Returns the sums of the counts of all hosts, each at most 18,446,744,073,709,551,615.
pub fn totals(hosts: &[HostCount]) -> HostCount
    ensures { result ≡ totals hosts.now }
{
    let mut total = HostCount {
        opened: 0,
        reused: 0,
        closed: 0,
        waited: 0,
        alive: 0,
    };
    for host in hosts {
        total.opened = total.opened.saturating_add(host.opened);
        total.reused = total.reused.saturating_add(host.reused);
        total.closed = total.closed.saturating_add(host.closed);
        total.waited = total.waited.saturating_add(host.waited);
        total.alive = total.alive.saturating_add(host.alive);
    }
    total
}

/// Returns the counts of each site: those of its host, or the sums of its `each` hosts, which are
/// consecutive.
///
/// # Errors
///
/// There is no memory for them.
pub fn site_totals(
    alloc: Global,
    hosts: &[HostCount],
    sites: u32,
    each: u32,
) -> Result<Vec<HostCount>, AllocError>
    ensures { IfOk result (λ sums. sums.items ≡ site_totals sites each hosts.now) }
{
    let mut sums = Vec::new(alloc);
    if each == 1 {
        sums.extend_from_slice(hosts)?;
        return Ok(sums);
    }
    let mut left = hosts;
    for _ in 0..sites {
        let (own, others) = left.split_at(left.len().min(each as usize));
        sums.push(totals(own))?;
        left = others;
    }
    Ok(sums)
}

// Returns the total length of the bodies of whole responses, in bytes.
fn body_total(results: &[Done]) -> u64
    ensures { result ≡ shown_sum (sum_by body_len results.now) }
{
    let mut total: u64 = 0;
    for done in results {
        total = total.saturating_add(body_len(done));
    }
    total
}

// Returns the length of the body of a whole response, in bytes; 0 for a failed transfer.
fn body_len(done: &Done) -> u64
    ensures { result ≡ body_len done.now }
{
    match done {
        Done::Good(answer) => answer.body_len,
        Done::Bad(_) => 0,
    }
}

// Returns the number of failed transfers.
fn bad_count(results: &[Done]) -> u64
    ensures { result ≡ count_by is_bad results.now }
{
    results
        .iter()
        .filter(|done| matches!(**done, Done::Bad(_)))
        .count() as u64
}

// Returns the number of whole responses over reused connections.
fn reused_count(results: &[Done]) -> u64
    ensures { result ≡ count_by is_reused results.now }
{
    results
        .iter()
        .filter(|done| matches!(**done, Done::Good(answer) if answer.reused))
        .count() as u64
}

// Returns the number of whole responses after a retry.
fn retried_count(results: &[Done]) -> u64
    ensures { result ≡ count_by is_retried results.now }
{
    results
        .iter()
        .filter(|done| matches!(**done, Done::Good(answer) if answer.retried))
        .count() as u64
}
