//! The report as a text.

ghost use Rattle.std.specs.Prelude.{◌≡◌, IfOk, IfErr, string_bytes};
ghost use Rattle.load_report.specs.Accounts.{lines_text, report_text};

use crate::account_lines::{add_host_line, add_sums_line, add_total_line};
use crate::account_sums::JobSums;
use budget::Refusal;
use exchange::Done;
use shared_cache::{Gathered, HostCount};
use std::alloc::Global;

/// The report of a shared cache that was gathered, and of how its transfers ended.
///
/// It has a line `host` for each host, in order, with its index and how many connections were
/// opened, leased again and closed there, how many transfers began to wait, and how many
/// connections are open; a line `all ` with the number of hosts and the sums of these numbers; and
/// a line `jobs` with the number of transfers, of those that failed, of those whose response came
/// over a connection used before, of those whose request was sent once more, and how many bytes the
/// bodies of all whole responses have. Each number is right-aligned in eight places, and a longer
/// one takes the places that it needs. A sum above 18,446,744,073,709,551,615 is given as that
/// number.
///
/// The only refusal is [`Refusal::Memory`].
pub fn report<S: Drop>(
    alloc: Global,
    gathered: &Gathered<S>,
    results: &[Done],
) -> Result<String, Refusal>
    ensures text { IfOk result (λ text. string_bytes text
        ≡ report_text gathered.now.hosts.items results.now) }
    ensures memory { IfErr result (λ refusal. refusal ≡ Refusal.Memory) }
{
    report_of(alloc, &gathered.hosts, results)
}

/// The same of what was counted at hosts, whose indices are their places here.
pub fn report_of(alloc: Global, hosts: &[HostCount], results: &[Done]) -> Result<String, Refusal>
    ensures text { IfOk result (λ text. string_bytes text
        ≡ report_text hosts.now results.now) }
    ensures memory { IfErr result (λ refusal. refusal ≡ Refusal.Memory) }
{
    report_with(alloc, hosts, JobSums::of(results))
}

/// Returns the same report, of transfers whose results are summed up already.
pub fn report_with(alloc: Global, hosts: &[HostCount], sums: JobSums) -> Result<String, Refusal>
    ensures text { IfOk result (λ text. string_bytes text ≡ lines_text hosts.now sums) }
    ensures memory { IfErr result (λ refusal. refusal ≡ Refusal.Memory) }
{
    let mut text = String::new(alloc);
    for (index, host) in hosts.iter().enumerate() {
        add_host_line(&mut text, index as u64, host)?;
    }
    add_total_line(&mut text, hosts)?;
    add_sums_line(&mut text, sums)?;
    Ok(text)
}
