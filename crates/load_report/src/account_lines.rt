//! The lines of a report: a label, and numbers in eight places.

ghost use Rattle.std.specs.Prelude.{◌≡◌, ◌∷◌, ◌++◌, OnOk, string_bytes};
ghost use Rattle.load_report.specs.Accounts.{host_line, line_text, numbers_of, sums_line};
ghost use Rattle.load_report.specs.Accounts.{total_line};

use crate::account_sums::{JobSums, totals};
use shared_cache::HostCount;
use std::alloc::AllocError;
use std::fmt::Write;

/// Adds the line of the host of that index.
pub(crate) fn add_host_line(
    text: &mut String,
    index: u64,
    host: &HostCount,
) -> Result<(), AllocError>
    ensures { OnOk result (string_bytes text.new
        ≡ string_bytes text.old ++ host_line index host.now) }
{
    add_count_line(text, "host", index, host)
}

/// Adds the line of all hosts.
pub(crate) fn add_total_line(text: &mut String, hosts: &[HostCount]) -> Result<(), AllocError>
    ensures { OnOk result (string_bytes text.new
        ≡ string_bytes text.old ++ total_line hosts.now) }
{
    let total = totals(hosts);
    add_count_line(text, "all ", hosts.len() as u64, &total)
}

/// Adds the line of the transfers.
pub(crate) fn add_sums_line(text: &mut String, sums: JobSums) -> Result<(), AllocError>
    ensures { OnOk result (string_bytes text.new ≡ string_bytes text.old ++ sums_line sums) }
{
    let JobSums {
        jobs,
        failed,
        reused,
        retried,
        bytes,
    } = sums;
    add_line(text, "jobs", &[jobs, failed, reused, retried, bytes])
}

// Adds a line of that label: a number, and what happened.
fn add_count_line(
    text: &mut String,
    label: &str,
    first: u64,
    count: &HostCount,
) -> Result<(), AllocError>
    ensures { OnOk result (string_bytes text.new
        ≡ string_bytes text.old ++ line_text label.now (first ∷ numbers_of count.now)) }
{
    let HostCount {
        opened,
        reused,
        closed,
        waited,
        alive,
    } = *count;
    add_line(text, label, &[first, opened, reused, closed, waited, alive])
}

// Adds a line of that label and these numbers.
fn add_line(text: &mut String, label: &str, numbers: &[u64]) -> Result<(), AllocError>
    ensures { OnOk result (string_bytes text.new
        ≡ string_bytes text.old ++ line_text label.now numbers.now) }
{
    text.push_str(label)?;
    for &number in numbers {
        write!(text, "{number:>8}")?;
    }
    text.push('\n')
}
