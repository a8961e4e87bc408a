//! Whether too many jobs failed.

ghost use Rattle.std.specs.Prelude.{◌↔◌, ◌*◌, ◌<◌, IsTrue};

use crate::report_numbers::LoadReport;

/// Whether more than so many hundredths of a percent of the jobs done failed.
pub fn fails_above(report: &LoadReport, hundredths: u32) -> bool
    ensures { IsTrue result
        ↔ (report.now.jobs.requests * hundredths < report.now.jobs.failed * 10000) }
{
    let failed = report.jobs.failed as u128 * 10_000;
    failed > report.jobs.requests as u128 * hundredths as u128
}
