//! Reports that were worked out by hand, against which their definition was tried.

ghost use Rattle.load_report.specs.Worked.{GivesPlaces, ReportsNothing, ReportsReuse};
ghost use Rattle.load_report.specs.Worked.{ReportsFailures, ReportsGreatest};

/// The reports of small runs are, by computation, what was worked out by hand: of numbers of up to
/// twenty digits, of no transfer at all, of connections that were used again, of transfers that
/// failed or were sent once more, and of sums past the greatest u64.
pub fn worked_reports()
    ensures places { GivesPlaces }
    ensures nothing { ReportsNothing }
    ensures reuse { ReportsReuse }
    ensures failures { ReportsFailures }
    ensures greatest { ReportsGreatest }
{}
