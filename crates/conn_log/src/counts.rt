ghost use Rattle.std.specs.Prelude.{◌≡◌, length, reverse};
ghost use Rattle.conn_log.specs.Counts.{counts as counts_of, both_counts, CountsWithin, SumsFit};

use crate::entry::{Entry, Event};

/// What happened at one host, counted by kind.
#[derive(Clone, Copy, Debug, PartialEq, Eq)]
pub struct Counts {
    /// How many connections were opened.
    pub opened: u64,
    /// How many times an idle connection was leased.
    pub reused: u64,
    /// How many connections were closed, for whatever cause.
    pub closed: u64,
    /// How many times a transfer began to wait.
    pub waited: u64,
}

impl Counts {
    /// What happened in these entries, oldest first, counted by one scan. It takes no memory.
    pub fn of(entries: &[Entry]) -> Counts
        ensures counts { result ≡ counts_of (reverse entries.now) }
        ensures within { CountsWithin (length entries.now) result }
    {
        let mut counts = Counts {
            opened: 0,
            reused: 0,
            closed: 0,
            waited: 0,
        };
        for entry in entries {
            match entry.event {
                Event::Opened { .. } => counts.opened += 1,
                Event::Leased { .. } => counts.reused += 1,
                Event::Closed { .. } => counts.closed += 1,
                Event::Waited { .. } => counts.waited += 1,
                Event::Returned { .. } | Event::Left { .. } | Event::Limit { .. } => {}
            }
        }
        counts
    }

    /// What happened in both parts of a log.
    pub(crate) fn with(&self, others: &Counts) -> Counts
        requires { SumsFit self.now others.now }
        ensures { result ≡ both_counts self.now others.now }
    {
        Counts {
            opened: self.opened + others.opened,
            reused: self.reused + others.reused,
            closed: self.closed + others.closed,
            waited: self.waited + others.waited,
        }
    }
}
