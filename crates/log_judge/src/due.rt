ghost use Rattle.std.specs.Prelude.{◌≡◌};
ghost use Rattle.conn_log.specs.Legal.{ends_use, ending_cause};
ghost use Rattle.log_judge.specs.Tables.{entry_of};

use conn_log::{Cause, Entry, Event, Want};
use persistence::{Facts, persists};

/// A return that ends its use, while the close that has to follow was not seen.
#[derive(Clone, Copy, Debug)]
pub(crate) struct Due {
    pub moment: u64,
    pub connection: u32,
    pub facts: Facts,
    /// Why the connection has to be closed.
    pub cause: Cause,
}

impl Due {
    /// The return.
    pub(crate) fn entry(&self) -> Entry
        ensures { result ≡ entry_of self.now }
    {
        Entry {
            moment: self.moment,
            event: Event::Returned {
                connection: self.connection,
                facts: self.facts,
            },
        }
    }
}

/// Whether a response with these facts ends the use that a want began.
pub(crate) fn ends_use(facts: &Facts, want: &Want) -> bool
    ensures { result ≡ ends_use facts.now want.now }
{
    !(persists(facts) && !want.forbid_reuse)
}

/// Why its connection is then closed.
pub(crate) fn ending_cause(facts: &Facts, want: &Want) -> Cause
    ensures { result ≡ ending_cause facts.now want.now }
{
    if !facts.whole {
        return Cause::Cut;
    }
    if want.forbid_reuse {
        Cause::Forbidden
    } else {
        Cause::NotPersistent
    }
}
