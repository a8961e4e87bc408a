//! How the log of a host is cut.

ghost use Rattle.std.specs.Prelude.{◌≡◌, ◌++◌, length, reverse, IfOk, IfErr, OnOk, OnErr};
ghost use Rattle.conn_log.specs.Legal.{IsLegal};
ghost use Rattle.bundle.specs.Lease.{cut_entries, IsPartOf, cut_refusal};

use crate::host::Bundle;
use budget::Refusal;
use conn_log::{Entry, LogFault};

impl<S: Drop> Bundle<S> {
    /// Cuts the host's log: hands out the entries since the last cut, oldest first, so that the
    /// memory that a host takes doesn't grow as long as it serves. What cuts hand out, one after
    /// the other, is the host's whole log; it is legal, so each part is legal behind those before
    /// it. All else stays: who holds what, who waits, what is idle, and all that is promised of the
    /// host's log, since that speaks of all its entries. It costs the entries that are handed out
    /// and the connections and waits that are left.
    ///
    /// Refused with [`Refusal::Exhausted`] if more than 9,223,372,036,854,775,807 entries would be
    /// cut away, else with [`Refusal::Memory`] if memory runs out; then nothing has changed.
    pub fn cut(&mut self) -> Result<Vec<Entry>, Refusal>
        ensures part { IfOk result (λ part. IsPartOf self.old part.items) }
        ensures whole { IfOk result (λ part.
            reverse part.items ++ cut_entries self.old ≡ self.old.log) }
        ensures legal { IfOk result (λ part.
            IsLegal self.old.settings (reverse part.items ++ cut_entries self.old)) }
        ensures all_cut { OnOk result
            (self.new ≡ record self.old { cut_away = length self.old.log }) }
        ensures refusal { IfErr result (λ reason. reason ≡ cut_refusal self.old) }
        ensures err { OnErr result (self.new ≡ self.old) }
    {
        match self.state.cut() {
            Ok(part) => Ok(part),
            Err(LogFault::Exhausted) => Err(Refusal::Exhausted),
            Err(LogFault::Memory) => Err(Refusal::Memory),
        }
    }
}
