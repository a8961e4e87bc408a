//! What a dial counts.

ghost use Rattle.std.specs.Prelude.{◌≡◌};
ghost use Rattle.streams.specs.RisingCounts.{Rises};
ghost use Rattle.exchange.specs.Dialling.{CountsDial, IfUp, OpensOne};
ghost use Rattle.socket.specs.Pending.{IfNotYet};

use exchange::Dialled;

/// How many connections a dial has opened, how many it could not open, and how many turns failed.
/// Each count stays at the greatest `u64`.
#[derive(Clone, Copy, Debug, PartialEq, Eq)]
pub(crate) struct Counts {
    pub(crate) opened: u64,
    pub(crate) failures: u64,
    pub(crate) turn_failures: u64,
}

impl Counts {
    /// Nothing was counted yet.
    pub(crate) fn new() -> Counts
        ensures { result ≡ record { opened = 0; failures = 0; turn_failures = 0 } }
    {
        Counts {
            opened: 0,
            failures: 0,
            turn_failures: 0,
        }
    }

    /// Counts a connection that is open if there is a wire over it, and a failure if there is none.
    pub(crate) fn note<W: Drop>(&mut self, wire: Option<W>) -> Dialled<W>
        ensures up { IfUp result (λ made. wire ≡ Some made) }
        ensures over { IfNotYet result ⊥ }
        ensures failures { CountsDial result self.old.failures self.new.failures }
        ensures opened { OpensOne result self.old.opened self.new.opened }
        ensures turns { self.new.turn_failures ≡ self.old.turn_failures }
    {
        match wire {
            Some(made) => {
                self.opened = self.opened.saturating_add(1);
                Dialled::Up(made)
            }
            None => {
                self.fail_dial();
                Dialled::Fault
            }
        }
    }

    /// A connection could not be opened.
    pub(crate) fn fail_dial(&mut self)
        ensures rises { Rises self.old.failures self.new.failures }
        ensures others { self.new ≡ record self.old { failures = self.new.failures } }
    {
        self.failures = self.failures.saturating_add(1);
    }

    /// A turn failed.
    pub(crate) fn fail_turn(&mut self)
        ensures rises { Rises self.old.turn_failures self.new.turn_failures }
        ensures others { self.new ≡ record self.old { turn_failures = self.new.turn_failures } }
    {
        self.turn_failures = self.turn_failures.saturating_add(1);
    }
}
