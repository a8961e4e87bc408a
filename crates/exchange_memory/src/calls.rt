//! Calls, at one of which something else happens.

ghost use Rattle.std.specs.Prelude.{◌≡◌, ℕ, IfSome};

/// What happens at a call in place of what it would do.
#[derive(Clone, Copy, Debug, PartialEq, Eq)]
pub enum Halt {
    /// Nothing can be done yet.
    NotYet,
    /// The peer has ended the connection. Only reads tell so: other calls fail.
    End,
    /// The call fails.
    Fault,
}

/// No call has this number: they are counted from one.
pub(crate) const NEVER: u64 = 0;

/// Calls, at one of which something else happens.
#[derive(Drop)]
pub(crate) struct Calls<T> {
    count: u64,
    halts_at: u64,
    halt: T,
}

impl<T: Copy> Calls<T> {
    ghost use Rattle.exchange_memory.specs.Halts.{HaltsWith};

    // Calls at which nothing else happens, but for that at the nth, counted from one.
    pub(crate) fn with_halt(nth: u64, halt: T) -> Calls<T>
        ensures { result ≡ record { count = 0; halts_at = nth; halt = halt } }
    {
        Calls {
            count: 0,
            halts_at: nth,
            halt,
        }
    }

    // Counts a call; what happens in its place.
    pub(crate) fn next(&mut self) -> Option<T>
        ensures counts { (count : ℕ) × (self.new ≡ record self.old { count = count }) }
        ensures halts { IfSome result (HaltsWith self.new) }
    {
        self.count = self.count.saturating_add(1);
        if self.count == self.halts_at {
            Some(self.halt)
        } else {
            None
        }
    }
}
