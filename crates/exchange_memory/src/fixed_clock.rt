//! A clock that stands still.

use exchange::Clock;

/// A clock that stands still.
#[derive(Clone, Copy, Debug, Drop)]
pub struct FixedClock {
    /// The time that it tells.
    pub now: u64,
}

impl Clock for FixedClock {
    ghost use Rattle.std.specs.Prelude.{◌≡◌};

    ghost tells = { λ clock moment. moment ≡ clock.now };

    fn now(&self) -> u64 {
        self.now
    }

    fn micros(&self) -> u64 {
        self.now.saturating_mul(1_000_000)
    }
}
