//! The clock of a load over the system's sockets.

ghost use Rattle.std.specs.Prelude.{⊤};

use exchange::Clock;
use run_loop::MicroClock;
use socket::SystemClock;

/// The system's clock, which starts with the load. No contract restricts its readings.
#[derive(Drop)]
pub(crate) struct LoadClock<'a>(pub(crate) SystemClock<'a, HostRuntime>);

impl Clock for LoadClock<'_> {
    ghost tells = { λ clock moment. ⊤ };

    fn now(&self) -> u64 {
        self.0.now()
    }

    fn micros(&self) -> u64 {
        self.0.micros()
    }
}

impl MicroClock for LoadClock<'_> {
    ghost tells_micros = { λ clock moment. ⊤ };

    fn moment(&self) -> u64 {
        self.0.micros()
    }
}
