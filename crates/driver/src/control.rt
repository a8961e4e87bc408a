//! What stops a worker's job, and rings the bell on which it waits.

ghost use Rattle.driver.specs.Quits.{MayStop};

use crate::context::RunContext;
use crate::gate::Gate;
use crate::stopped::Stopped;
use exchange::{Clock, JobControl};
use std::sync::Wait;

/// Stops the job of that number if the gate ends it or another worker has given up. The job waits
/// for a grant on the workers' bell.
#[derive(Drop)]
pub(crate) struct WorkerControl<'a, 's, K: Clock, G: Gate, R: Wait> {
    pub(crate) rt: &'a R,
    pub(crate) shared: &'a RunContext<'s, K, G>,
    pub(crate) number: u64,
}

impl<'a, 's, K: Clock, G: Gate, R: Wait> JobControl for WorkerControl<'a, 's, K, G, R> {
    type Reason = Stopped;

    ghost stops_for = { λ control.
        MayStop (G.may_stop control.shared.now.gate.now control.number) };

    fn begin(&self) {
        self.shared.gate.before(self.number);
    }

    fn stop_before_poll(&self) -> Option<Stopped> {
        if self.shared.gate.stop(self.number) {
            return Some(Stopped::Gate);
        }
        if self.shared.faults.met() {
            return Some(Stopped::Told);
        }
        None
    }

    fn rings(&self) -> u64 {
        self.shared.bell.rings()
    }

    fn wait_for_grant(&self, rings: u64) {
        self.shared.bell.wait(self.rt, rings);
    }

    fn stop_at_last(&self) -> Stopped {
        for _ in self.rt.forever() {}
        unreachable!()
    }
}
