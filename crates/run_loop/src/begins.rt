//! The moments at which the jobs at the places of a loop began.

ghost use Rattle.std.specs.Prelude.{◌≡◌, None, Some, false, length, replicate, IfOk};
ghost use Rattle.std.specs.Prelude.{slice_index_or, slice_set};
ghost use Rattle.run_loop.specs.Moments.{AreReadings, IsTimed};

use crate::results::Span;
use crate::timer::Timer;
use exchange::{Phases, Reason};
use std::alloc::{AllocError, Global};

/// For each place, the moment at which the last job there began, in microseconds.
#[derive(Drop)]
pub(crate) struct Begins {
    moments: Vec<Option<u64>>,
}

impl Begins {
    /// Returns the moments of `places` places, at which no job has begun.
    ///
    /// # Errors
    ///
    /// There is no memory for them.
    pub(crate) fn new(alloc: Global, places: usize) -> Result<Begins, AllocError>
        ensures { IfOk result (λ made. made.moments.items ≡ replicate places None) }
    {
        let moments = vec![in alloc; None; places]?;
        Ok(Begins { moments })
    }

    /// Forgets all moments.
    pub(crate) fn forget(&mut self)
        ensures { self.new.moments.items ≡ replicate (length self.old.moments.items) None }
    {
        self.moments.as_mut_slice().fill(None);
    }

    /// Records that a job begins at that place, at `now`.
    pub(crate) fn begin(&mut self, place: usize, now: u64)
        ensures { self.new.moments.items ≡ slice_set self.old.moments.items place (Some now) }
    {
        if let Some(moment) = self.moments.get_mut(place) {
            *moment = Some(now);
        }
    }

    /// Returns the moment at which the last job at that place began.
    pub(crate) fn began(&self, place: usize) -> Option<u64>
        ensures { result ≡ slice_index_or self.now.moments.items place None }
    {
        match self.moments.get(place) {
            Some(moment) => *moment,
            None => None,
        }
    }

    /// Returns the span of the job at that place, which ends now.
    #[tactic(auto, using(crate::proofs::Timed::reading_at))]
    pub(crate) fn span<T: Timer>(
        &self,
        place: usize,
        phases: Phases,
        reason: Option<Reason>,
        retried: bool,
        timer: &T,
    ) -> Span
        requires readings { AreReadings (T.tells_micros timer.now) self.now.moments.items }
        ensures timed { IsTimed (T.tells_micros timer.now) result }
        ensures retried { result.retried ≡ retried }
    {
        let now = timer.moment();
        let began = match self.began(place) {
            Some(began) => began,
            None => now,
        };
        let ended = now.max(began);
        Span {
            began,
            ended,
            phases: within(phases, ended),
            reason,
            retried,
        }
    }
}

// Returns these moments, with `end` in place of each later one.
fn within(phases: Phases, end: u64) -> Phases {
    Phases {
        leased: phases.leased.map(|moment| moment.min(end)),
        open: phases.open.map(|moment| moment.min(end)),
        first_byte: phases.first_byte.map(|moment| moment.min(end)),
    }
}

/// Returns the span of a job that ends now, as it begins.
pub(crate) fn no_span<T: Timer>(timer: &T) -> Span
    ensures timed { IsTimed (T.tells_micros timer.now) result }
    ensures retried { result.retried ≡ false }
{
    let now = timer.moment();
    Span {
        began: now,
        ended: now,
        phases: Phases::default(),
        reason: None,
        retried: false,
    }
}
