//! The moments of a transfer: its lease, its open connection, the first bytes of its response.

use crate::state::{Stage, State, Step};
use crate::wire::Clock;

/// The moments of a transfer, in microseconds of its clock; `None` for what has not happened. A
/// later moment is never below an earlier one. If the request is tried once more, they are those of
/// the second try.
#[derive(Clone, Copy, Debug, PartialEq, Eq, Default)]
pub struct Phases {
    /// The transfer got its lease.
    pub leased: Option<u64>,
    /// Its connection was open: the moment of the lease if the connection was used before.
    pub open: Option<u64>,
    /// The first bytes of a response had come.
    pub first_byte: Option<u64>,
}

impl Phases {
    /// The last of the moments, if there is one.
    pub fn last(&self) -> Option<u64> {
        self.first_byte.or(self.open).or(self.leased)
    }

    /// Notes a step from that stage. `has_bytes` is whether bytes of a response have come. Reads
    /// the clock only if the step leads to one of these moments.
    pub(crate) fn note<W, K: Clock>(
        &mut self,
        before: Stage,
        step: &Step<W>,
        has_bytes: bool,
        clock: &K,
    ) {
        let Step::Goes(state) = step else {
            return;
        };
        match (before, state) {
            // the request is tried once more
            (_, State::Asking) => *self = Phases::default(),
            (Stage::Turn | Stage::Grant, State::Dialling(_)) => {
                self.leased = self.moment(clock);
            }
            (Stage::Turn | Stage::Grant, State::Sending(_, _)) => {
                self.leased = self.moment(clock);
                self.open = self.leased;
            }
            (Stage::Dialling, State::Sending(_, _)) => self.open = self.moment(clock),
            (Stage::Reading, _) if has_bytes && self.first_byte.is_none() => {
                self.first_byte = self.moment(clock);
            }
            _ => {}
        }
    }

    // The clock's moment, or the last one noted if the clock fell behind that.
    fn moment<K: Clock>(&self, clock: &K) -> Option<u64> {
        let now = clock.micros();
        Some(self.last().map_or(now, |last| now.max(last)))
    }
}
