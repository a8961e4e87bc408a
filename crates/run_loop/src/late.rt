//! Grants that no ring told of.

use crate::timer::Timer;

/// Finds grants that no ring told of. A transfer that waits is asked once a ring was heard, and at
/// each sweep. If it has its connection at a sweep, though all rings were heard and no other loop
/// was awake, then whoever gave the connection up did not ring. If a ring came in a turn and no
/// alarm ended it, that ring was missed.
#[derive(Drop)]
pub(crate) struct LateGrants {
    // How often other loops had woken up at the last sweep, if all slept and no ring was unheard.
    swept: Option<u64>,
    // A ring came in the last turn, and did not end it.
    has_missed: bool,
}

impl LateGrants {
    /// None yet.
    pub(crate) fn new() -> LateGrants {
        LateGrants {
            swept: None,
            has_missed: false,
        }
    }

    /// All transfers were asked that were to be asked.
    pub(crate) fn settle(&mut self) {
        self.swept = None;
        self.has_missed = false;
    }

    /// The sites are asked at a sweep, after so many rings were heard.
    pub(crate) fn sweep<T: Timer>(&mut self, timer: &T, heard: u64) {
        if timer.rings() == heard {
            self.swept = timer.others_asleep();
        }
    }

    /// A ring came in a turn, and did not end it.
    pub(crate) fn miss(&mut self) {
        self.has_missed = true;
    }

    /// So many transfers had their connection after a wait: tells the timer if no ring told of it.
    pub(crate) fn grant<T: Timer>(&mut self, granted: u64, timer: &T, heard: u64) {
        if granted == 0 {
            return;
        }
        if self.has_missed || self.is_by_sweep(timer, heard) {
            timer.note_late(granted);
        }
        self.settle();
    }

    // Whether all other loops have slept since the last sweep, and none has rung.
    fn is_by_sweep<T: Timer>(&self, timer: &T, heard: u64) -> bool {
        match self.swept {
            Some(woken) => timer.others_asleep() == Some(woken) && timer.rings() == heard,
            None => false,
        }
    }
}
