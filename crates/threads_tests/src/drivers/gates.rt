//! Gates that cancel jobs, and moments that one thread brings and another awaits.

ghost use Rattle.std.specs.Prelude.{⊤};

use driver::Gate;
use std::sync::atomic::{AtomicBool, AtomicU64, Ordering};
use std::thread::yield_now;

/// How often a thread turns at most until another one has come so far.
const MOST_TURNS: u32 = 10_000_000;

/// Something that comes to pass once, which another thread may await.
#[derive(Drop)]
pub(crate) struct Moment {
    has_come: AtomicBool,
    was_missed: AtomicBool,
}

impl Moment {
    /// It has not come yet.
    pub(crate) fn new() -> Moment {
        Moment {
            has_come: AtomicBool::new(false),
            was_missed: AtomicBool::new(false),
        }
    }

    /// It has come.
    pub(crate) fn come(&self) {
        self.has_come.store(true, Ordering::SeqCst);
    }

    /// Whether it has come.
    pub(crate) fn has_come(&self) -> bool {
        self.has_come.load(Ordering::SeqCst)
    }

    /// Turns until it has come, 10,000,000 times at most: then it was missed.
    pub(crate) fn wait(&self) {
        for _ in 0..MOST_TURNS {
            if self.has_come() {
                return;
            }
            yield_now();
        }
        self.was_missed.store(true, Ordering::SeqCst);
    }

    /// Whether it has come, and nobody missed it.
    pub(crate) fn came_in_time(&self) -> bool {
        self.has_come() && !self.was_missed.load(Ordering::SeqCst)
    }
}

/// A gate where one job begins only once another one has ended.
#[derive(Drop)]
pub(crate) struct InOrder {
    /// The job that ends first.
    pub(crate) first: u64,
    /// The job that begins then.
    pub(crate) then: u64,
    /// The end of the first.
    pub(crate) end: Moment,
}

impl Gate for InOrder {
    ghost may_stop = { λ gate job. ⊥ };

    fn before(&self, job: u64) {
        if job == self.then {
            self.end.wait();
        }
    }

    fn after(&self, job: u64) {
        if job == self.first {
            self.end.come();
        }
    }

    fn stop(&self, _job: u64) -> bool {
        false
    }
}

/// A gate that cancels each job when it is asked for the nth time whether to, or some times later:
/// how many is drawn for each.
#[derive(Drop)]
pub(crate) struct StopsAt {
    /// Which time that is, counted from one.
    pub(crate) nth: u64,
    /// How many times later it may be: 0, or one less than a power of two.
    pub(crate) later: u64,
    /// How often it was asked, of each job.
    pub(crate) asked: Vec<AtomicU64>,
}

impl Gate for StopsAt {
    ghost may_stop = { λ gate job. ⊤ };

    fn before(&self, _job: u64) {}

    fn after(&self, _job: u64) {}

    fn stop(&self, job: u64) -> bool {
        let Some(asked) = self.asked.get(job as usize) else {
            return true;
        };
        let earlier = asked.fetch_add(1, Ordering::SeqCst);
        let drawn = drawn_of(job) & self.later;
        earlier.saturating_add(1) >= self.nth.saturating_add(drawn)
    }
}

// A number for the job.
fn drawn_of(job: u64) -> u64 {
    let mixed = job.wrapping_mul(6_364_136_223_846_793_005);
    mixed.wrapping_add(1_442_695_040_888_963_407) >> 33
}

/// A gate where job 1 waits for what job 0 holds, and is cancelled: before job 0 gives that up, or
/// after.
#[derive(Drop)]
pub(crate) struct StopsWaiting {
    /// It is cancelled after.
    pub(crate) is_granted: bool,
    /// How often it was asked whether to cancel job 0, and job 1.
    pub(crate) asked: (AtomicU64, AtomicU64),
    /// Job 0 was polled, and holds its connection.
    pub(crate) holds: Moment,
    /// Job 1 was polled, and waits for it.
    pub(crate) waits: Moment,
    /// Job 0 has given it up.
    pub(crate) gave_up: Moment,
    /// Job 1 was cancelled.
    pub(crate) left: Moment,
}

impl StopsWaiting {
    /// None was asked for yet.
    pub(crate) fn new(is_granted: bool) -> StopsWaiting {
        StopsWaiting {
            is_granted,
            asked: (AtomicU64::new(0), AtomicU64::new(0)),
            holds: Moment::new(),
            waits: Moment::new(),
            gave_up: Moment::new(),
            left: Moment::new(),
        }
    }

    // Job 0 was polled where it is asked for the second time, and goes on once job 1 is where it is
    // to be.
    fn hold(&self) {
        if self.asked.0.fetch_add(1, Ordering::SeqCst) != 1 {
            return;
        }
        self.holds.come();
        if self.is_granted {
            self.waits.wait();
        } else {
            self.left.wait();
        }
    }

    // Job 1 was polled where it is asked for the second time: whether to cancel it.
    fn is_to_leave(&self) -> bool {
        if self.asked.1.fetch_add(1, Ordering::SeqCst) == 0 {
            return false;
        }
        self.waits.come();
        if self.is_granted {
            self.gave_up.wait();
        }
        true
    }

    /// Whether all came in time.
    pub(crate) fn came_in_time(&self) -> bool {
        self.holds.came_in_time()
            && self.waits.came_in_time()
            && self.gave_up.came_in_time()
            && self.left.came_in_time()
    }
}

impl Gate for StopsWaiting {
    ghost may_stop = { λ gate job. ⊤ };

    fn before(&self, job: u64) {
        if job == 1 {
            self.holds.wait();
        }
    }

    fn after(&self, job: u64) {
        if job == 0 {
            self.gave_up.come();
        } else {
            self.left.come();
        }
    }

    fn stop(&self, job: u64) -> bool {
        if job == 0 {
            self.hold();
            return false;
        }
        self.is_to_leave()
    }
}
