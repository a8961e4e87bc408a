//! Counts of requests, shared by all threads.

use exchange::{Answer, Done, Fault};
use std::io::Write;
use std::sync::atomic::{AtomicU64, Ordering};

/// A count that all threads add to.
#[derive(Drop)]
pub(crate) struct Count {
    count: AtomicU64,
}

impl Count {
    fn new() -> Count {
        Count {
            count: AtomicU64::new(0),
        }
    }

    /// Adds to it.
    pub(crate) fn add(&self, more: u64) {
        self.count.fetch_add(more, Ordering::SeqCst);
    }

    fn get(&self) -> u64 {
        self.count.load(Ordering::SeqCst)
    }
}

/// Number of requests by fault.
#[derive(Drop)]
struct Faults {
    memory: Count,
    dial: Count,
    read: Count,
    write: Count,
    bad: Count,
    cut: Count,
    refused: Count,
    cancelled: Count,
}

/// Counts of the requests so far.
#[derive(Drop)]
pub(crate) struct Counts {
    answered: Count,
    reused: Count,
    retried: Count,
    /// Number of responses with another status or length than their requests'.
    wrong: Count,
    faults: Faults,
    /// Number of cuts of logs.
    pub(crate) cuts: Count,
    /// Number of entries cut off.
    pub(crate) entries: Count,
    /// Number of refused cuts.
    pub(crate) uncut: Count,
}

impl Faults {
    fn new() -> Faults {
        Faults {
            memory: Count::new(),
            dial: Count::new(),
            read: Count::new(),
            write: Count::new(),
            bad: Count::new(),
            cut: Count::new(),
            refused: Count::new(),
            cancelled: Count::new(),
        }
    }

    // Returns the count of that fault.
    fn of(&self, fault: Fault) -> &Count {
        match fault {
            Fault::Memory => &self.memory,
            Fault::Dial => &self.dial,
            Fault::Read => &self.read,
            Fault::Write => &self.write,
            Fault::BadResponse => &self.bad,
            Fault::Cut => &self.cut,
            Fault::Refused(_) => &self.refused,
            Fault::Cancelled => &self.cancelled,
        }
    }
}

impl Counts {
    /// Returns the counts of no request.
    pub(crate) fn new() -> Counts {
        Counts {
            answered: Count::new(),
            reused: Count::new(),
            retried: Count::new(),
            wrong: Count::new(),
            faults: Faults::new(),
            cuts: Count::new(),
            entries: Count::new(),
            uncut: Count::new(),
        }
    }

    /// Counts the result of a request whose response has to have a body of `bytes` bytes.
    pub(crate) fn note(&self, done: Done, bytes: u64) {
        match done {
            Done::Good(answer) => self.note_answer(answer, bytes),
            Done::Bad(fault) => self.faults.of(fault).add(1),
        }
    }

    // Counts a response whose body has to have `bytes` bytes.
    fn note_answer(&self, answer: Answer, bytes: u64) {
        self.answered.add(1);
        self.reused.add(answer.reused as u64);
        self.retried.add(answer.retried as u64);
        if answer.status != 200 || answer.body_len != bytes {
            self.wrong.add(1);
        }
    }

    /// Prints the counts after that number of minutes. `None` if printing failed.
    pub(crate) fn print(&self, rt: &HostRuntime, minute: u64) -> Option<()> {
        let (answered, reused) = (self.answered.get(), self.reused.get());
        let (retried, wrong) = (self.retried.get(), self.wrong.get());
        let (cuts, entries, uncut) = (self.cuts.get(), self.entries.get(), self.uncut.get());
        print!(rt;
            "minute {minute} answered {answered} reused {reused} retried {retried} wrong {wrong} \
                cuts {cuts} entries {entries} uncut {uncut}"
        )
        .ok()?;
        self.faults.print(rt)
    }
}

impl Faults {
    // Prints the rest of that line. `None` if printing failed.
    fn print(&self, rt: &HostRuntime) -> Option<()> {
        let (memory, dial) = (self.memory.get(), self.dial.get());
        let (read, write) = (self.read.get(), self.write.get());
        let (bad, cut) = (self.bad.get(), self.cut.get());
        let (refused, cancelled) = (self.refused.get(), self.cancelled.get());
        println!(rt;
            " Memory {memory} Dial {dial} Read {read} Write {write} BadResponse {bad} Cut {cut} \
                Refused {refused} Cancelled {cancelled}"
        )
        .ok()
    }
}
