//! Logs, and the monitor that judges them, out of memory. Each of these tests passes whichever
//! allocation fails.

use crate::checks::check_eq;
use conn_log::{
    Cause, Counts, Entry, Event, Log, LogFault, Stamp, Want, holder, idle_oldest, open_count,
    waiting_len,
};
use log_judge::HostMonitor;
use persistence::{Facts, Framing, Version};
use std::alloc::{AllocError, Global};
use std::process::Abort;

/// A response that lets its connection persist.
const KEEP: Facts = Facts {
    version: Version::V11,
    close: false,
    keep_alive: false,
    request_close: false,
    framing: Framing::Counted,
    both_lengths: false,
    upgraded: false,
    whole: true,
    surplus: false,
};

/// What happened, in short: numbers of connections and of transfers.
#[derive(Clone, Copy)]
enum Happened {
    Opened(u32, u64),
    Leased(u32, u64),
    Returned(u32),
    Closed(u32, Cause),
    Waited(u64),
    Left(u64),
    Limited(u32),
}

/// A moment, and what happened then.
type Step = (u64, Happened);

// Any connection of lane 0 will do for that transfer.
fn want_of(transfer: u64) -> Want {
    Want::of(transfer)
}

fn entry_of(step: &Step) -> Entry {
    let (moment, happened) = *step;
    let event = match happened {
        Happened::Opened(connection, transfer) => Event::Opened {
            connection,
            want: want_of(transfer),
        },
        Happened::Leased(connection, transfer) => Event::Leased {
            connection,
            want: want_of(transfer),
        },
        Happened::Returned(connection) => Event::Returned {
            connection,
            facts: KEEP,
        },
        Happened::Closed(connection, cause) => Event::Closed { connection, cause },
        Happened::Waited(transfer) => Event::Waited {
            want: want_of(transfer),
        },
        Happened::Left(transfer) => Event::Left { transfer },
        Happened::Limited(limit) => Event::Limit { limit },
    };
    Entry { moment, event }
}

// Adds an entry, in room made for it.
fn add(rt: &impl Abort, log: &mut Log, entry: Entry) -> Result<(), LogFault> {
    log.reserve(1)?;
    assert!(rt; log.last_moment() <= entry.moment);
    log.append(entry);
    Ok(())
}

#[test]
fn want_of_memory_leaves_the_log(rt: HostRuntime) {
    let Ok(mut log) = Log::new(rt.alloc()) else {
        return;
    };
    let opened = entry_of(&(7, Happened::Opened(1, 1)));
    check_eq(&rt, add(&rt, &mut log, opened), Ok(()));
    let room = log.room();
    match log.reserve(100) {
        Ok(()) => assert!(rt; log.room() >= 100),
        Err(fault) => check_eq(&rt, (fault, log.room()), (LogFault::Memory, room)),
    }
    check_eq(&rt, log.since(0), [opened].as_slice());
}

/// Two connections, of which one is leased again; and two transfers that wait, of which one leaves
/// and one is granted what comes back.
static BUSY_HOST: [Step; 12] = [
    (0, Happened::Opened(1, 1)),
    (1, Happened::Opened(2, 2)),
    (2, Happened::Waited(3)),
    (3, Happened::Waited(4)),
    (4, Happened::Left(3)),
    (5, Happened::Returned(1)),
    (5, Happened::Leased(1, 4)),
    (9, Happened::Returned(2)),
    (9, Happened::Limited(2)),
    (11, Happened::Leased(2, 5)),
    (12, Happened::Closed(2, Cause::Dropped)),
    (13, Happened::Opened(3, 6)),
];

// The entries of these steps.
fn entries_of(alloc: Global, steps: &[Step]) -> Result<Vec<Entry>, AllocError> {
    let mut entries = Vec::new(alloc);
    for step in steps {
        entries.push(entry_of(step))?;
    }
    Ok(entries)
}

// A log of these entries.
fn log_of(rt: &impl Abort, alloc: Global, entries: &[Entry]) -> Result<Log, LogFault> {
    let mut log = Log::new(alloc)?;
    for entry in entries {
        add(rt, &mut log, *entry)?;
    }
    Ok(log)
}

/// What a log at host 3 answers: how many connections are open, how many transfers wait, the oldest
/// connection, the holders of connections 1 and 2, the last moment, and the counts.
type Answers = (
    usize,
    usize,
    Option<Stamp>,
    Option<u64>,
    Option<u64>,
    u64,
    Counts,
);

fn answers(log: &Log) -> Answers {
    (
        open_count(log),
        waiting_len(log),
        idle_oldest(log, 3),
        holder(log, 1),
        holder(log, 2),
        log.last_moment(),
        log.counts(),
    )
}

#[test]
fn want_of_memory_leaves_a_log_uncut(rt: HostRuntime) {
    let Ok(entries) = entries_of(rt.alloc(), &BUSY_HOST) else {
        return;
    };
    let Ok(mut log) = log_of(&rt, rt.alloc(), &entries) else {
        return;
    };
    let (before, room) = (answers(&log), log.room());
    let part = match log.cut() {
        Ok(part) => part,
        Err(fault) => {
            check_eq(
                &rt,
                (fault, log.len(), log.room()),
                (LogFault::Memory, entries.len(), room),
            );
            check_eq(&rt, answers(&log), before);
            log.cut().expect(&rt, "memory")
        }
    };
    check_eq(&rt, part.as_slice(), entries.as_slice());
    check_eq(&rt, answers(&log), before);
}

/// A waiter that is granted what comes back.
static GRANTED: [Step; 4] = [
    (0, Happened::Opened(1, 1)),
    (0, Happened::Waited(2)),
    (1, Happened::Returned(1)),
    (1, Happened::Leased(1, 2)),
];

// How many connections are open and idle, the limit, and the first waiter.
fn seen(host: &HostMonitor) -> (u64, u64, u32, Option<Want>) {
    (
        host.open_len(),
        host.idle_len(),
        host.limit(),
        host.first_waiter(),
    )
}

#[test]
fn want_of_memory_leaves_a_host(rt: HostRuntime) {
    let Ok(mut host) = HostMonitor::new(rt.alloc(), 1) else {
        return;
    };
    for happened in &GRANTED {
        let entry = entry_of(happened);
        let before = seen(&host);
        if host.step(entry).is_err() {
            check_eq(
                &rt,
                (seen(&host), host.first_broken(&entry)),
                (before, None),
            );
            return;
        }
    }
    check_eq(&rt, seen(&host), (1, 0, 1, None));
}
