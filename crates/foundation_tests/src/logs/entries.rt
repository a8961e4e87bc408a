//! Entries, and logs that are made of them.
use conn_log::{Cause, Entry, Event, Log, LogFault, Want};
use persistence::{Facts, Framing, Version};
use std::alloc::{AllocError, Global};
use std::process::Abort;

/// What transfers want in the scripts, where nothing else is said.
pub(crate) fn get(transfer: u64) -> Want {
    Want::of(transfer)
}

/// The facts of a response that lets its connection persist.
pub(crate) const KEEP: Facts = Facts {
    version: Version::V11,
    close: false,
    keep_alive: false,
    request_close: false,
    framing: Framing::Counted,
    both_lengths: false,
    upgraded: false,
    whole: true,
    surplus: false,
};

pub(crate) fn opened(connection: u32, transfer: u64, moment: u64) -> Entry {
    let want = get(transfer);
    Entry {
        moment,
        event: Event::Opened { connection, want },
    }
}

pub(crate) fn leased(connection: u32, transfer: u64, moment: u64) -> Entry {
    let want = get(transfer);
    Entry {
        moment,
        event: Event::Leased { connection, want },
    }
}

pub(crate) fn returned(connection: u32, moment: u64) -> Entry {
    Entry {
        moment,
        event: Event::Returned {
            connection,
            facts: KEEP,
        },
    }
}

/// A return after a response with `close`.
pub(crate) fn returned_to_close(connection: u32, moment: u64) -> Entry {
    let facts = Facts {
        close: true,
        ..KEEP
    };
    Entry {
        moment,
        event: Event::Returned { connection, facts },
    }
}

pub(crate) fn closed(connection: u32, cause: Cause, moment: u64) -> Entry {
    Entry {
        moment,
        event: Event::Closed { connection, cause },
    }
}

pub(crate) fn waited(transfer: u64, moment: u64) -> Entry {
    Entry {
        moment,
        event: Event::Waited {
            want: get(transfer),
        },
    }
}

pub(crate) fn left(transfer: u64, moment: u64) -> Entry {
    Entry {
        moment,
        event: Event::Left { transfer },
    }
}

pub(crate) fn limited(limit: u32, moment: u64) -> Entry {
    Entry {
        moment,
        event: Event::Limit { limit },
    }
}

/// What happened, in short: numbers of connections and of transfers.
#[derive(Clone, Copy)]
pub(crate) enum Happened {
    Opened(u32, u64),
    Leased(u32, u64),
    Returned(u32),
    /// After a response with `close`.
    ReturnedToClose(u32),
    Closed(u32, Cause),
    Waited(u64),
    Left(u64),
    Limited(u32),
}

/// A moment, and what happened then.
pub(crate) type Step = (u64, Happened);

/// The entry of a step.
pub(crate) fn entry_of(step: &Step) -> Entry {
    let (moment, happened) = *step;
    match happened {
        Happened::Opened(connection, transfer) => opened(connection, transfer, moment),
        Happened::Leased(connection, transfer) => leased(connection, transfer, moment),
        Happened::Returned(connection) => returned(connection, moment),
        Happened::ReturnedToClose(connection) => returned_to_close(connection, moment),
        Happened::Closed(connection, cause) => closed(connection, cause, moment),
        Happened::Waited(transfer) => waited(transfer, moment),
        Happened::Left(transfer) => left(transfer, moment),
        Happened::Limited(limit) => limited(limit, moment),
    }
}

/// The entries of these steps.
pub(crate) fn entries_of(alloc: Global, steps: &[Step]) -> Result<Vec<Entry>, AllocError> {
    let mut entries = Vec::new(alloc);
    for step in steps {
        entries.push(entry_of(step))?;
    }
    Ok(entries)
}

/// Adds an entry, in room made for it.
pub(crate) fn add(rt: &impl Abort, log: &mut Log, entry: Entry) -> Result<(), LogFault> {
    log.reserve(1)?;
    assert!(rt; log.last_moment() <= entry.moment);
    log.append(entry);
    Ok(())
}

/// A log of these entries.
pub(crate) fn log_of(rt: &impl Abort, alloc: Global, entries: &[Entry]) -> Result<Log, LogFault> {
    let mut log = Log::new(alloc)?;
    for entry in entries {
        add(rt, &mut log, *entry)?;
    }
    Ok(log)
}
