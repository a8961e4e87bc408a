//! Plain readers of a log: each scans the base and the rest for its answer, whatever the log. They
//! say what base and rest tell; of a legal log that is what the whole history tells.
//!
//! In a log that is not legal a connection that was opened twice in the rest counts twice; one that
//! was closed in the rest stays closed though it is opened again; and one that is leased after it was
//! closed has a holder though it is not open.

ghost use Rattle.std.specs.Prelude.{◌≡◌, ℕ, ◌+◌, ◌<◌, ◌≤◌, ◌^◌, List, [], ◌∷◌, length, reverse, filter, not};
ghost use Rattle.conn_log.specs.Connections.{open_connections, is_closed, holder as holder_of};
ghost use Rattle.conn_log.specs.Waiting.{waiting};
ghost use Rattle.conn_log.specs.Scan.{is_wait_ended, left_waiting, is_left_waiting, is_left_open};
ghost use Rattle.conn_log.specs.Fit.{oldest_stamp};
ghost use Rattle.conn_log.specs.Legal.{LimitAndFirst, IsLegal};
ghost use Rattle.conn_log.specs.Bases.{summary, past_of, rest_of};
ghost use Rattle.conn_log.specs.Behind.{open_behind, left_open, numbers_in, holder_behind};
ghost use Rattle.conn_log.specs.Behind.{oldest_stamp_behind, oldest_among, since_behind};

use crate::base::Base;
use crate::entry::{Entry, Event};
use crate::log::Log;
use crate::stamp::Stamp;

/// How many connections are open: opened and not closed.
pub fn open_count(log: &Log) -> usize
    ensures behind { let base = summary (past_of log.now) in
        result ≡ length (open_behind base (rest_of log.now)) }
    ensures whole { (settings : LimitAndFirst) → IsLegal settings log.now.entries →
        result ≡ length (open_connections log.now.entries) }
{
    let rest = log.rest();
    let mut count = open_in_base(log.base(), rest);
    for entry in rest {
        if stays_open(entry, rest) {
            count += 1;
        }
    }
    count
}

// How many of the base's connections the rest does not close.
fn open_in_base(base: &Base, rest: &[Entry]) -> usize
    ensures count { result ≡ length (left_open (reverse rest.now) (numbers_in base.now)) }
    ensures few { result < 2 ^ 63 }
{
    let mut count = 0;
    for number in base.connections().keys() {
        if !was_closed(rest, *number) {
            count += 1;
        }
    }
    count
}

/// The stamp of the connection that is idle for the longest, at a host of that index.
pub fn idle_oldest(log: &Log, host: u32) -> Option<Stamp>
    ensures behind { let base = summary (past_of log.now) in
        result ≡ oldest_stamp_behind base (rest_of log.now) host }
    ensures whole { (settings : LimitAndFirst) → IsLegal settings log.now.entries →
        result ≡ oldest_stamp log.now.entries host }
{
    let (base, rest) = (log.base(), log.rest());
    let mut oldest = oldest_in_base(base, rest, host);
    for entry in rest {
        if let Event::Opened { connection, .. } = entry.event {
            oldest = oldest_with(oldest, base, rest, connection, host);
        }
    }
    oldest
}

// The stamp of the one of the base's connections that is idle for the longest after the rest.
fn oldest_in_base(base: &Base, rest: &[Entry], host: u32) -> Option<Stamp>
    ensures { result ≡ oldest_among base.now (reverse rest.now) host (numbers_in base.now) }
{
    let mut oldest = None;
    for number in base.connections().keys() {
        oldest = oldest_with(oldest, base, rest, *number, host);
    }
    oldest
}

// The one idle for the longest of those of which it was found, with one connection more.
fn oldest_with(
    oldest: Option<Stamp>,
    base: &Base,
    rest: &[Entry],
    connection: u32,
    host: u32,
) -> Option<Stamp>
    ensures { (numbers : List ℕ) →
        oldest ≡ oldest_among base.now (reverse rest.now) host numbers →
        result ≡ oldest_among base.now (reverse rest.now) host (connection ∷ numbers) }
{
    if was_closed(rest, connection) || held_by(base, rest, connection).is_some() {
        return oldest;
    }
    let stamp = Stamp {
        since: last_return(base, rest, connection),
        host,
        number: connection,
    };
    match oldest {
        Some(earlier) if earlier.is_earlier(&stamp) => oldest,
        _ => Some(stamp),
    }
}

/// The transfer that holds the connection, if any.
pub fn holder(log: &Log, connection: u32) -> Option<u64>
    ensures behind { let base = summary (past_of log.now) in
        result ≡ holder_behind base (rest_of log.now) connection }
    ensures whole { (settings : LimitAndFirst) → IsLegal settings log.now.entries →
        result ≡ holder_of log.now.entries connection }
{
    held_by(log.base(), log.rest(), connection)
}

/// How many transfers wait: those that neither started nor left since.
pub fn waiting_len(log: &Log) -> usize
    ensures { result ≡ length (waiting log.now.entries) }
{
    let rest = log.rest();
    let mut count = waiting_in_base(log.base(), rest);
    for (place, entry) in rest.iter().enumerate() {
        if still_waits(entry, &rest[place + 1..]) {
            count += 1;
        }
    }
    count
}

// How many of the base's waits the rest does not end.
fn waiting_in_base(base: &Base, rest: &[Entry]) -> usize
    ensures count { result ≡ length (left_waiting rest.now base.now.waiting) }
    ensures few { result < 2 ^ 63 }
{
    let mut count = 0;
    for want in base.waiting() {
        if !ends_wait_of(rest, want.transfer) {
            count += 1;
        }
    }
    count
}

// Whether the entry opens a connection that none of the entries closes.
fn stays_open(entry: &Entry, entries: &[Entry]) -> bool
    ensures { result ≡ is_left_open entry.now.event (reverse entries.now) }
{
    match entry.event {
        Event::Opened { connection, .. } => !was_closed(entries, connection),
        _ => false,
    }
}

// Whether the entries close the connection.
fn was_closed(entries: &[Entry], connection: u32) -> bool
    ensures { result ≡ is_closed (reverse entries.now) connection }
{
    let mut closed = false;
    for entry in entries {
        if let Event::Closed {
            connection: number,
            ..
        } = entry.event
        {
            closed = closed || number == connection;
        }
    }
    closed
}

// Who holds the connection as far as the base tells.
fn holder_in(base: &Base, connection: u32) -> Option<u64>
    ensures { result ≡ holder_behind base.now [] connection }
{
    let want = base.connections().get(&connection)?.holder?;
    Some(want.transfer)
}

// Who holds the connection after the rest.
fn held_by(base: &Base, rest: &[Entry], connection: u32) -> Option<u64>
    ensures { result ≡ holder_behind base.now (reverse rest.now) connection }
{
    let mut holder = holder_in(base, connection);
    for entry in rest {
        match entry.event {
            Event::Opened {
                connection: number,
                want,
            }
            | Event::Leased {
                connection: number,
                want,
            } => {
                if number == connection {
                    holder = Some(want.transfer);
                }
            }
            Event::Returned {
                connection: number,
                ..
            }
            | Event::Closed {
                connection: number,
                ..
            } => {
                if number == connection {
                    holder = None;
                }
            }
            Event::Waited { .. } | Event::Left { .. } | Event::Limit { .. } => {}
        }
    }
    holder
}

// The moment in which the connection last came back, and 0 where it never did.
fn last_return(base: &Base, rest: &[Entry], connection: u32) -> u64
    ensures { result ≡ since_behind base.now (reverse rest.now) connection }
{
    let mut since = match base.connections().get(&connection) {
        Some(known) => known.since,
        None => 0,
    };
    for entry in rest {
        if let Event::Returned {
            connection: number,
            ..
        } = entry.event
        {
            if number == connection {
                since = entry.moment;
            }
        }
    }
    since
}

// Whether the entry begins a wait that none of the later entries ends.
fn still_waits(entry: &Entry, later: &[Entry]) -> bool
    ensures { result ≡ is_left_waiting entry.now.event later.now }
{
    match entry.event {
        Event::Waited { want } => !ends_wait_of(later, want.transfer),
        _ => false,
    }
}

// Whether one of the entries ends the transfer's wait.
fn ends_wait_of(entries: &[Entry], transfer: u64) -> bool
    ensures { result ≡ is_wait_ended entries.now transfer }
{
    let mut ended = false;
    for entry in entries {
        ended = ended
            || match entry.event {
                Event::Opened { want, .. } | Event::Leased { want, .. } => transfer
                    == want.transfer,
                Event::Left { transfer: gone } => transfer == gone,
                _ => false,
            };
    }
    ended
}
