//! What a log hands out as it is cut, and what it still knows.
use crate::checks::check_eq;
use crate::logs::counts::counted;
use crate::logs::entries::{
    Happened, KEEP, Step, add, entries_of, entry_of, get, left, log_of, waited,
};
use conn_log::{
    Cause, Counts, Entry, Log, OpenConnection, Stamp, Want, holder, idle_oldest, open_count,
    waiting_len,
};
use std::alloc::Global;
use std::process::Abort;

/// What is asked of a log at host 3: how many connections are open, how many transfers wait, the
/// oldest connection, who holds connections 1 and 2, the last moment, and the counts.
type Answers = (
    usize,
    usize,
    Option<Stamp>,
    Option<u64>,
    Option<u64>,
    u64,
    Counts,
);

fn answers(log: &Log) -> Answers {
    (
        open_count(log),
        waiting_len(log),
        idle_oldest(log, 3),
        holder(log, 1),
        holder(log, 2),
        log.last_moment(),
        log.counts(),
    )
}

/// The log answers so.
fn check_answers(rt: &impl Abort, log: &Log, expected: &Answers) {
    check_eq(rt, &answers(log), expected);
}

/// Two connections, of which one is leased again; and two transfers that wait, of which one leaves
/// and one is granted what comes back.
static BUSY_HOST: [Step; 12] = [
    (0, Happened::Opened(1, 1)),
    (1, Happened::Opened(2, 2)),
    (2, Happened::Waited(3)),
    (3, Happened::Waited(4)),
    (4, Happened::Left(3)),
    (5, Happened::Returned(1)),
    (5, Happened::Leased(1, 4)),
    (9, Happened::Returned(2)),
    (9, Happened::Limited(2)),
    (11, Happened::Leased(2, 5)),
    (12, Happened::Closed(2, Cause::Dropped)),
    (13, Happened::Opened(3, 6)),
];

#[test]
fn answers_stay_wherever_a_log_is_cut(rt: HostRuntime) {
    let entries = entries_of(rt.alloc(), &BUSY_HOST).expect(&rt, "memory");
    for count in 0..=entries.len() {
        let entries = entries.get(..count).unwrap_or(&[]);
        check_cuts(&rt, rt.alloc(), entries);
    }
}

/// Cuts a log of these entries at each place, and once more at its end.
fn check_cuts(rt: &impl Abort, alloc: Global, entries: &[Entry]) {
    let whole = answers(&log_of(rt, alloc, entries).expect(rt, "memory"));
    for place in 0..=entries.len() {
        let front = entries.get(..place).unwrap_or(&[]);
        let back = entries.get(place..).unwrap_or(&[]);
        check_cut_between(rt, alloc, front, back, &whole);
    }
}

/// Cuts a log between these entries, and once more at its end: each time it answers what the whole
/// log does, and the parts are its entries.
fn check_cut_between(
    rt: &impl Abort,
    alloc: Global,
    front: &[Entry],
    back: &[Entry],
    whole: &Answers,
) {
    let mut log = log_of(rt, alloc, front).expect(rt, "memory");
    let room = log.room();
    check_part(rt, &mut log, front);
    assert!(rt; log.is_empty() && log.room() >= room);
    for entry in back {
        add(rt, &mut log, *entry).expect(rt, "memory");
    }
    check_answers(rt, &log, whole);
    check_part(rt, &mut log, back);
    check_answers(rt, &log, whole);
    check_part(rt, &mut log, &[]);
}

/// Cuts a log, which hands out these entries.
fn check_part(rt: &impl Abort, log: &mut Log, expected: &[Entry]) {
    let part = log.cut().expect(rt, "memory");
    check_eq(rt, part.as_slice(), expected);
}

/// The log of these steps, cut at its end.
fn cut_log(rt: &impl Abort, alloc: Global, steps: &[Step]) -> Log {
    let entries = entries_of(alloc, steps).expect(rt, "memory");
    let mut log = log_of(rt, alloc, &entries).expect(rt, "memory");
    let _ = log.cut().expect(rt, "memory");
    log
}

#[test]
fn a_base_has_the_connections_that_are_left(rt: HostRuntime) {
    let log = cut_log(&rt, rt.alloc(), &BUSY_HOST);
    let connections = log.base().connections();
    let first = OpenConnection {
        lane: 0,
        born: 0,
        since: 5,
        facts: Some(KEEP),
        holder: Some(get(4)),
    };
    let third = OpenConnection {
        born: 13,
        since: 0,
        facts: None,
        holder: Some(get(6)),
        ..first
    };
    check_eq(&rt, connections.get(&1), Some(&first));
    check_eq(&rt, connections.get(&3), Some(&third));
    check_eq(&rt, connections.len(), 2);
}

#[test]
fn a_base_has_the_counts_of_what_was_cut(rt: HostRuntime) {
    let log = cut_log(&rt, rt.alloc(), &BUSY_HOST);
    let base = log.base();
    let numbers = (base.greatest(), base.last_moment(), base.limit());
    check_eq(&rt, numbers, (3, 13, Some(2)));
    check_eq(&rt, base.counts(), counted(3, 2, 1, 2));
    assert!(rt; base.waiting().is_empty());
}

#[test]
fn a_base_has_who_waits_the_last_one_first(rt: HostRuntime) {
    let mut log = cut_log(&rt, rt.alloc(), &BUSY_HOST[..4]);
    check_waiting(&rt, &log, &[get(4), get(3)]);
    add(&rt, &mut log, left(3, 4)).expect(&rt, "memory");
    add(&rt, &mut log, waited(7, 4)).expect(&rt, "memory");
    let _ = log.cut().expect(&rt, "memory");
    check_waiting(&rt, &log, &[get(7), get(4)]);
}

/// These wait, as the log's base has them.
fn check_waiting(rt: &impl Abort, log: &Log, expected: &[Want]) {
    check_eq(rt, log.base().waiting(), expected);
}

/// No host writes such a log: a number is opened once.
static OPENED_TWICE: [Step; 3] = [
    (0, Happened::Opened(1, 1)),
    (1, Happened::Closed(1, Cause::Dropped)),
    (2, Happened::Opened(1, 2)),
];

#[test]
fn a_base_forgets_which_numbers_were_closed(rt: HostRuntime) {
    let mut log = cut_log(&rt, rt.alloc(), &OPENED_TWICE[..2]);
    add(&rt, &mut log, entry_of(&OPENED_TWICE[2])).expect(&rt, "memory");
    check_eq(&rt, open_count(&log), 1);
    let entries = entries_of(rt.alloc(), &OPENED_TWICE).expect(&rt, "memory");
    let whole = log_of(&rt, rt.alloc(), &entries).expect(&rt, "memory");
    check_eq(&rt, open_count(&whole), 0);
}
