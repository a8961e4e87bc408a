//! What a cancel does, by where its exchange stands.

use crate::checks::check_eq;
use crate::driving::{
    BEFORE, KEEP, NOW, OK, cache_of, cache_with_other, cancel_after, check_log, close, closed,
    dial_of, leased, left, opened, prepared, returned, run_keeping, waited, want_of, wire_of,
};
use conn_log::Cause;
use exchange::{Done, Fault, Stage};
use exchange_memory::{Halt, MemoryDial};

#[test]
fn a_cancel_abandons_a_lease(rt: HostRuntime) {
    for &stage in &[Stage::Dialling, Stage::Sending, Stage::Reading, Stage::Turn] {
        let mut wire = wire_of(&rt, OK);
        match stage {
            Stage::Sending => wire.halt_write(1, Halt::NotYet),
            Stage::Reading => wire.halt_read(1, Halt::NotYet),
            _ => {
                wire.set_most_written(1);
                wire.set_most_read(1);
            }
        }
        let mut dial = dial_of(&rt, wire);
        if stage == Stage::Dialling {
            dial.halt_dial(1, Halt::NotYet);
        }
        let mut cache = cache_of(&rt);
        let waits_on = cancel_after(&rt, 1, &mut cache, &mut dial);
        check_eq(&rt, waits_on, stage);
        // its dial gives up what it has begun
        let given_up = if stage == Stage::Dialling {
            Some(1)
        } else {
            None
        };
        check_eq(&rt, dial.last_given_up(), given_up);
        check_log(
            &rt,
            &cache,
            &[opened(1, want_of(1), NOW), closed(1, Cause::Dropped, NOW)],
        );
        let _ = close(&rt, cache);
    }
}

#[test]
fn a_cancel_changes_nothing_where_nothing_is_out(rt: HostRuntime) {
    let mut dial = dial_of(&rt, wire_of(&rt, OK));
    let mut cache = cache_of(&rt);
    let _ = cancel_after(&rt, 0, &mut cache, &mut dial);
    check_log(&rt, &cache, &[]);
    check_eq(&rt, dial.left(), 1);
    let _ = close(&rt, cache);
    // and where the first poll was ready
    let mut cache = cache_of(&rt);
    let _ = cancel_after(&rt, 1, &mut cache, &mut dial);
    check_eq(&rt, dial.last_given_up(), None);
    check_log(
        &rt,
        &cache,
        &[opened(1, want_of(1), NOW), returned(1, KEEP, NOW)],
    );
    let _ = close(&rt, cache);
}

#[test]
fn a_cancel_ends_a_wait(rt: HostRuntime) {
    let mut dial = MemoryDial::new(rt.alloc());
    let mut cache = cache_with_other(&rt, 1, wire_of(&rt, OK));
    let waits_on = cancel_after(&rt, 1, &mut cache, &mut dial);
    check_eq(&rt, waits_on, Stage::Grant);
    check_eq(&rt, dial.last_given_up(), None);
    check_log(
        &rt,
        &cache,
        &[
            opened(1, want_of(BEFORE), 0),
            waited(want_of(1), NOW),
            left(1, NOW),
        ],
    );
    let _ = close(&rt, cache);
}

#[test]
fn a_cancel_closes_what_was_granted(rt: HostRuntime) {
    let mut dial = MemoryDial::new(rt.alloc());
    let mut cache = cache_with_other(&rt, 1, wire_of(&rt, OK));
    cache.release_after(1);
    let waits_on = cancel_after(&rt, 1, &mut cache, &mut dial);
    check_eq(&rt, waits_on, Stage::Grant);
    check_log(
        &rt,
        &cache,
        &[
            opened(1, want_of(BEFORE), 0),
            waited(want_of(1), NOW),
            returned(1, KEEP, NOW),
            leased(1, want_of(1), NOW),
            closed(1, Cause::Withdrawn, NOW),
        ],
    );
    let _ = close(&rt, cache);
}

#[test]
fn a_close_before_the_first_poll_cancels(rt: HostRuntime) {
    let mut dial = dial_of(&rt, wire_of(&rt, OK));
    let mut cache = cache_of(&rt);
    let parts = prepared(&rt);
    let (done, _, _) = run_keeping(&rt, parts, &mut cache, &mut dial, Stage::Turn, 0);
    check_eq(&rt, done, Done::Bad(Fault::Cancelled));
    check_eq(&rt, dial.left(), 1);
    check_log(&rt, &cache, &[]);
    let _ = close(&rt, cache);
}
