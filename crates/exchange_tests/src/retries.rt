//! A request that is tried once more while another transfer waits for the host's only connection.

ghost use Rattle.std.specs.Prelude.{◌≡◌};
ghost use Rattle.cache.specs.PoolCalls.{home_of};
ghost use Rattle.exchange.specs.Owning.{Owns, IsReady};

use crate::checks::check_eq;
use crate::driving::{
    BEFORE, GOOD, KEEP, NOW, OK, WANT, check_pool, closed, dial_of, leased, left, opened,
    poll_once, pool_with_idle, prepared, prepared_at, returned, waited, want_of, wire_of,
};
use cache::Pool;
use conn_log::{Cause, Entry, Want};
use exchange::{Answer, Done, Fault, Stage, Transfer};
use exchange_memory::{Halt, MemoryDial, MemoryWire};
use futures::task::{Doorbell, Solo};
use persistence::Method;
use std::alloc::AllocGlobal;
use std::process::Abort;
use std::random::RandomSource;

/// What transfer 1 wants once its request is tried once more.
const FRESH: Want = Want {
    fresh: true,
    ..WANT
};

// Polls both transfers, the second one first, if they go on.
fn go_on(
    goes_on: bool,
    solo: &Solo,
    first: &mut Transfer<MemoryWire>,
    second: &mut Transfer<MemoryWire>,
    pool: &mut Pool<MemoryWire>,
    dial: &mut MemoryDial,
)
    requires owns { Owns (home_of pool.old) first.old.parts first.old.state }
    requires ready { IsReady first.old.parts }
    requires second { Owns (home_of pool.old) second.old.parts second.old.state }
    requires second_ready { IsReady second.old.parts }
    ensures owns { Owns (home_of pool.new) first.new.parts first.new.state }
    ensures second { Owns (home_of pool.new) second.new.parts second.new.state }
    ensures second_ready { IsReady second.new.parts }
{
    if !goes_on {
        return;
    }
    let _ended = poll_once(solo, second, pool, dial);
    let _granted = poll_once(solo, first, pool, dial);
}

// The first transfer's reused connection ends while the second one waits, which is granted a new
// one; the first one waits with a want of a new one. It goes on, or is cancelled there. How both
// end, whether the first one's request was tried once more, and the pool.
fn ended<R: Abort + AllocGlobal + RandomSource>(
    rt: &R,
    goes_on: bool,
) -> ([Done; 2], bool, Pool<MemoryWire>) {
    let mut wire = wire_of(rt, &[]);
    wire.halt_read(1, Halt::NotYet);
    let mut pool = pool_with_idle(rt, 1, wire);
    let mut dial = dial_of(rt, wire_of(rt, OK));
    dial.add(wire_of(rt, OK)).expect(rt, "memory");
    let solo = Solo::new(rt, Doorbell::spinning()).expect(rt, "a task");
    let other = prepared_at(rt, 0, Method::Get, "http://example.com/b", want_of(2));
    let mut first = Transfer::new(prepared(rt));
    let mut second = Transfer::new(other);
    let reading = poll_once(&solo, &mut first, &mut pool, &mut dial);
    let waiting = poll_once(&solo, &mut second, &mut pool, &mut dial);
    let again = poll_once(&solo, &mut first, &mut pool, &mut dial);
    let stage = first.waits_on();
    go_on(
        goes_on,
        &solo,
        &mut first,
        &mut second,
        &mut pool,
        &mut dial,
    );
    let (one, parts) = first.close(NOW, &mut pool, &mut dial);
    let _over = poll_once(&solo, &mut second, &mut pool, &mut dial);
    let (two, _) = second.close(NOW, &mut pool, &mut dial);
    // whether each poll was ready, and spent a lease
    check_eq(
        rt,
        (reading, waiting, again),
        ((false, false), (false, false), (false, true)),
    );
    check_eq(rt, stage, Stage::Grant);
    ([one, two], parts.retried(), pool)
}

#[test]
fn a_retry_waits(rt: HostRuntime) {
    let begun = [
        opened(1, want_of(BEFORE), 0),
        returned(1, KEEP, 0),
        leased(1, WANT, NOW),
        waited(want_of(2), NOW),
        closed(1, Cause::Dropped, NOW),
        opened(2, want_of(2), NOW),
        waited(FRESH, NOW),
    ];
    let retried = Answer {
        retried: true,
        ..GOOD
    };
    let granted: [Entry; 4] = [
        returned(2, KEEP, NOW),
        closed(2, Cause::HostRoom, NOW),
        opened(3, FRESH, NOW),
        returned(3, KEEP, NOW),
    ];
    let cancelled: [Entry; 2] = [left(1, NOW), returned(2, KEEP, NOW)];
    let rows: [(bool, Done, &[Entry]); 2] = [
        (true, Done::Good(retried), &granted),
        (false, Done::Bad(Fault::Cancelled), &cancelled),
    ];
    for &(goes_on, done, log) in &rows {
        let (dones, is_retried, pool) = ended(&rt, goes_on);
        assert_eq!(rt; dones, [done, Done::Good(GOOD)], "goes on: {goes_on}");
        assert!(rt; is_retried);
        let mut entries = begun.to_vec(rt.alloc()).expect(&rt, "memory");
        entries.extend_from_slice(log).expect(&rt, "memory");
        check_pool(&rt, &pool, entries.as_slice());
    }
}
