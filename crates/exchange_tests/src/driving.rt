//! What tests of exchanges share: what they prepare, and how they poll.

ghost use Rattle.std.specs.Prelude.{IsSome, None, ◌≡◌, ◌<◌, length};
ghost use Rattle.cache_trait.specs.Homes.{IsMadeBy};
ghost use Rattle.cache.specs.PoolCalls.{home_of};
ghost use Rattle.exchange.specs.Answers.{IsUnused};
ghost use Rattle.exchange.specs.Owning.{Owns, IsReady};

use crate::checks::check_eq;
use budget::Limits;
use bundle::{Acquired, Lease};
use cache::Pool;
use cache_trait::Cache;
use conn_key::{CountedMemory, read_target};
use conn_log::{Cause, Entry, Event, Want};
use exchange::{Answer, Done, Exchange, Job, Prepared, Stage, Transfer};
use exchange_memory::{FakeCache, FixedClock, Halt, MemoryDial, MemoryWire};
use futures::task::{Doorbell, Solo};
use persistence::{Facts, Framing, Method, Version};
use std::alloc::AllocGlobal;
use std::process::Abort;
use std::random::RandomSource;

/// The facts of a counted response that lets its connection persist.
pub(crate) const KEEP: Facts = Facts {
    version: Version::V11,
    close: false,
    keep_alive: false,
    request_close: false,
    framing: Framing::Counted,
    both_lengths: false,
    upgraded: false,
    whole: true,
    surplus: false,
};

/// What a whole response over a new connection answers.
pub(crate) const GOOD: Answer = Answer {
    status: 200,
    body_len: 2,
    facts: KEEP,
    reused: false,
    retried: false,
};

/// A response with a body of two bytes.
pub(crate) const OK: &[u8] = b"HTTP/1.1 200 OK\r\nContent-Length: 2\r\n\r\nok";

/// The moment at which exchanges are polled.
pub(crate) const NOW: u64 = 7;

/// The transfer that had a connection before.
pub(crate) const BEFORE: u64 = 99;

/// The room of a wire for what is sent.
const ROOM: usize = 200;

/// More polls than any exchange here takes.
pub(crate) const MOST_POLLS: u32 = 1_000;

/// What transfer 1 wants if nothing else is said.
pub(crate) const WANT: Want = Want {
    transfer: 1,
    lane: 0,
    max_age: 118,
    max_life: 0,
    fresh: false,
    forbid_reuse: false,
};

/// What a transfer wants if nothing else is said.
pub(crate) fn want_of(transfer: u64) -> Want {
    Want { transfer, ..WANT }
}

/// What a transfer asks of that host.
pub(crate) fn job_at<R: Abort + AllocGlobal>(
    rt: &R,
    site: u32,
    method: Method,
    url: &str,
    want: Want,
) -> Job {
    let mut memory = CountedMemory::new(rt.alloc());
    let target = read_target(&mut memory, url).expect(rt, "a target");
    Job {
        site,
        want,
        method,
        target,
    }
}

/// The same, with the memory for it.
pub(crate) fn prepared_at<R: Abort + AllocGlobal>(
    rt: &R,
    site: u32,
    method: Method,
    url: &str,
    want: Want,
) -> Prepared
    ensures { IsUnused result }
{
    let job = job_at(rt, site, method, url, want);
    Prepared::new(rt.alloc(), &job).expect(rt, "memory")
}

/// A GET by transfer 1 of the first host.
pub(crate) fn prepared<R: Abort + AllocGlobal>(rt: &R) -> Prepared
    ensures { IsUnused result }
{
    prepared_at(rt, 0, Method::Get, "http://example.com/", want_of(1))
}

/// A wire whose peer answers that.
pub(crate) fn wire_of<R: Abort + AllocGlobal>(rt: &R, response: &[u8]) -> MemoryWire {
    MemoryWire::new(rt.alloc(), response, ROOM).expect(rt, "memory")
}

/// A dial that will give that wire.
pub(crate) fn dial_of<R: Abort + AllocGlobal>(rt: &R, wire: MemoryWire) -> MemoryDial {
    let mut dial = MemoryDial::new(rt.alloc());
    dial.add(wire).expect(rt, "memory");
    dial
}

/// A dial that will give one wire, whose peer answers twice. Its first read finds nothing yet, and
/// no read finds more than one response.
pub(crate) fn dial_of_two_answers<R: Abort + AllocGlobal>(rt: &R) -> MemoryDial {
    let responses = b"HTTP/1.1 200 OK\r\nContent-Length: 2\r\n\r\nok\
        HTTP/1.1 200 OK\r\nContent-Length: 2\r\n\r\nok";
    let mut wire = wire_of(rt, responses);
    wire.set_most_read(OK.len());
    wire.halt_read(1, Halt::NotYet);
    dial_of(rt, wire)
}

/// A pool of one host, which may have so many connections.
pub(crate) fn pool_of<R: Abort + AllocGlobal>(rt: &R, most: u32) -> Pool<MemoryWire> {
    let limits = Limits::new(most, 0, 4).expect(rt, "limits");
    Pool::new(rt.alloc(), limits, 1).expect(rt, "memory")
}

/// A cache of one host without connections.
pub(crate) fn cache_of<R: Abort + AllocGlobal>(rt: &R) -> FakeCache<MemoryWire> {
    FakeCache::over(pool_of(rt, 0))
}

/// A lease that the transfer gets at once.
pub(crate) fn lease_of<R: Abort>(
    rt: &R,
    pool: &mut Pool<MemoryWire>,
    transfer: u64,
    now: u64,
) -> Lease<MemoryWire>
    ensures here { IsMadeBy (home_of pool.new) result.site result.tables }
    ensures stays { home_of pool.new ≡ home_of pool.old }
{
    match Cache::acquire(pool, 0, want_of(transfer), now) {
        Ok(Acquired::Lease(lease)) => lease,
        Ok(Acquired::Wait(_ticket)) => panic!(rt; "it has to wait"),
        Err(refusal) => panic!(rt; "{refusal:?}"),
    }
}

/// A lease of a new connection, which has no wire yet.
pub(crate) fn new_lease_of<R: Abort>(
    rt: &R,
    pool: &mut Pool<MemoryWire>,
    transfer: u64,
    now: u64,
) -> Lease<MemoryWire>
    ensures here { IsMadeBy (home_of pool.new) result.site result.tables }
    ensures stays { home_of pool.new ≡ home_of pool.old }
    ensures none { result.stream ≡ None }
{
    let lease = lease_of(rt, pool, transfer, now);
    assert!(rt; !lease.has_stream());
    lease
}

/// A lease of the transfer that was there before, with that wire.
pub(crate) fn lease_with<R: Abort>(
    rt: &R,
    pool: &mut Pool<MemoryWire>,
    wire: MemoryWire,
) -> Lease<MemoryWire>
    ensures here { IsMadeBy (home_of pool.new) result.site result.tables }
    ensures stream { IsSome result.stream }
{
    let mut lease = new_lease_of(rt, pool, BEFORE, 0);
    lease.attach(wire);
    lease
}

/// Gives a lease of that pool back at its first moment.
fn give_back(pool: &mut Pool<MemoryWire>, lease: Lease<MemoryWire>)
    requires here { IsMadeBy (home_of pool.old) lease.site lease.tables }
    requires stream { IsSome lease.stream }
{
    pool.give_back(lease, KEEP, 0);
}

/// Ends a lease of that pool.
pub(crate) fn abandon(pool: &mut Pool<MemoryWire>, lease: Lease<MemoryWire>)
    requires { IsMadeBy (home_of pool.old) lease.site lease.tables }
    ensures { home_of pool.new ≡ home_of pool.old }
{
    if let Err(stray) = Cache::abandon(pool, lease, NOW) {
        stray.scrap();
    }
}

/// A pool of one host, which may have so many connections, with an idle one that has that wire.
pub(crate) fn pool_with_idle<R: Abort + AllocGlobal>(
    rt: &R,
    most: u32,
    wire: MemoryWire,
) -> Pool<MemoryWire> {
    let mut pool = pool_of(rt, most);
    let lease = lease_with(rt, &mut pool, wire);
    give_back(&mut pool, lease);
    pool
}

/// A cache of one host, with an idle connection that has that wire.
pub(crate) fn cache_with_idle<R: Abort + AllocGlobal>(
    rt: &R,
    wire: MemoryWire,
) -> FakeCache<MemoryWire> {
    FakeCache::over(pool_with_idle(rt, 0, wire))
}

/// A cache of one host, which may have so many connections, where another transfer has one with
/// that wire.
pub(crate) fn cache_with_other<R: Abort + AllocGlobal>(
    rt: &R,
    most: u32,
    wire: MemoryWire,
) -> FakeCache<MemoryWire> {
    let mut pool = pool_of(rt, most);
    let lease = lease_with(rt, &mut pool, wire);
    FakeCache::with_other(pool, lease, KEEP, NOW)
}

/// Polls an exchange until it is ready, but at most so often, and closes it: how it ended, how
/// often it was pending, which has to be for that, and what was prepared.
pub(crate) fn run_keeping<R: Abort + AllocGlobal + RandomSource>(
    rt: &R,
    parts: Prepared,
    cache: &mut FakeCache<MemoryWire>,
    dial: &mut MemoryDial,
    stage: Stage,
    most_polls: u32,
) -> (Done, u32, Prepared)
    requires unused { IsUnused parts }
    ensures { 0 < length result.2.buffer.items }
{
    let solo = Solo::new(rt, Doorbell::spinning()).expect(rt, "a task");
    let clock = FixedClock { now: NOW };
    let mut exchange = Exchange::new(parts, cache, dial, &clock);
    let mut pending: u32 = 0;
    for _ in 0..most_polls {
        let mut cx = solo.begin();
        let polled = exchange.poll(&mut cx);
        cx.end(&polled);
        if polled.is_ready() {
            break;
        }
        check_eq(rt, exchange.waits_on(), stage);
        pending = pending.saturating_add(1);
    }
    let (done, parts, _, _) = exchange.close(NOW);
    (done, pending, parts)
}

/// The same, without what was prepared.
pub(crate) fn run<R: Abort + AllocGlobal + RandomSource>(
    rt: &R,
    parts: Prepared,
    cache: &mut FakeCache<MemoryWire>,
    dial: &mut MemoryDial,
    stage: Stage,
) -> (Done, u32)
    requires unused { IsUnused parts }
{
    let (done, pending, _) = run_keeping(rt, parts, cache, dial, stage, MOST_POLLS);
    (done, pending)
}

/// The same, where it is never pending.
pub(crate) fn run_at_once<R: Abort + AllocGlobal + RandomSource>(
    rt: &R,
    parts: Prepared,
    cache: &mut FakeCache<MemoryWire>,
    dial: &mut MemoryDial,
) -> Done
    requires unused { IsUnused parts }
{
    let (done, pending) = run(rt, parts, cache, dial, Stage::Turn);
    check_eq(rt, pending, 0);
    done
}

/// Polls an exchange so often, never or once, and cancels it; what it waited for.
pub(crate) fn cancel_after<R: Abort + AllocGlobal + RandomSource>(
    rt: &R,
    polls: u32,
    cache: &mut FakeCache<MemoryWire>,
    dial: &mut MemoryDial,
) -> Stage {
    let solo = Solo::new(rt, Doorbell::spinning()).expect(rt, "a task");
    let clock = FixedClock { now: NOW };
    let mut exchange = Exchange::new(prepared(rt), cache, dial, &clock);
    for _ in 0..polls {
        let mut cx = solo.begin();
        let polled = exchange.poll(&mut cx);
        cx.end(&polled);
    }
    let waits_on = exchange.waits_on();
    let (_, cache, _) = exchange.cancel(NOW);
    let entries = cache.pool().log(0).expect(rt, "a host").len();
    assert!(rt; polls == 0 || entries > 0, "out of memory");
    waits_on
}

/// Polls a transfer once: whether it was ready, and whether it spent a lease.
pub(crate) fn poll_once(
    solo: &Solo,
    transfer: &mut Transfer<MemoryWire>,
    pool: &mut Pool<MemoryWire>,
    dial: &mut MemoryDial,
) -> (bool, bool)
    requires owns { Owns (home_of pool.old) transfer.old.parts transfer.old.state }
    requires ready { IsReady transfer.old.parts }
    ensures stays { home_of pool.new ≡ home_of pool.old }
    ensures owns { Owns (home_of pool.new) transfer.new.parts transfer.new.state }
    ensures ready { IsReady transfer.new.parts }
{
    let clock = FixedClock { now: NOW };
    let mut cx = solo.begin();
    let polled = transfer.poll(&mut cx, pool, dial, &clock);
    cx.end(&polled);
    (polled.is_ready(), transfer.has_spent())
}

pub(crate) fn opened(connection: u32, want: Want, moment: u64) -> Entry {
    Entry {
        moment,
        event: Event::Opened { connection, want },
    }
}

pub(crate) fn leased(connection: u32, want: Want, moment: u64) -> Entry {
    Entry {
        moment,
        event: Event::Leased { connection, want },
    }
}

pub(crate) fn returned(connection: u32, facts: Facts, moment: u64) -> Entry {
    Entry {
        moment,
        event: Event::Returned { connection, facts },
    }
}

pub(crate) fn closed(connection: u32, cause: Cause, moment: u64) -> Entry {
    Entry {
        moment,
        event: Event::Closed { connection, cause },
    }
}

pub(crate) fn waited(want: Want, moment: u64) -> Entry {
    Entry {
        moment,
        event: Event::Waited { want },
    }
}

pub(crate) fn left(transfer: u64, moment: u64) -> Entry {
    Entry {
        moment,
        event: Event::Left { transfer },
    }
}

/// The first host's log has to have these entries, and no other.
pub(crate) fn check_log<R: Abort>(rt: &R, cache: &FakeCache<MemoryWire>, entries: &[Entry]) {
    check_pool(rt, cache.pool(), entries);
}

/// The same of a pool.
pub(crate) fn check_pool<R: Abort>(rt: &R, pool: &Pool<MemoryWire>, entries: &[Entry]) {
    check_front(rt, pool, entries);
    let log = pool.log(0).expect(rt, "a host");
    assert_eq!(rt; log.len(), entries.len(), "entries");
}

/// The first host's log has to begin so.
pub(crate) fn check_front<R: Abort>(rt: &R, pool: &Pool<MemoryWire>, entries: &[Entry]) {
    let log = pool.log(0).expect(rt, "a host");
    for place in 0..entries.len() {
        assert_eq!(rt; log.get(place), Some(entries[place]), "entry {place}");
    }
}

/// The first host's log has to end so.
pub(crate) fn check_last<R: Abort>(rt: &R, cache: &FakeCache<MemoryWire>, entry: Entry) {
    let log = cache.pool().log(0).expect(rt, "a host");
    assert!(rt; log.len() > 0);
    check_eq(rt, log.get(log.len() - 1), Some(entry));
}

/// No lease and no ticket is out; what is left is the pool.
pub(crate) fn close<R: Abort>(rt: &R, cache: FakeCache<MemoryWire>) -> Pool<MemoryWire> {
    let out = (cache.leases(), cache.tickets());
    let pool = cache.close();
    check_eq(rt, out, (0, 0));
    pool
}
