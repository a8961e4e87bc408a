//! Transfers that are out of memory. The tests pass whichever allocation fails, and if all fail
//! from one on.

ghost use Rattle.std.specs.Prelude.{IfSome, ◌≡◌};
ghost use Rattle.cache.specs.PoolCalls.{home_of};
ghost use Rattle.exchange.specs.Answers.{IsUnused};
ghost use Rattle.transfer_slab.specs.Slabs.{AreKept};
ghost use Rattle.exchange.specs.Worlds.{world_of as known_of};
ghost use Rattle.exchange_memory.specs.Memory.{IsUntouched, HappenedTo};

use crate::checks::check_eq;
use crate::pool_desk::KEEP;
use budget::{Limits, Refusal};
use bundle::Acquired;
use cache::Pool;
use cache_trait::Cache;
use conn_key::{CountedMemory, read_target};
use conn_log::Want;
use exchange::{Answer, Done, Exchange, Fault, Job, JobControl, JobRunner, Prepared};
use exchange_memory::{FakeCache, FixedClock, Halt, MemoryDial, MemoryWire};
use futures::task::{Doorbell, Solo};
use persistence::Method;
use std::alloc::{AllocGlobal, Global};
use std::process::Abort;
use std::random::RandomSource;
use std::test::Fail;
use transfer_slab::Slab;

const RESPONSE: &[u8] = b"HTTP/1.1 200 OK\r\nContent-Length: 2\r\n\r\nok";

/// No read is counted so, since they are counted from one.
const NEVER: u64 = 0;

const WANT: Want = Want {
    transfer: 1,
    lane: 0,
    max_age: 118,
    max_life: 0,
    fresh: false,
    forbid_reuse: false,
};

// A job for that URL, if there is memory for it.
fn job_of(alloc: Global, url: &str) -> Option<Job> {
    let mut memory = CountedMemory::new(alloc);
    let target = read_target(&mut memory, url).ok()?;
    Some(Job {
        site: 0,
        want: WANT,
        method: Method::Get,
        target,
    })
}

// The same, prepared.
fn prepared_for(alloc: Global, url: &str) -> Option<Prepared>
    ensures { IfSome result IsUnused }
{
    let job = job_of(alloc, url)?;
    Prepared::new(alloc, &job).ok()
}

// A dial of one wire with that response, which has nothing yet at the nth read.
fn dial_to(alloc: Global, response: &[u8], nth: u64) -> Option<MemoryDial> {
    let mut wire = MemoryWire::new(alloc, response, 200).ok()?;
    wire.halt_read(nth, Halt::NotYet);
    let mut dial = MemoryDial::new(alloc);
    dial.add(wire).ok()?;
    Some(dial)
}

// A pool of one host.
fn pool_at(alloc: Global) -> Option<Pool<MemoryWire>> {
    let limits = Limits::new(6, 20, 4).ok()?;
    Pool::new(alloc, limits, 1).ok()
}

// A pool of one host, with an idle connection that its peer has ended.
fn pool_with_ended<R: Abort + AllocGlobal>(rt: &R) -> Option<Pool<MemoryWire>> {
    let mut pool = pool_at(rt.alloc())?;
    let wire = MemoryWire::new(rt.alloc(), &[], 200).ok()?;
    let want = Want {
        transfer: 99,
        ..WANT
    };
    match Cache::acquire(&mut pool, 0, want, 0) {
        Ok(Acquired::Lease(lease)) => {
            let mut lease = lease;
            assert!(rt; !lease.has_stream());
            lease.attach(wire);
            pool.give_back(lease, KEEP, 0);
            Some(pool)
        }
        Ok(Acquired::Wait(_ticket)) => panic!(rt; "it has to wait"),
        Err(refusal) => {
            check_eq(rt, refusal, Refusal::Memory);
            None
        }
    }
}

// All that an exchange over that pool takes, if there is memory for it: its peer does not answer
// yet at the nth read.
fn world_of<R: Abort + AllocGlobal + RandomSource>(
    rt: &R,
    pool: Option<Pool<MemoryWire>>,
    nth: u64,
) -> Option<(Prepared, MemoryDial, Solo, Pool<MemoryWire>)>
    ensures { IfSome result (λ world. IsUnused world.0) }
{
    let pool = pool?;
    let parts = prepared_for(rt.alloc(), "http://example.com/")?;
    let dial = dial_to(rt.alloc(), RESPONSE, nth)?;
    let solo = Solo::new(rt, Doorbell::spinning()).ok()?;
    Some((parts, dial, solo, pool))
}

// How the exchange ends, which is closed after one poll. No lease and no ticket may be out then.
fn ended_over<R: Abort>(rt: &R, world: (Prepared, MemoryDial, Solo, Pool<MemoryWire>)) -> Done
    requires unused { IsUnused world.0 }
{
    let (parts, mut dial, solo, pool) = world;
    let mut cache = FakeCache::over(pool);
    let clock = FixedClock { now: 7 };
    let mut exchange = Exchange::new(parts, &mut cache, &mut dial, &clock);
    let mut context = solo.begin();
    let polled = exchange.poll(&mut context);
    context.end(&polled);
    let (done, _, _, _) = exchange.close(7);
    let out = (cache.leases(), cache.tickets());
    let _ = cache.close();
    check_eq(rt, out, (0, 0));
    done
}

/// Nothing is lost: the exchange is not begun, or its cache refuses, or all goes well.
#[test]
fn want_of_memory_for_good_ends_an_exchange(rt: HostRuntime) {
    let Some(world) = world_of(&rt, pool_at(rt.alloc()), NEVER) else {
        return;
    };
    match ended_over(&rt, world) {
        Done::Good(answer) => check_eq(&rt, (answer.status, answer.body_len), (200, 2)),
        Done::Bad(fault) => check_eq(&rt, fault, Fault::Refused(Refusal::Memory)),
    }
}

/// The same with a retry: the connection had ended, and is abandoned before the next acquire.
#[test]
fn want_of_memory_for_good_ends_a_retry(rt: HostRuntime) {
    let Some(world) = world_of(&rt, pool_with_ended(&rt), NEVER) else {
        return;
    };
    match ended_over(&rt, world) {
        Done::Good(
            Answer {
                body_len,
                reused,
                retried,
                ..
            },
        ) => check_eq(&rt, (body_len, reused, retried), (2, false, true)),
        Done::Bad(fault) => check_eq(&rt, fault, Fault::Refused(Refusal::Memory)),
    }
}

/// The same if it is cancelled while it waits for its response.
#[test]
fn want_of_memory_for_good_ends_a_cancel(rt: HostRuntime) {
    let Some(world) = world_of(&rt, pool_at(rt.alloc()), 1) else {
        return;
    };
    match ended_over(&rt, world) {
        Done::Bad(Fault::Cancelled) => {}
        done => check_eq(&rt, done, Done::Bad(Fault::Refused(Refusal::Memory))),
    }
}

/// A URL whose request needs more room than that of a short one.
const LONG: &str = "http://example.com/a/path/that/is/so/long/that/the/text/of/its/request/has/no/\
    room/in/the/memory/of/a/short/one/and/so/asks/for/more/than/it/was/prepared/with";

/// The prepared transfer comes back if there is no memory for another request, and serves it the
/// second time.
#[test]
fn want_of_memory_gives_back_what_was_prepared(rt: HostRuntime) -> Result<(), Fail> {
    let Some(parts) = prepared_for(rt.alloc(), "http://example.com/") else {
        return Ok(());
    };
    let Some(job) = job_of(rt.alloc(), LONG) else {
        return Ok(());
    };
    let parts = match parts.again(&job) {
        Ok(parts) => parts,
        Err((parts, _)) => match parts.again(&job) {
            Ok(parts) => parts,
            Err(_) => panic!(rt; "no memory"),
        },
    };
    assert!(rt; parts.text().starts_with("GET /a/path/that/is/so/long/"));
    assert!(rt; parts.text().len() > LONG.len());
    Ok(())
}

// Returns true if a transfer joins. If it does not, it comes back, and no other one is lost.
fn joins<R: Abort>(
    rt: &R,
    slab: &mut Slab<MemoryWire>,
    pool: &Pool<MemoryWire>,
    parts: Prepared,
) -> bool
    requires unused { IsUnused parts }
    requires kept { AreKept (known_of (λ wire site transfer. IsUntouched wire) HappenedTo
        (λ moment. moment ≡ 7)) (home_of pool.now) slab.old.slots }
    ensures kept { AreKept (known_of (λ wire site transfer. IsUntouched wire) HappenedTo
        (λ moment. moment ≡ 7)) (home_of pool.now) slab.new.slots }
{
    let count = slab.len();
    match slab.join(parts, pool, &FixedClock { now: 7 }) {
        Ok(place) => {
            check_eq(rt, place, count);
            true
        }
        Err(parts) => {
            check_eq(rt, (parts.transfer(), slab.len()), (WANT.transfer, count));
            false
        }
    }
}

/// A slab with room for two takes two, whichever allocation fails, and a third one if there is
/// memory for it.
#[test]
fn want_of_memory_leaves_the_room_of_a_slab(rt: HostRuntime) {
    let Some(mut pool) = pool_at(rt.alloc()) else {
        return;
    };
    let Some(first) = prepared_for(rt.alloc(), "http://example.com/") else {
        return;
    };
    let Some(second) = prepared_for(rt.alloc(), "http://example.com/") else {
        return;
    };
    let Some(third) = prepared_for(rt.alloc(), "http://example.com/") else {
        return;
    };
    let Ok(mut slab) = Slab::with_room(rt.alloc(), 2, 1) else {
        return;
    };
    let mut dial = MemoryDial::new(rt.alloc());
    assert!(rt; joins(&rt, &mut slab, &pool, first));
    assert!(rt; joins(&rt, &mut slab, &pool, second));
    let _ = joins(&rt, &mut slab, &pool, third);
    slab.close(&mut pool, &mut dial, &FixedClock { now: 7 });
}

/// A job that no other one stops.
#[derive(Drop)]
struct NoStop;

impl JobControl for NoStop {
    type Reason = ();

    ghost use Rattle.std.specs.Prelude.{⊤};

    ghost stops_for = { λ control reason. ⊤ };

    fn wait_for_grant(&self, _rings: u64) {}

    fn stop_at_last(&self) {}
}

/// A runner runs a second job, whose request needs more room, whichever allocation fails at the
/// first: each job runs to its end, or is not begun.
#[test]
fn want_of_memory_ends_no_runner(rt: HostRuntime) {
    let Some(world) = world_of(&rt, pool_at(rt.alloc()), NEVER) else {
        return;
    };
    let (_parts, mut dial, task, mut pool) = world;
    let Some(short) = job_of(rt.alloc(), "http://example.com/") else {
        return;
    };
    let Some(long) = job_of(rt.alloc(), LONG) else {
        return;
    };
    let mut runner = JobRunner::new(rt.alloc(), task);
    let clock = FixedClock { now: 7 };
    let jobs = [short, long];
    for job in &jobs {
        let Ok(ran) = runner.run(job, &mut pool, &mut dial, &clock, &NoStop) else {
            continue;
        };
        match ran.done {
            Done::Good(answer) => check_eq(&rt, (answer.status, answer.body_len), (200, 2)),
            Done::Bad(fault) => {
                assert!(rt; fault == Fault::Refused(Refusal::Memory) || fault == Fault::Dial)
            }
        }
    }
}
