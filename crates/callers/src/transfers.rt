//! Calls of a slab, and of the cache, dial and wires in memory.

ghost use Rattle.std.specs.Prelude.{◌≡◌, None};
ghost use Rattle.cache_trait.specs.Homes.{IsMadeBy};
ghost use Rattle.cache.specs.PoolCalls.{home_of};

use crate::checks::check_eq;
use crate::hosts::{KEEP, want_of};
use budget::{Limits, Refusal};
use bundle::{Acquired, Lease};
use cache::Pool;
use cache_trait::Cache;
use exchange::{Dial, Dialled, Place, Read, Ready, Turned, Wire, Written};
use exchange_memory::{FakeCache, FixedClock, Halt, MemoryDial, MemoryWire, Returned};
use std::alloc::AllocGlobal;
use std::process::Abort;
use std::time::Duration;
use transfer_slab::Slab;

#[test]
fn a_wire_is_halted_and_cut(rt: HostRuntime) {
    let mut wire = MemoryWire::new(rt.alloc(), b"HTTP", 8).expect(&rt, "memory");
    wire.set_most_read(3);
    wire.set_most_written(2);
    wire.halt_write(2, Halt::Fault);
    let mut buffer = [0; 8];
    check_eq(&rt, wire.read(&mut buffer), Read::Bytes(3));
    let written = (wire.write(b"GET "), wire.write(b"T "));
    check_eq(&rt, written, (Written::Took(2), Written::Fault));
    check_eq(&rt, (wire.sent(), wire.failures()), (b"GE".as_slice(), 1));
}

// A pool of one host, and a lease of a new connection.
fn pool_with_lease<R: Abort + AllocGlobal>(rt: &R) -> (Pool<MemoryWire>, Lease<MemoryWire>)
    ensures here { IsMadeBy (home_of result.0) result.1.site result.1.tables }
    ensures stream { result.1.stream ≡ None }
    ensures transfer { result.1.start.want.transfer ≡ 99 }
{
    let limits = Limits::new(6, 20, 4).expect(rt, "limits");
    let mut pool = Pool::new(rt.alloc(), limits, 1).expect(rt, "memory");
    match Cache::acquire(&mut pool, 0, want_of(99), 0) {
        Ok(Acquired::Lease(lease)) => {
            assert!(rt; !lease.has_stream());
            assert!(rt; lease.transfer() == 99);
            (pool, lease)
        }
        Ok(Acquired::Wait(_ticket)) => panic!(rt; "it has to wait"),
        Err(refusal) => panic!(rt; "{refusal}"),
    }
}

#[test]
fn a_fake_cache_refuses(rt: HostRuntime) {
    let limits = Limits::new(6, 20, 4).expect(&rt, "limits");
    let mut cache = FakeCache::<MemoryWire>::new(rt.alloc(), limits, 1).expect(&rt, "memory");
    cache.refuse_acquire(1, Refusal::Exhausted);
    match cache.acquire(0, want_of(1), 0) {
        Ok(_acquired) => panic!(rt; "it is not refused"),
        Err(refusal) => check_eq(&rt, refusal, Refusal::Exhausted),
    }
    let none: Option<Returned> = None;
    check_eq(&rt, (cache.pool().hosts(), cache.last_return()), (1, none));
    let _ = cache.close();
}

#[test]
fn a_fake_cache_releases(rt: HostRuntime) {
    let (pool, lease) = pool_with_lease(&rt);
    let mut lease = lease;
    lease.attach(MemoryWire::new(rt.alloc(), &[], 8).expect(&rt, "memory"));
    let mut cache = FakeCache::with_other(pool, lease, KEEP, 3);
    cache.release_after(1);
    let pool = cache.close();
    check_eq(&rt, pool.spent(0), Some(1));
}

// Dials for the lease and takes a turn, which both fail, and gives the dial up.
fn fail_to_dial(rt: &impl Abort, dial: &mut MemoryDial, lease: &Lease<MemoryWire>)
    requires stream { lease.now.stream ≡ None }
{
    dial.halt_dial(1, Halt::Fault);
    dial.fail_turn(1);
    assert!(rt; matches!(dial.dial(lease), Dialled::Fault));
    check_eq(rt, dial.turn(Duration::from_millis(1)), Turned::Fault);
    dial.give_up(lease);
}

#[test]
fn a_dial_keeps_what_it_was_told(rt: HostRuntime) {
    let (mut pool, lease) = pool_with_lease(&rt);
    let mut dial = MemoryDial::new(rt.alloc());
    fail_to_dial(&rt, &mut dial, &lease);
    pool.abandon(lease, 0);
    let failures = (dial.failures(), dial.turn_failures());
    check_eq(&rt, (dial.opened(), failures), (0, (1, 1)));
    check_eq(&rt, (dial.left(), dial.last_given_up()), (0, Some(99)));
}

#[test]
fn a_dial_tells_of_places(rt: HostRuntime) {
    let mut dial = MemoryDial::new(rt.alloc());
    dial.tell(&[Ready::Nothing]).expect(&rt, "memory");
    check_eq(&rt, dial.next_ready(), Ready::Nothing);
    let place = Place {
        index: 3,
        joined: 1,
    };
    dial.note_places(1).expect(&rt, "memory");
    dial.set_place(place);
    check_eq(&rt, dial.places(), [place].as_slice());
    let limits = Limits::new(6, 20, 4).expect(&rt, "limits");
    let mut pool = Pool::new(rt.alloc(), limits, 1).expect(&rt, "memory");
    let slab = Slab::<MemoryWire>::new(rt.alloc()).expect(&rt, "memory");
    check_eq(&rt, slab.len(), 0);
    slab.close(&mut pool, &mut dial, &FixedClock { now: 0 });
}
