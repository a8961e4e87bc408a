//! Each descriptor is closed once: the system gives the lowest that is free, so that a number comes
//! again once all that was opened since is closed.

ghost use Rattle.std.specs.Prelude.{◌≡◌, None};
ghost use Rattle.cache_trait.specs.Homes.{IsMadeBy};
ghost use Rattle.cache.specs.PoolCalls.{home_of};

use crate::checks::check_eq;
use crate::leases::{abandon, lease_at, pool_of};
use crate::peer::addresses_of;
use bundle::Lease;
use cache::Pool;
use exchange::{Dial, Dialled};
use socket::{WaitingDial, WaitingWire};
use std::alloc::AllocGlobal;
use std::io;
use std::net::{IpAddr, Ipv4Addr, SocketAddr, TcpListener};
use std::os::fd::AsRawFd;
use std::process::Abort;

/// More connections than a listener keeps that nobody takes from it.
const MANY: u64 = 1_000;

/// A server at some port of 127.0.0.1, and the port.
fn listener_of(rt: &HostRuntime) -> io::Result<(TcpListener, u16)> {
    let any_port = SocketAddr::new(IpAddr::V4(Ipv4Addr::LOCALHOST), 0);
    let listener = TcpListener::bind(rt, any_port)?;
    let port = listener.local_addr()?.port();
    Ok((listener, port))
}

/// The lowest descriptor that is free.
fn lowest_free(rt: &HostRuntime) -> io::Result<i32> {
    Ok(listener_of(rt)?.0.as_raw_fd())
}

#[test]
fn refused_connections_leave_no_descriptor(rt: HostRuntime) {
    let (listener, port) = listener_of(&rt).expect(&rt, "a listener");
    drop(listener);
    let addresses = addresses_of(&rt, "localhost", port).expect(&rt, "an address");
    let mut dial = WaitingDial::new(&rt, rt.alloc(), addresses).expect(&rt, "a dial");
    let mut pool = pool_of(&rt);
    let free = lowest_free(&rt).expect(&rt, "a descriptor");
    for transfer in 0..100 {
        let lease = lease_at(&rt, &mut pool, 0, transfer);
        let dialled = dial.dial(&lease);
        abandon(&mut pool, lease);
        assert!(rt; matches!(dialled, Dialled::Fault));
    }
    let then = lowest_free(&rt).expect(&rt, "a descriptor");
    check_eq(&rt, (dial.failures(), then), (100, free));
}

// Dials one connection after another, until one is not open at once: its lease. Those that are open
// are kept.
fn lease_that_waits<R: Abort>(
    rt: &R,
    dial: &mut WaitingDial<'_, HostRuntime>,
    pool: &mut Pool<WaitingWire>,
    wires: &mut Vec<WaitingWire>,
) -> Lease<WaitingWire>
    ensures here { IsMadeBy (home_of pool.new) result.site result.tables }
    ensures none { result.stream ≡ None }
{
    for transfer in 0..MANY {
        let lease = lease_at(rt, pool, 0, transfer);
        match dial.dial(&lease) {
            Dialled::Up(wire) => {
                abandon(pool, lease);
                wires.push(wire).expect(rt, "memory");
            }
            Dialled::NotYet => return lease,
            Dialled::Fault => {
                abandon(pool, lease);
                break;
            }
        }
    }
    panic!(rt; "the listener kept them all")
}

#[test]
fn what_is_given_up_is_closed(rt: HostRuntime) {
    let (listener, port) = listener_of(&rt).expect(&rt, "a listener");
    let addresses = addresses_of(&rt, "127.0.0.1", port).expect(&rt, "an address");
    let mut dial = WaitingDial::new(&rt, rt.alloc(), addresses).expect(&rt, "a dial");
    let mut wires: Vec<WaitingWire> = Vec::new(rt.alloc());
    let mut pool = pool_of(&rt);
    let lease = lease_that_waits(&rt, &mut dial, &mut pool, &mut wires);
    let other = lease_at(&rt, &mut pool, 0, MANY);
    // One more is begun, and one of the two is given up.
    let free = lowest_free(&rt).expect(&rt, "a descriptor");
    assert!(rt; matches!(dial.dial(&other), Dialled::NotYet));
    dial.give_up(&other);
    let then = lowest_free(&rt).expect(&rt, "a descriptor");
    check_eq(&rt, then, free);
    // The other one goes on.
    assert!(rt; matches!(dial.dial(&lease), Dialled::NotYet));
    let then = lowest_free(&rt).expect(&rt, "a descriptor");
    check_eq(&rt, then, free);
    abandon(&mut pool, other);
    abandon(&mut pool, lease);
    drop(listener);
}
