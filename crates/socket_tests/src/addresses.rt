//! Which addresses hosts have, and in which order they are tried.

use crate::checks::check_eq;
use crate::leases::{abandon, lease_at, pool_of};
use crate::peer::{Peer, addresses_of, target_of};
use exchange::{Dial, Dialled, Reason};
use socket::{AddressFault, Addresses, WaitingDial};
use std::alloc::AllocGlobal;
use std::io;
use std::net::{IpAddr, Ipv4Addr, Ipv6Addr, SocketAddr, TcpListener};
use std::process::Abort;
use std::time::Duration;

/// Hosts, and whether a dial knows an address for each.
static HOSTS: [(&str, bool); 8] = [
    ("localhost", true),
    ("LOCALHOST", true),
    ("127.0.0.1", true),
    ("127.1", true),
    ("[::1]", true),
    ("localhost.", false),
    ("example.com", false),
    ("sub.localhost", false),
];

#[test]
fn a_host_is_localhost_or_an_address(rt: HostRuntime) {
    for &(host, known) in &HOSTS {
        let mut addresses = Addresses::new(rt.alloc());
        let target = target_of(&rt, host, 80).expect(&rt, "a target");
        let added = addresses.add(&target);
        check_eq(
            &rt,
            added,
            if known {
                Ok(())
            } else {
                Err(AddressFault::OtherName)
            },
        );
        check_eq(&rt, addresses.len(), known as usize);
    }
}

// Dials that site in some turns: whether a connection is open, or cannot be opened.
fn is_opened<R: Abort + AllocGlobal>(
    rt: &R,
    dial: &mut WaitingDial<'_, HostRuntime>,
    site: u32,
) -> Option<bool> {
    let mut pool = pool_of(rt);
    let lease = lease_at(rt, &mut pool, site, 1);
    let mut opened = None;
    for _ in 0..100 {
        match dial.dial(&lease) {
            Dialled::Up(_) => opened = Some(true),
            Dialled::Fault => opened = Some(false),
            Dialled::NotYet => {}
        }
        if opened.is_some() {
            break;
        }
        let _ = dial.turn(Duration::MAX);
    }
    abandon(&mut pool, lease);
    opened
}

#[test]
fn the_next_address_is_tried(rt: HostRuntime) {
    let any_port = SocketAddr::new(IpAddr::V6(Ipv6Addr::LOCALHOST), 0);
    let listener = TcpListener::bind(&rt, any_port).expect(&rt, "a listener");
    let port = listener.local_addr().expect(&rt, "an address").port();
    // Nobody listens at 127.0.0.1, which is tried first.
    let addresses = addresses_of(&rt, "localhost", port).expect(&rt, "an address");
    let mut dial = WaitingDial::new(&rt, rt.alloc(), addresses).expect(&rt, "a dial");
    check_eq(&rt, is_opened(&rt, &mut dial, 0), Some(true));
    check_eq(&rt, (dial.opened(), dial.failures()), (1, 0));
    check_eq(&rt, dial.reason(), None);
}

#[test]
fn a_refused_connection_is_counted(rt: HostRuntime) {
    let any_port = SocketAddr::new(IpAddr::V4(Ipv4Addr::LOCALHOST), 0);
    let listener = TcpListener::bind(&rt, any_port).expect(&rt, "a listener");
    let address = listener.local_addr().expect(&rt, "an address");
    drop(listener);
    let mut addresses = Addresses::new(rt.alloc());
    let list = vec![in rt.alloc(); address].expect(&rt, "memory");
    addresses.add_resolved(list).expect(&rt, "an address");
    let mut dial = WaitingDial::new(&rt, rt.alloc(), addresses).expect(&rt, "a dial");
    check_eq(&rt, is_opened(&rt, &mut dial, 0), Some(false));
    check_eq(&rt, (dial.opened(), dial.failures()), (0, 1));
    check_eq(&rt, dial.reason(), Some(Reason::Refused));
}

// A server, and its port.
fn peer_of(rt: &HostRuntime) -> io::Result<(Peer, u16)> {
    let peer = Peer::new(rt)?;
    let port = peer.port()?;
    Ok((peer, port))
}

#[test]
fn each_site_has_its_own_addresses(rt: HostRuntime) {
    let (first, port) = peer_of(&rt).expect(&rt, "a server");
    let (second, other) = peer_of(&rt).expect(&rt, "a server");
    let mut addresses = addresses_of(&rt, "127.0.0.1", port).expect(&rt, "an address");
    let target = target_of(&rt, "127.0.0.1", other).expect(&rt, "a target");
    addresses.add(&target).expect(&rt, "an address");
    let mut dial = WaitingDial::new(&rt, rt.alloc(), addresses).expect(&rt, "a dial");
    check_eq(&rt, is_opened(&rt, &mut dial, 1), Some(true));
    let connected = (first.is_connected(), second.is_connected());
    check_eq(&rt, (dial.opened(), connected), (1, (false, true)));
    // There is no third site.
    check_eq(&rt, is_opened(&rt, &mut dial, 2), Some(false));
    check_eq(&rt, dial.reason(), None);
}
