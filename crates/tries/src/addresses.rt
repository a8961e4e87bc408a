//! Addresses of hosts on this machine.

use socket::Addresses;
use std::alloc::Global;
use std::net::{IpAddr, Ipv4Addr, SocketAddr};

/// Returns the addresses of the hosts at these ports of 127.0.0.1. `None` if an allocation fails.
pub(crate) fn addresses_of(alloc: Global, ports: &[u16]) -> Option<Addresses> {
    let mut addresses = Addresses::new(alloc);
    for port in ports {
        let one = vec![in alloc; address_of(*port); 1].ok()?;
        addresses.add_resolved(one).ok()?;
    }
    Some(addresses)
}

// Returns the address of that port of 127.0.0.1.
fn address_of(port: u16) -> SocketAddr {
    SocketAddr::new(IpAddr::V4(Ipv4Addr::LOCALHOST), port)
}
