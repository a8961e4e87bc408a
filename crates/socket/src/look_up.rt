//! Addresses that the system knows of hosts.

use std::alloc::{AllocError, Global};
use std::net::{SocketAddr, ToSocketAddrs};

/// Waits for the addresses that the system knows of a host, each with that port, in the order in
/// which the system gives them. There are none if the system does not know the host.
///
/// # Errors
///
/// There is no memory for them.
pub fn system_addresses(
    system: &HostRuntime,
    alloc: Global,
    host: &str,
    port: u16,
) -> Result<Vec<SocketAddr>, AllocError> {
    let mut addresses = Vec::new(alloc);
    let Ok(found) = (host, port).to_socket_addrs(system) else {
        return Ok(addresses);
    };
    for address in found {
        addresses.push(address)?;
    }
    Ok(addresses)
}
