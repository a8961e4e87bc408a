//! Addresses that are given for hosts, which are not looked up then.

ghost use Rattle.std.specs.Prelude.{IsTrue, ◌↔◌};
ghost use Rattle.commands.specs.Given.{IsGivenAddress, IsGivenFor};

use std::net::SocketAddr;

/// An address that is given for a host and port.
#[derive(Drop)]
pub struct Resolved {
    /// The host as a URL names it.
    pub host: String,
    pub address: SocketAddr,
}

impl Resolved {
    /// True if it is the address for that host, compared without regard to case, and that port.
    pub fn is_of(&self, host: &str, port: u16) -> bool
        ensures { IsTrue result ↔ IsGivenFor host.now port self.now }
    {
        self.address.port() == port && self.host.as_str().eq_ignore_ascii_case(host)
    }
}

/// Returns the first address that is given for a host and port, if one is.
pub fn resolved_of(resolved: &[Resolved], host: &str, port: u16) -> Option<SocketAddr>
    ensures { IsGivenAddress host.now port resolved.now result }
{
    for given in resolved {
        if given.is_of(host, port) {
            return Some(given.address);
        }
    }
    None
}
