//! The addresses of hosts, by site.

ghost use Rattle.std.specs.Prelude.{◌≡◌, ◌≢◌, ◌==◌, ◌<◌, ℕ, [], ◌∷◌, ◌++◌, length, string_bytes};
ghost use Rattle.std.specs.Prelude.{IfOk, IfErr, IfSome, IfNone, OnOk, OnErr};
ghost use Rattle.std.specs.declared.net.ip_addr.IpAddr.{IpAddr};
ghost use Rattle.socket.specs.Hosts.{IsLiteral, Names, AddsHost, HasNoAddress, KeepsHosts};
ghost use Rattle.socket.specs.Hosts.{addresses_at};
ghost use Rattle.socket.specs.declared.addresses.AddressFault.TheVariants.{OtherName};

use conn_key::Target;
use std::alloc::{AllocError, Global};
use std::net::{IpAddr, Ipv4Addr, Ipv6Addr, SocketAddr};
use thiserror::Error;

/// Why the addresses of a host are not known.
#[derive(Clone, Copy, Debug, PartialEq, Eq, Error)]
pub enum AddressFault {
    #[error("out of memory")]
    Memory,
    #[error("its host is neither localhost nor an address")]
    OtherName,
}

impl From<AllocError> for AddressFault {
    ghost use Rattle.std.specs.Prelude.{◌≡◌};
    ghost use Rattle.socket.specs.declared.addresses.AddressFault.TheVariants.{Memory};

    ghost from_gives = { λ _ fault. fault ≡ Memory };

    fn from(_: AllocError) -> AddressFault {
        AddressFault::Memory
    }
}

/// The addresses of hosts, by site: what a dial tries for each, in that order. No name is looked
/// up; who has a resolver hands in what it answers.
#[derive(Drop)]
pub struct Addresses {
    hosts: Vec<Vec<SocketAddr>>,
}

impl Addresses {
    /// The addresses of no host.
    pub fn new(alloc: Global) -> Addresses
        ensures { result.hosts.items ≡ [] }
    {
        Addresses {
            hosts: Vec::new(alloc),
        }
    }

    /// Adds the next site's: the target's host is `localhost`, which stands for 127.0.0.1 and then
    /// ::1 (RFC 6761, section 6.3), an IPv4 address, or an IPv6 address in brackets (RFC 3986,
    /// section 3.2.2).
    ///
    /// # Errors
    ///
    /// `OtherName` if the host is none of these, `Memory` if there is none for them. Nothing has
    /// changed then.
    pub fn add(&mut self, target: &Target) -> Result<(), AddressFault>
        ensures added { OnOk result (AddsHost self.old.hosts.items self.new.hosts.items
            (Names (string_bytes target.now.host) target.now.port)) }
        ensures refused { IfErr result (λ fault. fault ≡ OtherName →
            HasNoAddress (string_bytes target.now.host)) }
        ensures unchanged { OnErr result (self.new.hosts.items ≡ self.old.hosts.items) }
    {
        let alloc = *self.hosts.allocator();
        let addresses = host_addresses(alloc, target.host.as_str(), target.port)?;
        self.push(addresses)?;
        Ok(())
    }

    /// Adds the next site's, as a resolver has found them.
    ///
    /// # Errors
    ///
    /// There is no memory for them. Nothing has changed then.
    pub fn add_resolved(&mut self, addresses: Vec<SocketAddr>) -> Result<(), AllocError>
        ensures added { OnOk result (AddsHost self.old.hosts.items self.new.hosts.items
            (λ list. list ≡ addresses.items)) }
        ensures unchanged { OnErr result (self.new.hosts.items ≡ self.old.hosts.items) }
    {
        self.push(addresses)?;
        Ok(())
    }

    /// Sets the addresses of the host at `place`. New hosts before it have none.
    ///
    /// # Errors
    ///
    /// Out of memory. Each host has the addresses that it had.
    pub fn set(
        &mut self,
        alloc: Global,
        place: u32,
        addresses: Vec<SocketAddr>,
    ) -> Result<(), AllocError>
        ensures set { OnOk result (addresses_at self.new.hosts.items place ≡ addresses.items) }
        ensures others { OnOk result ((other : ℕ) → other ≢ place →
            addresses_at self.new.hosts.items other ≡ addresses_at self.old.hosts.items other) }
        ensures unchanged { OnErr result (KeepsHosts self.old.hosts.items self.new.hosts.items) }
    {
        let place = place as usize;
        self.grow(alloc, place)?;
        self.hosts[place] = addresses;
        Ok(())
    }

    // Adds hosts without addresses, until there is one at `place`.
    fn grow(&mut self, alloc: Global, place: usize) -> Result<(), AllocError>
        ensures there { OnOk result (place < length self.new.hosts.items) }
        ensures kept { KeepsHosts self.old.hosts.items self.new.hosts.items }
    {
        while self.hosts.len() <= place {
            self.push(Vec::new(alloc))?;
        }
        Ok(())
    }

    // Adds a list of addresses.
    fn push(&mut self, addresses: Vec<SocketAddr>) -> Result<(), AllocError>
        ensures added { OnOk result
            (self.new.hosts.items ≡ self.old.hosts.items ++ (addresses ∷ [])) }
        ensures unchanged { OnErr result (self.new.hosts.items ≡ self.old.hosts.items) }
    {
        match self.hosts.push(addresses) {
            Ok(()) => Ok(()),
            Err(_) => Err(AllocError),
        }
    }

    /// How many sites have addresses.
    pub fn len(&self) -> usize
        ensures { result ≡ length self.now.hosts.items }
    {
        self.hosts.len()
    }

    /// Whether no site has addresses.
    pub fn is_empty(&self) -> bool
        ensures { result ≡ (length self.now.hosts.items == 0) }
    {
        self.hosts.is_empty()
    }

    /// The addresses of that site; none if the site is not there.
    pub(crate) fn of(&self, site: u32) -> &[SocketAddr]
        ensures { result.now ≡ addresses_at self.now.hosts.items site }
    {
        match self.hosts.get(site as usize) {
            Some(addresses) => addresses.as_slice(),
            None => &[],
        }
    }
}

/// Returns the addresses of a host that needs no lookup, in the order in which a dial tries them.
/// The host is `localhost`, which stands for 127.0.0.1 and then ::1 (RFC 6761, section 6.3), an
/// IPv4 address, or an IPv6 address in brackets (RFC 3986, section 3.2.2). Each address has the
/// given port.
///
/// # Errors
///
/// `OtherName` if the host is none of these, `Memory` if memory ran out.
pub fn host_addresses(alloc: Global, host: &str, port: u16) -> Result<Vec<SocketAddr>, AddressFault>
    ensures names { IfOk result (λ list. Names host.now port list.items) }
    ensures refused { IfErr result (λ fault. fault ≡ OtherName → HasNoAddress host.now) }
{
    if host == "localhost" {
        let first = SocketAddr::new(IpAddr::V4(Ipv4Addr::new(127, 0, 0, 1)), port);
        let second = SocketAddr::new(IpAddr::V6(Ipv6Addr::new(0, 0, 0, 0, 0, 0, 0, 1)), port);
        return match vec![in alloc; first, second] {
            Ok(both) => Ok(both),
            Err(_) => Err(AddressFault::Memory),
        };
    }
    let Some(ip) = literal(host.as_bytes()) else {
        return Err(AddressFault::OtherName);
    };
    match vec![in alloc; SocketAddr::new(ip, port)] {
        Ok(one) => Ok(one),
        Err(_) => Err(AddressFault::Memory),
    }
}

/// The address that a host writes, if it writes one.
fn literal(host: &[u8]) -> Option<IpAddr>
    ensures some { IfSome result (IsLiteral host.now) }
    ensures none { IfNone result ((ip : IpAddr) → IsLiteral host.now ip → ⊥) }
{
    if let Ok(ip) = Ipv4Addr::parse_ascii(host) {
        return Some(IpAddr::V4(ip));
    }
    let [b'[', inside @ .., b']'] = host else {
        return None;
    };
    match Ipv6Addr::parse_ascii(inside) {
        Ok(ip) => Some(IpAddr::V6(ip)),
        Err(_) => None,
    }
}
