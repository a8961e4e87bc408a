//! The addresses of the sites that a load requests.

ghost use Rattle.std.specs.Prelude.{◌≡◌, ◌*◌, ◌++◌, length, string_bytes, All};
ghost use Rattle.std.specs.Prelude.{IfErr, IfOk, OnOk};
ghost use Rattle.socket.specs.declared.addresses.Addresses.{Addresses};
ghost use Rattle.load_run.specs.LoadSites.{AreAllBelow, AreSitesOf, IfUnknown, IsKnown};
ghost use Rattle.commands.specs.Numbering.{AreNumbered};
ghost use Rattle.load_run.specs.LoadSites.{AreHostsOf, IsPlaceOf, site_lines};
ghost use Rattle.load_run.specs.LoadSites.{IsListAt, IsUnknownAt, IsUnknownIn};
ghost use Rattle.socket.specs.Hosts.{AddsHost};

use commands::{Resolved, resolved_of};
use conn_key::Target;
use exchange::Job;
use socket::{AddressFault, Addresses, system_addresses};
use std::alloc::{AllocError, Global};
use std::net::SocketAddr;
use trace_text::add_site;

/// What a site's addresses are.
#[derive(Drop)]
enum Place {
    /// Those that its host stands for.
    Own,
    /// These.
    Known(Vec<SocketAddr>),
}

/// A site, and what its addresses are.
#[derive(Drop)]
struct LoadSite<'a> {
    target: &'a Target,
    place: Place,
}

/// The sites of a load, in their order.
#[derive(Drop)]
pub(crate) struct LoadSites<'a> {
    sites: Vec<LoadSite<'a>>,
    /// Number of sites.
    pub(crate) count: u32,
    ghost counted: { count ≡ length sites.items },
}

/// Why the sites of a load have no addresses.
#[derive(Drop)]
pub(crate) enum SiteFault<'a> {
    Memory,
    /// The system does not know this host.
    Unknown(&'a str),
}

impl<'a> LoadSites<'a> {
    /// Finds the sites of these jobs. Their addresses are the addresses given for them, else the
    /// addresses in their hosts' names, else the addresses that the system knows.
    ///
    /// Requires: the sites are numbered in the order in which the jobs name them first.
    ///
    /// # Errors
    ///
    /// `Unknown` if the system knows no address of a host, `Memory` if memory ran out.
    pub(crate) fn of(
        system: &HostRuntime,
        alloc: Global,
        jobs: &'a [Job],
        resolved: &[Resolved],
    ) -> Result<LoadSites<'a>, SiteFault<'a>>
        requires { AreNumbered 0 jobs.now }
        ensures sites { IfOk result (λ sites.
            AreSitesOf jobs.now resolved.now 0 sites.sites.items) }
        ensures all { IfOk result (λ sites. AreAllBelow sites.count jobs.now) }
        ensures unknown { IfErr result (IsUnknownIn jobs.now resolved.now) }
    {
        let mut sites: Vec<LoadSite<'a>> = Vec::new(alloc);
        let mut count = 0u32;
        for job in jobs {
            if job.site != count {
                continue;
            }
            let Some(more) = count.checked_add(1) else {
                return Err(SiteFault::Memory);
            };
            let target = &job.target;
            let place = match place_of(system, alloc, target, resolved) {
                Ok(place) => place,
                Err(fault) => return Err(fault),
            };
            let Ok(()) = sites.push(LoadSite { target, place }) else {
                return Err(SiteFault::Memory);
            };
            count = more;
        }
        Ok(LoadSites { sites, count })
    }

    /// Adds the lines of the sites to a trace.
    ///
    /// # Errors
    ///
    /// There is no memory for them.
    pub(crate) fn add_lines(&self, text: &mut String) -> Result<(), AllocError>
        ensures { OnOk result (string_bytes text.new
            ≡ string_bytes text.old ++ site_lines self.now.sites.items) }
    {
        for site in &self.sites {
            add_site(text, site.target.host.as_str(), site.target.port)?;
        }
        Ok(())
    }

    /// Returns the name of a site, as `127.0.0.1:8080`.
    ///
    /// # Errors
    ///
    /// There is no memory for it.
    pub(crate) fn name(&self, alloc: Global, site: usize) -> Result<String, AllocError> {
        match self.sites.get(site) {
            Some(known) => {
                let host = known.target.host.as_str();
                let port = known.target.port;
                format!(in alloc; "{host}:{port}")
            }
            None => Ok(String::new(alloc)),
        }
    }

    /// Returns the addresses of their hosts, `each` consecutive ones a site, for each of `workers`
    /// threads.
    ///
    /// # Errors
    ///
    /// There is no memory for them, or there are too many hosts.
    pub(crate) fn addresses(
        &self,
        alloc: Global,
        workers: u32,
        each: u32,
    ) -> Result<Vec<Addresses>, AllocError>
        ensures count { IfOk result (λ all. length all.items ≡ workers) }
        ensures hosts { IfOk result (λ all. All (λ (own : Addresses).
            AreHostsOf each self.now.sites.items own.hosts.items) all.items) }
        ensures number { IfOk result (λ all. All (λ (own : Addresses).
            length own.hosts.items ≡ self.now.count * each) all.items) }
    {
        let Some(hosts) = self.count.checked_mul(each) else {
            return Err(AllocError);
        };
        let mut all = Vec::new(alloc);
        for _ in 0..workers {
            let own = self.addresses_once(alloc, hosts, each)?;
            all.push(own)?;
        }
        Ok(all)
    }

    // Returns the addresses of the first `hosts` hosts.
    fn addresses_once(&self, alloc: Global, hosts: u32, each: u32) -> Result<Addresses, AllocError>
        ensures hosts { IfOk result (λ own.
            AreHostsOf each self.now.sites.items own.hosts.items) }
        ensures number { IfOk result (λ own. length own.hosts.items ≡ hosts) }
    {
        let mut addresses = Addresses::new(alloc);
        if each == 0 {
            return Err(AllocError);
        }
        for host in 0..hosts {
            let Some(site) = self.sites.get((host / each) as usize) else {
                return Err(AllocError);
            };
            add_addresses(alloc, &mut addresses, site)?;
        }
        Ok(addresses)
    }
}

// Adds the addresses of a site.
fn add_addresses(
    alloc: Global,
    addresses: &mut Addresses,
    site: &LoadSite<'_>,
) -> Result<(), AllocError>
    ensures { OnOk result (AddsHost addresses.old.hosts.items addresses.new.hosts.items
        (IsListAt site.now.target.now site.now.place)) }
{
    match &site.place {
        Place::Own => match addresses.add(site.target) {
            Ok(()) => Ok(()),
            Err(_) => Err(AllocError),
        },
        Place::Known(list) => {
            let mut copy = Vec::new(alloc);
            copy.extend_from_slice(list.as_slice())?;
            addresses.add_resolved(copy)
        }
    }
}

// What the addresses of a target's host are.
fn place_of<'a>(
    system: &HostRuntime,
    alloc: Global,
    target: &'a Target,
    resolved: &[Resolved],
) -> Result<Place, SiteFault<'a>>
    ensures place { IfOk result (IsPlaceOf resolved.now target.now) }
    ensures unknown { IfErr result (IsUnknownAt target.now resolved.now) }
{
    let host = target.host.as_str();
    if let Some(address) = resolved_of(resolved, host, target.port) {
        return match vec![in alloc; address; 1] {
            Ok(one) => Ok(Place::Known(one)),
            Err(_) => Err(SiteFault::Memory),
        };
    }
    match Addresses::new(alloc).add(target) {
        Ok(()) => Ok(Place::Own),
        Err(AddressFault::Memory) => Err(SiteFault::Memory),
        Err(AddressFault::OtherName) => looked_up(system, alloc, host, target.port),
    }
}

// The addresses of a host that the system knows.
fn looked_up<'a>(
    system: &HostRuntime,
    alloc: Global,
    host: &'a str,
    port: u16,
) -> Result<Place, SiteFault<'a>>
    ensures known { IfOk result IsKnown }
    ensures unknown { IfErr result (λ fault. IfUnknown fault (λ name. name ≡ host.now)) }
{
    match system_addresses(system, alloc, host, port) {
        Ok(addresses) if addresses.is_empty() => Err(SiteFault::Unknown(host)),
        Ok(addresses) => Ok(Place::Known(addresses)),
        Err(_) => Err(SiteFault::Memory),
    }
}
