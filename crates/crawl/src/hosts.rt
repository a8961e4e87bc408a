//! Gives the hosts of a crawl places in its cache, once their addresses are known.

ghost use Rattle.std.specs.Prelude.{◌≡◌, ◌≤◌, ◌<◌, ◌&&◌, not, true, false, length, All};
ghost use Rattle.std.specs.Prelude.{slice_set, IfOk, IfSome, OnOk};
ghost use Rattle.crawl.specs.Hosts.{GrowsOrStays, IsInUse, KeepsInUse, is_in_use};

use crate::crawler::Crawler;
use crate::in_flight::InFlight;
use crate::placed::Placed;
use bundle::MOST_HOSTS;
use client::{Answer, KnownNames, Names};
use commands::{Resolved, resolved_of};
use conn_key::{PlaceError, PlaceTable, Places, Target};
use socket::{AddressFault, host_addresses};
use std::alloc::{AllocError, Global};
use std::net::SocketAddr;

/// Maximum number of answers that are recorded between events.
const MOST_ANSWERS: usize = 1_024;

/// The places of hosts in a cache, and which of them have transfers in flight.
#[derive(Drop)]
pub(crate) struct Hosts {
    alloc: Global,
    table: PlaceTable,
    /// Addresses given for hosts, which are not looked up.
    overrides: Vec<Resolved>,
    names: KnownNames,
    /// By place, true if the system does not know its host.
    unresolved: Vec<bool>,
    /// By place, true if a transfer is in flight there, or about to begin.
    in_use: Vec<bool>,
    ghost sized: { length table.keys ≤ length in_use.items },
}

/// The unused places of a cache at which no transfer is in flight.
#[derive(Drop)]
struct NotInUse<'a, P: Places> {
    cache: &'a P,
    in_use: &'a [bool],
}

impl<P: Places> Places for NotInUse<'_, P> {
    ghost unused = { λ places place. P.unused places.cache.now place
        && not (is_in_use places.in_use.now place) };

    fn is_unused(&self, place: u32) -> bool {
        let in_use = self.in_use.get(place as usize).copied().unwrap_or(false);
        self.cache.is_unused(place) && !in_use
    }
}

/// Returns the key of a target's host, by which places are found: `host:port`.
///
/// # Errors
///
/// There is no memory for it.
pub(crate) fn host_key(alloc: Global, target: &Target) -> Result<String, AllocError> {
    let (host, port) = (target.host.as_str(), target.port);
    format!(in alloc; "{host}:{port}")
}

impl Hosts {
    ghost use Rattle.crawl.specs.Placing.{GivesPlace};

    /// Makes an empty table. `overrides` are the addresses of hosts that are not looked up.
    pub(crate) fn new(alloc: Global, overrides: Vec<Resolved>) -> Hosts {
        Hosts {
            alloc,
            table: PlaceTable::new(alloc, MOST_HOSTS),
            overrides,
            names: KnownNames::new(alloc),
            unresolved: Vec::new(alloc),
            in_use: Vec::new(alloc),
        }
    }

    /// Returns the place of the target's host, which has that key, and at which a transfer is about
    /// to begin. A host without a place gets one once its addresses are known.
    ///
    /// # Errors
    ///
    /// There is no memory for it.
    pub(crate) fn place<N: Names, C: Crawler>(
        &mut self,
        target: &Target,
        key: &str,
        names: &N,
        crawler: &mut C,
    ) -> Result<Placed, AllocError>
        requires can_go_on { C.can_go_on crawler.old }
        ensures can_go_on { C.can_go_on crawler.new }
        ensures gives { GivesPlace self.old self.new result }
    {
        if let Some(place) = self.table.find(key) {
            self.mark_in_use(place);
            return Ok(Placed::At(place));
        }
        let Some(found) = self.addresses(target, names)? else {
            return Ok(Placed::Unresolved);
        };
        self.give_place(key, found, crawler)
    }

    // Returns the addresses of the target's host, if they are known.
    fn addresses<N: Names>(
        &mut self,
        target: &Target,
        names: &N,
    ) -> Result<Option<Vec<SocketAddr>>, AllocError>
        ensures table { self.new.table ≡ self.old.table }
        ensures in_use { self.new.in_use.items ≡ self.old.in_use.items }
    {
        let (host, port) = (target.host.as_str(), target.port);
        if let Some(address) = resolved_of(self.overrides.as_slice(), host, port) {
            return Ok(Some(vec![in self.alloc; address]?));
        }
        match host_addresses(self.alloc, host, port) {
            Ok(found) => Ok(Some(found)),
            Err(AddressFault::Memory) => Err(AllocError),
            Err(AddressFault::OtherName) => self.names.find(host, port, names),
        }
    }

    // Gives a place to the host of that key, which has none, if one is unused.
    fn give_place<C: Crawler>(
        &mut self,
        key: &str,
        found: Vec<SocketAddr>,
        crawler: &mut C,
    ) -> Result<Placed, AllocError>
        requires can_go_on { C.can_go_on crawler.old }
        ensures can_go_on { C.can_go_on crawler.new }
        ensures gives { GivesPlace self.old self.new result }
    {
        let Some(place) = self.unused_place(key, crawler)? else {
            return Ok(Placed::Full);
        };
        self.note_unknown(place, found.is_empty())?;
        crawler.set_host(place, found)?;
        self.mark_in_use(place);
        Ok(Placed::At(place))
    }

    // Returns the place that the host of that key is given, if one is unused, or becomes so as the
    // idle connections are closed.
    fn unused_place<C: Crawler>(
        &mut self,
        key: &str,
        crawler: &mut C,
    ) -> Result<Option<u32>, AllocError>
        requires can_go_on { C.can_go_on crawler.old }
        ensures can_go_on { C.can_go_on crawler.new }
        ensures keeps { KeepsInUse self.old.table self.new.table self.old.in_use.items
            self.new.in_use.items }
        ensures there { IfOk result (λ found. IfSome found (λ place.
            place < length self.new.in_use.items)) }
    {
        if let Some(place) = self.try_place(key, crawler)? {
            return Ok(Some(place));
        }
        crawler.prune();
        self.try_place(key, crawler)
    }

    // Returns the place that the host of that key is given, if one is unused.
    fn try_place<C: Crawler>(&mut self, key: &str, crawler: &C) -> Result<Option<u32>, AllocError>
        ensures keeps { KeepsInUse self.old.table self.new.table self.old.in_use.items
            self.new.in_use.items }
        ensures there { IfOk result (λ found. IfSome found (λ place.
            place < length self.new.in_use.items)) }
    {
        self.add_place()?;
        let unused = NotInUse {
            cache: crawler,
            in_use: self.in_use.as_slice(),
        };
        match self.table.place(key, &unused) {
            Ok(place) => Ok(Some(place)),
            Err(PlaceError::Memory) => Err(AllocError),
            Err(PlaceError::Full) => Ok(None),
        }
    }

    // Records whether the host at that place is unknown to the system.
    fn note_unknown(&mut self, place: u32, is_unknown: bool) -> Result<(), AllocError>
        ensures table { self.new.table ≡ self.old.table }
        ensures in_use { self.new.in_use.items ≡ self.old.in_use.items }
    {
        match self.unresolved.get_mut(place as usize) {
            Some(former) => *former = is_unknown,
            None => self.unresolved.push(is_unknown)?,
        }
        Ok(())
    }

    // Makes room for the record of the next place.
    fn add_place(&mut self) -> Result<(), AllocError>
        ensures table { self.new.table ≡ self.old.table }
        ensures in_use { GrowsOrStays self.old.in_use.items self.new.in_use.items }
        ensures room { OnOk result (length self.new.table.keys < length self.new.in_use.items) }
    {
        if (self.table.len() as usize) < self.in_use.len() {
            return Ok(());
        }
        match self.in_use.push(false) {
            Ok(()) => Ok(()),
            Err(_) => Err(AllocError),
        }
    }

    // Records that a transfer is in flight at that place, or about to begin.
    fn mark_in_use(&mut self, place: u32)
        ensures table { self.new.table ≡ self.old.table }
        ensures in_use { self.new.in_use.items ≡ slice_set self.old.in_use.items place true }
    {
        if let Some(in_use) = self.in_use.get_mut(place as usize) {
            *in_use = true;
        }
    }

    /// Records that these transfers are in flight, and no others.
    pub(crate) fn mark_in_flight(&mut self, in_flight: &[InFlight])
        ensures table { self.new.table ≡ self.old.table }
        ensures all_in_use { All (IsInUse self.new.in_use.items) in_flight.now }
    {
        self.in_use.as_mut_slice().fill(false);
        for one in in_flight {
            self.mark_in_use(one.place);
        }
    }

    /// True if the system does not know the host at that place.
    pub(crate) fn is_unknown(&self, place: u32) -> bool {
        self.unresolved
            .get(place as usize)
            .copied()
            .unwrap_or(false)
    }

    /// Records the answers of look-ups that have arrived.
    ///
    /// # Errors
    ///
    /// There is no memory for them.
    pub(crate) fn learn<N: Names>(&mut self, names: &N) -> Result<(), AllocError>
        ensures table { self.new.table ≡ self.old.table }
        ensures in_use { self.new.in_use.items ≡ self.old.in_use.items }
    {
        for _ in 0..MOST_ANSWERS {
            let Some(answer) = names.answer() else {
                return Ok(());
            };
            self.names.learn(answer)?;
        }
        Ok(())
    }
}
