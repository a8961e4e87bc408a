ghost use Rattle.std.specs.Prelude.{◌≡◌, ◌++◌, ◌∷◌, [], ◌<◌, ◌==◌, length, slice_get, slice_set};
ghost use Rattle.std.specs.Prelude.{bytes_eq, option_copied, position, None};
ghost use Rattle.std.specs.Prelude.{IfErr, IfOk, IfSome, OnErr, OnOk};
ghost use Rattle.std.specs.Result.{IsOkUnless};
ghost use Rattle.conn_key.specs.Hosts.{keys_in, place_of};
ghost use Rattle.conn_key.specs.Giving.{Gives, Refuses};

use crate::places::{Places, next_unused};
use indexmap::IndexSet;
use std::alloc::{AllocError, Global};
use std::marker::Model;
use thiserror::Error;

/// Why a host was given no place: there is no memory for its key, or each place is in use.
#[derive(Clone, Copy, Debug, PartialEq, Eq, Error)]
pub enum PlaceError {
    #[error("out of memory")]
    Memory,
    #[error("each place is in use")]
    Full,
}

impl From<AllocError> for PlaceError {
    ghost use Rattle.std.specs.Prelude.{◌≡◌};
    ghost use Rattle.conn_key.specs.declared.place_table.PlaceError.TheVariants.{Memory};

    ghost from_gives = { λ _ e. e ≡ Memory };

    fn from(_: AllocError) -> PlaceError {
        PlaceError::Memory
    }
}

/// Which host has which place of a cache. A host is told by its key, any text, as `HOST:PORT`. A
/// host keeps its place until the place is given to another host, which happens only while the
/// place is unused.
#[derive(Drop)]
pub struct PlaceTable {
    /// The key of the host at each place that was given.
    hosts: IndexSet<String>,
    /// How many places the cache has.
    places: u32,
    /// The place at which the search for an unused one begins.
    from: u32,
}

impl Model for PlaceTable {
    ghost use Rattle.conn_key.specs.Hosts.{Hosts, keys_in, AreKept};

    ghost Value = { Hosts };

    ghost view = { λ table. record { keys = keys_in table.hosts; places = table.places } };

    ghost invariant = { λ table. AreKept (keys_in table.hosts) table.places table.from };
}

impl PlaceTable {
    /// No host has a place yet, of so many places.
    pub fn new(alloc: Global, places: u32) -> PlaceTable
        ensures { result ≡ record { keys = []; places = places } }
    {
        PlaceTable {
            hosts: IndexSet::new(alloc),
            places,
            from: 0,
        }
    }

    /// The place of the host with this key, if it has one.
    pub fn find(&self, key: &str) -> Option<u32>
        ensures { result ≡ place_of self.now key.now }
    {
        let place = place_in(&self.hosts, key)?;
        Some(place as u32)
    }

    /// Gives the host with this key a place: its own, or else the next one that no host was given,
    /// or else one that is unused.
    ///
    /// The errors come only for a host without a place: `Full` exactly if each place is given and
    /// in use, else `Memory`. After an error nothing has changed.
    ///
    /// A host that has a place is looked up by one hash. A change of host asks the cache for the
    /// places from the last changed one on, and around, until one is unused: so it asks for each
    /// place if all are in use.
    pub fn place<P: Places>(&mut self, key: &str, cache: &P) -> Result<u32, PlaceError>
        ensures gives { IfOk result (λ place.
            Gives (P.unused cache.now) self.old key.now place self.new) }
        ensures refuses { IfErr result (Refuses (P.unused cache.now) self.old key.now) }
        ensures unchanged { OnErr result (self.new ≡ self.old) }
    {
        if let Some(place) = place_in(&self.hosts, key) {
            return Ok(place as u32);
        }
        let given = self.hosts.len();
        if given < self.places as usize {
            append(&mut self.hosts, key)?;
            return Ok(given as u32);
        }
        let Some(place) = next_unused(cache, self.from, self.places) else {
            return Err(PlaceError::Full);
        };
        replace(&mut self.hosts, place as usize, key)?;
        self.from = place + 1;
        Ok(place)
    }

    /// The key of the host that has this place, if one has it.
    pub fn host(&self, place: u32) -> Option<&str>
        ensures { option_copied result ≡ slice_get self.now.keys place }
    {
        let host = self.hosts.get_index(place as usize)?;
        Some(host.as_str())
    }

    /// How many places were given to a host.
    pub fn len(&self) -> u32
        ensures { result ≡ length self.now.keys }
    {
        self.hosts.len() as u32
    }

    /// Whether no place was given to a host.
    pub fn is_empty(&self) -> bool
        ensures { result ≡ (length self.now.keys == 0) }
    {
        self.hosts.is_empty()
    }

    /// How many places the cache has.
    pub fn places(&self) -> u32
        ensures { result ≡ self.now.places }
    {
        self.places
    }
}

/// Where the key of a host stands.
#[inline(always)]
fn place_in(hosts: &IndexSet<String>, key: &str) -> Option<usize>
    ensures place { result ≡ position (bytes_eq key.now) (keys_in hosts.now) }
    ensures there { IfSome result (λ place. place < length (keys_in hosts.now)) }
{
    hosts.get_index_of(key)
}

/// Adds the key of a host at the end.
fn append(hosts: &mut IndexSet<String>, key: &str) -> Result<(), AllocError>
    requires { position (bytes_eq key.now) (keys_in hosts.old) ≡ None }
    ensures ok { OnOk result (keys_in hosts.new ≡ keys_in hosts.old ++ key.now ∷ []) }
    ensures err { OnErr result (keys_in hosts.new ≡ keys_in hosts.old) }
{
    let host = String::from_str(*hosts.allocator(), key)?;
    hosts.insert_full(host)?;
    Ok(())
}

/// Puts the key of a host in the place of another's: it goes last, and as the other is removed, the
/// last one takes its place.
fn replace(hosts: &mut IndexSet<String>, place: usize, key: &str) -> Result<(), AllocError>
    requires absent { position (bytes_eq key.now) (keys_in hosts.old) ≡ None }
    requires there { place < length (keys_in hosts.old) }
    ensures ok { OnOk result (keys_in hosts.new ≡ slice_set (keys_in hosts.old) place key.now) }
    ensures err { OnErr result (keys_in hosts.new ≡ keys_in hosts.old) }
{
    append(hosts, key)?;
    let _ = hosts.swap_remove_index(place);
    Ok(())
}
