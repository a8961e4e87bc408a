ghost use Rattle.std.specs.Prelude.{◌≡◌, [], length, slice_get, option_copied, IsTrue, ◌↔◌};
ghost use Rattle.std.specs.Prelude.{IfSome, IfOk, IfErr, OnOk, OnErr, string_bytes};
ghost use Rattle.std.specs.Result.{IsOkUnless};
ghost use Rattle.std.specs.HashMap.{IsUnchanged};
ghost use Rattle.conn_key.specs.Site.{site_of};
ghost use Rattle.conn_key.specs.Sites.{index_of, index_or_next, with_site, IsSiteList, RefusesSite};
ghost use Rattle.conn_key.specs.Index.{Notes, NotesHost, IsSameIndex};

use crate::site::Site;
use crate::target::Target;
use std::alloc::{AllocError, Global};
use std::collections::HashMap;
use std::marker::Model;
use thiserror::Error;

/// The most sites that a list takes.
const MOST_SITES: usize = 1024;

/// Why a site wasn't added: there is no memory for it, or it is new and 1,024 are there.
#[derive(Clone, Copy, Debug, PartialEq, Eq, Error)]
pub enum SitesFault {
    #[error("out of memory")]
    Memory,
    #[error("more than 1024 sites")]
    TooMany,
}

impl From<AllocError> for SitesFault {
    ghost use Rattle.std.specs.Prelude.{◌≡◌};
    ghost use Rattle.conn_key.specs.declared.sites.SitesFault.TheVariants.{Memory};

    ghost from_gives = { λ _ e. e ≡ Memory };

    fn from(_: AllocError) -> SitesFault {
        SitesFault::Memory
    }
}

/// Distinct sites in the order in which they were added, at most 1,024 of them. Contracts see the
/// list of the sites.
#[derive(Drop)]
pub struct Sites {
    list: Vec<Site>,
    /// The index of each site, by its port and then its host, so that finding one costs two hashes.
    places: HashMap<u16, HashMap<String, u32>>,
}

impl Model for Sites {
    ghost use Rattle.std.specs.Prelude.{ℕ, List, vec_capacity};
    ghost use Rattle.conn_key.specs.Index.{IsIndexed};

    ghost Value = { List (List ℕ × ℕ) };

    ghost view = { λ s. s.list.items };

    ghost invariant = { λ s. IsIndexed s.places s.list.items (vec_capacity s.list) };
}

impl Sites {
    /// No sites, with room for all that may come.
    ///
    /// The only error is `Memory`.
    pub fn new(alloc: Global) -> Result<Sites, SitesFault>
        ensures empty { IfOk result (λ sites. sites ≡ []) }
        ensures memory { IsOkUnless result SitesFault.Memory }
    {
        let list = Vec::with_capacity(alloc, MOST_SITES)?;
        Ok(Sites {
            list,
            places: HashMap::new(alloc),
        })
    }

    /// The index of the target's site: the one that it has, or the next, at which it then stands.
    ///
    /// Errors, only where the site is new: `TooMany` where 1,024 sites are there, else `Memory`.
    /// After an error nothing has changed.
    pub fn add(&mut self, target: &Target) -> Result<u32, SitesFault>
        ensures index { IfOk result (λ i. i ≡ index_or_next self.old (site_of target.now)) }
        ensures stands { IfOk result (λ i. slice_get self.new i ≡ Some (site_of target.now)) }
        ensures added { OnOk result (self.new ≡ with_site self.old (site_of target.now)) }

        ensures refused { IfErr result (RefusesSite self.old (site_of target.now)) }
        ensures unchanged { OnErr result (self.new ≡ self.old) }

        ensures valid { IsSiteList self.new }
    {
        if let Some(index) = self.find(target) {
            return Ok(index);
        }
        if self.list.len() == MOST_SITES {
            return Err(SitesFault::TooMany);
        }
        let index = self.list.len() as u32;
        let alloc = *self.list.allocator();
        let host = String::from_str(alloc, target.host.as_str())?;
        note(alloc, &mut self.places, target, index)?;
        self.list.push_reserved(Site {
            host,
            port: target.port,
        });
        Ok(index)
    }

    /// The index of the target's site, if it is there.
    pub fn find(&self, target: &Target) -> Option<u32>
        ensures index { result ≡ index_of self.now (site_of target.now) }
        ensures stands { IfSome result (λ i. slice_get self.now i ≡ Some (site_of target.now)) }
        ensures valid { IsSiteList self.now }
    {
        let hosts = self.places.get(&target.port)?;
        hosts.get(target.host.as_str()).copied()
    }

    /// How many sites there are.
    pub fn len(&self) -> usize
        ensures count { result ≡ length self.now }
        ensures valid { IsSiteList self.now }
    {
        self.list.len()
    }

    /// Whether there is no site.
    pub fn is_empty(&self) -> bool
        ensures { IsTrue result ↔ (self.now ≡ []) }
    {
        self.list.is_empty()
    }

    /// The site with this index, if there is one.
    pub fn get(&self, site: u32) -> Option<&Site>
        ensures { option_copied result ≡ slice_get self.now site }
    {
        self.list.get(site as usize)
    }
}

/// Notes the index of the target's site.
fn note(
    alloc: Global,
    places: &mut HashMap<u16, HashMap<String, u32>>,
    target: &Target,
    index: u32,
) -> Result<(), AllocError>
    ensures ok { OnOk result (Notes places.old places.new (site_of target.now) index) }
    ensures err { OnErr result (IsSameIndex places.old places.new) }
{
    let host = String::from_str(alloc, target.host.as_str())?;
    let hosts = places.entry(target.port)?.or_insert(HashMap::new(alloc));
    note_host(hosts, host, index)?;
    Ok(())
}

/// Notes the index of the site with this host, among those of one port.
fn note_host(hosts: &mut HashMap<String, u32>, host: String, index: u32) -> Result<(), AllocError>
    ensures ok { OnOk result (NotesHost hosts.old hosts.new (string_bytes host) index) }
    ensures err { OnErr result (IsUnchanged hosts.old hosts.new) }
{
    hosts.insert(host, index)?;
    Ok(())
}
