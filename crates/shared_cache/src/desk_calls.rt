//! A desk as the cache that transfers use, whichever cache it is.

use crate::desk::Desk;
use crate::desk_returns::LastReturned;
use crate::names::Names;
use budget::Refusal;
use bundle::{Acquired, Claimed, Lease, Stray, Ticket};
use cache_trait::Cache;
use conn_log::Want;
use persistence::Facts;
use std::sync::Wait;

/// What a desk does at each call is what its pass is told there. No lease is a stranger to it.
impl<S: Drop, N: Names, R: Wait> Cache<S> for Desk<'_, S, N, R> {
    ghost use Rattle.std.specs.Prelude.{◌≡◌, IsSome, OnOk, OnErr};
    ghost use Rattle.cache_trait.specs.CacheCalls.CacheCall.{gives_back, abandons};
    ghost use Rattle.cache_trait.specs.CacheCalls.CacheCall.{finds_strange_lease};
    ghost use Rattle.cache_trait.specs.Homes.{IsMadeBy};
    ghost use Rattle.shared_cache.specs.DeskCalls.{DidAtDesk};

    ghost home = { λ desk. N.names.hosts };

    ghost did = { λ old new call. DidAtDesk N.names old new call };

    #[inline(always)]
    fn acquire(&mut self, site: u32, want: Want, now: u64) -> Result<Acquired<S>, Refusal> {
        self.cache.acquire(self.rt, site, want, now, &mut self.pass)
    }

    fn claim(&mut self, ticket: Ticket) -> Result<Claimed<S>, Stray<Ticket>> {
        self.cache.claim(self.rt, ticket, &mut self.pass)
    }

    // The trait's clauses are said again: they don't reach an answer with a stray lease.
    #[inline(always)]
    fn give_back(&mut self, lease: Lease<S>, facts: Facts, now: u64) -> Result<(), Stray<Lease<S>>>
        requires here { IsMadeBy N.names.hosts lease.site lease.tables }
        requires stream { IsSome lease.stream }
        ensures ok { OnOk result (DidAtDesk N.names self.old self.new
            (gives_back lease facts now)) }
        ensures strange { OnErr result (DidAtDesk N.names self.old self.new
            (finds_strange_lease lease)) }
        ensures stays { N.names.hosts ≡ N.names.hosts }
    {
        let (returned, lease) = LastReturned::of(lease);
        self.returned = returned;
        self.cache
            .give_back(self.rt, lease, facts, now, &mut self.pass);
        Ok(())
    }

    fn abandon(&mut self, lease: Lease<S>, now: u64) -> Result<(), Stray<Lease<S>>>
        requires here { IsMadeBy N.names.hosts lease.site lease.tables }
        ensures ok { OnOk result (DidAtDesk N.names self.old self.new (abandons lease now)) }
        ensures strange { OnErr result (DidAtDesk N.names self.old self.new
            (finds_strange_lease lease)) }
        ensures stays { N.names.hosts ≡ N.names.hosts }
    {
        self.cache.abandon(self.rt, lease, now, &mut self.pass);
        Ok(())
    }

    fn withdraw(&mut self, ticket: Ticket, now: u64) -> Result<(), Stray<Ticket>> {
        self.cache.withdraw(self.rt, ticket, now, &mut self.pass)
    }
}
