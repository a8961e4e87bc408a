//! A pool as the cache that transfers use, whichever cache it is.

use crate::pool::Pool;
use budget::Refusal;
use bundle::{Acquired, Claimed, Lease, Stray, Ticket};
use cache_trait::Cache;
use conn_log::Want;
use persistence::Facts;

/// Each call does what the pool's own method says. No lease is a stranger to a pool.
impl<S: Drop> Cache<S> for Pool<S> {
    ghost use Rattle.std.specs.Prelude.{◌≡◌, IsSome, OnOk, OnErr};
    ghost use Rattle.cache_trait.specs.CacheCalls.CacheCall.{gives_back, abandons};
    ghost use Rattle.cache_trait.specs.Homes.{IsMadeBy};
    ghost use Rattle.cache.specs.PoolCalls.{home_of, DidToPool};

    ghost home = { λ pool. home_of pool };

    ghost did = { DidToPool };

    #[inline(always)]
    fn acquire(&mut self, site: u32, want: Want, now: u64) -> Result<Acquired<S>, Refusal> {
        Pool::acquire(self, site, want, now)
    }

    fn claim(&mut self, ticket: Ticket) -> Result<Claimed<S>, Stray<Ticket>> {
        Pool::claim(self, ticket)
    }

    #[inline(always)]
    fn give_back(&mut self, lease: Lease<S>, facts: Facts, now: u64) -> Result<(), Stray<Lease<S>>>
        requires here { IsMadeBy (home_of self.old) lease.site lease.tables }
        requires stream { IsSome lease.stream }
        ensures ok { OnOk result (DidToPool self.old self.new (gives_back lease facts now)) }
        ensures strange { OnErr result ⊥ }
        ensures stays { home_of self.new ≡ home_of self.old }
    {
        Pool::give_back(self, lease, facts, now);
        Ok(())
    }

    fn abandon(&mut self, lease: Lease<S>, now: u64) -> Result<(), Stray<Lease<S>>>
        requires here { IsMadeBy (home_of self.old) lease.site lease.tables }
        ensures ok { OnOk result (DidToPool self.old self.new (abandons lease now)) }
        ensures strange { OnErr result ⊥ }
        ensures stays { home_of self.new ≡ home_of self.old }
    {
        Pool::abandon(self, lease, now);
        Ok(())
    }

    fn withdraw(&mut self, ticket: Ticket, now: u64) -> Result<(), Stray<Ticket>> {
        Pool::withdraw(self, ticket, now)
    }
}
