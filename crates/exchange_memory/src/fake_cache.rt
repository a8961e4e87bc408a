//! A cache over a pool, which users' tests drive transfers with: it notes what they gave back.

ghost use Rattle.std.specs.Prelude.{◌≡◌, IsSome, IfOk, IfErr, IfSome, None, nat_lt, if◌then◌else◌};
ghost use Rattle.cache_trait.specs.Homes.{IsMadeBy};
ghost use Rattle.cache.specs.Pools.{IsNewPool, StaysHosts, StaysPool};
ghost use Rattle.cache.specs.PoolCalls.{home_of};

use crate::calls::{Calls, NEVER};
use crate::returned::Returned;
use budget::{Limits, Refusal};
use bundle::{Acquired, Claimed, Lease, Stray, Ticket};
use cache::Pool;
use cache_trait::Cache;
use conn_log::Want;
use persistence::Facts;
use std::alloc::Global;
use std::marker::Model;
use std::snapshot::Snapshot;

// A lease of another transfer, which will be given back with these facts at that moment.
struct Other<W> {
    lease: Lease<W>,
    facts: Facts,
    now: u64,
}

/// A pool that counts the leases and tickets that are out, and notes what was given back last.
/// Contracts see the wire of that, too, as it then was. One transfer beside them may have a lease
/// meanwhile. It has to be closed.
pub struct FakeCache<W: Drop> {
    pool: Pool<W>,
    acquires: Calls<Refusal>,
    other: Option<Other<W>>,
    // The claims that have still to wait before the other lease is given back; 0 if it is kept.
    waits: u32,
    leases: u64,
    tickets: u64,
    last: Option<Returned>,
    // The lease that was given back last, as it then was: contracts alone see it.
    returned: Option<Snapshot<Lease<W>>>,
}

impl<W: Drop> Model for FakeCache<W> {
    ghost use Rattle.std.specs.Prelude.{IsSome, IfSome};
    ghost use Rattle.cache_trait.specs.Homes.{IsMadeBy};
    ghost use Rattle.cache.specs.PoolCalls.{home_of};
    ghost use Rattle.exchange_memory.specs.FakeCaches.{FakeShown, wire_of};

    ghost Value = { FakeShown W };

    ghost view = { λ cache. record {
      pool = cache.pool;
      acquires = cache.acquires;
      leases = cache.leases;
      tickets = cache.tickets;
      last = cache.last;
      wire = wire_of cache.returned;
    } };

    ghost invariant = { λ cache. record {
      here : IfSome cache.other (λ other. IsMadeBy (home_of cache.pool) other.lease.site
          other.lease.tables);
      stream : IfSome cache.other (λ other. IsSome other.lease.stream);
    } };
}

impl<W: Drop> FakeCache<W> {
    /// A cache over a new pool of so many hosts, under these limits.
    ///
    /// # Errors
    ///
    /// What [`Pool::new`] refuses.
    pub fn new(alloc: Global, limits: Limits, hosts: u32) -> Result<FakeCache<W>, Refusal>
        ensures pool { IfOk result (λ cache. IsNewPool limits hosts cache.pool) }
        ensures none { IfOk result (λ cache. (cache.leases ≡ 0) × (cache.tickets ≡ 0)) }
        ensures last { IfOk result (λ cache. (cache.last ≡ None) × (cache.wire ≡ None)) }
        ensures err { IfErr result (λ refusal. refusal
            ≡ (if nat_lt 1024 hosts then Refusal.BadSite else Refusal.Memory)) }
    {
        let pool = Pool::new(alloc, limits, hosts)?;
        Ok(FakeCache::over(pool))
    }

    /// A cache over that pool.
    pub fn over(pool: Pool<W>) -> FakeCache<W>
        ensures pool { result.pool ≡ pool }
        ensures none { (result.leases ≡ 0) × (result.tickets ≡ 0) }
        ensures last { (result.last ≡ None) × (result.wire ≡ None) }
    {
        FakeCache {
            pool,
            acquires: Calls::with_halt(NEVER, Refusal::Memory),
            other: None,
            waits: 0,
            leases: 0,
            tickets: 0,
            last: None,
            returned: None,
        }
    }

    /// The same, but another transfer has that lease until the cache is closed: it is given back
    /// with these facts at that moment.
    pub fn with_other(pool: Pool<W>, lease: Lease<W>, facts: Facts, now: u64) -> FakeCache<W>
        requires here { IsMadeBy (home_of pool) lease.site lease.tables }
        requires stream { IsSome lease.stream }
        ensures pool { result.pool ≡ pool }
        ensures none { (result.leases ≡ 0) × (result.tickets ≡ 0) }
        ensures last { (result.last ≡ None) × (result.wire ≡ None) }
    {
        FakeCache {
            pool,
            acquires: Calls::with_halt(NEVER, Refusal::Memory),
            other: Some(Other { lease, facts, now }),
            waits: 0,
            leases: 0,
            tickets: 0,
            last: None,
            returned: None,
        }
    }

    /// Another transfer gives its lease back once so many claims, one at least, were answered that
    /// they have still to wait.
    pub fn release_after(&mut self, claims: u32)
        ensures { self.new ≡ self.old }
    {
        self.waits = claims.max(1);
    }

    /// At that acquire, counted from one, the cache answers this refusal, and its pool isn't asked.
    pub fn refuse_acquire(&mut self, nth: u64, refusal: Refusal)
        ensures { self.new ≡ record self.old {
          acquires = record { count = 0; halts_at = nth; halt = refusal };
        } }
    {
        self.acquires = Calls::with_halt(nth, refusal);
    }

    /// Its pool, whose logs tell what happened.
    pub fn pool(&self) -> &Pool<W>
        ensures { result.now ≡ self.now.pool }
    {
        &self.pool
    }

    /// What was given back last.
    pub fn last_return(&self) -> Option<Returned>
        ensures { result ≡ self.now.last }
    {
        self.last
    }

    /// How many leases are out; the count stays at the greatest `u64`.
    pub fn leases(&self) -> u64
        ensures { result ≡ self.now.leases }
    {
        self.leases
    }

    /// How many tickets are out; the count stays at the greatest `u64`.
    pub fn tickets(&self) -> u64
        ensures { result ≡ self.now.tickets }
    {
        self.tickets
    }

    /// Gives back what another transfer still has. What is left is the pool.
    pub fn close(self) -> Pool<W>
        ensures hosts { StaysHosts self.pool result }
        ensures stays { StaysPool self.pool result }
    {
        let FakeCache {
            mut pool,
            acquires: _,
            other,
            waits: _,
            leases: _,
            tickets: _,
            last: _,
            returned: _,
        } = self;
        release(&mut pool, other);
        pool
    }

    // Counts a claim that has still to wait.
    fn count_wait(&mut self)
        ensures acquires { self.new.acquires ≡ self.old.acquires }
        ensures leases { self.new.leases ≡ self.old.leases }
        ensures tickets { self.new.tickets ≡ self.old.tickets }
        ensures last { self.new.last ≡ self.old.last }
        ensures wire { self.new.wire ≡ self.old.wire }
        ensures hosts { StaysHosts self.old.pool self.new.pool }
        ensures stays { StaysPool self.old.pool self.new.pool }
    {
        if self.waits == 1 {
            release(&mut self.pool, self.other.take());
        }
        self.waits = self.waits.saturating_sub(1);
    }
}

// Gives back what another transfer has.
fn release<W: Drop>(pool: &mut Pool<W>, other: Option<Other<W>>)
    requires here { IfSome other (λ other. IsMadeBy (home_of pool.old) other.lease.site
        other.lease.tables) }
    requires stream { IfSome other (λ other. IsSome other.lease.stream) }
    ensures hosts { StaysHosts pool.old pool.new }
    ensures stays { StaysPool pool.old pool.new }
{
    if let Some(Other { lease, facts, now }) = other {
        pool.give_back(lease, facts, now);
    }
}

impl<W: Drop> Cache<W> for FakeCache<W> {
    ghost use Rattle.std.specs.Prelude.{◌≡◌, IsSome, OnOk, OnErr};
    ghost use Rattle.cache_trait.specs.CacheCalls.CacheCall.{gives_back, abandons};
    ghost use Rattle.cache_trait.specs.Homes.{IsMadeBy};
    ghost use Rattle.cache.specs.PoolCalls.{home_of};
    ghost use Rattle.exchange_memory.specs.FakeCaches.{DidToFake};

    ghost home = { λ cache. home_of cache.pool };

    ghost did = { DidToFake };

    fn acquire(&mut self, site: u32, want: Want, now: u64) -> Result<Acquired<W>, Refusal> {
        if let Some(refusal) = self.acquires.next() {
            return Err(refusal);
        }
        match Cache::acquire(&mut self.pool, site, want, now) {
            Ok(Acquired::Lease(lease)) => {
                self.leases = self.leases.saturating_add(1);
                Ok(Acquired::Lease(lease))
            }
            Ok(Acquired::Wait(ticket)) => {
                self.tickets = self.tickets.saturating_add(1);
                Ok(Acquired::Wait(ticket))
            }
            Err(refusal) => Err(refusal),
        }
    }

    fn claim(&mut self, ticket: Ticket) -> Result<Claimed<W>, Stray<Ticket>> {
        match Cache::claim(&mut self.pool, ticket) {
            Ok(Claimed::Lease(lease)) => {
                self.tickets = self.tickets.saturating_sub(1);
                self.leases = self.leases.saturating_add(1);
                Ok(Claimed::Lease(lease))
            }
            Ok(Claimed::Still(ticket)) => {
                self.count_wait();
                Ok(Claimed::Still(ticket))
            }
            Err(stray) => {
                self.tickets = self.tickets.saturating_sub(1);
                Err(stray)
            }
        }
    }

    fn give_back(&mut self, lease: Lease<W>, facts: Facts, now: u64) -> Result<(), Stray<Lease<W>>>
        requires here { IsMadeBy (home_of self.old.pool) lease.site lease.tables }
        requires stream { IsSome lease.stream }
        ensures ok { OnOk result (DidToFake self.old self.new (gives_back lease facts now)) }
        ensures strange { OnErr result ⊥ }
        ensures stays { home_of self.new.pool ≡ home_of self.old.pool }
    {
        self.leases = self.leases.saturating_sub(1);
        self.last = Some(Returned {
            site: lease.site(),
            facts,
        });
        self.returned = Some(Snapshot::of(&lease));
        Cache::give_back(&mut self.pool, lease, facts, now)
    }

    fn abandon(&mut self, lease: Lease<W>, now: u64) -> Result<(), Stray<Lease<W>>>
        requires here { IsMadeBy (home_of self.old.pool) lease.site lease.tables }
        ensures ok { OnOk result (DidToFake self.old self.new (abandons lease now)) }
        ensures strange { OnErr result ⊥ }
        ensures stays { home_of self.new.pool ≡ home_of self.old.pool }
    {
        self.leases = self.leases.saturating_sub(1);
        Cache::abandon(&mut self.pool, lease, now)
    }

    fn withdraw(&mut self, ticket: Ticket, now: u64) -> Result<(), Stray<Ticket>> {
        self.tickets = self.tickets.saturating_sub(1);
        Cache::withdraw(&mut self.pool, ticket, now)
    }
}
