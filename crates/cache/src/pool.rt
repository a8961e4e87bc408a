//! The cache of one thread.

ghost use Rattle.std.specs.Prelude.{◌≡◌, ◌<◌, ◌≤◌, length, nat_lt, if◌then◌else◌};
ghost use Rattle.std.specs.Prelude.{IsSome, IfOk, IfErr, IfSome, IfNone, OnOk, OnErr};
ghost use Rattle.host_state.specs.Calls.{is_queued};
ghost use Rattle.host_state.specs.Counts.{snapshot_of};
ghost use Rattle.bundle.specs.Seats.{gone};
ghost use Rattle.bundle.specs.Lease.{HasItsStreams, UnclaimedAreStarts};
ghost use Rattle.cache_trait.specs.CacheCalls.{GivesBy, ClaimsBy};
ghost use Rattle.cache_trait.specs.CacheCalls.CacheCall.{refuses, gives_back, abandons, withdraws};
ghost use Rattle.cache_trait.specs.CacheCalls.CacheCall.{finds_strange_ticket};
ghost use Rattle.cache_trait.specs.Homes.{Gives, Claims};
ghost use Rattle.cache.specs.AllHosts.{IsAtRest};
ghost use Rattle.cache.specs.Calls.{after_prune, prune_count, after_limit_of};
ghost use Rattle.cache.specs.Pools.{AreInPlace, IsNewPool, IsMadeHere, IsTicketHere};
ghost use Rattle.cache.specs.Pools.{host_at, all_hosts};
ghost use Rattle.cache.specs.PoolCalls.{home_of, DidToPool, IsCallAtAll, IsReason};
ghost use Rattle.cache.specs.PoolCalls.{CutsHost, acquire_refusal};
ghost use Rattle.cache.specs.PoolCalls.{limit_refusal_at, cut_refusal_at};

use crate::hosts::Hosts;
use budget::{Limits, Refusal};
use bundle::{Acquired, Bundle, Claimed, Lease, MOST_HOSTS, Snapshot, Stray, Ticket};
use conn_log::{Entry, Log, Want};
use persistence::Facts;
use std::alloc::Global;
use std::marker::Model;

/// The connections of several hosts, with the streams of type `S` of those that no lease has, under
/// limits for each host, for the total and for what is kept idle. A host's site is its index. It
/// serves one thread, with a pass of its own, which is given up with it.
///
/// Between two calls a host is queued for room only if the total is at its limit and nothing is
/// idle at any host.
///
/// A call changes no stream of a connection that is open before and after it, but that of the
/// connection that it leases or takes back. Its contract is one record of
/// `specs/PoolCalls.antt` that tells all hosts after it from all hosts before it.
pub struct Pool<S: Drop> {
    hosts: Hosts<S>,
}

impl<S: Drop> Model for Pool<S> {
    ghost use Rattle.std.specs.Prelude.{◌≡◌, ◌<◌, [], ℕ, length};
    ghost use Rattle.cache.specs.AllHosts.{IsServed};
    ghost use Rattle.cache.specs.Pools.{PoolShown, all_hosts, host_at};

    ghost Value = { PoolShown S };

    ghost view = { λ pool. pool.hosts };

    ghost invariant = { λ pool. record {
      served : IsServed pool.hosts.limits (all_hosts pool.hosts);
      none_booked : (host : ℕ) → host < length pool.hosts.hosts →
          (host_at pool.hosts host).booked ≡ [];
    } };
}

impl<S: Drop> Drop for Pool<S> {
    fn drop(self) {
        drop(self.into_bundles());
    }
}

impl<S: Drop> Pool<S> {
    /// Makes a pool of so many hosts, without connections, under these limits.
    ///
    /// Refused, in this order, with [`Refusal::BadSite`] above 1,024 hosts, and with
    /// [`Refusal::Memory`] if memory runs out.
    pub fn new(alloc: Global, limits: Limits, hosts: u32) -> Result<Pool<S>, Refusal>
        ensures new_pool { IfOk result (IsNewPool limits hosts) }
        ensures few { OnOk result (hosts ≤ 1024) }
        ensures refused { IfErr result (λ refusal. refusal
            ≡ (if nat_lt 1024 hosts then Refusal.BadSite else Refusal.Memory)) }
    {
        if hosts > MOST_HOSTS {
            return Err(Refusal::BadSite);
        }
        let hosts = Hosts::new(alloc, limits, hosts)?;
        Ok(Pool { hosts })
    }

    /// How many hosts there are.
    pub fn hosts(&self) -> u32
        ensures { result ≡ length self.now.hosts }
    {
        self.hosts.len() as u32
    }

    /// States, for proofs, that all hosts are at rest, each in its place. Does nothing at run time.
    pub fn is_at_rest(&self)
        ensures at_rest { IsAtRest self.now.limits (all_hosts self.now) }
        ensures places { AreInPlace self.now }
    {
        self.hosts.is_lawful();
    }

    /// A host's log; `None` if there is no such site.
    ///
    /// Each log is legal, and quiet with its mark; the queue has exactly the hosts that are queued,
    /// each once; the total and the number kept are the sums of the logs' counts, within their
    /// limits; and a host is queued only if the total is at its limit and nothing is idle anywhere.
    /// Each host is in its place, with the pool's terms; its streams, and its starts that are
    /// granted and not claimed, are those that its log tells of.
    pub fn log(&self, site: u32) -> Option<&Log>
        ensures at_rest { IsAtRest self.now.limits (all_hosts self.now) }
        ensures places { AreInPlace self.now }
        ensures there { IfSome result (λ log. (site < length self.now.hosts)
            × (log.now.entries ≡ (host_at self.now site).log)) }
        ensures cut_away { IfSome result (λ log.
            log.now.cut_away ≡ (host_at self.now site).cut_away) }
        ensures has_streams { IfSome result (λ log. HasItsStreams (host_at self.now site)) }
        ensures unclaimed { IfSome result (λ log. UnclaimedAreStarts (host_at self.now site)) }
        ensures not_there { IfNone result (length self.now.hosts ≤ site) }
    {
        self.hosts.log(site)
    }

    /// The counts of a host, and whether it is queued. [`Refusal::BadSite`] exactly if there is no
    /// such site.
    pub fn look(&self, site: u32) -> Result<Snapshot, Refusal>
        ensures there { IfOk result (λ counts. (site < length self.now.hosts)
            × (let host = host_at self.now site in
            counts ≡ snapshot_of host.log (is_queued host.settings host.log))) }
        ensures not_there { IfErr result (λ refusal. (length self.now.hosts ≤ site)
            × (refusal ≡ Refusal.BadSite)) }
    {
        match self.hosts.look(site) {
            Some(counts) => Ok(counts),
            None => Err(Refusal::BadSite),
        }
    }

    /// How many leases were spent with the pool's pass at a host. The clause counts the starts that
    /// are gone in the log: that the pass has spent as many is an invariant. `None` if there is no
    /// such site.
    pub fn spent(&self, site: u32) -> Option<u64>
        ensures there { IfSome result (λ spent. (site < length self.now.hosts)
            × (spent ≡ gone (host_at self.now site).log)) }
        ensures not_there { IfNone result (length self.now.hosts ≤ site) }
    {
        self.hosts.spent(site)
    }

    /// Leases the newest idle connection of the host that fits the transfer's want, or a new one.
    /// Before that it closes idle ones of its lane that are too old, unless the want is a new one.
    /// At the host's limit it evicts the host's oldest idle connection, and at the total's limit
    /// the oldest of all. If none is idle, or other transfers wait at the host, the transfer waits
    /// behind them. `now` is in seconds.
    ///
    /// Refused, in this order, with [`Refusal::BadSite`] if there is no such site, with
    /// [`Refusal::TransferBusy`] if the transfer holds a connection or waits there, with
    /// [`Refusal::Exhausted`] if the connection numbers that are left are those that the waiting
    /// transfers may need, and with [`Refusal::Memory`] if memory runs out.
    #[inline(always)]
    pub fn acquire(&mut self, site: u32, want: Want, now: u64) -> Result<Acquired<S>, Refusal>
        ensures given { IfOk result (Gives (home_of self.new) site want) }
        ensures done { IfOk result (GivesBy (DidToPool self.old self.new) now) }
        ensures refused { IfErr result (λ refusal.
            DidToPool self.old self.new (refuses site want now refusal)) }
        ensures due { IfSome (acquire_refusal self.old site want) (λ reason. result ≡ Err reason) }
        ensures stays { home_of self.new ≡ home_of self.old }
    {
        if site as usize >= self.hosts.len() {
            return Err(Refusal::BadSite);
        }
        // Matched before turns are taken: a reuse matched after them would first join all other
        // ways to a lease.
        match self.hosts.acquire(site, want, now) {
            Ok(Acquired::Lease(lease)) => {
                self.hosts.serve(now);
                Ok(Acquired::Lease(lease))
            }
            Ok(Acquired::Wait(ticket)) => {
                self.hosts.serve(now);
                Ok(Acquired::Wait(ticket))
            }
            Err(refusal) => Err(refusal),
        }
    }

    /// Gives the transfer the connection that it was granted, with its stream unless it is new, or
    /// the ticket while the transfer still waits. No event is logged.
    ///
    /// A ticket comes back in a [`Stray`] if its transfer neither waits there with its want nor has
    /// yet to claim a connection that it was granted for that want.
    ///
    /// Asked of the caller: the ticket was made here.
    pub fn claim(&mut self, ticket: Ticket) -> Result<Claimed<S>, Stray<Ticket>>
        requires here { IsTicketHere self.old ticket }
        ensures claimed { IfOk result (Claims (home_of self.new) ticket) }
        ensures done { IfOk result (ClaimsBy (DidToPool self.old self.new)) }
        ensures strange { OnErr result (DidToPool self.old self.new
            (finds_strange_ticket ticket)) }
        ensures back { IfErr result (λ stray. stray ≡ ticket) }
        ensures stays { home_of self.new ≡ home_of self.old }
    {
        self.hosts.claim(ticket)
    }

    /// Takes a connection back with the facts of its response. If it persists and its want allows
    /// reuse, it goes to the first transfer that waits at its host, or one is opened in its place.
    /// If no transfer waits it is idle from then on, with its stream; if the pool keeps as many as
    /// it may, the oldest of all is evicted before. If its use ends it is closed, and one is opened
    /// for the first transfer that waits at its host. Then hosts that are queued take turns. `now`
    /// is in seconds. It takes no memory.
    ///
    /// Asked of the caller: the lease was made here, so that it is no stranger, and it has its
    /// stream.
    #[inline(always)]
    pub fn give_back(&mut self, lease: Lease<S>, facts: Facts, now: u64)
        requires here { IsMadeHere self.old lease }
        requires stream { IsSome lease.stream }
        ensures { DidToPool self.old self.new (gives_back lease facts now) }
    {
        self.hosts.give_back(lease, facts, now);
        self.hosts.serve(now);
    }

    /// Closes a leased connection without a response, and opens one for the first transfer that
    /// waits at its host. Then hosts that are queued take turns. `now` is in seconds. It takes no
    /// memory.
    ///
    /// Asked of the caller: the lease was made here, so that it is no stranger.
    pub fn abandon(&mut self, lease: Lease<S>, now: u64)
        requires here { IsMadeHere self.old lease }
        ensures { DidToPool self.old self.new (abandons lease now) }
    {
        self.hosts.abandon(lease, now);
        self.hosts.serve(now);
    }

    /// Takes a ticket back: its transfer waits no more, or the connection that it was granted is
    /// closed, and one is opened for the first transfer that waits at its host. Then hosts that are
    /// queued take turns. `now` is in seconds. It takes no memory.
    ///
    /// A ticket comes back in a [`Stray`] if its transfer neither waits there with its want nor has
    /// yet to claim a connection that it was granted for that want; nothing changed then.
    ///
    /// Asked of the caller: the ticket was made here.
    pub fn withdraw(&mut self, ticket: Ticket, now: u64) -> Result<(), Stray<Ticket>>
        requires here { IsTicketHere self.old ticket }
        ensures ok { OnOk result (DidToPool self.old self.new (withdraws ticket now)) }
        ensures strange { OnErr result (DidToPool self.old self.new
            (finds_strange_ticket ticket)) }
        ensures back { IfErr result (λ stray. stray ≡ ticket) }
        ensures stays { home_of self.new ≡ home_of self.old }
    {
        self.hosts.withdraw(ticket, now)?;
        self.hosts.serve(now);
        Ok(())
    }

    /// Closes every idle connection, at all hosts, that has been idle for longer than `max_age`, or
    /// open for longer than `max_life` unless that is 0, in seconds; how many it closed. Then hosts
    /// that are queued take turns. `now` is in seconds. It takes no memory.
    pub fn prune(&mut self, now: u64, max_age: u64, max_life: u64) -> u32
        ensures done { let all = all_hosts self.old in
            let end = after_prune self.old.limits now max_age max_life all in
            IsCallAtAll end self.old self.new }
        ensures count { result ≡ prune_count now max_age max_life (all_hosts self.old) }
    {
        let closed = self.hosts.prune(now, max_age, max_life);
        self.hosts.serve(now);
        closed
    }

    /// Keeps connections alive if their protocol has a way to. HTTP/1.1 has none, so it changes
    /// nothing and answers 0 (`curl_easy_upkeep`).
    pub fn upkeep(&mut self) -> u32
        ensures none { result ≡ 0 }
        ensures same { self.new ≡ self.old }
    {
        0
    }

    /// Changes the most connections that the host may have open; 0 is kept as 65,535. If more are
    /// open, it first closes as many of those that are idle for the longest. Then, unless the host
    /// is queued, it opens one for each transfer that waits there, as long as the host and the
    /// total have room; if the total has none for one of them, the host is queued. Then hosts that
    /// are queued take turns. `now` is in seconds.
    ///
    /// Refused, in this order, with [`Refusal::BadSite`] if there is no such site, with
    /// [`Refusal::BadLimit`] above 65,535, with [`Refusal::Busy`] if more connections than that are
    /// held there, and with [`Refusal::Memory`] if memory runs out.
    pub fn set_host_limit(&mut self, site: u32, limit: u32, now: u64) -> Result<(), Refusal>
        ensures done { let all = all_hosts self.old in
            let end = after_limit_of self.old.limits site limit now all in
            OnOk result (IsCallAtAll end self.old self.new) }
        ensures refused { let due = limit_refusal_at self.old site limit in
            IfErr result (λ reason. (self.new ≡ self.old) × IsReason due reason) }
        ensures due { let due = limit_refusal_at self.old site limit in
            IfSome due (λ reason. result ≡ Err reason) }
    {
        if site as usize >= self.hosts.len() {
            return Err(Refusal::BadSite);
        }
        self.hosts.set_host_limit(site, limit, now)?;
        self.hosts.serve(now);
        Ok(())
    }

    /// Cuts a host's log: hands out the entries since its last cut, oldest first, and keeps the
    /// facts that later entries depend on. The entries of all cuts of a host, one after the other,
    /// are its whole log, which contracts speak of. Nothing else changes: no event is logged.
    ///
    /// Refused, in this order, with [`Refusal::BadSite`] if there is no such site, with
    /// [`Refusal::Exhausted`] if more than 9,223,372,036,854,775,807 entries of the host would be
    /// cut away, and with [`Refusal::Memory`] if memory runs out; then nothing changes.
    pub fn cut(&mut self, site: u32) -> Result<Vec<Entry>, Refusal>
        ensures done { IfOk result (λ part. CutsHost site self.old self.new part.items) }
        ensures refused { IfErr result (λ reason. (self.new ≡ self.old)
            × (reason ≡ cut_refusal_at self.old site)) }
    {
        if site as usize >= self.hosts.len() {
            return Err(Refusal::BadSite);
        }
        self.hosts.cut(site)
    }

    /// The bundles of the hosts, by index; the pool's pass is given up.
    pub fn into_bundles(self) -> Vec<Bundle<S>>
        ensures { result.items ≡ self.hosts }
    {
        let Pool { hosts } = self;
        hosts.into_bundles()
    }
}
