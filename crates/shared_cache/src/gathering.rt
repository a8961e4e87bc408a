//! The end of a shared cache: its account.

ghost use Rattle.std.specs.Prelude.{◌≡◌, ◌+◌, ◌<◌, ◌≤◌, length, map, true, false, vec_len, []};
ghost use Rattle.std.specs.Prelude.{vec_capacity, IfOk, IfErr, IfSome, IfNone};
ghost use Rattle.std.specs.List.{All};
ghost use Rattle.budget.specs.Words.{whole, held_by as held_at};
ghost use Rattle.budget.specs.Permits.{held};
ghost use Rattle.conn_log.specs.Starts.{start_count};
ghost use Rattle.conn_log.specs.Waiting.{waiting};
ghost use Rattle.host_state.specs.Calls.{leased_len};
ghost use Rattle.bundle.specs.Passes.{spent_with};
ghost use Rattle.shared_cache.specs.Passes.{IsPassOf};
ghost use Rattle.shared_cache.specs.Counting.{host_count, logs_of};
ghost use Rattle.shared_cache.specs.Gathering.{IsGathered, IsFree, IsSettledAt, AreSettledFrom};
ghost use Rattle.shared_cache.specs.Gathering.{IsAgainstGathering, hosts_under};
ghost use Rattle.shared_cache.specs.Gathering.{open_at_all, idle_at_all};

use crate::cache::SharedCache;
use crate::gathered::{Gathered, HostCount};
use crate::locked::LockedHost;
use crate::names::Names;
use budget::{BudgetSeat, Pass, Refusal, WordBudget};
use bundle::{Asker, Bundle, Did};
use std::alloc::Global;
use std::marker::PhantomData;
use std::sync::Mutex;

/// What a cache that is not gathered hands back: itself, the passes, and why.
type NotGathered<S, N> = (SharedCache<S, N>, Vec<Pass<Did>>, Refusal);

impl<S: Drop, N: Names> SharedCache<S, N> {
    /// The account of the cache at its end, when nothing is held and nobody waits: what happened at
    /// each host, counted from its log, and how many connections are left open, which close with
    /// it. The seats of all hosts are joined, so that the limit words are what they hold; each
    /// host's lease word is read, and is 0; and at each host the passes have spent as many leases
    /// as its log has starts: no log forgot or invented one. The passes are given up.
    ///
    /// Refused, in this order, with [`Refusal::Busy`] where so many connections or transfers are
    /// held or waiting, with [`Refusal::PassesMissing`] where what the passes spent at a host does
    /// not add up to the leases that it gave (or a host is not in its place, which is never met),
    /// and with [`Refusal::Memory`] where memory runs out. The cache and the passes come back.
    ///
    /// Asked of the caller: the passes are this cache's.
    pub fn gather(
        self,
        alloc: Global,
        passes: Vec<Pass<Did>>,
    ) -> Result<Gathered<S>, NotGathered<S, N>>
        requires { All (IsPassOf N.names) passes.items }
        ensures ok { IfOk result (IsGathered N.names passes.items) }
        ensures err { IfErr result (λ back. back.1 ≡ passes) }
        ensures refused { IfErr result (λ back. IsAgainstGathering back.2) }
    {
        let mut cache = self;
        if let Some(reason) = cache.reason_against(&passes) {
            return Err((cache, passes, reason));
        }
        let hosts = cache.hosts.len();
        let Ok(open) = Vec::with_capacity(alloc, hosts) else {
            return Err((cache, passes, Refusal::Memory));
        };
        let Ok(locks) = Vec::with_capacity(alloc, hosts) else {
            return Err((cache, passes, Refusal::Memory));
        };
        let Ok(counts) = Vec::with_capacity(alloc, hosts) else {
            return Err((cache, passes, Refusal::Memory));
        };
        let Ok(bundles) = Vec::with_capacity(alloc, hosts) else {
            return Err((cache, passes, Refusal::Memory));
        };
        cache.take_apart(passes, open, locks, counts, bundles)
    }

    // The same, in room made before.
    fn take_apart(
        self,
        passes: Vec<Pass<Did>>,
        room: Vec<LockedHost<S, N>>,
        locks: Vec<Mutex<LockedHost<S, N>>>,
        counts: Vec<HostCount>,
        bundles: Vec<Bundle<S>>,
    ) -> Result<Gathered<S>, NotGathered<S, N>>
        requires passes { All (IsPassOf N.names) passes.items }
        requires no_hosts { room.items ≡ [] }
        requires no_locks { vec_len locks ≡ 0 }
        requires no_counts { counts.items ≡ [] }
        requires no_bundles { bundles.items ≡ [] }
        requires room { length N.names.hosts ≤ vec_capacity room }
        requires room_for_locks { length N.names.hosts ≤ vec_capacity locks }
        requires room_for_counts { length N.names.hosts ≤ vec_capacity counts }
        requires room_for_bundles { length N.names.hosts ≤ vec_capacity bundles }
        ensures ok { IfOk result (IsGathered N.names passes.items) }
        ensures err { IfErr result (λ back. back.1 ≡ passes) }
        ensures refused { IfErr result (λ back. IsAgainstGathering back.2) }
    {
        let SharedCache {
            hosts,
            hints,
            budget,
            link,
            queue,
            any_queued,
        } = self;
        let (hosts, reason) = open_hosts(hosts, room, &passes);
        if let Some(reason) = reason {
            let hosts = lock_again(hosts, locks);
            let cache = SharedCache {
                hosts,
                hints,
                budget,
                link,
                queue,
                any_queued,
            };
            return Err((cache, passes, reason));
        }
        let queue = queue.into_inner();
        let mut gatherer = queue.gatherer;
        let (counts, bundles) = join_hosts(&budget, &mut gatherer, hosts, counts, bundles);
        let words = budget.finish(gatherer);
        discard_all(passes);
        Ok(Gathered {
            hosts: counts,
            total: words.total,
            kept: words.kept,
            bundles,
        })
    }

    // Why the cache can't be gathered with these passes, if it can't.
    fn reason_against(&mut self, passes: &[Pass<Did>]) -> Option<Refusal>
        requires { All (IsPassOf N.names) passes.now }
        ensures { IfSome result IsAgainstGathering }
    {
        let mut busy = 0u64;
        let mut missing = false;
        let mut place = 0u32;
        for lock in self.hosts.iter_mut() {
            let host = lock.get_mut();
            busy = busy.saturating_add(host.in_use());
            if !host.is_settled(place, passes) {
                missing = true;
            }
            place = place.saturating_add(1);
        }
        reason_of(busy, missing)
    }
}

// Something is in use, or passes are missing.
fn reason_of(busy: u64, missing: bool) -> Option<Refusal>
    ensures none { IfNone result ((busy ≡ 0) × (missing ≡ false)) }
    ensures some { IfSome result IsAgainstGathering }
{
    if busy > 0 {
        return Some(Refusal::Busy(busy));
    }
    if missing {
        return Some(Refusal::PassesMissing);
    }
    None
}

impl<S: Drop, N: Names> LockedHost<S, N> {
    // How many connections are held, read off the lease word, and how many transfers wait.
    fn in_use(&mut self) -> u64
        ensures free { result ≡ 0 → IsFree self.old.host.log }
        ensures same { self.new ≡ self.old }
    {
        let waiting = u64::from(self.bundle.look().waiting);
        self.bundle.held().saturating_add(waiting)
    }

    // Whether the host is in its place, and the passes have spent the leases of its starts.
    fn is_settled(&mut self, place: u32, passes: &[Pass<Did>]) -> bool
        requires { All (IsPassOf N.names) passes.now }
        ensures settled { result ≡ true → IsFree self.old.host.log →
            IsSettledAt N.names passes.now place self.old }
        ensures same { self.new ≡ self.old }
    {
        if self.bundle.host() != place {
            return false;
        }
        // It is legal.
        let _log = self.bundle.log();
        let starts = self.bundle.starts();
        spent_by_all(place, passes) == Some(starts)
    }
}

// How many leases of the host were spent, with all of these passes.
fn spent_by_all(host: u32, passes: &[Pass<Did>]) -> Option<u64>
    requires { All (λ pass. host < length pass) passes.now }
    ensures { IfSome result (λ spent. spent ≡ spent_with host passes.now) }
{
    let mut spent = 0u64;
    for pass in passes {
        spent = spent.checked_add(pass.spent(host as usize))?;
    }
    Some(spent)
}

// Takes the hosts out of their locks, and says why the cache can't be gathered, if it can't.
fn open_hosts<S: Drop, N: Names>(
    locks: Vec<Mutex<LockedHost<S, N>>>,
    room: Vec<LockedHost<S, N>>,
    passes: &[Pass<Did>],
) -> (Vec<LockedHost<S, N>>, Option<Refusal>)
    requires passes { All (IsPassOf N.names) passes.now }
    requires none { room.items ≡ [] }
    requires room { vec_len locks ≤ vec_capacity room }
    requires few { vec_len locks ≤ 1024 }
    ensures number { vec_len result.0 ≡ vec_len locks }
    ensures reason { IfSome result.1 IsAgainstGathering }
    ensures settled { IfNone result.1 (AreSettledFrom N.names passes.now 0 result.0.items) }
{
    let mut hosts = room;
    let mut busy = 0u64;
    let mut missing = false;
    let mut place = 0;
    for lock in locks {
        let mut host = lock.into_inner();
        busy = busy.saturating_add(host.in_use());
        if !host.is_settled(place, passes) {
            missing = true;
        }
        hosts.push_reserved(host);
        place += 1;
    }
    (hosts, reason_of(busy, missing))
}

// Puts the hosts under locks again.
fn lock_again<S: Drop, N: Names>(
    hosts: Vec<LockedHost<S, N>>,
    room: Vec<Mutex<LockedHost<S, N>>>,
) -> Vec<Mutex<LockedHost<S, N>>>
    requires none { vec_len room ≡ 0 }
    requires room { vec_len hosts ≤ vec_capacity room }
    ensures number { vec_len result ≡ vec_len hosts }
{
    let mut locks = room;
    for host in hosts {
        locks.push_reserved(Mutex::new(host));
    }
    locks
}

// Joins the seats of the hosts into the first one, and counts each host from its log.
fn join_hosts<S: Drop, N: Names>(
    budget: &WordBudget<Asker>,
    gatherer: &mut BudgetSeat<Asker>,
    hosts: Vec<LockedHost<S, N>>,
    room: Vec<HostCount>,
    room_for_bundles: Vec<Bundle<S>>,
) -> (Vec<HostCount>, Vec<Bundle<S>>)
    requires budget { gatherer.old.table ≡ budget.now.table }
    requires named { budget.now.table ≡ N.names.budget }
    requires first { held_at gatherer.old ≡ held 0 0 }
    requires share { gatherer.old.view.share + vec_len hosts ≡ whole }
    requires no_counts { room.items ≡ [] }
    requires no_bundles { room_for_bundles.items ≡ [] }
    requires room { vec_len hosts ≤ vec_capacity room }
    requires room_for_bundles { vec_len hosts ≤ vec_capacity room_for_bundles }
    ensures budget { gatherer.new.table ≡ budget.now.table }
    ensures share { gatherer.new.view.share ≡ whole }
    ensures held { let logs = logs_of (hosts_under hosts.items) in
        held_at gatherer.new ≡ held (open_at_all logs) (idle_at_all logs) }
    ensures counts { result.0.items ≡ map host_count (logs_of (hosts_under hosts.items)) }
    ensures bundles { result.1.items ≡ hosts_under hosts.items }
{
    let mut counts = room;
    let mut bundles = room_for_bundles;
    for host in hosts {
        let LockedHost {
            bundle,
            seat,
            mark: _,
            of: _,
        } = host;
        counts.push_reserved(count(&bundle));
        bundles.push_reserved(bundle);
        budget.join(gatherer, seat);
    }
    (counts, bundles)
}

// What happened at the host.
fn count<S: Drop>(bundle: &Bundle<S>) -> HostCount
    ensures { result ≡ host_count bundle.now.log }
{
    let counts = bundle.log().counts();
    HostCount {
        opened: counts.opened,
        reused: counts.reused,
        closed: counts.closed,
        waited: counts.waited,
        alive: u64::from(bundle.look().alive),
    }
}

/// Gives passes up, where no account is made of what they spent.
pub fn discard_all(passes: Vec<Pass<Did>>) {
    let mut passes = passes;
    while let Some(pass) = passes.pop() {
        pass.discard();
    }
    passes.destroy_empty();
}
