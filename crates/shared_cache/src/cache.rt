//! The cache that threads share, and how its locks are taken.

ghost use Rattle.std.specs.Prelude.{◌≡◌, ◌<◌, ◌≤◌, length, vec_len, vec_capacity, true, false};
ghost use Rattle.std.specs.Prelude.{IfErr};
ghost use Rattle.std.specs.List.{All};
ghost use Rattle.std.specs.Sync.Mutex.{mutex_guard_value};
ghost use Rattle.bundle.specs.Lease.{IsBookedHere};
ghost use Rattle.shared_cache.specs.Locked.{IsHostUnder};

use crate::hints::Hints;
use crate::locked::{LockedHost, LockedQueue};
use crate::names::Names;
use crate::plan::{Plan, PlannedHost};
use budget::{Link, Refusal, WordBudget};
use bundle::{Asker, Booking};
use std::alloc::Global;
use std::marker::{Model, PhantomData};
use std::sync::atomic::{AtomicBool, Ordering};
use std::sync::{Mutex, MutexGuard, Wait};

/// The connections of several hosts, with the streams of type `S` of those that no lease has, for
/// any number of threads. Each host has a lock of its own. Limits over all hosts are kept by words:
/// no lock stands round them. A host's site is its index.
///
/// Whenever a host's lock is free, every open connection of the host is idle or leased to one
/// transfer, within the host's limit; no transfer waits there beside an idle connection, or beside
/// room under that limit unless the host is queued for the total; and its log is legal, so that
/// each lease reused only a connection that fits. The number of open connections over all hosts
/// never passes its limit.
///
/// A call that takes a lock may wait for it. No call takes two hosts' locks at once; one that has a
/// host's lock may take that of the queue of hosts that wait for the total. Streams of connections
/// that are closed are dropped under their host's lock: dropping one must not call the cache.
#[derive(Drop)]
pub struct SharedCache<S: Drop, N: Names> {
    pub(crate) hosts: Vec<Mutex<LockedHost<S, N>>>,
    pub(crate) hints: Hints,
    pub(crate) budget: WordBudget<Asker>,
    pub(crate) link: Link,
    pub(crate) queue: Mutex<LockedQueue<N>>,
    // Whether the queue has a host, as it was when its lock was last let go.
    pub(crate) any_queued: AtomicBool,
}

impl<S: Drop, N: Names> Model for SharedCache<S, N> {
    ghost use Rattle.std.specs.Prelude.{◌≡◌, ◌≤◌, vec_len, length};

    ghost Value = { Unit {0} };

    ghost view = { λ cache. tt };

    ghost invariant = { λ cache. record {
      hosts : vec_len cache.hosts ≡ length N.names.hosts;
      hints : cache.hints ≡ length N.names.hosts;
      few : length N.names.hosts ≤ 1024;
      limits : cache.budget.limits ≡ N.names.limits;
      budget : cache.budget.table ≡ N.names.budget;
      link : cache.link ≡ N.names.link;
    } };
}

impl<S: Drop, N: Names> SharedCache<S, N> {
    /// The cache of that plan, whose names are those of its type: each host under a lock of its
    /// own.
    ///
    /// Refused with [`Refusal::Memory`] where memory runs out; the plan comes back as it was.
    pub fn new(alloc: Global, plan: Plan<S>) -> Result<SharedCache<S, N>, (Plan<S>, Refusal)>
        requires { plan ≡ N.names }
        ensures err { IfErr result (λ refused. (refused.0 ≡ plan)
            × (refused.1 ≡ Refusal.Memory)) }
    {
        let number = plan.hosts();
        let Ok(hints) = Hints::new(alloc, number) else {
            return Err((plan, Refusal::Memory));
        };
        let Ok(locks) = Vec::with_capacity(alloc, number as usize) else {
            return Err((plan, Refusal::Memory));
        };
        let Plan {
            budget,
            link,
            lobby,
            listed,
            gatherer,
            hosts,
        } = plan;
        let queue = LockedQueue {
            lobby,
            listed,
            gatherer,
            of: PhantomData,
        };
        Ok(SharedCache {
            hosts: lock_hosts(hosts, locks),
            hints,
            budget,
            link,
            queue: Mutex::new(queue),
            any_queued: AtomicBool::new(false),
        })
    }

    /// How many hosts there are.
    pub fn hosts(&self) -> u32
        ensures hosts { result ≡ length N.names.hosts }
        ensures few { length N.names.hosts ≤ 1024 }
    {
        self.hosts.len() as u32
    }

    // Whether there is such a site.
    #[inline(always)]
    pub(crate) fn has(&self, site: u32) -> bool
        ensures yes_if_there { result ≡ true → site < length N.names.hosts }
        ensures no_if_not { result ≡ false → length N.names.hosts ≤ site }
    {
        (site as usize) < self.hosts.len()
    }

    // The host of that site, with its lock taken. What lies under a lock is known by its type
    // alone: should it be another host, which is never met, its lock is let go and taken again.
    #[inline(always)]
    pub(crate) fn at<R: Wait>(&self, rt: &R, site: u32) -> MutexGuard<'_, LockedHost<S, N>>
        requires { site < length N.names.hosts }
        ensures { (mutex_guard_value result).host.host ≡ site }
    {
        for _ in rt.forever() {
            let host = self.hosts[site as usize].lock(rt);
            if host.bundle.host() == site {
                return host;
            }
        }
        unreachable!()
    }

    // The host of that booking, where its transfer's acquire is halfway, with its lock taken.
    pub(crate) fn at_booked<R: Wait>(
        &self,
        rt: &R,
        booking: &Booking,
    ) -> MutexGuard<'_, LockedHost<S, N>>
        requires { booking.now.site < length N.names.hosts }
        ensures { IsBookedHere (mutex_guard_value result).host booking.now }
    {
        for _ in rt.forever() {
            let host = self.hosts[booking.site() as usize].lock(rt);
            if host.bundle.has_booked(booking) {
                return host;
            }
        }
        unreachable!()
    }

    // Notes which connection of that host is idle for the longest, and lets its lock go.
    #[inline(always)]
    pub(crate) fn unlock(&self, host: MutexGuard<'_, LockedHost<S, N>>) {
        self.hints.note(host.bundle.host(), host.bundle.oldest());
        drop(host);
    }

    // Notes whether any host is queued, before the queue's lock is let go.
    #[inline(always)]
    pub(crate) fn note_queue(&self, queue: &LockedQueue<N>) {
        let any = queue.lobby.first().is_some();
        self.any_queued.store(any, Ordering::SeqCst);
    }
}

// Each of these hosts under a lock of its own, in room made before.
fn lock_hosts<S: Drop, N: Names>(
    hosts: Vec<PlannedHost<S>>,
    locks: Vec<Mutex<LockedHost<S, N>>>,
) -> Vec<Mutex<LockedHost<S, N>>>
    requires under { All (IsHostUnder N.names) hosts.items }
    requires none { vec_len locks ≡ 0 }
    requires room { vec_len hosts ≤ vec_capacity locks }
    ensures number { vec_len result ≡ vec_len hosts }
{
    let mut locked = locks;
    for planned in hosts {
        let PlannedHost { bundle, seat, mark } = planned;
        let host = LockedHost {
            bundle,
            seat,
            mark,
            of: PhantomData,
        };
        locked.push_reserved(Mutex::new(host));
    }
    locked
}
