//! What a shared cache is made of.

ghost use Rattle.std.specs.Prelude.{◌≡◌, ◌+◌, ◌≤◌, nat_lt, if◌then◌else◌, length, vec_len, []};
ghost use Rattle.std.specs.Prelude.{false, IfOk, IfErr, OnOk};
ghost use Rattle.budget.specs.Words.{empty_seat, whole};
ghost use Rattle.budget.specs.Words.{held_by as held_at};
ghost use Rattle.budget.specs.Permits.{held};
ghost use Rattle.shared_cache.specs.Names.{IsPlanFor};
ghost use Rattle.shared_cache.specs.Planning.{AreNewFrom};

use budget::{BudgetSeat, Limits, Link, Lobby, LobbySeat, MarkSeat, Refusal, WordBudget};
use bundle::{Asker, Bundle, MOST_HOSTS};
use std::alloc::Global;
use std::marker::Model;

/// A host that is planned: its bundle, and its seats.
#[derive(Drop)]
pub(crate) struct PlannedHost<S: Drop> {
    pub(crate) bundle: Bundle<S>,
    pub(crate) seat: BudgetSeat<Asker>,
    pub(crate) mark: MarkSeat,
}

impl<S: Drop> Model for PlannedHost<S> {
    ghost use Rattle.shared_cache.specs.Locked.{HostUnder};

    ghost Value = { HostUnder S };

    ghost view = { λ planned. record {
      host = planned.bundle;
      seat = planned.seat;
      mark = planned.mark;
    } };
}

/// All bundles, tables and seats of a shared cache, which [`SharedCache::new`] puts under locks.
/// Contracts see the names of the cache that it is for.
///
/// [`SharedCache::new`]: crate::SharedCache::new
#[derive(Drop)]
pub struct Plan<S: Drop> {
    pub(crate) budget: WordBudget<Asker>,
    pub(crate) link: Link,
    pub(crate) lobby: Lobby,
    pub(crate) listed: LobbySeat,
    pub(crate) gatherer: BudgetSeat<Asker>,
    pub(crate) hosts: Vec<PlannedHost<S>>,
}

impl<S: Drop> Model for Plan<S> {
    ghost use Rattle.shared_cache.specs.Names.{CacheNames};
    ghost use Rattle.shared_cache.specs.Planning.{names_of, IsPlanned};

    ghost Value = { CacheNames };

    ghost view = { λ plan. names_of plan.budget plan.link plan.hosts.items };

    ghost invariant = { λ plan. IsPlanned plan.budget plan.link plan.hosts.items
        (record { lobby = plan.lobby; listed = plan.listed; gatherer = plan.gatherer }) };
}

impl<S: Drop> Plan<S> {
    /// A plan for so many hosts, without connections, under these limits: the limit for a host is
    /// each one's first, until it is changed.
    ///
    /// Refused, in this order, with [`Refusal::BadSite`] above 1,024 hosts, and with
    /// [`Refusal::Memory`] where memory runs out.
    pub fn new(alloc: Global, limits: Limits, hosts: u32) -> Result<Plan<S>, Refusal>
        ensures ok { IfOk result (IsPlanFor limits hosts) }
        ensures few { OnOk result (hosts ≤ 1024) }
        ensures err { IfErr result (λ refusal. refusal
            ≡ (if nat_lt 1024 hosts then Refusal.BadSite else Refusal.Memory)) }
    {
        if hosts > MOST_HOSTS {
            return Err(Refusal::BadSite);
        }
        let (budget, mut gatherer) = WordBudget::new(alloc, limits)?;
        let (link, mut listed) = Link::new(alloc)?;
        let lobby = Lobby::new(alloc, hosts)?;
        let most = limits.host();
        let planned = plan_hosts(
            alloc,
            most,
            hosts,
            &budget,
            &mut gatherer,
            &link,
            &mut listed,
        )?;
        Ok(Plan {
            budget,
            link,
            lobby,
            listed,
            gatherer,
            hosts: planned,
        })
    }

    /// How many hosts it is for.
    pub fn hosts(&self) -> u32
        ensures hosts { result ≡ length self.now.hosts }
        ensures few { length self.now.hosts ≤ 1024 }
    {
        self.hosts.len() as u32
    }
}

// New hosts, in their order, each with a seat that is split off, and one at the link.
fn plan_hosts<S: Drop>(
    alloc: Global,
    most: u32,
    hosts: u32,
    budget: &WordBudget<Asker>,
    gatherer: &mut BudgetSeat<Asker>,
    link: &Link,
    listed: &mut LobbySeat,
) -> Result<Vec<PlannedHost<S>>, Refusal>
    requires few { hosts ≤ 1024 }
    requires most { most ≡ budget.now.limits.host }
    requires budget { gatherer.old.table ≡ budget.now.table }
    requires first { gatherer.old.view ≡ empty_seat whole }
    requires link { listed.old.table ≡ link.now }
    requires none_listed { listed.old.hosts ≡ [] }
    requires no_seats { listed.old.seats ≡ 0 }
    ensures hosts { IfOk result (λ planned. AreNewFrom budget.now link.now 0 planned.items) }
    ensures number { IfOk result (λ planned. vec_len planned ≡ hosts) }
    ensures budget { gatherer.new.table ≡ budget.now.table }
    ensures share { OnOk result (gatherer.new.view.share + hosts ≡ whole) }
    ensures nothing { held_at gatherer.new ≡ held 0 0 }
    ensures link { listed.new.table ≡ link.now }
    ensures none_listed { listed.new.hosts ≡ [] }
    ensures err { IfErr result (λ refusal. refusal ≡ Refusal.Memory) }
{
    let mut planned = Vec::with_capacity(alloc, hosts as usize)?;
    for host in 0..hosts {
        let bundle = Bundle::new(alloc, most, host, 1)?;
        let seat = budget.split(gatherer);
        let mark = link.seat_host(listed);
        planned.push_reserved(PlannedHost { bundle, seat, mark });
    }
    Ok(planned)
}
