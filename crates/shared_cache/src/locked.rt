//! What lies under the locks: each host with its seats, and the queue of those that wait for the
//! total.

ghost use Rattle.std.specs.Prelude.{◌≡◌};
ghost use Rattle.budget.specs.Marks.{Marked, Listed};
ghost use Rattle.host_state.specs.Orders.{order_after};

use crate::names::Names;
use budget::{BudgetSeat, Link, Lobby, LobbySeat, MarkSeat};
use bundle::{Asker, Bundle};
use std::marker::{Model, PhantomData};

/// A host, under its lock. `N` names the cache that it belongs to.
#[derive(Drop)]
pub(crate) struct LockedHost<S: Drop, N: Names> {
    pub(crate) bundle: Bundle<S>,
    pub(crate) seat: BudgetSeat<Asker>,
    pub(crate) mark: MarkSeat,
    pub(crate) of: PhantomData<N>,
}

impl<S: Drop, N: Names> Model for LockedHost<S, N> {
    ghost use Rattle.shared_cache.specs.Locked.{HostUnder, IsHostUnder};

    ghost Value = { HostUnder S };

    ghost view = { λ under. record {
      host = under.bundle;
      seat = under.seat;
      mark = under.mark;
    } };

    ghost invariant = { λ under. IsHostUnder N.names (record {
      host = under.bundle;
      seat = under.seat;
      mark = under.mark;
    }) };
}

/// The hosts that are queued, under their lock. `N` names the cache that they belong to.
#[derive(Drop)]
pub(crate) struct LockedQueue<N: Names> {
    pub(crate) lobby: Lobby,
    pub(crate) listed: LobbySeat,
    pub(crate) gatherer: BudgetSeat<Asker>,
    pub(crate) of: PhantomData<N>,
}

impl<N: Names> Model for LockedQueue<N> {
    ghost use Rattle.shared_cache.specs.Locked.{QueueUnder, IsQueueUnder};

    ghost Value = { QueueUnder };

    ghost view = { λ under. record {
      lobby = under.lobby;
      listed = under.listed;
      gatherer = under.gatherer;
    } };

    ghost invariant = { λ under. IsQueueUnder N.names (record {
      lobby = under.lobby;
      listed = under.listed;
      gatherer = under.gatherer;
    }) };
}

/// The link lists the host, which was queued or not, as it is queued or not now.
pub(crate) fn mark_as(
    link: &Link,
    listed: &mut LobbySeat,
    mark: &mut MarkSeat,
    was_queued: bool,
    is_queued: bool,
)
    requires listed { listed.old.table ≡ link.now }
    requires mark { mark.old.table ≡ link.now }
    requires was { mark.old.mark ≡ was_queued }
    ensures order { let order = order_after mark.old.host was_queued is_queued listed.old.hosts in
        listed.new ≡ record listed.old { hosts = order } }
    ensures marked { mark.new ≡ record mark.old { mark = is_queued } }
{
    if was_queued {
        if !is_queued {
            link.delist(listed, mark);
        }
    } else if is_queued {
        link.enlist(listed, mark);
    }
}
