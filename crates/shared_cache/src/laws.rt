//! Laws of what lies under the locks.

ghost use Rattle.shared_cache.specs.Laws.{ListsWhoWaitsBesideRoom};

/// Under a host's lock and the Lobby's, the Lobby lists the host exactly if a transfer waits there
/// though fewer connections are open than the host's limit in force.
pub fn the_lobby_lists_who_waits_beside_room<S>()
    ensures { ListsWhoWaitsBesideRoom S }
{}
