//! What giving places keeps.

ghost use Rattle.conn_key.specs.Laws.{OnlyUnusedPlacesChange, HostIsFound};
ghost use Rattle.conn_key.specs.Laws.{ConnectionsStayWithTheirHosts};
ghost use Rattle.conn_key.specs.Laws.{ConnectionsAtAPlaceAreItsHosts};

/// A place changes its host only while it is unused, and a host is found at the place that it was
/// given.
pub fn only_unused_places_change()
    ensures change { OnlyUnusedPlacesChange }
    ensures found { HostIsFound }
{}

/// So each open connection stays with the host that it was opened to, and a host's place has none
/// of another host.
pub fn connections_stay_with_their_hosts()
    ensures stay { ConnectionsStayWithTheirHosts }
    ensures are { ConnectionsAtAPlaceAreItsHosts }
{}
