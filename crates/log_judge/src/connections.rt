//! What is known of open connections, after one more entry.

ghost use Rattle.std.specs.Prelude.{◌≡◌, OnOk, OnErr};
ghost use Rattle.conn_log.specs.declared.entry.Event.TheVariants.{Opened, Leased, Returned, Closed};
ghost use Rattle.conn_log.specs.Bases.{connections_after};

use conn_log::{OpenConnection, Want};
use persistence::Facts;
use std::alloc::AllocError;
use std::collections::BTreeMap;

/// A connection is opened for a transfer.
pub(crate) fn note_opened(
    connections: &mut BTreeMap<u32, OpenConnection>,
    moment: u64,
    connection: u32,
    want: Want,
) -> Result<(), AllocError>
    ensures ok { OnOk result (connections.new.entries ≡
        connections_after moment (Opened connection want) connections.old.entries) }
    ensures err { OnErr result (connections.new.entries ≡ connections.old.entries) }
{
    let opened = OpenConnection {
        lane: want.lane,
        born: moment,
        since: 0,
        facts: None,
        holder: Some(want),
    };
    let _ = connections.insert(connection, opened)?;
    Ok(())
}

/// A connection is leased to a transfer.
pub(crate) fn note_leased(
    connections: &mut BTreeMap<u32, OpenConnection>,
    moment: u64,
    connection: u32,
    want: Want,
)
    ensures { connections.new.entries ≡
        connections_after moment (Leased connection want) connections.old.entries }
{
    if let Some(leased) = connections.get_mut(&connection) {
        leased.holder = Some(want);
    }
}

/// A connection comes back.
pub(crate) fn note_returned(
    connections: &mut BTreeMap<u32, OpenConnection>,
    moment: u64,
    connection: u32,
    facts: Facts,
)
    ensures { connections.new.entries ≡
        connections_after moment (Returned connection facts) connections.old.entries }
{
    if let Some(returned) = connections.get_mut(&connection) {
        returned.since = moment;
        returned.facts = Some(facts);
        returned.holder = None;
    }
}
