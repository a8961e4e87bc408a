//! Taking an event that a host's log allows.

ghost use Rattle.std.specs.Prelude.{◌≡◌, ◌≤◌, IsSome, IfOk, OnOk, OnErr};
ghost use Rattle.conn_log.specs.declared.entry.Event.TheVariants.{Returned};
ghost use Rattle.conn_log.specs.Connections.{last_moment, holder_want};
ghost use Rattle.conn_log.specs.Legal.{Allows};
ghost use Rattle.log_judge.specs.Tables.{TakesEvent};

use crate::due::Due;
use crate::tables::Tables;
use conn_log::Event;
use persistence::Facts;
use std::alloc::AllocError;

/// Takes an event, or tells what is due after it: then the tables have not changed.
pub(crate) fn take_event(
    tables: &mut Tables,
    moment: u64,
    event: Event,
) -> Result<Option<Due>, AllocError>
    requires later { last_moment tables.old.log ≤ moment }
    requires allowed { Allows tables.old.settings tables.old.log moment event }
    ensures ok { IfOk result (λ due. TakesEvent moment event due tables.old tables.new) }
    ensures err { OnErr result (tables.new ≡ tables.old) }
{
    match event {
        Event::Opened { connection, want } => {
            tables.open(moment, connection, want)?;
            Ok(None)
        }
        Event::Leased { connection, want } => {
            tables.lease(moment, connection, want)?;
            Ok(None)
        }
        Event::Returned { connection, facts } => {
            Ok(take_return(tables, moment, connection, facts))
        }
        Event::Closed { connection, cause } => {
            tables.close(moment, connection, cause);
            Ok(None)
        }
        Event::Waited { want } => {
            tables.wait(moment, want)?;
            Ok(None)
        }
        Event::Left { transfer } => {
            tables.leave(moment, transfer);
            Ok(None)
        }
        Event::Limit { limit } => {
            tables.set_limit(moment, limit);
            Ok(None)
        }
    }
}

// Takes a return that does not end its use, or tells what is due after it.
fn take_return(tables: &mut Tables, moment: u64, connection: u32, facts: Facts) -> Option<Due>
    requires later { last_moment tables.old.log ≤ moment }
    requires held { IsSome (holder_want tables.old.log connection) }
    ensures { TakesEvent moment (Returned connection facts) result tables.old tables.new }
{
    match tables.due_after(moment, connection, facts) {
        Some(due) => Some(due),
        None => {
            tables.come_back(moment, connection, facts);
            None
        }
    }
}
