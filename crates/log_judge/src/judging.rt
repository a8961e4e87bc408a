//! Which rule an event breaks at a host that owes no close.

ghost use Rattle.std.specs.Prelude.{◌≡◌};
ghost use Rattle.log_judge.specs.Rules.{of_start, of_event};

use crate::rules;
use crate::tables::Tables;
use crate::violation::Violation;
use conn_log::{Event, Want};

// The rules of a start.
fn of_start(tables: &Tables, want: &Want) -> Option<Violation>
    ensures { result ≡ of_start tables.now.settings tables.now.log want.now }
{
    rules::starts(tables.first_waiter(), tables.held(want.transfer), want)
}

/// The first rule that an event at that moment breaks.
pub(crate) fn of_event(tables: &Tables, moment: u64, event: &Event) -> Option<Violation>
    ensures { result ≡ of_event tables.now.settings tables.now.log moment event.now }
{
    match *event {
        Event::Opened { connection, want } => rules::of_opened(
            tables.next_number(),
            tables.open_len(),
            tables.limit(),
            connection,
            of_start(tables, &want),
        ),
        Event::Leased { connection, want } => {
            let start = of_start(tables, &want);
            rules::of_leased(tables.known(connection), &want, moment, start)
        }
        Event::Returned { connection, .. } => rules::of_returned(tables.known(connection)),
        Event::Closed { connection, cause } => rules::of_closed(tables.known(connection), cause),
        Event::Waited { want } => rules::of_waited(
            tables.held(want.transfer),
            tables.waits(want.transfer),
            tables.idle_len(),
        ),
        Event::Left { transfer } => rules::of_left(tables.waits(transfer)),
        Event::Limit { limit } => rules::of_limit(tables.open_len(), limit),
    }
}
