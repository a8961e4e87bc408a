//! Which transfer a connection comes back from.

ghost use Rattle.std.specs.Prelude.{◌≡◌, ◌+◌, ◌≤◌, length, reverse};
ghost use Rattle.conn_log.specs.Behind.{holder_behind};
ghost use Rattle.conn_log.specs.Legal.{LimitAndFirst, IsLegal};
ghost use Rattle.script_text.specs.Printing.{returned_by};
ghost use Rattle.trace_text.specs.LogLines.{first_entries};

use conn_log::{Base, Entry, Event, Log};

// Who holds a connection after the entries that came behind a base: the last one that names it
// tells.
fn holder_after(base: &Base, front: &[Entry], connection: u32) -> Option<u64>
    ensures { result ≡ holder_behind base.now (reverse front.now) connection }
{
    for place in (0..front.len()).rev() {
        let entry = front[place];
        match entry.event {
            Event::Opened {
                connection: number,
                want,
            }
            | Event::Leased {
                connection: number,
                want,
            } if number == connection => return Some(want.transfer),
            Event::Returned {
                connection: number,
                ..
            }
            | Event::Closed {
                connection: number,
                ..
            } if number == connection => return None,
            _ => {}
        }
    }
    let want = base.connections().get(&connection)?.holder?;
    Some(want.transfer)
}

/// The transfer that a connection comes back from by the event at that place of the rest: the one
/// that held it before. 0 for other events.
pub(crate) fn returned_by(log: &Log, place: usize, event: &Event) -> u64
    requires { log.now.cut_away + place ≤ length log.now.entries }
    ensures { let before = first_entries (log.now.cut_away + place) log.now.entries in
        (settings : LimitAndFirst) → IsLegal settings log.now.entries →
        result ≡ returned_by before event.now }
{
    let Event::Returned { connection, .. } = *event else {
        return 0;
    };
    let front = &log.since(0)[..place];
    holder_after(log.base(), front, connection).unwrap_or(0)
}
