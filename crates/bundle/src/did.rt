ghost use Rattle.std.specs.Prelude.{◌≡◌, ◌<◌, length};
ghost use Rattle.budget.specs.Accounts.{IsEnrolledAt, KeepsSeats};
ghost use Rattle.bundle.specs.Passes.{tells, got_did, refusal_did, held_did};
ghost use Rattle.host_state.specs.Calls.{start_entry, wait_entry};

use crate::answers::Got;
use crate::lease::Lease;
use crate::ticket::Ticket;
use budget::{Pass, Refusal, Tally};
use conn_log::{Entry, Event};

/// What a call answered at a host, as it tells the pass that it is lent. An acquire that is
/// halfway, a lease that comes back, an answer that the budget has to be asked again, a limit that
/// is too great, and an allocation failure tell nothing. Transfers are named by their numbers;
/// moments and ages are in seconds.
#[derive(Clone, Copy, Debug, PartialEq, Eq)]
pub enum Did {
    /// It wrote this entry: the start or the wait of an acquire; the return, the closing or the
    /// leaving with which a lease or a ticket ended; a new limit.
    Wrote(Entry),
    /// The transfer claimed what it was granted.
    Claimed(u64),
    /// The transfer that claims still waits.
    Still(u64),
    /// The transfer was refused as busy.
    Busy(u64),
    /// The transfer was refused, since no number for a connection is left.
    Exhausted(u64),
    /// The transfer's ticket is a stranger.
    Stranger(u64),
    /// A new limit was refused, since so many connections are held.
    Held(u64),
    /// Idle connections that are older than this were closed.
    Pruned {
        /// The moment handed in.
        now: u64,
        /// The greatest idle time handed in.
        max_age: u64,
        /// The greatest time open handed in; 0 is none.
        max_life: u64,
        /// How many were closed.
        closed: u32,
    },
}

// The entry of a lease's start.
#[inline(always)]
pub(crate) fn start_entry<S>(lease: &Lease<S>) -> Entry
    ensures { result ≡ start_entry lease.now.start }
{
    let (connection, want) = (lease.number(), lease.want());
    let moment = lease.moment();
    if lease.reused() {
        let event = Event::Leased { connection, want };
        return Entry { moment, event };
    }
    let event = Event::Opened { connection, want };
    Entry { moment, event }
}

// The entry of a ticket's wait.
fn wait_entry(ticket: &Ticket) -> Entry
    ensures { result ≡ wait_entry ticket.now.wait }
{
    Entry {
        moment: ticket.moment(),
        event: Event::Waited {
            want: ticket.want(),
        },
    }
}

// Tells the pass what an acquire gave, unless it is halfway.
pub(crate) fn tell_got<S>(pass: &mut Pass<Did>, host: u32, tally: &Tally, got: &Got<S>)
    requires there { host < length pass.old }
    requires enrolled { IsEnrolledAt pass.old host tally.now.table }
    ensures tells { pass.new ≡ tells host (got_did got.now) pass.old }
    ensures pass_seats { KeepsSeats pass.old pass.new }
{
    match got {
        Got::Lease(lease) => pass.tell(host as usize, tally, Did::Wrote(start_entry(lease))),
        Got::Wait(ticket) => pass.tell(host as usize, tally, Did::Wrote(wait_entry(ticket))),
        Got::NoRoom(_) | Got::Again(_) => {}
    }
}

// Tells the pass why an acquire of the transfer is refused.
pub(crate) fn tell_refused(
    pass: &mut Pass<Did>,
    host: u32,
    tally: &Tally,
    transfer: u64,
    reason: Refusal,
)
    requires there { host < length pass.old }
    requires enrolled { IsEnrolledAt pass.old host tally.now.table }
    ensures tells { pass.new ≡ tells host (refusal_did transfer reason) pass.old }
    ensures pass_seats { KeepsSeats pass.old pass.new }
{
    match reason {
        Refusal::TransferBusy => pass.tell(host as usize, tally, Did::Busy(transfer)),
        Refusal::Exhausted => pass.tell(host as usize, tally, Did::Exhausted(transfer)),
        _ => {}
    }
}

// Tells the pass how many connections are held, if a new limit is refused for that.
pub(crate) fn tell_held(pass: &mut Pass<Did>, host: u32, tally: &Tally, reason: Refusal)
    requires there { host < length pass.old }
    requires enrolled { IsEnrolledAt pass.old host tally.now.table }
    ensures tells { pass.new ≡ tells host (held_did reason) pass.old }
    ensures pass_seats { KeepsSeats pass.old pass.new }
{
    if let Refusal::Busy(held) = reason {
        pass.tell(host as usize, tally, Did::Held(held));
    }
}
