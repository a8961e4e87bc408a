//! The rules that an entry is judged by: each answers its violation if it is broken.

ghost use Rattle.std.specs.Prelude.{◌≡◌, ℕ};
ghost use Rattle.log_judge.specs.Rules.{unless, first_of, earlier, holds_one, starts, in_use};
ghost use Rattle.log_judge.specs.Rules.{not_held, other_lane, wants_new, idle_too_long};
ghost use Rattle.log_judge.specs.Rules.{open_too_long, of_opened, of_leased, of_returned};
ghost use Rattle.log_judge.specs.Rules.{of_cause, of_closed, of_waited, of_left, of_limit};
ghost use Rattle.log_judge.specs.Rules.{is_same_want, is_same_ending, is_close_of, of_owed};

use crate::violation::Violation;
use conn_log::{Cause, Event, OpenConnection, Want};

// That violation, unless the rule is kept.
fn unless(kept: bool, violation: Violation) -> Option<Violation>
    ensures { result ≡ unless kept violation }
{
    if kept { None } else { Some(violation) }
}

// The first rule that is broken.
fn first_of(rules: &[Option<Violation>]) -> Option<Violation>
    ensures { result ≡ first_of rules.now }
{
    for rule in rules {
        if rule.is_some() {
            return *rule;
        }
    }
    None
}

/// An entry is not before the last one.
pub(crate) fn earlier(last: u64, moment: u64) -> Option<Violation>
    ensures { result ≡ earlier last moment }
{
    unless(last <= moment, Violation::Earlier { last })
}

// Whether two wants agree in all.
fn is_same(want: &Want, other: &Want) -> bool
    ensures { result ≡ is_same_want want.now other.now }
{
    want == other
}

// A transfer that starts or waits holds nothing.
fn holds_one(held: Option<u32>) -> Option<Violation>
    ensures { result ≡ holds_one held }
{
    let connection = held?;
    Some(Violation::Holds { connection })
}

/// The first waiter starts; where nobody waits, a transfer that holds nothing.
pub(crate) fn starts(head: Option<Want>, held: Option<u32>, want: &Want) -> Option<Violation>
    ensures { result ≡ starts head held want.now }
{
    match head {
        Some(head) => unless(
            is_same(want, &head),
            Violation::NotFirst {
                first: head.transfer,
            },
        ),
        None => holds_one(held),
    }
}

// The connection is idle.
fn in_use(known: &OpenConnection) -> Option<Violation>
    ensures { result ≡ in_use known.now }
{
    let want = known.holder?;
    Some(Violation::InUse {
        holder: want.transfer,
    })
}

// A transfer holds the connection.
fn not_held(known: &OpenConnection) -> Option<Violation>
    ensures { result ≡ not_held known.now }
{
    unless(known.holder.is_some(), Violation::NotHeld)
}

fn other_lane(known: &OpenConnection, want: &Want) -> Option<Violation>
    ensures { result ≡ other_lane known.now want.now }
{
    unless(
        known.lane == want.lane,
        Violation::OtherLane { lane: known.lane },
    )
}

fn wants_new(want: &Want) -> Option<Violation>
    ensures { result ≡ wants_new want.now }
{
    unless(!want.fresh, Violation::WantsNew)
}

fn idle_too_long(known: &OpenConnection, want: &Want, moment: u64) -> Option<Violation>
    ensures { result ≡ idle_too_long known.now want.now moment }
{
    let idle = moment.saturating_sub(known.since);
    unless(idle <= want.max_age, Violation::IdleTooLong { idle })
}

fn open_too_long(known: &OpenConnection, want: &Want, moment: u64) -> Option<Violation>
    ensures { result ≡ open_too_long known.now want.now moment }
{
    let age = moment.saturating_sub(known.born);
    unless(
        want.max_life == 0 || age <= want.max_life,
        Violation::OpenTooLong { age },
    )
}

/// The rules of an opening, those of its start last.
pub(crate) fn of_opened(
    next: u64,
    count: u64,
    limit: u32,
    connection: u32,
    start: Option<Violation>,
) -> Option<Violation>
    ensures { result ≡ of_opened next count limit connection start }
{
    first_of(&[
        unless(u64::from(connection) == next, Violation::NotNext { next }),
        unless(count < u64::from(limit), Violation::Full { count, limit }),
        start,
    ])
}

/// The rules of a lease, those of its start last.
pub(crate) fn of_leased(
    known: Option<OpenConnection>,
    want: &Want,
    moment: u64,
    start: Option<Violation>,
) -> Option<Violation>
    ensures { result ≡ of_leased known want.now moment start }
{
    let Some(known) = known else {
        return Some(Violation::NotOpen);
    };
    first_of(&[
        in_use(&known),
        other_lane(&known, want),
        wants_new(want),
        idle_too_long(&known, want, moment),
        open_too_long(&known, want, moment),
        start,
    ])
}

/// The rules of a return.
pub(crate) fn of_returned(known: Option<OpenConnection>) -> Option<Violation>
    ensures { result ≡ of_returned known }
{
    let Some(known) = known else {
        return Some(Violation::NotOpen);
    };
    not_held(&known)
}

// What a cause asks where no close is owed.
fn of_cause(cause: Cause, known: &OpenConnection) -> Option<Violation>
    ensures { result ≡ of_cause cause known.now }
{
    match cause {
        Cause::Dropped | Cause::Withdrawn => not_held(known),
        Cause::Cut | Cause::Forbidden | Cause::NotPersistent => Some(Violation::NotOwed),
        Cause::TooOld | Cause::HostRoom | Cause::TotalRoom | Cause::CacheFull | Cause::Pruned => {
            in_use(known)
        }
    }
}

/// The rules of a close where none is owed.
pub(crate) fn of_closed(known: Option<OpenConnection>, cause: Cause) -> Option<Violation>
    ensures { result ≡ of_closed known cause }
{
    let Some(known) = known else {
        return Some(Violation::NotOpen);
    };
    of_cause(cause, &known)
}

/// The rules of a wait.
pub(crate) fn of_waited(held: Option<u32>, is_waiting: bool, count: u64) -> Option<Violation>
    ensures { result ≡ of_waited held is_waiting count }
{
    first_of(&[
        holds_one(held),
        unless(!is_waiting, Violation::WaitsAlready),
        unless(count == 0, Violation::BesideIdle { count }),
    ])
}

/// The rule of the end of a wait.
pub(crate) fn of_left(is_waiting: bool) -> Option<Violation>
    ensures { result ≡ of_left is_waiting }
{
    unless(is_waiting, Violation::NotWaiting)
}

/// The rule of a changed limit.
pub(crate) fn of_limit(count: u64, limit: u32) -> Option<Violation>
    ensures { result ≡ of_limit count limit }
{
    unless(count <= u64::from(limit), Violation::BelowOpen { count })
}

// Whether both are the same cause of an ended use.
fn is_same_ending(cause: Cause, other: Cause) -> bool
    ensures { result ≡ is_same_ending cause other }
{
    match (cause, other) {
        (Cause::Cut, Cause::Cut)
        | (Cause::Forbidden, Cause::Forbidden)
        | (Cause::NotPersistent, Cause::NotPersistent) => true,
        _ => false,
    }
}

// Whether the event closes the connection for that cause of an ended use.
fn is_close_of(connection: u32, cause: Cause, event: &Event) -> bool
    ensures { result ≡ is_close_of connection cause event.now }
{
    match *event {
        Event::Closed {
            connection: closed,
            cause: why,
        } => closed == connection && is_same_ending(why, cause),
        _ => false,
    }
}

/// The rule where a close is owed.
pub(crate) fn of_owed(connection: u32, cause: Cause, event: &Event) -> Option<Violation>
    ensures { result ≡ of_owed connection cause event.now }
{
    unless(
        is_close_of(connection, cause, event),
        Violation::CloseOwed { connection, cause },
    )
}
