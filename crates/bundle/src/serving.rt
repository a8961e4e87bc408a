//! The steps of calls: how a transfer starts, and how waiters are served.

ghost use Rattle.std.specs.Prelude.{◌≡◌, ◌+◌, ◌-◌, ◌<◌, ◌≤◌, ◌==◌, ◌&&◌, not, []};
ghost use Rattle.std.specs.Prelude.{length, Some, None, true, false, if◌then◌else◌};
ghost use Rattle.std.specs.Prelude.{vec_len, vec_capacity};
ghost use Rattle.budget.specs.declared.permits.Try.{Try};
ghost use Rattle.budget.specs.Permits.{held, one_more_open, one_more_kept};
ghost use Rattle.conn_log.specs.declared.entry.Cause.TheVariants.{TooOld, HostRoom, TotalRoom};
ghost use Rattle.conn_log.specs.declared.entry.Event.TheVariants.{Waited};
ghost use Rattle.conn_log.specs.Connections.{last_moment, held_number, idle_connections};
ghost use Rattle.conn_log.specs.Connections.{open_connections};
ghost use Rattle.conn_log.specs.Waiting.{waiting, waits};
ghost use Rattle.conn_log.specs.Fit.{is_older};
ghost use Rattle.conn_log.specs.Legal.{IsAnyone};
ghost use Rattle.conn_log.specs.Sound.{is_of_idle};
ghost use Rattle.host_state.specs.Steps.{add, is_full, picked, without_picked};
ghost use Rattle.host_state.specs.Calls.{start_behind, start_as_told, start_in_place, grant_to};
ghost use Rattle.host_state.specs.Calls.{open_for_head, open_for_first};
ghost use Rattle.bundle.specs.Grants.{with_new, with_granted, with_first, IsAlone};
ghost use Rattle.bundle.specs.Around.{HoldsPart, MovesPart};
ghost use Rattle.bundle.specs.Inside.{IsInside, OnlyGrants, MayStart, SeatsLeases};
ghost use Rattle.bundle.specs.Inside.{GivesAt, GivesAnewAt};
ghost use Rattle.host_state.specs.Counts.{held_by};
ghost use Rattle.host_state.specs.Asks.{asks_to_open};
ghost use Rattle.host_state.specs.Effects.{one_if};
ghost use Rattle.bundle.specs.Seats.{IsSeated};
ghost use Rattle.host_state.specs.Idle.{stream_of};
ghost use Rattle.bundle.specs.Replies.{GivesBooking, UnlessBooking, IsGot};
ghost use Rattle.host_state.specs.State.{IsSameHost, KeepsOpen, KeepsOpenBut, ClosesIdle, limit_of};
ghost use Rattle.host_state.specs.State.{open_len, idle_len};

use crate::answers::Got;
use crate::asker::Asker;
use crate::booking::Booking;
use crate::grant::Grant;
use crate::lease::{Lease, Use};
use crate::seats::Seats;
use crate::shortage::NoRoom;
use crate::ticket::Ticket;
use budget::{Permits, Try};
use conn_log::{Cause, Want};
use host_state::{Closing, Held, State};

/// Closes the idle connections that the closing picks, the one idle for the longest time first, and
/// frees both permits of each. It answers how many it closed.
#[inline(always)]
pub(crate) fn close_idle<S: Drop, P: Permits<Asker>>(
    state: &mut State<S>,
    closing: &Closing,
    moment: u64,
    permits: &mut P,
) -> u32
    requires later { last_moment state.old.log ≤ moment }
    requires permits { HoldsPart P.stands P.held (held_by state.old.log) permits.old }
    ensures log { state.new.log ≡ without_picked closing.now moment state.old.log }
    ensures count { result ≡ length (picked closing.now moment state.old.log) }
    ensures closes { ClosesIdle moment state.old state.new }
    ensures fewer_idle { idle_len state.old ≡ idle_len state.new + result }
    ensures as_many_held { open_len state.new + idle_len state.old
        ≡ open_len state.old + idle_len state.new }
    ensures unasked { P.asked permits.old permits.new 0 0 }
    ensures permits { let much = held_by state.new.log in
        MovesPart P.stands P.stays P.held much permits.old permits.new }
{
    let idle_before = state.idle_len();
    while state.close_next(closing, moment) {
        permits.release_kept();
        permits.release_open();
    }
    idle_before - state.idle_len()
}

/// Starts the transfer, or has it wait. If others wait, it waits behind them. Else what is too old
/// for it is closed, and it starts on the newest idle connection that fits; if none fits, at the
/// host's limit in place of the oldest idle one; and as the budget answers if the host has room. At
/// the last try the host's oldest idle connection makes room if the budget has none, or the
/// transfer waits; before that its acquire is left halfway.
// Out of line, so that the reuse of the newest connection stays small enough to be inlined.
#[cold]
#[inline(never)]
pub(crate) fn start_or_wait<S: Drop, P: Permits<Asker>>(
    state: &mut State<S>,
    seats: &mut Seats,
    want: Want,
    moment: u64,
    permits: &mut P,
    is_last: bool,
) -> Got<S>
    requires seated { IsSeated state.old.log seats.old }
    requires may { MayStart state.old want moment }
    requires once { waits state.old.log want.transfer ≡ false }
    requires none_idle { IsAnyone (waiting state.old.log) → idle_connections state.old.log ≡ [] }
    requires permits { HoldsPart P.stands P.held (held_by state.old.log) permits.old }
    ensures told { (told : Try) × P.opening permits.old permits.new told
        × (let wants = waiting state.old.log in
        let due = start_behind wants is_last told state.old.settings want moment state.old.log in
        (state.new.log ≡ due.log) × IsGot state.old.host want due.reply result) }
    ensures got { GivesAt state.old state.new seats.old.tables result }
    ensures seats { SeatsLeases state.new.log seats.old seats.new }
    ensures fewer_booked { UnlessBooking result (state.new.booked + 1 ≡ state.old.booked) }
    ensures still_booked { GivesBooking result (λ booking. state.new.booked ≡ state.old.booked) }
    ensures asked { let asks = one_if (asks_to_open state.old.settings state.old.log want moment) in
        P.asked permits.old permits.new asks 0 }
    ensures permits { let much = held_by state.new.log in
        MovesPart P.stands P.stays P.held much permits.old permits.new }
    ensures same_host { IsSameHost state.old state.new }
{
    if state.anyone_waits() {
        return Got::Wait(wait_last(state, seats, want, moment));
    }
    close_idle(state, &Closing::TooOld(want), moment, permits);
    // One more can be counted.
    let _open = state.open_len();
    if let Some((number, stream)) = state.lease_newest_fit(&want, moment) {
        permits.release_kept();
        let _entries = state.log().total_len();
        let seat = seats.lease(number, want.transfer);
        let used = Use::reusing(state.host(), number, want, moment, stream);
        return Got::Lease(Lease::new(used, seat));
    }
    if state.is_full() {
        return start_in_place(state, seats, want, Cause::HostRoom, moment, permits);
    }
    start_as_told(state, seats, want, moment, permits, is_last)
}

// The host has room: the budget is asked for one connection more.
#[inline(always)]
fn start_as_told<S: Drop, P: Permits<Asker>>(
    state: &mut State<S>,
    seats: &mut Seats,
    want: Want,
    moment: u64,
    permits: &mut P,
    is_last: bool,
) -> Got<S>
    requires seated { IsSeated state.old.log seats.old }
    requires may { MayStart state.old want moment }
    requires nobody { waiting state.old.log ≡ [] }
    requires not_full { is_full state.old.settings state.old.log ≡ false }
    requires permits { HoldsPart P.stands P.held (held_by state.old.log) permits.old }
    ensures told { (told : Try) × P.opening permits.old permits.new told
        × (let due = start_as_told is_last told state.old.settings want moment state.old.log in
        (state.new.log ≡ due.log) × IsGot state.old.host want due.reply result) }
    ensures got { GivesAnewAt state.old state.new seats.old.tables result }
    ensures seats { SeatsLeases state.new.log seats.old seats.new }
    ensures streams { KeepsOpen state.old state.new }
    ensures fewer_booked { UnlessBooking result (state.new.booked + 1 ≡ state.old.booked) }
    ensures still_booked { GivesBooking result (λ booking. state.new.booked ≡ state.old.booked) }
    ensures asked { P.asked permits.old permits.new 1 0 }
    ensures permits { let much = held_by state.new.log in
        MovesPart P.stands P.stays P.held much permits.old permits.new }
    ensures same_host { IsSameHost state.old state.new }
{
    match permits.reserve_open(&Asker::of_bundle()) {
        Try::Got => {
            // One more can be counted.
            let _open = state.open_len();
            let number = state.open(&want, moment);
            let _entries = state.log().total_len();
            let seat = seats.lease(number, want.transfer);
            let used = Use::opened(state.host(), number, want, moment);
            Got::Lease(Lease::new(used, seat))
        }
        Try::Contended => Got::Again(Booking::new(state.host(), want)),
        Try::Full => {
            if is_last {
                return start_in_place(state, seats, want, Cause::TotalRoom, moment, permits);
            }
            Got::NoRoom(NoRoom::of(Booking::new(state.host(), want)))
        }
    }
}

// The oldest idle connection makes room for a new one, which takes over its permit; if none is idle
// the transfer waits.
#[inline(always)]
fn start_in_place<S: Drop, P: Permits<Asker>>(
    state: &mut State<S>,
    seats: &mut Seats,
    want: Want,
    cause: Cause,
    moment: u64,
    permits: &mut P,
) -> Got<S>
    requires seated { IsSeated state.old.log seats.old }
    requires may { MayStart state.old want moment }
    requires of_idle { is_of_idle cause ≡ true }
    requires nobody { waiting state.old.log ≡ [] }
    requires permits { HoldsPart P.stands P.held (held_by state.old.log) permits.old }
    ensures log { let due = start_in_place cause state.old.settings want moment state.old.log in
        (state.new.log ≡ due.log) × IsGot state.old.host want due.reply result }
    ensures got { GivesAnewAt state.old state.new seats.old.tables result }
    ensures seats { SeatsLeases state.new.log seats.old seats.new }
    ensures streams { KeepsOpen state.old state.new }
    ensures fewer_booked { state.new.booked + 1 ≡ state.old.booked }
    ensures same_total { P.same_total permits.old permits.new }
    ensures unasked { P.asked permits.old permits.new 0 0 }
    ensures permits { let much = held_by state.new.log in
        MovesPart P.stands P.stays P.held much permits.old permits.new }
    ensures same_host { IsSameHost state.old state.new }
{
    if state.idle_len() == 0 {
        return Got::Wait(wait_last(state, seats, want, moment));
    }
    state.close_oldest(cause, moment);
    permits.release_kept();
    // One more can be counted.
    let _open = state.open_len();
    let number = state.open(&want, moment);
    let _entries = state.log().total_len();
    let seat = seats.lease(number, want.transfer);
    let used = Use::opened(state.host(), number, want, moment);
    Got::Lease(Lease::new(used, seat))
}

// The transfer waits after all others.
#[inline(always)]
fn wait_last<S: Drop>(state: &mut State<S>, seats: &Seats, want: Want, moment: u64) -> Ticket
    requires any_booked { 0 < state.old.booked }
    requires later { last_moment state.old.log ≤ moment }
    requires free { held_number state.old.log want.transfer ≡ None }
    requires once { waits state.old.log want.transfer ≡ false }
    requires none_idle { idle_connections state.old.log ≡ [] }
    ensures log { state.new.log ≡ add moment (Waited want) state.old.log }
    ensures ticket { result ≡ record {
      site = state.old.host;
      wait = record { want = want; moment = moment };
      tables = seats.now.tables;
    } }
    ensures streams { state.new.streams ≡ state.old.streams }
    ensures lengths { held_by state.new.log ≡ held_by state.old.log }
    ensures fewer_booked { state.new.booked + 1 ≡ state.old.booked }
    ensures same_host { IsSameHost state.old state.new }
{
    state.wait(want, moment);
    Ticket::new(state.host(), want, moment, seats)
}

/// Opens a connection for the first waiter, if there is one, and grants it. The permit of the
/// connection was got before.
#[inline(never)]
pub(crate) fn open_for_head<S: Drop>(
    state: &mut State<S>,
    seats: &mut Seats,
    grants: &mut Vec<Grant<S>>,
    moment: u64,
)
    requires inside { IsInside state.old seats.old grants.old.items (vec_len grants.old)
        (vec_capacity grants.old) }
    requires later { last_moment state.old.log ≤ moment }
    requires not_full { IsAnyone (waiting state.old.log) →
        is_full state.old.settings state.old.log ≡ false }
    ensures log { state.new.log ≡ open_for_head state.old.settings moment state.old.log }
    ensures grants { let log = state.old.log in
        let wants = waiting state.old.log in
        grants.new.items ≡ with_new state.old.settings moment log wants grants.old.items }
    ensures inside { IsInside state.new seats.new grants.new.items (vec_len grants.new)
        (vec_capacity grants.new) }
    ensures more_open { IsAnyone (waiting state.old.log) →
        held_by state.new.log ≡ one_more_open (held_by state.old.log) }
    ensures unchanged { waiting state.old.log ≡ [] → state.new.log ≡ state.old.log }
    ensures streams { state.new.streams ≡ state.old.streams }
    ensures only { OnlyGrants state.old state.new seats.old seats.new }
{
    let Some(head) = state.first_waiting() else {
        return;
    };
    // The log is sound, so whoever waits holds nothing; and one more can be counted.
    let _log = state.log();
    let _open = state.open_len();
    let number = state.open(&head, moment);
    let _entries = state.log().total_len();
    seats.grant(number, head.transfer);
    grants.push_reserved(Grant {
        want: head,
        number,
        moment,
        stream: None,
    });
}

/// Hands on the permit of a connection that its holder closed: one is opened with it for the first
/// waiter; if nobody waits it is freed.
#[cold]
#[inline(never)]
pub(crate) fn hand_on<S: Drop, P: Permits<Asker>>(
    state: &mut State<S>,
    seats: &mut Seats,
    grants: &mut Vec<Grant<S>>,
    moment: u64,
    permits: &mut P,
)
    requires inside { IsInside state.old seats.old grants.old.items (vec_len grants.old)
        (vec_capacity grants.old) }
    requires later { last_moment state.old.log ≤ moment }
    requires not_full { is_full state.old.settings state.old.log ≡ false }
    requires permits { let much = one_more_open (held_by state.old.log) in
        HoldsPart P.stands P.held much permits.old }
    ensures log { state.new.log ≡ open_for_head state.old.settings moment state.old.log }
    ensures grants { let log = state.old.log in
        let wants = waiting state.old.log in
        grants.new.items ≡ with_new state.old.settings moment log wants grants.old.items }
    ensures inside { IsInside state.new seats.new grants.new.items (vec_len grants.new)
        (vec_capacity grants.new) }
    ensures streams { state.new.streams ≡ state.old.streams }
    ensures only { OnlyGrants state.old state.new seats.old seats.new }
    ensures same_kept { P.same_kept permits.old permits.new }
    ensures unasked { P.asked permits.old permits.new 0 0 }
    ensures permits { let much = held_by state.new.log in
        MovesPart P.stands P.stays P.held much permits.old permits.new }
{
    if !state.anyone_waits() {
        permits.release_open();
        return;
    }
    open_for_head(state, seats, grants, moment);
}

/// Grants a connection that has just come back to the first waiter, if there is one. If it does not
/// fit the waiter's want it is closed, and one is opened for the waiter.
#[inline(always)]
pub(crate) fn grant_to_head<S: Drop>(
    state: &mut State<S>,
    seats: &mut Seats,
    grants: &mut Vec<Grant<S>>,
    held: &Held,
    moment: u64,
)
    requires inside { IsInside state.old seats.old grants.old.items (vec_len grants.old)
        (vec_capacity grants.old) }
    requires later { last_moment state.old.log ≤ moment }
    requires alone { let held = held.now in
        IsAnyone (waiting state.old.log) →
        IsAlone state.old.log held.number held.lane held.born moment }
    ensures log { let log = state.old.log in
        let wants = waiting state.old.log in
        state.new.log ≡ grant_to state.old.settings held.now.number moment log wants }
    ensures grants { let log = state.old.log in
        let wants = waiting state.old.log in
        let stream = stream_of state.old.streams held.now.number in
        let passed = with_granted state.old.settings held.now.number moment stream log wants in
        grants.new.items ≡ passed grants.old.items }
    ensures inside { IsInside state.new seats.new grants.new.items (vec_len grants.new)
        (vec_capacity grants.new) }
    ensures others { KeepsOpenBut held.now.number state.old state.new }
    ensures taken { IsAnyone (waiting state.old.log) →
        one_more_kept (held_by state.new.log) ≡ held_by state.old.log }
    ensures unchanged { waiting state.old.log ≡ [] → state.new ≡ state.old }
    ensures only { OnlyGrants state.old state.new seats.old seats.new }
{
    if state.anyone_waits() {
        let (number, lane, born) = (held.number, held.lane, held.born);
        grant_or_replace(state, seats, grants, number, lane, born, moment);
    }
}

// The same, if anyone waits, which is rare. Out of line, so that a return stays small enough to be
// inlined if nobody waits. It is lent the number, lane and birth of the connection apart: what is
// lent as a whole has to stand in memory.
#[cold]
#[inline(never)]
fn grant_or_replace<S: Drop>(
    state: &mut State<S>,
    seats: &mut Seats,
    grants: &mut Vec<Grant<S>>,
    number: u32,
    lane: u32,
    born: u64,
    moment: u64,
)
    requires inside { IsInside state.old seats.old grants.old.items (vec_len grants.old)
        (vec_capacity grants.old) }
    requires later { last_moment state.old.log ≤ moment }
    requires alone { IsAnyone (waiting state.old.log) →
        IsAlone state.old.log number lane born moment }
    ensures log { let log = state.old.log in
        let wants = waiting state.old.log in
        state.new.log ≡ grant_to state.old.settings number moment log wants }
    ensures grants { let log = state.old.log in
        let wants = waiting state.old.log in
        let stream = stream_of state.old.streams number in
        let passed = with_granted state.old.settings number moment stream log wants in
        grants.new.items ≡ passed grants.old.items }
    ensures inside { IsInside state.new seats.new grants.new.items (vec_len grants.new)
        (vec_capacity grants.new) }
    ensures others { KeepsOpenBut number state.old state.new }
    ensures taken { IsAnyone (waiting state.old.log) →
        one_more_kept (held_by state.new.log) ≡ held_by state.old.log }
    ensures unchanged { waiting state.old.log ≡ [] → state.new ≡ state.old }
    ensures only { OnlyGrants state.old state.new seats.old seats.new }
{
    let Some(head) = state.first_waiting() else {
        return;
    };
    // The log is sound, so whoever waits holds nothing.
    let _log = state.log();
    if let Some((number, stream)) = state.lease_newest_fit(&head, moment) {
        // One more can be counted.
        let (_open, _entries) = (state.open_len(), state.log().total_len());
        seats.grant(number, head.transfer);
        grants.push_reserved(Grant {
            want: head,
            number,
            moment,
            stream: Some(stream),
        });
        return;
    }
    let cause = unfit_cause(lane, born, &head, state.is_full(), moment);
    state.close_oldest(cause, moment);
    open_for_head(state, seats, grants, moment);
}

/// Opens a connection for each of the first `count` waiters. Their permits were got before.
pub(crate) fn open_for_first<S: Drop>(
    state: &mut State<S>,
    seats: &mut Seats,
    grants: &mut Vec<Grant<S>>,
    moment: u64,
    count: u32,
)
    requires inside { IsInside state.old seats.old grants.old.items (vec_len grants.old)
        (vec_capacity grants.old) }
    requires later { last_moment state.old.log ≤ moment }
    requires waits { count ≤ length (waiting state.old.log) }
    requires within_limit { length (open_connections state.old.log) + count
        ≤ limit_of state.old }
    ensures log { state.new.log ≡ open_for_first count state.old.settings moment state.old.log }
    ensures grants { let granted = grants.old.items in
        grants.new.items ≡ with_first count state.old.settings moment state.old.log granted }
    ensures inside { IsInside state.new seats.new grants.new.items (vec_len grants.new)
        (vec_capacity grants.new) }
    ensures more_open { let open_before = length (open_connections state.old.log) in
        let idle_before = length (idle_connections state.old.log) in
        held_by state.new.log ≡ held (open_before + count) idle_before }
    ensures streams { state.new.streams ≡ state.old.streams }
    ensures only { OnlyGrants state.old state.new seats.old seats.new }
{
    // The log is sound, so each transfer waits once: with each one opened, one fewer waits.
    let _log = state.log();
    let mut opened = 0;
    while opened < count {
        open_for_head(state, seats, grants, moment);
        opened += 1;
    }
}

// The cause for which a connection that has just come back is closed, if it does not fit the want:
// it is open for longer than the want allows, or it makes room.
fn unfit_cause(lane: u32, born: u64, want: &Want, is_full: bool, moment: u64) -> Cause
    ensures { let too_old = is_older moment born want.now.max_age want.now.max_life moment in
        let room = if is_full then HostRoom else TotalRoom in
        let same_lane = lane == want.now.lane in
        result ≡ (if same_lane && not want.now.fresh && too_old then TooOld else room) }
{
    let open_for = moment.saturating_sub(born);
    let is_too_old = want.max_life != 0 && open_for > want.max_life;
    if lane == want.lane && !want.fresh && is_too_old {
        return Cause::TooOld;
    }
    if is_full {
        Cause::HostRoom
    } else {
        Cause::TotalRoom
    }
}
