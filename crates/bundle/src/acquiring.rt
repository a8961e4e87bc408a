//! How a transfer acquires a connection.

ghost use Rattle.std.specs.Prelude.{◌≡◌, ◌+◌, ◌<◌, ◌++◌, ◌∷◌, [], ◌⊎◌, Some, None, true, false};
ghost use Rattle.std.specs.Prelude.{length, vec_len, vec_capacity, IfSome, IfNone, IfErr};
ghost use Rattle.std.specs.Prelude.{OnOk, OnErr, OnSome, ◌≤◌};
ghost use Rattle.budget.specs.declared.permits.Try.TheVariants.{Got as TryGot};
ghost use Rattle.conn_log.specs.Connections.{held_number, is_among, last_moment};
ghost use Rattle.conn_log.specs.Waiting.{waiting, waits};
ghost use Rattle.host_state.specs.Steps.{is_exhausted};
ghost use Rattle.host_state.specs.State.{IsSameHost};
ghost use Rattle.host_state.specs.Calls.{refusal, is_queued, start_behind, GrowsBy};
ghost use Rattle.host_state.specs.Laws.{IsSoundAndQuiet};
ghost use Rattle.bundle.specs.Lease.{StaysThere, IsBookedHere};
ghost use Rattle.bundle.specs.Around.{HoldsPart, MovesPart, KeepsPass};
ghost use Rattle.bundle.specs.Starts.{AnswersAcquire, AcquiresAt};
ghost use Rattle.bundle.specs.Inside.{MayLeaseAtOnce, IsLeased, SeatsLeases};
ghost use Rattle.host_state.specs.Counts.{held_by};
ghost use Rattle.host_state.specs.Bookings.{without_booked};
ghost use Rattle.bundle.specs.Lobbies.{IfLent, IfLeft, is_lent};
ghost use Rattle.host_state.specs.Orders.{Lists, IsMarked};
ghost use Rattle.bundle.specs.Seats.{IsSeated};
ghost use Rattle.bundle.specs.Replies.{GivesBooking, UnlessBooking, IfGot, IsGot};
ghost use Rattle.budget.specs.Accounts.{IsEnrolledAt};
ghost use Rattle.bundle.specs.Passes.{tells, got_did, acquire_did};

use crate::answers::Got;
use crate::asker::Asker;
use crate::booking::Booking;
use crate::did::{Did, start_entry, tell_got, tell_refused};
use crate::host::Bundle;
use crate::lease::{Lease, Use};
use crate::seats::Seats;
use crate::serving::start_or_wait;
use budget::{Lobby, Pass, Permits, Refusal};
use conn_log::Want;
use host_state::State;

impl<S: Drop> Bundle<S> {
    /// Leases a connection to the transfer: the newest idle one that fits its want, else a new one.
    /// First it closes idle connections of the same lane that are too old, unless the transfer
    /// wants a new one. At the host's limit the oldest idle connection makes room; if none is idle
    /// there, the transfer waits, as it does if others wait here. If the host has room, `permits`
    /// is asked for one connection more. If the budget has none, or has to be asked again, the
    /// acquire is left halfway with a [`Booking`], and has closed nothing but connections that are
    /// too old. `now` is in seconds.
    ///
    /// All memory that the lease, ticket or booking and its end will need is taken first. Refused,
    /// in this order, with [`Refusal::TransferBusy`] if the transfer holds a connection, waits here
    /// or has a booking, with [`Refusal::Exhausted`] if the connection numbers that are left are
    /// those that the waiting and booked transfers may need, and with [`Refusal::Memory`] if memory
    /// runs out.
    ///
    /// The pass is told the entry of the start or the wait, or that the transfer is busy or no
    /// number is left. It is told nothing if the acquire is halfway or memory runs out.
    ///
    /// Asked of the caller: the pass is enrolled here.
    #[inline(always)]
    pub fn acquire<P: Permits<Asker>>(
        &mut self,
        want: Want,
        now: u64,
        permits: &mut P,
        pass: &mut Pass<Did>,
    ) -> Result<Got<S>, Refusal>
        requires enrolled { IsEnrolledAt pass.old self.old.host self.old.tables.starts }
        requires permits { HoldsPart P.stands P.held (held_by self.old.log) permits.old }
        ensures answer { let opening = P.opening permits.old permits.new in
            let asked = P.asked permits.old permits.new in
            IfGot result (AnswersAcquire opening asked false self.old self.new want now) }
        ensures got { let halfway = self.old.booked ++ want.transfer ∷ [] in
            IfGot result (AcquiresAt self.old self.new want self.old.booked halfway) }

        // Each refusal comes exactly if log and bookings give it; else only memory can run out.
        ensures refused { let due = refusal self.old.settings self.old.log self.old.booked want in
            IfSome due (λ reason. result ≡ Err reason) }
        ensures else_memory { let due = refusal self.old.settings self.old.log self.old.booked want
            in IfErr result (λ reason. (due ≡ Some reason) ⊎ (reason ≡ Refusal.Memory)) }
        ensures err { OnErr result ((self.new ≡ self.old) × (permits.new ≡ permits.old)) }

        ensures tells { pass.new
            ≡ tells self.old.host (acquire_did want.transfer result) pass.old }
        ensures same_host { StaysThere self.old self.new }
        ensures grew { OnOk result (GrowsBy self.old.log self.new.log) }
        ensures settled { IsSoundAndQuiet self.new.settings self.new.log }
        ensures mark { is_queued self.new.settings self.new.log
            ≡ is_queued self.old.settings self.old.log }
        ensures permits { let much = held_by self.new.log in
            MovesPart P.stands P.stays P.held much permits.old permits.new }
        ensures pass { KeepsPass self.old self.new pass.old pass.new }
    {
        let moment = self.state.moment(now);
        let seats = &mut self.seats;
        if let Some(lease) = lease_at_once(
            &mut self.state,
            seats,
            &self.bookings,
            want,
            moment,
            permits,
        ) {
            let start = Did::Wrote(start_entry(&lease));
            pass.tell(self.state.host() as usize, self.seats.tally(), start);
            return Ok(Got::Lease(lease));
        }
        if let Some(reason) = reason_against(&self.state, &self.bookings, &want) {
            let (host, tally) = (self.state.host(), self.seats.tally());
            tell_refused(pass, host, tally, want.transfer, reason);
            return Err(reason);
        }
        let waiting = self.state.waiting_len() as usize;
        let Ok(()) = self.grants.reserve(waiting + self.bookings.len() + 1) else {
            return Err(Refusal::Memory);
        };
        let Ok(()) = self.bookings.reserve(1) else {
            return Err(Refusal::Memory);
        };
        let Ok(()) = self.state.book() else {
            return Err(Refusal::Memory);
        };
        let seats = &mut self.seats;
        let got = start_or_wait(&mut self.state, seats, want, moment, permits, false);
        add_booking(&mut self.bookings, &got, want.transfer);
        tell_got(pass, self.state.host(), self.seats.tally(), &got);
        Ok(got)
    }

    /// Tries an acquire again that is halfway, by the same steps. With the lobby this is the last
    /// try: if the budget has no room, the host's own oldest idle connection makes room, or the
    /// transfer waits and the host is queued. `now` is in seconds. It takes no memory.
    ///
    /// The pass is told as by [`Bundle::acquire`].
    ///
    /// Asked of the caller: the booking is this host's, and the pass is enrolled here; the lobby
    /// lists this host exactly if it is queued.
    pub fn retry<P: Permits<Asker>>(
        &mut self,
        booking: Booking,
        now: u64,
        permits: &mut P,
        lobby: Option<&mut Lobby>,
        pass: &mut Pass<Did>,
    ) -> Got<S>
        requires enrolled { IsEnrolledAt pass.old self.old.host self.old.tables.starts }
        requires here { IsBookedHere self.old booking }
        requires permits { HoldsPart P.stands P.held (held_by self.old.log) permits.old }
        requires lobby { let mark = is_queued self.old.settings self.old.log in
            IfLent lobby (Lists self.old.host mark) }
        ensures answer { let opening = P.opening permits.old permits.new in
            let asked = P.asked permits.old permits.new in
            let is_last = is_lent lobby.entry in
            AnswersAcquire opening asked is_last self.old self.new booking.want now result }
        ensures got { let done = without_booked booking.want.transfer self.old.booked in
            AcquiresAt self.old self.new booking.want done self.old.booked result }
        ensures tells { pass.new ≡ tells self.old.host (got_did result) pass.old }
        ensures same_host { StaysThere self.old self.new }
        ensures grew { GrowsBy self.old.log self.new.log }
        ensures settled { IsSoundAndQuiet self.new.settings self.new.log }
        ensures mark { let was = is_queued self.old.settings self.old.log in
            is_lent lobby.entry ≡ false → is_queued self.new.settings self.new.log ≡ was }
        ensures permits { let much = held_by self.new.log in
            MovesPart P.stands P.stays P.held much permits.old permits.new }
        ensures lobby { let was = is_queued self.old.settings self.old.log in
            let is = is_queued self.new.settings self.new.log in
            IfLeft lobby.entry lobby.exit (IsMarked self.old.host was is) }
        ensures pass { KeepsPass self.old self.new pass.old pass.new }
    {
        let was_queued = self.queued();
        match lobby {
            Some(lobby) => {
                let got = self.try_again(booking, now, permits, true, pass);
                self.mark(was_queued, lobby);
                got
            }
            None => self.try_again(booking, now, permits, false, pass),
        }
    }

    // Tries an acquire that is halfway again.
    fn try_again<P: Permits<Asker>>(
        &mut self,
        booking: Booking,
        now: u64,
        permits: &mut P,
        is_last: bool,
        pass: &mut Pass<Did>,
    ) -> Got<S>
        requires enrolled { IsEnrolledAt pass.old self.old.host self.old.tables.starts }
        requires here { IsBookedHere self.old booking }
        requires permits { HoldsPart P.stands P.held (held_by self.old.log) permits.old }
        ensures answer { let opening = P.opening permits.old permits.new in
            let asked = P.asked permits.old permits.new in
            AnswersAcquire opening asked is_last self.old self.new booking.want now result }
        ensures got { let done = without_booked booking.want.transfer self.old.booked in
            AcquiresAt self.old self.new booking.want done self.old.booked result }
        ensures tells { pass.new ≡ tells self.old.host (got_did result) pass.old }
        ensures same_host { StaysThere self.old self.new }
        ensures grew { GrowsBy self.old.log self.new.log }
        ensures settled { IsSoundAndQuiet self.new.settings self.new.log }
        ensures mark { let was = is_queued self.old.settings self.old.log in
            is_last ≡ false → is_queued self.new.settings self.new.log ≡ was }
        ensures permits { let much = held_by self.new.log in
            MovesPart P.stands P.stays P.held much permits.old permits.new }
        ensures pass { KeepsPass self.old self.new pass.old pass.new }
    {
        let want = booking.spend();
        let moment = self.state.moment(now);
        let seats = &mut self.seats;
        let got = start_or_wait(&mut self.state, seats, want, moment, permits, is_last);
        take_booking(&mut self.bookings, &got, want.transfer);
        tell_got(pass, self.state.host(), self.seats.tally(), &got);
        got
    }

    // Has the lobby list the host exactly if it is queued.
    pub(crate) fn mark(&self, was_queued: bool, lobby: &mut Lobby)
        requires lists { Lists self.now.host was_queued lobby.old }
        ensures { let is = is_queued self.now.settings self.now.log in
            IsMarked self.now.host was_queued is lobby.old lobby.new }
    {
        let is_queued = self.queued();
        if was_queued {
            if !is_queued {
                lobby.delist(self.state.host());
            }
        } else if is_queued {
            lobby.enlist(self.state.host());
        }
    }
}

// Fast path, if no acquire is halfway: leases the newest idle connection, if it fits and nothing
// else is to be done. It takes one look into the table of holders.
#[inline(always)]
fn lease_at_once<S: Drop, P: Permits<Asker>>(
    state: &mut State<S>,
    seats: &mut Seats,
    bookings: &[u64],
    want: Want,
    moment: u64,
    permits: &mut P,
) -> Option<Lease<S>>
    requires seated { IsSeated state.old.log seats.old }
    requires as_many_booked { state.old.booked ≡ length bookings.now }
    requires later { last_moment state.old.log ≤ moment }
    requires permits { HoldsPart P.stands P.held (held_by state.old.log) permits.old }
    ensures unchanged { IfNone result ((state.new ≡ state.old) × (permits.new ≡ permits.old)
        × (seats.new ≡ seats.old)) }
    ensures due { let wants = waiting state.old.log in
        let due = start_behind wants false TryGot state.old.settings want moment state.old.log in
        IfSome result (λ lease. (state.new.log ≡ due.log)
        × IsGot state.old.host want due.reply (Got.Lease lease)) }
    ensures at_once { OnSome result (MayLeaseAtOnce state.old bookings.now want moment) }
    ensures lease { IfSome result (IsLeased state.old state.new seats.old.tables) }
    ensures seats { SeatsLeases state.new.log seats.old seats.new }
    ensures same_booked { state.new.booked ≡ state.old.booked }
    ensures same_host { IsSameHost state.old state.new }
    ensures unasked { P.asked permits.old permits.new 0 0 }
    ensures permits { let much = held_by state.new.log in
        MovesPart P.stands P.stays P.held much permits.old permits.new }
{
    if !bookings.is_empty() {
        return None;
    }
    let Some((number, stream)) = state.lease_last(&want, moment) else {
        return None;
    };
    permits.release_kept();
    // One more can be counted.
    let (_open, _entries) = (state.open_len(), state.log().total_len());
    let seat = seats.lease(number, want.transfer);
    let used = Use::reusing(state.host(), number, want, moment, stream);
    Some(Lease::new(used, seat))
}

// The refusal that an acquire is due, if any. Out of line and cold, as all that an acquire needs
// only if it does not lease at once.
#[cold]
#[inline(never)]
fn reason_against<S: Drop>(state: &State<S>, bookings: &[u64], want: &Want) -> Option<Refusal>
    requires as_many_booked { state.now.booked ≡ length bookings.now }
    ensures reason { result ≡ refusal state.now.settings state.now.log bookings.now want.now }
    ensures free { IfNone result (held_number state.now.log want.now.transfer ≡ None) }
    ensures once { IfNone result (waits state.now.log want.now.transfer ≡ false) }
    ensures not_booked { IfNone result (is_among want.now.transfer bookings.now ≡ false) }
    ensures number { IfNone result
        (is_exhausted state.now.settings state.now.log state.now.booked ≡ false) }
{
    let transfer = want.transfer;
    if state.holds(transfer) || state.waits(transfer) || bookings.contains(&transfer) {
        return Some(Refusal::TransferBusy);
    }
    if state.is_exhausted() {
        return Some(Refusal::Exhausted);
    }
    None
}

// Adds the transfer to the bookings, if its acquire is halfway.
fn add_booking<S>(bookings: &mut Vec<u64>, got: &Got<S>, transfer: u64)
    requires spare { vec_len bookings.old < vec_capacity bookings.old }
    ensures booking_added { GivesBooking got.now
        (λ booking. bookings.new.items ≡ bookings.old.items ++ transfer ∷ []) }
    ensures none_added { UnlessBooking got.now (bookings.new.items ≡ bookings.old.items) }
{
    if got.is_halfway() {
        bookings.push_reserved(transfer);
    }
}

// Takes the transfer out of the bookings, unless its acquire is still halfway.
fn take_booking<S>(bookings: &mut Vec<u64>, got: &Got<S>, transfer: u64)
    ensures booking_stays { GivesBooking got.now
        (λ booking. bookings.new.items ≡ bookings.old.items) }
    ensures booking_taken { UnlessBooking got.now
        (bookings.new.items ≡ without_booked transfer bookings.old.items) }
{
    if got.is_halfway() {
        return;
    }
    let mut place = 0;
    while place < bookings.len() {
        if bookings[place] == transfer {
            bookings.remove(place);
            return;
        }
        place += 1;
    }
}
