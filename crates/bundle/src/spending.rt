//! How a lease or a ticket ends.

ghost use Rattle.std.specs.Prelude.{◌≡◌, ◌<◌, [], true, false, IsSome};
ghost use Rattle.std.specs.Prelude.{Some, None, OnOk, OnErr, IfOk, IfErr, IfSome, IfNone};
ghost use Rattle.budget.specs.declared.permits.Try.{Try};
ghost use Rattle.budget.specs.declared.permits.Try.TheVariants.{Got, Contended};
ghost use Rattle.budget.specs.Permits.{if_got, one_more_kept, one_less_kept};
ghost use Rattle.conn_log.specs.Waiting.{waiting};
ghost use Rattle.host_state.specs.Calls.{is_freed, is_queued};
ghost use Rattle.bundle.specs.Lease.{is_unclaimed, is_valid_ticket, is_same_want, start_for};
ghost use Rattle.bundle.specs.Lease.{lease_at};
ghost use Rattle.bundle.specs.Around.{HoldsPart, MovesPart, IsLentTo, LeavesLobby, KeepsPass};
ghost use Rattle.bundle.specs.Around.{StaysHost};
ghost use Rattle.bundle.specs.Ends.{ClosesLease, AnswersBack, ReturnsLease, EndsWait};
ghost use Rattle.bundle.specs.Starts.{ClaimsLease};
ghost use Rattle.host_state.specs.Counts.{held_by};
ghost use Rattle.host_state.specs.Asks.{recorded_forbids, forbids_reuse, may_stay};
ghost use Rattle.host_state.specs.Asks.{keep_asks};
ghost use Rattle.host_state.specs.Laws.{IsSoundAndQuiet};
ghost use Rattle.bundle.specs.Replies.{IfClaimed, IfStill, OnSpent, UnlessSpent};
ghost use Rattle.bundle.specs.declared.did.Did.TheVariants.{Stranger};
ghost use Rattle.bundle.specs.Passes.{tells, spends, withdraws, claim_did};
ghost use Rattle.conn_log.specs.declared.entry.Cause.TheVariants.{Dropped};
ghost use Rattle.conn_log.specs.declared.entry.Event.TheVariants.{Returned as CameBack, Closed};
ghost use Rattle.host_state.specs.Steps.{moment_at};
ghost use Rattle.budget.specs.Accounts.{IsEnrolledAt, KeepsSeats};
ghost use Rattle.budget.specs.Pairs.{pair_count, without_pair};

use crate::answers::{Back, Claimed};
use crate::asker::Asker;
use crate::did::Did;
use crate::grant::{granted_want, take_grant};
use crate::host::Bundle;
use crate::lease::{Lease, Stray, Use};
use crate::seats::Seats;
use crate::serving::{grant_to_head, hand_on};
use crate::shortage::NoKeep;
use crate::ticket::Ticket;
use budget::{Lobby, Pass, Permits, StartSeat, Try};
use conn_log::{Cause, Entry, Event, Want};
use host_state::{Returned, State};
use persistence::{Facts, persists};

impl<S: Drop> Bundle<S> {
    // Whether this is the want of the transfer's ticket.
    fn is_valid_ticket(&self, want: &Want) -> bool
        ensures { result ≡ is_valid_ticket self.now want.now }
    {
        if let Some(granted) = granted_want(&self.grants, want.transfer) {
            return is_same(want, &granted);
        }
        match self.state.waiting_want(want.transfer) {
            Some(awaited) => is_same(want, &awaited),
            None => false,
        }
    }

    /// Gives the transfer the connection that it was granted, with the stream that came back under
    /// its number unless it was opened for the transfer; if the transfer still waits, its ticket.
    /// No event is logged, and no memory is taken.
    ///
    /// A ticket comes back in a [`Stray`] if its transfer neither waits with its want nor has
    /// yet to claim what it was granted for that want. The pass is told which of the three it is.
    ///
    /// Asked of the caller: the pass is enrolled here.
    pub fn claim(
        &mut self,
        ticket: Ticket,
        pass: &mut Pass<Did>,
    ) -> Result<Claimed<S>, Stray<Ticket>>
        requires enrolled { IsEnrolledAt pass.old self.old.host self.old.tables.starts }
        ensures valid_ticket { OnOk result (is_valid_ticket self.old ticket.wait.want ≡ true) }
        ensures strange { IfErr result (λ stray.
            (is_valid_ticket self.old ticket.wait.want ≡ false) × (stray ≡ ticket)) }
        ensures lease { IfClaimed result (ClaimsLease self.old self.new ticket.wait.want) }
        ensures still { IfStill result (λ same.
            (is_unclaimed self.old ticket.wait.want.transfer ≡ false)
            × (same ≡ ticket) × (self.new ≡ self.old)) }
        ensures err { OnErr result (self.new ≡ self.old) }
        ensures log { self.new.log ≡ self.old.log }
        ensures tells { let did = claim_did ticket.wait.want.transfer result in
            pass.new ≡ tells self.old.host did pass.old }
        ensures host { StaysHost self.old self.new }
        ensures settled { IsSoundAndQuiet self.new.settings self.new.log }
        ensures pass { KeepsPass self.old self.new pass.old pass.new }
    {
        let want = ticket.want();
        let (host, transfer) = (self.state.host() as usize, want.transfer);
        if !self.is_valid_ticket(&want) {
            pass.tell(host, self.seats.tally(), Did::Stranger(transfer));
            return Err(Stray::new(ticket));
        }
        let Some(grant) = take_grant(&mut self.grants, transfer) else {
            pass.tell(host, self.seats.tally(), Did::Still(transfer));
            return Ok(Claimed::Still(ticket));
        };
        pass.tell(host, self.seats.tally(), Did::Claimed(transfer));
        ticket.spend();
        let seat = self.seats.claim(grant.number, transfer);
        let used = Use::granted(self.state.host(), grant);
        Ok(Claimed::Lease(Lease::new(used, seat)))
    }

    /// Takes a connection back with the facts of its response. If it persists and its want allows
    /// reuse, it goes to the first waiter; if it does not fit the waiter's want, it is closed, and
    /// one is opened for the waiter. If nobody waits, `permits` is asked to keep one connection
    /// more, and it is idle from then on, with its stream. If the budget keeps none, it is closed
    /// if `close_if_full` says so, and else the lease comes back. If its use ends it is closed, and
    /// one is opened for the first waiter. `now` is in seconds. Spending takes no memory.
    ///
    /// The lease is spent with the pass, which is told the entry of its return. All but
    /// [`Back::Spent`] leave the host and the pass as they were.
    ///
    /// Asked of the caller: the lease was made here, so that it is no stranger, and the pass is
    /// enrolled here; a queued host is lent the lobby, which lists it exactly if it is queued.
    #[inline(always)]
    pub fn give_back<P: Permits<Asker>>(
        &mut self,
        lease: Lease<S>,
        facts: Facts,
        now: u64,
        pass: &mut Pass<Did>,
        permits: &mut P,
        lobby: Option<&mut Lobby>,
        close_if_full: bool,
    ) -> Back<S>
        requires enrolled { IsEnrolledAt pass.old self.old.host self.old.tables.starts }
        requires here { lease.tables ≡ self.old.tables }
        requires stream { IsSome lease.stream }
        requires permits { HoldsPart P.stands P.held (held_by self.old.log) permits.old }
        requires lobby { IsLentTo self.old lobby }
        ensures answer { let keeping = P.keeping permits.old permits.new in
            let asked = P.asked permits.old permits.new in
            AnswersBack keeping asked close_if_full self.old self.new lease facts now result }
        ensures returned { OnSpent result (ReturnsLease self.old self.new lease) }
        ensures unended { UnlessSpent result ((self.new ≡ self.old) × (pass.new ≡ pass.old)) }
        ensures spent { let moment = moment_at self.old.log now in
            let returned = CameBack lease.start.number facts in
            OnSpent result (pass.new ≡ spends self.old.host moment returned pass.old) }
        ensures host { StaysHost self.old self.new }
        ensures settled { IsSoundAndQuiet self.new.settings self.new.log }
        ensures permits { let much = held_by self.new.log in
            MovesPart P.stands P.stays P.held much permits.old permits.new }
        ensures lobby { LeavesLobby self.old self.new lobby.entry lobby.exit }
        ensures pass { KeepsPass self.old self.new pass.old pass.new }
    {
        let was_queued = self.queued();
        let back = self.take_back(lease, facts, now, pass, permits, close_if_full);
        if let Some(lobby) = lobby {
            self.mark(was_queued, lobby);
        }
        back
    }

    // The same, without the lobby.
    #[inline(always)]
    fn take_back<P: Permits<Asker>>(
        &mut self,
        lease: Lease<S>,
        facts: Facts,
        now: u64,
        pass: &mut Pass<Did>,
        permits: &mut P,
        close_if_full: bool,
    ) -> Back<S>
        requires enrolled { IsEnrolledAt pass.old self.old.host self.old.tables.starts }
        requires here { lease.tables ≡ self.old.tables }
        requires stream { IsSome lease.stream }
        requires permits { HoldsPart P.stands P.held (held_by self.old.log) permits.old }
        ensures answer { let keeping = P.keeping permits.old permits.new in
            let asked = P.asked permits.old permits.new in
            AnswersBack keeping asked close_if_full self.old self.new lease facts now result }
        ensures returned { OnSpent result (ReturnsLease self.old self.new lease) }
        ensures unended { UnlessSpent result ((self.new ≡ self.old) × (pass.new ≡ pass.old)) }
        ensures spent { let moment = moment_at self.old.log now in
            let returned = CameBack lease.start.number facts in
            OnSpent result (pass.new ≡ spends self.old.host moment returned pass.old) }
        ensures host { StaysHost self.old self.new }
        ensures settled { IsSoundAndQuiet self.new.settings self.new.log }
        ensures mark { is_queued self.old.settings self.old.log ≡ false →
            is_queued self.new.settings self.new.log ≡ false }
        ensures permits { let much = held_by self.new.log in
            MovesPart P.stands P.stays P.held much permits.old permits.new }
        ensures pass { KeepsPass self.old self.new pass.old pass.new }
    {
        let (mut used, seat) = lease.take_apart();
        let start = self.seats.take_back(seat);
        let (transfer, number) = (used.transfer(), used.number());
        let moment = self.state.moment(now);
        let asked = ask_to_keep(&self.state, &used, &facts, permits);
        let stream = used.detach();
        let back = self
            .state
            .give_back(transfer, number, facts, stream, moment, may_keep(asked));
        // Each way reads the host: read before, it would be carried over the steps on the tables.
        match back {
            Returned::Idle(held) => {
                let host = self.state.host();
                spend_returned(used, start, &mut self.seats, host, pass, moment, facts);
                let seats = &mut self.seats;
                grant_to_head(&mut self.state, seats, &mut self.grants, &held, moment);
                Back::Spent { freed: false }
            }
            Returned::Ended => {
                let host = self.state.host();
                spend_returned(used, start, &mut self.seats, host, pass, moment, facts);
                release_unused(asked, permits);
                let freed = !self.state.anyone_waits();
                let seats = &mut self.seats;
                hand_on(&mut self.state, seats, &mut self.grants, moment, permits);
                Back::Spent { freed }
            }
            Returned::Unkept(stream) => {
                if must_ask_again(asked) {
                    return Back::Again(again(used, stream, start, &mut self.seats));
                }
                if !close_if_full {
                    let lease = again(used, stream, start, &mut self.seats);
                    return Back::NoKeep(NoKeep::of(lease));
                }
                let host = self.state.host();
                spend_returned(used, start, &mut self.seats, host, pass, moment, facts);
                self.state
                    .give_back_to_close(transfer, number, facts, stream, moment);
                permits.release_open();
                Back::Spent { freed: true }
            }
            // Its pair stood in the table, so the log shows it.
            Returned::Strange(_stream) => unreachable!(),
        }
    }

    /// Closes a leased connection without a response, and opens one for the first waiter; answers
    /// whether a permit was freed instead. The lease is spent with the pass, which is told the
    /// entry of the closing. `now` is in seconds. It takes no memory.
    ///
    /// Asked of the caller: the lease was made here, so that it is no stranger, and the pass is
    /// enrolled here; a queued host is lent the lobby, which lists it exactly if it is queued.
    pub fn abandon<P: Permits<Asker>>(
        &mut self,
        lease: Lease<S>,
        now: u64,
        pass: &mut Pass<Did>,
        permits: &mut P,
        lobby: Option<&mut Lobby>,
    ) -> Result<bool, Stray<Lease<S>>>
        requires enrolled { IsEnrolledAt pass.old self.old.host self.old.tables.starts }
        requires here { lease.tables ≡ self.old.tables }
        requires permits { HoldsPart P.stands P.held (held_by self.old.log) permits.old }
        requires lobby { IsLentTo self.old lobby }
        ensures closed { ClosesLease self.old self.new lease now }
        ensures freed { result ≡ Ok (is_freed self.old.log self.new.log) }
        ensures spent { let moment = moment_at self.old.log now in
            let closed = Closed lease.start.number Dropped in
            pass.new ≡ spends self.old.host moment closed pass.old }
        ensures host { StaysHost self.old self.new }
        ensures settled { IsSoundAndQuiet self.new.settings self.new.log }
        ensures unasked { P.asked permits.old permits.new 0 0 }
        ensures permits { let much = held_by self.new.log in
            MovesPart P.stands P.stays P.held much permits.old permits.new }
        ensures lobby { LeavesLobby self.old self.new lobby.entry lobby.exit }
        ensures pass { KeepsPass self.old self.new pass.old pass.new }
    {
        let was_queued = self.queued();
        match lobby {
            Some(lobby) => {
                let freed = self.close_leased(lease, now, pass, permits);
                self.mark(was_queued, lobby);
                Ok(freed)
            }
            None => Ok(self.close_leased(lease, now, pass, permits)),
        }
    }

    // The same, without the lobby.
    fn close_leased<P: Permits<Asker>>(
        &mut self,
        lease: Lease<S>,
        now: u64,
        pass: &mut Pass<Did>,
        permits: &mut P,
    ) -> bool
        requires enrolled { IsEnrolledAt pass.old self.old.host self.old.tables.starts }
        requires here { lease.tables ≡ self.old.tables }
        requires permits { HoldsPart P.stands P.held (held_by self.old.log) permits.old }
        ensures closed { ClosesLease self.old self.new lease now }
        ensures freed { result ≡ is_freed self.old.log self.new.log }
        ensures spent { let moment = moment_at self.old.log now in
            let closed = Closed lease.start.number Dropped in
            pass.new ≡ spends self.old.host moment closed pass.old }
        ensures host { StaysHost self.old self.new }
        ensures settled { IsSoundAndQuiet self.new.settings self.new.log }
        ensures mark { is_queued self.old.settings self.old.log ≡ false →
            is_queued self.new.settings self.new.log ≡ false }
        ensures unasked { P.asked permits.old permits.new 0 0 }
        ensures permits { let much = held_by self.new.log in
            MovesPart P.stands P.stays P.held much permits.old permits.new }
        ensures pass { KeepsPass self.old self.new pass.old pass.new }
    {
        let (used, seat) = lease.take_apart();
        let start = self.seats.take_back(seat);
        let (transfer, connection) = (used.transfer(), used.number());
        // Its pair stood in the table, so the log shows it.
        let held = self.state.held(transfer, connection).unwrap();
        let moment = self.state.moment(now);
        let (host, cause) = (self.state.host(), Cause::Dropped);
        let event = Event::Closed { connection, cause };
        spend(used, start, &mut self.seats, host, pass, moment, event);
        self.state
            .close_held(transfer, held, Cause::Dropped, moment);
        let freed = !self.state.anyone_waits();
        let seats = &mut self.seats;
        hand_on(&mut self.state, seats, &mut self.grants, moment, permits);
        freed
    }

    /// Takes a ticket back: its transfer waits no more, or the connection that it was granted is
    /// closed, and one is opened for the first waiter. It answers whether a permit was freed. `now`
    /// is in seconds. It takes no memory.
    ///
    /// A ticket comes back in a [`Stray`] if its transfer neither waits with its want nor has
    /// yet to claim what it was granted for that want; nothing changed then.
    ///
    /// The pass is told the entry with which the transfer leaves; or the grant is spent with the
    /// pass, which is told the entry of the closing; or the pass is told that the ticket is a
    /// stranger.
    ///
    /// Asked of the caller: the pass is enrolled here; a queued host is lent the lobby, which lists
    /// it exactly if it is queued.
    pub fn withdraw<P: Permits<Asker>>(
        &mut self,
        ticket: Ticket,
        now: u64,
        pass: &mut Pass<Did>,
        permits: &mut P,
        lobby: Option<&mut Lobby>,
    ) -> Result<bool, Stray<Ticket>>
        requires enrolled { IsEnrolledAt pass.old self.old.host self.old.tables.starts }
        requires permits { HoldsPart P.stands P.held (held_by self.old.log) permits.old }
        requires lobby { IsLentTo self.old lobby }
        ensures ended { IfOk result (EndsWait self.old self.new ticket now) }
        ensures strange { IfErr result (λ stray.
            (is_valid_ticket self.old ticket.wait.want ≡ false) × (stray ≡ ticket)) }
        ensures err { OnErr result ((self.new ≡ self.old) × (permits.new ≡ permits.old)) }
        ensures withdrawn { let transfer = ticket.wait.want.transfer in
            let granted = start_for self.old.unclaimed transfer in
            let moment = moment_at self.old.log now in
            OnOk result (pass.new ≡ withdraws self.old.host moment transfer granted pass.old) }
        ensures stranger { let stranger = Stranger ticket.wait.want.transfer in
            OnErr result (pass.new ≡ tells self.old.host (Some stranger) pass.old) }
        ensures host { StaysHost self.old self.new }
        ensures settled { IsSoundAndQuiet self.new.settings self.new.log }
        ensures unasked { P.asked permits.old permits.new 0 0 }
        ensures permits { let much = held_by self.new.log in
            MovesPart P.stands P.stays P.held much permits.old permits.new }
        ensures lobby { LeavesLobby self.old self.new lobby.entry lobby.exit }
        ensures pass { KeepsPass self.old self.new pass.old pass.new }
    {
        let was_queued = self.queued();
        match lobby {
            Some(lobby) => {
                let withdrawn = self.end_wait(ticket, now, pass, permits);
                self.mark(was_queued, lobby);
                withdrawn
            }
            None => self.end_wait(ticket, now, pass, permits),
        }
    }

    // The same, without the lobby.
    fn end_wait<P: Permits<Asker>>(
        &mut self,
        ticket: Ticket,
        now: u64,
        pass: &mut Pass<Did>,
        permits: &mut P,
    ) -> Result<bool, Stray<Ticket>>
        requires enrolled { IsEnrolledAt pass.old self.old.host self.old.tables.starts }
        requires permits { HoldsPart P.stands P.held (held_by self.old.log) permits.old }
        ensures ended { IfOk result (EndsWait self.old self.new ticket now) }
        ensures strange { IfErr result (λ stray.
            (is_valid_ticket self.old ticket.wait.want ≡ false) × (stray ≡ ticket)) }
        ensures err { OnErr result ((self.new ≡ self.old) × (permits.new ≡ permits.old)) }
        ensures withdrawn { let transfer = ticket.wait.want.transfer in
            let granted = start_for self.old.unclaimed transfer in
            let moment = moment_at self.old.log now in
            OnOk result (pass.new ≡ withdraws self.old.host moment transfer granted pass.old) }
        ensures stranger { let stranger = Stranger ticket.wait.want.transfer in
            OnErr result (pass.new ≡ tells self.old.host (Some stranger) pass.old) }
        ensures host { StaysHost self.old self.new }
        ensures settled { IsSoundAndQuiet self.new.settings self.new.log }
        ensures mark { is_queued self.old.settings self.old.log ≡ false →
            is_queued self.new.settings self.new.log ≡ false }
        ensures unasked { P.asked permits.old permits.new 0 0 }
        ensures permits { let much = held_by self.new.log in
            MovesPart P.stands P.stays P.held much permits.old permits.new }
        ensures pass { KeepsPass self.old self.new pass.old pass.new }
    {
        let want = ticket.want();
        let (host, transfer) = (self.state.host() as usize, want.transfer);
        if !self.is_valid_ticket(&want) {
            pass.tell(host, self.seats.tally(), Did::Stranger(transfer));
            return Err(Stray::new(ticket));
        }
        ticket.spend();
        let moment = self.state.moment(now);
        let Some(grant) = take_grant(&mut self.grants, transfer) else {
            self.state.leave(transfer, moment);
            let event = Event::Left { transfer };
            pass.tell(
                host,
                self.seats.tally(),
                Did::Wrote(Entry { moment, event }),
            );
            return Ok(false);
        };
        let held = self.state.held(transfer, grant.number).unwrap();
        let seat = self.seats.claim(grant.number, transfer);
        let start = self.seats.take_back(seat);
        self.seats.clear();
        let (connection, cause) = (grant.number, Cause::Withdrawn);
        let event = Event::Closed { connection, cause };
        let did = Did::Wrote(Entry { moment, event });
        pass.spend(host, self.seats.tally(), start, did);
        self.state
            .close_held(transfer, held, Cause::Withdrawn, moment);
        let freed = !self.state.anyone_waits();
        let seats = &mut self.seats;
        hand_on(&mut self.state, seats, &mut self.grants, moment, permits);
        Ok(freed)
    }
}

// Asks the budget to keep one connection more, if nobody waits, its response lets it persist and
// reuse is not forbidden.
#[inline(always)]
fn ask_to_keep<S: Drop, P: Permits<Asker>>(
    state: &State<S>,
    used: &Use<S>,
    facts: &Facts,
    permits: &mut P,
) -> Option<Try>
    requires stands { P.stands permits.old }
    ensures not_asked { IfNone result (permits.new ≡ permits.old) }
    ensures nobody { IfSome result (λ told. waiting state.now.log ≡ []) }
    ensures not_idle { IfNone result (waiting state.now.log ≡ [] →
        may_stay state.now.log used.now.start facts.now ≡ false) }
    ensures asked { let asks = keep_asks state.now.log used.now.start facts.now in
        P.asked permits.old permits.new 0 asks }
    ensures told { IfSome result (P.keeping permits.old permits.new) }
    ensures held { IfSome result (λ told.
        P.held permits.new ≡ if_got told one_more_kept (P.held permits.old)) }
    ensures stands { P.stands permits.new }
    ensures stays { P.stays permits.old permits.new }
{
    if state.anyone_waits() || !persists(facts) || forbids_reuse(state, used) {
        return None;
    }
    Some(permits.reserve_kept(&Asker::of_bundle()))
}

// Whether reuse is forbidden: by the lease's own want, which is a flag, and, if that forbids it, by
// the recorded one, which takes a search.
#[inline(always)]
fn forbids_reuse<S: Drop>(state: &State<S>, used: &Use<S>) -> bool
    ensures { result ≡ forbids_reuse state.now.log used.now.start }
{
    used.forbids_reuse() && recorded_forbids(state, used.transfer(), used.number())
}

// Whether the transfer holds the connection with a want that forbids reuse, as the log shows it.
#[cold]
#[inline(never)]
fn recorded_forbids<S: Drop>(state: &State<S>, transfer: u64, number: u32) -> bool
    ensures { result ≡ recorded_forbids state.now.log transfer number }
{
    match state.held(transfer, number) {
        Some(held) => held.forbids_reuse,
        None => false,
    }
}

// Drops the stream of a lease that is spent: its pair is held no longer, and its start is spent
// with the pass, which is told the entry that says so.
#[inline(always)]
fn spend<S: Drop>(
    used: Use<S>,
    start: StartSeat,
    seats: &mut Seats,
    host: u32,
    pass: &mut Pass<Did>,
    moment: u64,
    event: Event,
)
    requires enrolled { IsEnrolledAt pass.old host seats.old.tables.starts }
    requires start { start ≡ seats.old.tables.starts }
    requires back { IsSome seats.old.back }
    requires leased { IfSome seats.old.back (λ pair. pair_count pair seats.old.leased ≡ 1) }
    ensures cleared { IfSome seats.old.back (λ pair. seats.new
        ≡ record seats.old { leased = without_pair pair seats.old.leased; back = None }) }
    ensures spent { pass.new ≡ spends host moment event pass.old }
    ensures pass_seats { KeepsSeats pass.old pass.new }
{
    // The entry is told first: moves of it on both sides of an atomic step stay apart.
    let did = Did::Wrote(Entry { moment, event });
    pass.spend(host as usize, seats.tally(), start, did);
    let _ = used.into_stream();
    seats.clear();
}

// The same for a lease that came back with those facts. The event is made only here, after the
// atomic steps before.
#[inline(always)]
fn spend_returned<S: Drop>(
    used: Use<S>,
    start: StartSeat,
    seats: &mut Seats,
    host: u32,
    pass: &mut Pass<Did>,
    moment: u64,
    facts: Facts,
)
    requires enrolled { IsEnrolledAt pass.old host seats.old.tables.starts }
    requires start { start ≡ seats.old.tables.starts }
    requires back { IsSome seats.old.back }
    requires leased { IfSome seats.old.back (λ pair. pair_count pair seats.old.leased ≡ 1) }
    ensures cleared { IfSome seats.old.back (λ pair. seats.new
        ≡ record seats.old { leased = without_pair pair seats.old.leased; back = None }) }
    ensures spent { let returned = CameBack used.start.number facts in
        pass.new ≡ spends host moment returned pass.old }
    ensures pass_seats { KeepsSeats pass.old pass.new }
{
    let connection = used.number();
    let event = Event::Returned { connection, facts };
    spend(used, start, seats, host, pass, moment, event);
}

// The lease that was taken apart, with its stream and its seats again.
#[inline(always)]
fn again<S: Drop>(used: Use<S>, stream: S, start: StartSeat, seats: &mut Seats) -> Lease<S>
    requires no_stream { used.stream ≡ None }
    requires start { start ≡ seats.old.tables.starts }
    requires back { seats.old.back ≡ Some (used.start.number, used.start.want.transfer) }
    ensures lease { result ≡ lease_at seats.old.tables (record used { stream = Some stream }) }
    ensures seats { seats.new ≡ record seats.old { back = None } }
{
    let mut used = used;
    used.attach(stream);
    Lease::new(used, seats.hand_out(start))
}

// Whether the budget keeps it, or was not asked.
#[inline(always)]
fn may_keep(asked: Option<Try>) -> bool
    ensures got_if_asked { result ≡ true → IfSome asked (λ told. told ≡ Got) }
    ensures asked_not_got { result ≡ false → IsSome asked × (asked ≡ Some Got → ⊥) }
{
    match asked {
        None => true,
        Some(told) => matches!(told, Try::Got),
    }
}

// Whether the budget has to be asked again.
#[inline(always)]
fn must_ask_again(asked: Option<Try>) -> bool
    ensures contended { result ≡ true → asked ≡ Some Contended }
    ensures not_contended { result ≡ false → asked ≡ Some Contended → ⊥ }
{
    match asked {
        None => false,
        Some(told) => matches!(told, Try::Contended),
    }
}

// Gives a permit to keep back that was got and not used.
#[inline(always)]
fn release_unused<P: Permits<Asker>>(asked: Option<Try>, permits: &mut P)
    requires stands { P.stands permits.old }
    requires one { asked ≡ Some Got → 0 < (P.held permits.old).kept }
    ensures stands { P.stands permits.new }
    ensures stays { P.stays permits.old permits.new }
    ensures unasked { P.asked permits.old permits.new 0 0 }
    ensures released { asked ≡ Some Got → P.held permits.new ≡ one_less_kept (P.held permits.old) }
    ensures not_asked { IfNone asked (P.held permits.new ≡ P.held permits.old) }
    ensures not_got { IfSome asked (λ told. (told ≡ Got → ⊥) →
        P.held permits.new ≡ P.held permits.old) }
{
    if let Some(Try::Got) = asked {
        permits.release_kept();
    }
}

// Whether two wants agree in all.
fn is_same(want: &Want, other: &Want) -> bool
    ensures { result ≡ is_same_want want.now other.now }
{
    want == other
}
