//! What tests of calls share: two hosts with their budget and the lobby, and wants and responses.

ghost use Rattle.std.specs.Prelude.{◌≡◌, ◌<◌, ◌≤◌, [], IsSome, IfOk, replicate};
ghost use Rattle.budget.specs.Accounts.{vacant};
ghost use Rattle.budget.specs.Plain.{nothing_held};
ghost use Rattle.bundle.specs.Lease.{IsBookedHere, IsMadeAt, IsNewHost};
ghost use Rattle.bundle.specs.Replies.{IfBack, IfClaimed, IfGot, GivesLease};

use budget::{Limits, Lobby, Pass, Permits, PlainBudget, Refusal, Try};
use bundle::{
    Back, Booking, Bundle, Changed, Claimed, Did, Got, Lease, Served, Shortage, Stray, Ticket,
};
use conn_log::{Entry, Stamp, Want};
use persistence::{Facts, Framing, Version};
use std::alloc::Global;
use std::marker::Model;
use std::process::Abort;

/// A stream that can be told apart from others.
#[derive(Clone, Copy, Debug, PartialEq, Eq)]
pub(crate) struct Stream(pub u32);

/// What transfer 0 wants if nothing else is said.
pub(crate) const WANT: Want = Want {
    transfer: 0,
    lane: 0,
    max_age: u64::MAX,
    max_life: 0,
    fresh: false,
    forbid_reuse: false,
};

/// The same of any transfer.
pub(crate) fn want_of(transfer: u64) -> Want {
    Want { transfer, ..WANT }
}

/// A response that lets its connection persist.
pub(crate) const KEEP: Facts = Facts {
    version: Version::V11,
    close: false,
    keep_alive: false,
    request_close: false,
    framing: Framing::Counted,
    both_lengths: false,
    upgraded: false,
    whole: true,
    surplus: false,
};

/// A host, and another one that can take its place, with their budget, the lobby and a pass. Of the
/// budget each holds what its log tells, the lobby lists it where it is queued, and the pass has a
/// seat at each. Contracts see at which tables the leases of the two are made.
pub(crate) struct Desk<S: Drop> {
    pub bundle: Bundle<S>,
    other: Bundle<S>,
    budget: PlainBudget,
    pub lobby: Lobby,
    pub pass: Pass<Did>,
}

impl<S: Drop> Drop for Desk<S> {
    fn drop(self) {
        let Desk {
            bundle: _,
            other: _,
            budget: _,
            lobby: _,
            pass,
        } = self;
        pass.discard();
    }
}

impl<S: Drop> Model for Desk<S> {
    ghost use Rattle.std.specs.Prelude.{◌≡◌, ◌≢◌, ◌<◌, ◌≤◌, length};
    ghost use Rattle.budget.specs.Accounts.{IsEnrolledAt};
    ghost use Rattle.budget.specs.Plain.{held_at_host};
    ghost use Rattle.host_state.specs.Calls.{is_queued};
    ghost use Rattle.bundle_tests.specs.Desks.{TwoHosts};
    ghost use Rattle.host_state.specs.Counts.{held_by};
    ghost use Rattle.host_state.specs.Orders.{Lists};

    ghost Value = { TwoHosts };

    ghost view = { λ desk. record { here = desk.bundle.tables; there = desk.other.tables } };

    ghost invariant = { λ desk. record {
      hosts : 3 ≤ length desk.budget.hosts;
      here : desk.bundle.host < length desk.budget.hosts;
      there : desk.other.host < length desk.budget.hosts;
      two : desk.bundle.host ≢ desk.other.host;
      part : held_at_host desk.budget.hosts desk.bundle.host ≡ held_by desk.bundle.log;
      others : held_at_host desk.budget.hosts desk.other.host ≡ held_by desk.other.log;
      lists : let host = desk.bundle in
          Lists host.host (is_queued host.settings host.log) desk.lobby;
      lists_other : let host = desk.other in
          Lists host.host (is_queued host.settings host.log) desk.lobby;
      enrolled : IsEnrolledAt desk.pass desk.bundle.host desk.bundle.tables.starts;
      enrolled_other : IsEnrolledAt desk.pass desk.other.host desk.other.tables.starts;
    } };
}

impl<S: Drop> Desk<S> {
    /// Host 7 of eight, and host 3. The limits of a host, of the total, and of those kept; 0 is
    /// none.
    pub fn new(alloc: Global, limits: (u32, u32, u32), first: u32) -> Result<Self, Refusal> {
        Desk::of_two(alloc, limits, first, 8, (7, 3))
    }

    /// The same of two other hosts, of so many.
    pub fn of_two(
        alloc: Global,
        limits: (u32, u32, u32),
        first: u32,
        hosts: u32,
        two: (u32, u32),
    ) -> Result<Self, Refusal>
        requires hosts { 3 ≤ hosts }
        requires here { two.0 < hosts }
        requires there { two.1 < hosts }
        requires two { two.0 ≡ two.1 → ⊥ }
    {
        let (host, total, connects) = limits;
        let Ok(limits) = Limits::new(host, total, connects) else {
            return Err(Refusal::BadLimit);
        };
        let shared = new_shared(alloc, limits, hosts)?;
        let (budget, lobby, mut pass) = shared;
        match new_hosts(alloc, limits.host(), two, first.max(1)) {
            Ok((mut bundle, mut other)) => {
                bundle.enrol(&mut pass);
                other.enrol(&mut pass);
                Ok(Desk {
                    bundle,
                    other,
                    budget,
                    lobby,
                    pass,
                })
            }
            Err(refusal) => {
                pass.discard();
                Err(refusal)
            }
        }
    }

    /// Cuts the host's log.
    pub fn cut(&mut self) -> Result<Vec<Entry>, Refusal>
        ensures same { self.new ≡ self.old }
    {
        self.bundle.cut()
    }

    /// A host that may have so many open connections, under no other limit.
    pub fn of_host(alloc: Global, limit: u32, first: u32) -> Result<Self, Refusal> {
        Desk::new(alloc, (limit, 0, 65_535), first)
    }

    /// The other host comes to the desk.
    pub fn turn_to_other(&mut self)
        ensures { self.new ≡ record { here = self.old.there; there = self.old.here } }
    {
        std::mem::swap(&mut self.bundle, &mut self.other);
    }

    /// How many starts there were at the host, how many of them are over, and how many connections
    /// are held.
    pub fn counts(&mut self) -> (u64, u64, u64)
        ensures same { self.new ≡ self.old }
    {
        let starts = self.bundle.starts();
        let gone = self.bundle.gone();
        (starts, gone, self.bundle.held())
    }

    /// A connection is opened at a host elsewhere, as the budget answers.
    pub fn open_elsewhere(&mut self) -> Try
        ensures same { self.new ≡ self.old }
    {
        let host = elsewhere(self.bundle.host(), self.other.host());
        self.budget.at(host).reserve_open(&())
    }

    /// And one is closed there.
    pub fn close_elsewhere(&mut self)
        ensures same { self.new ≡ self.old }
    {
        let host = elsewhere(self.bundle.host(), self.other.host());
        let mut permits = self.budget.at(host);
        close_one(&mut permits);
    }

    pub fn acquire(&mut self, want: Want, now: u64) -> Result<Got<S>, Refusal>
        ensures made_here { IfGot result (λ got. GivesLease got (IsMadeAt self.old.here)) }
        ensures same { self.new ≡ self.old }
    {
        let mut permits = self.budget.at(self.bundle.host());
        self.bundle.acquire(want, now, &mut permits, &mut self.pass)
    }

    /// Another try of an acquire that is halfway here.
    pub fn retry(&mut self, rt: &impl Abort, booking: Booking, now: u64) -> Got<S>
        ensures made_here { GivesLease result (IsMadeAt self.old.here) }
        ensures same { self.new ≡ self.old }
    {
        let booking = booked(rt, &self.bundle, booking);
        let mut permits = self.budget.at(self.bundle.host());
        self.bundle
            .retry(booking, now, &mut permits, None, &mut self.pass)
    }

    /// And the last one.
    pub fn retry_at_last(&mut self, rt: &impl Abort, booking: Booking, now: u64) -> Got<S>
        ensures made_here { GivesLease result (IsMadeAt self.old.here) }
        ensures same { self.new ≡ self.old }
    {
        let booking = booked(rt, &self.bundle, booking);
        let mut permits = self.budget.at(self.bundle.host());
        let lobby = Some(&mut self.lobby);
        self.bundle
            .retry(booking, now, &mut permits, lobby, &mut self.pass)
    }

    /// The lease comes back; where its connection is not kept it is closed, if that is asked.
    pub fn give_back(
        &mut self,
        rt: &impl Abort,
        lease: Lease<S>,
        facts: Facts,
        now: u64,
        close_if_full: bool,
    ) -> Back<S>
        requires here { lease.tables ≡ self.old.here }
        ensures made_here { IfBack result (IsMadeAt self.old.here) }
        ensures same { self.new ≡ self.old }
    {
        let lease = with_stream(rt, lease);
        let mut permits = self.budget.at(self.bundle.host());
        let (pass, lobby) = (&mut self.pass, Some(&mut self.lobby));
        self.bundle.give_back(lease, facts, now, pass, &mut permits, lobby, close_if_full)
    }

    pub fn abandon(&mut self, lease: Lease<S>, now: u64) -> Result<bool, Stray<Lease<S>>>
        requires here { lease.tables ≡ self.old.here }
        ensures same { self.new ≡ self.old }
    {
        let mut permits = self.budget.at(self.bundle.host());
        let (pass, lobby) = (&mut self.pass, Some(&mut self.lobby));
        self.bundle.abandon(lease, now, pass, &mut permits, lobby)
    }

    pub fn withdraw(&mut self, ticket: Ticket, now: u64) -> Result<bool, Stray<Ticket>>
        ensures same { self.new ≡ self.old }
    {
        let mut permits = self.budget.at(self.bundle.host());
        let (pass, lobby) = (&mut self.pass, Some(&mut self.lobby));
        self.bundle.withdraw(ticket, now, pass, &mut permits, lobby)
    }

    pub fn claim(&mut self, ticket: Ticket) -> Result<Claimed<S>, Stray<Ticket>>
        ensures made_here { IfClaimed result (IsMadeAt self.old.here) }
        ensures same { self.new ≡ self.old }
    {
        self.bundle.claim(ticket, &mut self.pass)
    }

    /// A turn of the host, if it is queued and first.
    pub fn serve_queued(&mut self, now: u64) -> Option<Served>
        ensures same { self.new ≡ self.old }
    {
        if !self.bundle.queued() || self.lobby.first() != Some(self.bundle.host()) {
            return None;
        }
        let mut permits = self.budget.at(self.bundle.host());
        let lobby = &mut self.lobby;
        Some(self.bundle.serve_queued(now, &mut permits, lobby))
    }

    pub fn evict_oldest(&mut self, stamp: Stamp, short: Shortage, now: u64) -> bool
        ensures same { self.new ≡ self.old }
    {
        let mut permits = self.budget.at(self.bundle.host());
        self.bundle.evict_oldest(stamp, short, now, &mut permits)
    }

    pub fn prune(&mut self, now: u64, max_age: u64, max_life: u64) -> u32
        ensures same { self.new ≡ self.old }
    {
        let mut permits = self.budget.at(self.bundle.host());
        self.bundle
            .prune(now, max_age, max_life, &mut permits, &mut self.pass)
    }

    pub fn set_host_limit(&mut self, limit: u32, now: u64) -> Result<Changed, Refusal>
        ensures same { self.new ≡ self.old }
    {
        let mut permits = self.budget.at(self.bundle.host());
        let (lobby, pass) = (&mut self.lobby, &mut self.pass);
        self.bundle
            .set_host_limit(limit, now, &mut permits, lobby, pass)
    }
}

// Two hosts without connections.
fn new_hosts<S: Drop>(
    alloc: Global,
    limit: u32,
    two: (u32, u32),
    first: u32,
) -> Result<(Bundle<S>, Bundle<S>), Refusal>
    requires { 0 < first }
    ensures here { IfOk result (λ made. IsNewHost limit two.0 first made.0) }
    ensures there { IfOk result (λ made. IsNewHost limit two.1 first made.1) }
{
    let here = Bundle::new(alloc, limit, two.0, first)?;
    Ok((here, Bundle::new(alloc, limit, two.1, first)?))
}

// What so many hosts share: a budget, a lobby, and a pass without a seat.
fn new_shared(
    alloc: Global,
    limits: Limits,
    hosts: u32,
) -> Result<(PlainBudget, Lobby, Pass<Did>), Refusal>
    ensures budget { IfOk result (λ made. made.0 ≡ nothing_held limits hosts) }
    ensures lobby { IfOk result (λ made. made.1 ≡ record { hosts = hosts; order = [] }) }
    ensures pass { IfOk result (λ made. made.2 ≡ replicate hosts vacant) }
{
    let budget = PlainBudget::new(alloc, limits, hosts)?;
    let lobby = Lobby::new(alloc, hosts)?;
    Ok((budget, lobby, Pass::new(alloc, hosts as usize)?))
}

// A host that is neither of the two.
fn elsewhere(here: u32, there: u32) -> u32
    ensures few { result < 3 }
    ensures not_here { result ≡ here → ⊥ }
    ensures not_there { result ≡ there → ⊥ }
{
    if here != 0 && there != 0 {
        return 0;
    }
    if here != 1 && there != 1 { 1 } else { 2 }
}

// Gives back the permit of an open connection, where there is one.
fn close_one<P: Permits<()>>(permits: &mut P)
    requires stands { P.stands permits.old }
    ensures stands { P.stands permits.new }
    ensures stays { P.stays permits.old permits.new }
{
    if permits.held().alive > 0 {
        permits.release_open();
    }
}

/// What the pass remembers of a host: the last answer, how many there were, and how many leases
/// were spent with it.
pub(crate) fn told<S: Drop>(
    rt: &impl Abort,
    desk: &Desk<S>,
    host: usize,
) -> (Option<Did>, u64, u64) {
    let pass = &desk.pass;
    assert!(rt; host < pass.hosts());
    (pass.last(host), pass.calls(host), pass.spent(host))
}

/// The booking, which has to be the host's.
pub(crate) fn booked<S: Drop>(rt: &impl Abort, bundle: &Bundle<S>, booking: Booking) -> Booking
    ensures same { result ≡ booking }
    ensures here { IsBookedHere bundle.now booking }
{
    assert!(rt; bundle.has_booked(&booking), "a booking of another host");
    booking
}

/// The lease, which has to have a stream.
pub(crate) fn with_stream<S: Drop>(rt: &impl Abort, lease: Lease<S>) -> Lease<S>
    ensures same { result ≡ lease }
    ensures stream { IsSome result.stream }
{
    assert!(rt; lease.has_stream(), "a lease without a stream");
    lease
}

/// The stream of a lease that has one.
pub(crate) fn stream_of(lease: &mut Lease<Stream>) -> Option<Stream>
    ensures same { lease.new ≡ lease.old }
    ensures stream { result ≡ lease.old.stream }
{
    match lease.stream_mut() {
        Some(own) => Some(*own),
        None => None,
    }
}

pub(crate) fn attach_new(lease: &mut Lease<Stream>)
    ensures same { lease.new.tables ≡ lease.old.tables }
{
    if !lease.has_stream() {
        let number = lease.number();
        lease.attach(Stream(number));
    }
}

/// The lease that an acquire has to give.
pub(crate) fn lease_of<S: Drop>(rt: &impl Abort, got: Got<S>) -> Lease<S>
    ensures { got ≡ Got.Lease result }
{
    match got {
        Got::Lease(lease) => lease,
        _got => panic!(rt; "no lease"),
    }
}

/// The ticket that an acquire has to give.
pub(crate) fn ticket_of<S: Drop>(rt: &impl Abort, got: Got<S>) -> Ticket {
    match got {
        Got::Wait(ticket) => ticket,
        _got => panic!(rt; "no ticket"),
    }
}

/// The booking that an acquire has to give for want of room.
pub(crate) fn booking_of<S: Drop>(rt: &impl Abort, got: Got<S>) -> Booking {
    match got {
        Got::NoRoom(no_room) => {
            let (booking, _short) = no_room.part();
            booking
        }
        _got => panic!(rt; "no booking"),
    }
}

/// The booking that an acquire has to give where the budget has to be asked again.
pub(crate) fn again_of<S: Drop>(rt: &impl Abort, got: Got<S>) -> Booking {
    match got {
        Got::Again(booking) => booking,
        _got => panic!(rt; "not to be tried again"),
    }
}

/// What the budget answered at a turn, if there was one.
pub(crate) fn told_at_turn(served: Option<Served>) -> Option<Try> {
    match served {
        None => None,
        Some(Served::Given) => Some(Try::Got),
        Some(Served::Full(_short)) => Some(Try::Full),
        Some(Served::Contended) => Some(Try::Contended),
    }
}

/// What an acquire gives that is not to be refused.
pub(crate) fn asked<S: Drop>(rt: &impl Abort, desk: &mut Desk<S>, want: Want, now: u64) -> Got<S>
    ensures made_here { GivesLease result (IsMadeAt desk.old.here) }
    ensures same { desk.new ≡ desk.old }
{
    desk.acquire(want, now).expect(rt, "an answer")
}

/// A lease that has to be given, with a stream of its number where it has none.
pub(crate) fn leased(
    rt: &impl Abort,
    desk: &mut Desk<Stream>,
    transfer: u64,
    now: u64,
) -> Lease<Stream>
    ensures made_here { result.tables ≡ desk.old.here }
    ensures same { desk.new ≡ desk.old }
{
    let mut lease = lease_of(rt, asked(rt, desk, want_of(transfer), now));
    attach_new(&mut lease);
    lease
}

/// A ticket that has to be given.
pub(crate) fn waits(rt: &impl Abort, desk: &mut Desk<Stream>, transfer: u64, now: u64) -> Ticket
    ensures same { desk.new ≡ desk.old }
{
    ticket_of(rt, asked(rt, desk, want_of(transfer), now))
}

/// Whether a spent lease freed a permit; the lease has to be known.
pub(crate) fn accept<S: Drop>(rt: &impl Abort, answer: Result<bool, Stray<Lease<S>>>) -> bool {
    match answer {
        Ok(freed) => freed,
        Err(_stray) => panic!(rt; "the lease is a stranger"),
    }
}

/// The same of a lease that has to be taken back.
pub(crate) fn spent<S: Drop>(rt: &impl Abort, back: Back<S>) -> bool {
    match back {
        Back::Spent { freed } => freed,
        Back::NoKeep(_no_keep) => panic!(rt; "the lease came back"),
        Back::Again(_lease) => panic!(rt; "the lease came back"),
        Back::Strange(_stray) => panic!(rt; "the lease is a stranger"),
    }
}

pub(crate) fn leave(rt: &impl Abort, desk: &mut Desk<Stream>, ticket: Ticket, now: u64) -> bool
    ensures same { desk.new ≡ desk.old }
{
    match desk.withdraw(ticket, now) {
        Ok(freed) => freed,
        Err(_stray) => panic!(rt; "the ticket is a stranger"),
    }
}

pub(crate) fn drop_lease(
    rt: &impl Abort,
    desk: &mut Desk<Stream>,
    lease: Lease<Stream>,
    now: u64,
) -> bool
    requires here { lease.tables ≡ desk.old.here }
    ensures same { desk.new ≡ desk.old }
{
    accept(rt, desk.abandon(lease, now))
}

pub(crate) fn give_back(
    rt: &impl Abort,
    desk: &mut Desk<Stream>,
    lease: Lease<Stream>,
    now: u64,
) -> bool
    requires here { lease.tables ≡ desk.old.here }
    ensures same { desk.new ≡ desk.old }
{
    let mut lease = lease;
    attach_new(&mut lease);
    spent(rt, desk.give_back(rt, lease, KEEP, now, false))
}

/// The number and the stream of a lease that is then abandoned.
pub(crate) fn stream_under(
    rt: &impl Abort,
    desk: &mut Desk<Stream>,
    lease: Lease<Stream>,
    now: u64,
) -> (u32, Option<Stream>)
    requires here { lease.tables ≡ desk.old.here }
    ensures same { desk.new ≡ desk.old }
{
    let number = lease.number();
    let mut lease = lease;
    let stream = lease.stream_mut().map(|stream| *stream);
    drop_lease(rt, desk, lease, now);
    (number, stream)
}

/// What a ticket comes back in that has to be a stranger.
pub(crate) fn stray(rt: &impl Abort, desk: &mut Desk<Stream>, ticket: Ticket) -> Stray<Ticket>
    ensures same { desk.new ≡ desk.old }
{
    match desk.claim(ticket) {
        Err(stray) => stray,
        Ok(Claimed::Still(_ticket)) => panic!(rt; "the ticket is no stranger"),
        Ok(Claimed::Lease(_lease)) => panic!(rt; "the ticket was taken"),
    }
}

/// The ticket of a transfer that has to wait on.
pub(crate) fn still(rt: &impl Abort, desk: &mut Desk<Stream>, ticket: Ticket) -> Ticket
    ensures same { desk.new ≡ desk.old }
{
    match desk.claim(ticket) {
        Ok(Claimed::Still(ticket)) => ticket,
        Ok(Claimed::Lease(_lease)) => panic!(rt; "the transfer was granted a connection"),
        Err(_stray) => panic!(rt; "the ticket is a stranger"),
    }
}
