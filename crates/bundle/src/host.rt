ghost use Rattle.std.specs.Prelude.{◌≡◌, ℕ, false, ◌-◌, ◌<◌, ◌≤◌, ◌==◌, ◌&&◌, length, IfOk, IfErr};
ghost use Rattle.conn_log.specs.Connections.{open_connections, idle_connections, is_among};
ghost use Rattle.conn_log.specs.Fit.{oldest_stamp};
ghost use Rattle.conn_log.specs.Legal.{IsLegal, IsQuiet, limit_in_force};
ghost use Rattle.conn_log.specs.Sound.{IsSound};
ghost use Rattle.host_state.specs.State.{HasRoomToSpend};
ghost use Rattle.host_state.specs.Calls.{is_queued, leased_len};
ghost use Rattle.bundle.specs.Lease.{IsNewHost, HasItsStreams, UnclaimedAreStarts};
ghost use Rattle.host_state.specs.Counts.{snapshot_of};
ghost use Rattle.host_state.specs.Bookings.{AreBooked};
ghost use Rattle.bundle.specs.Seats.{gone};
ghost use Rattle.budget.specs.Accounts.{account_at, change_at, enrolled, IsEnrolledAt, KeepsSeats};
ghost use Rattle.budget.specs.Starts.{Spendings};
ghost use Rattle.conn_log.specs.Starts.{start_count};

use crate::booking::Booking;
use crate::did::Did;
use crate::grant::Grant;
use crate::seats::Seats;
use budget::{Pass, Refusal};
use conn_log::{Log, Stamp};
use host_state::{Snapshot, State};
use std::alloc::Global;
use std::marker::Model;

/// The most hosts that a cache may have.
pub const MOST_HOSTS: u32 = 1_024;

/// The connections of one host, with the streams of type `S` of those that have no lease.
#[derive(Drop)]
pub struct Bundle<S: Drop> {
    pub(crate) state: State<S>,
    pub(crate) grants: Vec<Grant<S>>,
    pub(crate) bookings: Vec<u64>,
    pub(crate) seats: Seats,
}

impl<S: Drop> Model for Bundle<S> {
    ghost use Rattle.std.specs.Prelude.{◌≡◌, ◌++◌, ◌+◌, ◌≤◌, length, vec_len, vec_capacity};
    ghost use Rattle.conn_log.specs.Waiting.{waiting};
    ghost use Rattle.host_state.specs.Laws.{IsSoundAndQuiet};
    ghost use Rattle.bundle.specs.Lease.{HostShown};
    ghost use Rattle.host_state.specs.Bookings.{AreBooked};
    ghost use Rattle.bundle.specs.Grants.{grant_streams, grant_starts, GrantsKept, HasSpare};
    ghost use Rattle.bundle.specs.Seats.{IsSeated, AreUnclaimed};

    ghost Value = { HostShown S };

    ghost view = { λ bundle. record {
      log = bundle.state.log;
      cut_away = bundle.state.cut_away;
      settings = bundle.state.settings;
      host = bundle.state.host;
      streams = grant_streams bundle.grants.items ++ bundle.state.streams;
      unclaimed = grant_starts bundle.grants.items;
      booked = bundle.bookings.items;
      tables = bundle.seats.tables;
    } };

    ghost invariant = { λ bundle. record {
      count : bundle.state.booked ≡ length bundle.bookings.items;
      bookings : AreBooked bundle.state.log bundle.bookings.items;
      settled : IsSoundAndQuiet bundle.state.settings bundle.state.log;
      grants : GrantsKept bundle.state.log bundle.grants.items;
      spare : let granted = vec_len bundle.grants in
          HasSpare bundle.state.log bundle.state.booked granted (vec_capacity bundle.grants);
      seated : IsSeated bundle.state.log bundle.seats;
      unclaimed : AreUnclaimed (grant_starts bundle.grants.items) bundle.seats;
    } };
}

impl<S: Drop> Bundle<S> {
    /// Makes a host without connections: how many it may have open, its index, and the number of
    /// its first connection.
    ///
    /// The only refusal is [`Refusal::Memory`].
    pub fn new(alloc: Global, host_limit: u32, host: u32, first: u32) -> Result<Self, Refusal>
        requires { 0 < first }
        ensures new_host { IfOk result (λ bundle. IsNewHost host_limit host first bundle) }
        ensures only_memory { IfErr result (λ refusal. refusal ≡ Refusal.Memory) }
    {
        let Ok(state) = State::new(alloc, host_limit, host, first) else {
            return Err(Refusal::Memory);
        };
        Ok(Bundle {
            state,
            grants: Vec::new(alloc),
            bookings: Vec::new(alloc),
            seats: Seats::new(alloc)?,
        })
    }

    /// The host's index.
    pub fn host(&self) -> u32
        ensures { result ≡ self.now.host }
    {
        self.state.host()
    }

    /// The host's log. It is legal, and quiet with the host's mark, and shows no more connections
    /// open than the host may have. It has room for four entries for each acquire that is halfway,
    /// three for each waiter, two for each leased connection and one for each idle one, so that
    /// spending a lease or a ticket takes no memory. The streams that the host has, and its starts
    /// that are granted and not claimed, are those that the log shows. Transfers whose acquire is
    /// halfway neither hold nor wait. No more connections are held than starts were counted, so the
    /// starts that are over are their difference.
    pub fn log(&self) -> &Log
        ensures entries { result.now.entries ≡ self.now.log }
        ensures cut_away { result.now.cut_away ≡ self.now.cut_away }
        ensures sound { IsSound self.now.settings self.now.log }
        ensures legal { IsLegal self.now.settings self.now.log }
        ensures quiet { let queued = is_queued self.now.settings self.now.log in
            IsQuiet self.now.settings queued self.now.log }
        ensures within_limit { let most = limit_in_force self.now.settings self.now.log in
            length (open_connections self.now.log) ≤ most }
        ensures room { let booked = length self.now.booked in
            HasRoomToSpend booked self.now.log result.now.room }
        ensures has_streams { HasItsStreams self.now }
        ensures unclaimed { UnclaimedAreStarts self.now }
        ensures booked { AreBooked self.now.log self.now.booked }
        ensures enough_starts { leased_len self.now.log ≤ start_count self.now.log }
    {
        self.state.log()
    }

    /// The counts of the host, and whether it is queued.
    pub fn look(&self) -> Snapshot
        ensures { let queued = is_queued self.now.settings self.now.log in
            result ≡ snapshot_of self.now.log queued }
    {
        Snapshot {
            alive: self.state.open_len(),
            idle: self.state.idle_len(),
            leased: self.state.held_len(),
            waiting: self.state.waiting_len(),
            queued: self.queued(),
        }
    }

    /// Whether the booking is this host's: its transfer's acquire is halfway here. Only
    /// [`Bundle::retry`] at its own host ends a booking.
    pub fn has_booked(&self, booking: &Booking) -> bool
        ensures { let is_here = booking.now.site == self.now.host in
            result ≡ (is_here && is_among booking.now.want.transfer self.now.booked) }
    {
        booking.site() == self.host() && self.bookings.contains(&booking.transfer())
    }

    /// Gives the pass a seat in the host's tally, with which it can spend leases here. It takes no
    /// memory.
    ///
    /// Asked of the caller: the pass has an account for this host, and no seat there.
    pub fn enrol(&mut self, pass: &mut Pass<Did>)
        requires there { self.old.host < length pass.old }
        requires not_enrolled { (account_at pass.old self.old.host).seat ≡ None }
        ensures same { self.new ≡ self.old }
        ensures account { let table = self.old.tables.starts in
            let seat : Spendings = record { table = table; spent = 0 } in
            pass.new ≡ change_at pass.old self.old.host (enrolled seat) }
        ensures enrolled { IsEnrolledAt pass.new self.old.host self.old.tables.starts }
        ensures pass_seats { KeepsSeats pass.old pass.new }
    {
        pass.enrol(self.state.host() as usize, self.seats.seat_pass());
    }

    /// How many starts there were: connections opened for a transfer, or leased to one again. The
    /// clause speaks of the log; that the word of the tally, which is read, agrees with the log is
    /// an invariant.
    pub fn starts(&mut self) -> u64
        ensures same { self.new ≡ self.old }
        ensures starts { result ≡ start_count self.old.log }
    {
        self.seats.starts()
    }

    /// How many starts are over: all but one for each connection that is held. Read off the words
    /// of the two tables; that they agree with the log is an invariant.
    pub fn gone(&mut self) -> u64
        ensures same { self.new ≡ self.old }
        ensures gone { result ≡ gone self.old.log }
    {
        // No more are held than started.
        let _log = self.log();
        let starts = self.starts();
        starts - self.held()
    }

    /// How many connections transfers hold, read off the lease word. That the word agrees with the
    /// log is an invariant.
    pub fn held(&mut self) -> u64
        ensures same { self.new ≡ self.old }
        ensures count { let idle = length (idle_connections self.old.log) in
            result ≡ length (open_connections self.old.log) - idle }
    {
        self.seats.held()
    }

    /// The stamp of the connection that has been idle for the longest time.
    pub fn oldest(&self) -> Option<Stamp>
        ensures { result ≡ oldest_stamp self.now.log self.now.host }
    {
        self.state.oldest()
    }

    /// Whether the host is queued for room among all hosts: a transfer waits here, and the host has
    /// room of its own.
    pub fn queued(&self) -> bool
        ensures { result ≡ is_queued self.now.settings self.now.log }
    {
        self.state.anyone_waits() && !self.state.is_full()
    }
}
