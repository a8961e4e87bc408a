//! What a host counts beside its log: each start, and each pair of a connection and the transfer
//! that holds it. A lease has a seat for both.

ghost use Rattle.std.specs.Prelude.{◌≡◌, ◌+◌, ◌<◌, ◌^◌, length, Some, None, IfOk, IfErr};
ghost use Rattle.std.specs.Prelude.{IsSome, IfSome};
ghost use Rattle.budget.specs.Pairs.{pair_count, without_pair, IsApart, HasRoomForPair};
ghost use Rattle.bundle.specs.Seats.{CountsNone, pair_granted, pair_leased};

use budget::{HolderSeat, Holders, PassSeat, Refusal, StartSeat, Tally};
use std::alloc::Global;
use std::marker::Model;

/// The starts of a host, and which transfer holds which connection, with or without a lease.
#[derive(Drop)]
pub(crate) struct Seats {
    tally: Tally,
    holders: Holders,
}

impl Model for Seats {
    ghost use Rattle.bundle.specs.Seats.{SeatsShown};

    ghost Value = { SeatsShown };

    ghost view = { λ seats. record {
      tables = record { starts = seats.tally.table; pairs = seats.holders.table };
      granted = seats.holders.granted;
      leased = seats.holders.leased;
      back = seats.holders.back;
      counted = seats.tally.counted;
      unsplit = seats.tally.unsplit;
    } };
}

/// A lease's seats: for its start, and for its pair of a connection and a transfer. They must be
/// taken back.
pub(crate) struct LeaseSeat {
    start: StartSeat,
    holder: HolderSeat,
}

impl Model for LeaseSeat {
    ghost use Rattle.bundle.specs.Seats.{LeaseSeats};

    ghost Value = { LeaseSeats };

    ghost view = { λ seat. record {
      tables = record { starts = seat.start; pairs = seat.holder.table };
      pair = seat.holder.pair;
    } };
}

impl LeaseSeat {
    /// Gives them up. The pair stays held for good, and the start is spent by nobody.
    pub fn discard(self) {
        let LeaseSeat { start, holder } = self;
        start.discard();
        holder.discard();
    }
}

impl Seats {
    /// Nobody started, and nobody holds anything. The only refusal is [`Refusal::Memory`].
    pub fn new(alloc: Global) -> Result<Self, Refusal>
        ensures counts_none { IfOk result CountsNone }
        ensures only_memory { IfErr result (λ refusal. refusal ≡ Refusal.Memory) }
    {
        let tally = Tally::new(alloc)?;
        let holders = Holders::new(alloc)?;
        Ok(Seats { tally, holders })
    }

    /// The transfer was granted the connection: a start.
    #[inline(always)]
    pub fn grant(&mut self, connection: u32, transfer: u64)
        requires apart { IsApart (connection, transfer) self.old.granted self.old.leased }
        requires few_pairs { HasRoomForPair self.old.granted self.old.leased }
        requires few { self.old.counted + 1 < 2 ^ 64 }
        requires none_back { self.old.back ≡ None }
        ensures { self.new ≡ pair_granted (connection, transfer) self.old }
    {
        self.tally.start();
        self.holders.mark(connection, transfer);
    }

    /// The transfer claims what it was granted: the seats of its lease.
    #[inline(always)]
    pub fn claim(&mut self, connection: u32, transfer: u64) -> LeaseSeat
        requires granted { pair_count (connection, transfer) self.old.granted ≡ 1 }
        requires unsplit { 0 < self.old.unsplit }
        requires none_back { self.old.back ≡ None }
        ensures seats { self.new ≡ pair_leased (connection, transfer) self.old }
        ensures seat { result ≡ record { tables = self.old.tables; pair = (connection, transfer) } }
    {
        LeaseSeat {
            start: self.tally.split(),
            holder: self.holders.split(connection, transfer),
        }
    }

    /// The transfer starts on the connection: the seats of its lease.
    #[inline(always)]
    pub fn lease(&mut self, connection: u32, transfer: u64) -> LeaseSeat
        requires apart { IsApart (connection, transfer) self.old.granted self.old.leased }
        requires few_pairs { HasRoomForPair self.old.granted self.old.leased }
        requires few { self.old.counted + 1 < 2 ^ 64 }
        requires none_back { self.old.back ≡ None }
        ensures seats { self.new ≡
            pair_leased (connection, transfer) (pair_granted (connection, transfer) self.old) }
        ensures seat { result ≡ record { tables = self.old.tables; pair = (connection, transfer) } }
    {
        self.grant(connection, transfer);
        self.claim(connection, transfer)
    }

    /// Takes the seat of a lease's pair back: the pair stood there. It is still held, until `clear`
    /// or `hand_out`. The seat of its start is left, to be spent or handed out again.
    #[inline(always)]
    pub fn take_back(&mut self, seat: LeaseSeat) -> StartSeat
        requires tables { seat.tables ≡ self.old.tables }
        requires none_back { self.old.back ≡ None }
        ensures seats { self.new ≡ record self.old { back = Some seat.pair } }
        ensures leased { pair_count seat.pair self.old.leased ≡ 1 }
        ensures start { result ≡ self.old.tables.starts }
    {
        let LeaseSeat { start, holder } = seat;
        self.holders.join(holder);
        let _held = self.holders.load();
        start
    }

    /// The pair that was taken back is held no longer.
    #[inline(always)]
    pub fn clear(&mut self)
        requires back { IsSome self.old.back }
        requires leased { IfSome self.old.back (λ pair. pair_count pair self.old.leased ≡ 1) }
        ensures { IfSome self.old.back (λ pair. self.new
            ≡ record self.old { leased = without_pair pair self.old.leased; back = None }) }
    {
        self.holders.clear();
    }

    /// Hands the seat that was taken back out again, with that of its start.
    #[inline(always)]
    pub fn hand_out(&mut self, start: StartSeat) -> LeaseSeat
        requires back { IsSome self.old.back }
        requires start { start ≡ self.old.tables.starts }
        ensures seats { self.new ≡ record self.old { back = None } }
        ensures pair { self.old.back ≡ Some result.pair }
        ensures tables { result.tables ≡ self.old.tables }
    {
        LeaseSeat {
            start,
            holder: self.holders.hand_out(),
        }
    }

    /// How many pairs are held, read off the word.
    #[inline(always)]
    pub fn held(&mut self) -> u64
        ensures same { self.new ≡ self.old }
        ensures count { result ≡ length self.old.granted + length self.old.leased }
    {
        self.holders.load()
    }

    /// How many starts there were, read off the word.
    pub fn starts(&mut self) -> u64
        ensures same { self.new ≡ self.old }
        ensures starts { result ≡ self.old.counted }
    {
        self.tally.load()
    }

    /// The tally of the starts, with which a pass spends them.
    #[inline(always)]
    pub fn tally(&self) -> &Tally
        ensures { result.now.table ≡ self.now.tables.starts }
    {
        &self.tally
    }

    /// A seat for a pass that has spent nothing here yet.
    pub fn seat_pass(&mut self) -> PassSeat
        ensures same { self.new ≡ self.old }
        ensures pass_seat { result ≡ record { table = self.old.tables.starts; spent = 0 } }
    {
        self.tally.seat_pass()
    }
}
