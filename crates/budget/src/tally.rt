//! How many leases a host has given, and who stands for each: the seats add up to the count.
//!
//! A tally is a table of one word. The host's seat counts each start, and splits it off into the
//! seat of the lease. As the lease is spent, its seat joins that of the pass that it is spent with.
ghost use Rattle.std.specs.Prelude.{◌≡◌, ◌+◌, ◌<◌, ◌^◌, IfOk, IfErr};
ghost use Rattle.budget.specs.Starts.{one_start_more, one_split};

use crate::refusal::Refusal;
use atomic_table::{Join, Play, Seat, Split, Table, TableRule};
use std::alloc::Global;
use std::marker::Model;

/// What a seat at a tally's table stands for. No value of it is made.
pub enum Standing {
    /// The host's: the starts counted, and those that no lease stands for yet.
    Host(u64, u64),
    /// A lease's: one start.
    Lease,
    /// A pass's: the leases spent with it.
    Pass(u64),
    /// A seat that was joined to another.
    Gone,
}

struct Starts;

impl TableRule<(), Standing, ()> for Starts {
    ghost use Rattle.budget.specs.declared.tally.Standing.TheVariants.{Host};
    ghost use Rattle.budget.specs.Starts.{KeepsStarts};

    ghost holds = { λ _. KeepsStarts };

    ghost first = { λ _. Host 0 0 };
}

struct Count;

impl Play<(), Standing> for Count {
    ghost use Rattle.budget.specs.Starts.{CountsStart};

    ghost then = { CountsStart };
}

struct Read;

impl Play<(), Standing> for Read {
    ghost use Rattle.budget.specs.Starts.{ReadsStarts};

    ghost then = { ReadsStarts };
}

struct Compare;

impl Play<(), Standing> for Compare {
    ghost use Rattle.budget.specs.Starts.{ReadsMore};

    ghost then = { ReadsMore };
}

struct OfLease;

impl Split<Standing> for OfLease {
    ghost use Rattle.budget.specs.declared.tally.Standing.TheVariants.{Lease};
    ghost use Rattle.budget.specs.Starts.{without_one};

    ghost left = { without_one };

    ghost right = { λ _. Lease };
}

struct OfPass;

impl Split<Standing> for OfPass {
    ghost use Rattle.budget.specs.declared.tally.Standing.TheVariants.{Pass};

    ghost left = { λ host. host };

    ghost right = { λ _. Pass 0 };
}

struct Spends;

impl Join<Standing> for Spends {
    ghost use Rattle.budget.specs.declared.tally.Standing.TheVariants.{Gone};
    ghost use Rattle.budget.specs.Starts.{with_one};

    ghost both = { λ pass _. with_one pass };

    ghost spent = { Gone };
}

/// The starts of one host, which its lock owns. No call but `new` takes memory.
#[derive(Drop)]
pub struct Tally {
    table: Table<(), Standing, (), Starts, Global>,
    seat: Seat<(), Standing>,
}

impl Model for Tally {
    ghost use Rattle.budget.specs.Starts.{Starts, starts_shown, IsTallySeat};

    ghost Value = { Starts };

    ghost view = { λ tally. starts_shown tally.seat.table_id tally.seat.me.0 };

    ghost invariant = { λ tally. IsTallySeat tally.table.shared.table_id tally.seat };
}

/// The seat of a lease: one start. It must be spent. Contracts see the table.
pub struct StartSeat {
    seat: Seat<(), Standing>,
}

impl Model for StartSeat {
    ghost use Rattle.atomic_table.specs.Seated.{TableId, table_id_coded};
    ghost use Rattle.budget.specs.Starts.{IsLeaseSeat};

    ghost Value = { TableId };

    ghost coded = { table_id_coded };

    ghost view = { λ start. start.seat.table_id };

    ghost invariant = { λ start. IsLeaseSeat start.seat.me };
}

impl StartSeat {
    /// Gives it up. Its start is spent with no pass.
    pub fn discard(self) {
        let StartSeat { seat } = self;
        drop(seat);
    }
}

/// The seat of a pass at one tally, with the number of leases that were spent with it.
#[derive(Drop)]
pub struct PassSeat {
    seat: Seat<(), Standing>,
    spent: u64,
}

impl Model for PassSeat {
    ghost use Rattle.budget.specs.Starts.{Spendings, IsPassSeat};

    ghost Value = { Spendings };

    ghost view = { λ pass. record { table = pass.seat.table_id; spent = pass.spent } };

    ghost invariant = { λ pass. IsPassSeat pass.seat.me pass.spent };
}

impl PassSeat {
    /// How many leases were spent with this pass here.
    pub fn spent(&self) -> u64
        ensures { result ≡ self.now.spent }
    {
        self.spent
    }
}

impl Tally {
    /// No start yet.
    ///
    /// The only refusal is [`Refusal::Memory`].
    pub fn new(alloc: Global) -> Result<Tally, Refusal>
        ensures ok { IfOk result (λ tally. (tally.counted ≡ 0) × (tally.unsplit ≡ 0)) }
        ensures err { IfErr result (λ refusal. refusal ≡ Refusal.Memory) }
    {
        let (table, seat) = Table::of_words(alloc, &[0], &())?;
        Ok(Tally { table, seat })
    }

    /// Counts a start: a connection was opened for a transfer, or leased again.
    pub fn start(&mut self)
        requires { self.old.counted + 1 < 2 ^ 64 }
        ensures { self.new ≡ one_start_more self.old }
    {
        let table = &self.table;
        table.shared.fetch_add::<Count>(&mut self.seat, 0, 1);
    }

    /// Splits a start off, for the lease that stands for it from now on.
    pub fn split(&mut self) -> StartSeat
        requires { 0 < self.old.unsplit }
        ensures tally { self.new ≡ one_split self.old }
        ensures start { result ≡ self.old.table }
    {
        let table = &self.table;
        let seat = table.shared.split_seat::<OfLease>(&mut self.seat);
        StartSeat { seat }
    }

    /// A seat for a pass, with which nothing was spent here yet.
    pub fn seat_pass(&mut self) -> PassSeat
        ensures tally { self.new ≡ self.old }
        ensures pass { result ≡ record { table = self.old.table; spent = 0 } }
    {
        let table = &self.table;
        let seat = table.shared.split_seat::<OfPass>(&mut self.seat);
        PassSeat { seat, spent: 0 }
    }

    /// Spends a lease: its seat joins the pass's, which stands for one start more.
    pub fn join(&self, pass: &mut PassSeat, start: StartSeat)
        requires pass { pass.old.table ≡ self.now.table }
        requires start { start ≡ self.now.table }
        ensures { pass.new ≡ record pass.old { spent = pass.old.spent + 1 } }
    {
        let StartSeat { seat } = start;
        let table = &self.table;
        table.shared.join_seat::<Spends>(&mut pass.seat, seat);
        let _starts = table.shared.load::<Compare>(&mut pass.seat, 0);
        pass.spent += 1;
    }

    /// The number of starts, read off the word.
    pub fn load(&mut self) -> u64
        ensures tally { self.new ≡ self.old }
        ensures starts { result ≡ self.old.counted }
    {
        let table = &self.table;
        table.shared.load::<Read>(&mut self.seat, 0)
    }
}
