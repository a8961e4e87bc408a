//! Which pairs of a connection and a transfer hold each other at one host, and the lease of each.
//!
//! The word is the number of pairs. The host's seat lists them, each flagged once its lease's seat
//! was split off: it then stands among the leased ones. A lease that comes back joins its seat, a
//! load tells that its pair stood flagged, and clearing takes it off the list.
ghost use Rattle.std.specs.Prelude.{◌≡◌, ◌+◌, [], length, Some, None, IfOk, IfErr, IfSome, IsSome};
ghost use Rattle.budget.specs.Pairs.{pair_count, granted_of, granted_too, leased_too};
ghost use Rattle.budget.specs.Pairs.{HoldsNone, IsApart, IsApartIn, HasRoomForPair, HasRoomIn};
ghost use Rattle.budget.specs.Pairs.{IsHost, SitsAt};
ghost use Rattle.budget.specs.Pairs.{host_granting, host_leasing, Loses};
ghost use Rattle.budget.specs.declared.holders.Holding.TheVariants.{Lease};

use crate::refusal::Refusal;
use atomic_table::{Join, Play, Seat, Split, Table, TableRule};
use std::alloc::Global;
use std::collections::LinkedList;
use std::marker::{Brand, Model, PhantomData};

/// What a seat at the holders' table shows. No value of it is made.
pub enum Holding {
    /// The host's: the pairs without a lease yet, and those with one.
    Host(LinkedList<(u32, u64)>, LinkedList<(u32, u64)>),
    /// The same, with a pair whose lease was taken back.
    Taking(LinkedList<(u32, u64)>, LinkedList<(u32, u64)>, (u32, u64)),
    /// A lease's: its pair.
    Lease((u32, u64)),
    /// A seat that was taken back.
    Gone,
}

/// Names the pair that a step is about. Each call of a step picks it.
trait Named {
    ghost use Rattle.budget.specs.Pairs.{Pair};

    ghost pair: { Pair };
}

impl Named for Brand {
    ghost pair = { (0, 0) };
}

struct Pairs;

impl TableRule<(), Holding, ()> for Pairs {
    ghost use Rattle.std.specs.Prelude.{[]};
    ghost use Rattle.budget.specs.declared.holders.Holding.TheVariants.{Host};
    ghost use Rattle.budget.specs.Pairs.{KeepsPairs};

    ghost holds = { λ _. KeepsPairs };

    ghost first = { λ _. Host [] [] };
}

struct Hold<N> {
    name: PhantomData<N>,
}

impl<N: Named> Play<(), Holding> for Hold<N> {
    ghost use Rattle.budget.specs.Pairs.{MarksPair};

    ghost then = { MarksPair N.pair };
}

struct Read;

impl Play<(), Holding> for Read {
    ghost use Rattle.budget.specs.Pairs.{ReadsHeld};

    ghost then = { ReadsHeld };
}

struct Clear;

impl Play<(), Holding> for Clear {
    ghost use Rattle.budget.specs.Pairs.{ClearsPair};

    ghost then = { ClearsPair };
}

struct OfLease<N> {
    name: PhantomData<N>,
}

impl<N: Named> Split<Holding> for OfLease<N> {
    ghost use Rattle.budget.specs.declared.holders.Holding.TheVariants.{Lease};
    ghost use Rattle.budget.specs.Pairs.{with_lease};

    ghost left = { with_lease N.pair };

    ghost right = { λ _. Lease N.pair };
}

struct HandOut;

impl Split<Holding> for HandOut {
    ghost use Rattle.budget.specs.Pairs.{without_back, lease_back};

    ghost left = { without_back };

    ghost right = { lease_back };
}

struct TakeBack;

impl Join<Holding> for TakeBack {
    ghost use Rattle.budget.specs.declared.holders.Holding.TheVariants.{Gone};
    ghost use Rattle.budget.specs.Pairs.{with_back};

    ghost both = { with_back };

    ghost spent = { Gone };
}

/// The pairs held at one host, which its lock owns. No call but `new` takes memory.
#[derive(Drop)]
pub struct Holders {
    table: Table<(), Holding, (), Pairs, Global>,
    seat: Seat<(), Holding>,
}

impl Model for Holders {
    ghost use Rattle.budget.specs.Pairs.{HeldPairs, pairs_shown, IsPairsSeat};

    ghost Value = { HeldPairs };

    ghost view = { λ holders. pairs_shown holders.seat.table_id holders.seat.me.0 };

    ghost invariant = { λ holders. IsPairsSeat holders.table.shared.table_id holders.seat };
}

/// A lease's seat: its pair of a connection and a transfer. It must be taken back.
pub struct HolderSeat {
    seat: Seat<(), Holding>,
}

impl Model for HolderSeat {
    ghost use Rattle.budget.specs.Pairs.{LeaseOf, lease_shown, IsHolderSeat};

    ghost Value = { LeaseOf };

    ghost view = { λ holder. lease_shown holder.seat.table_id holder.seat.me.0 };

    ghost invariant = { λ holder. IsHolderSeat holder.seat.me };
}

impl HolderSeat {
    /// Gives it up. Its pair stays held for good.
    pub fn discard(self) {
        let HolderSeat { seat } = self;
        drop(seat);
    }
}

impl Holders {
    /// No pair is held.
    ///
    /// The only refusal is [`Refusal::Memory`].
    pub fn new(alloc: Global) -> Result<Holders, Refusal>
        ensures ok { IfOk result HoldsNone }
        ensures err { IfErr result (λ refusal. refusal ≡ Refusal.Memory) }
    {
        let (table, seat) = Table::of_words(alloc, &[0], &())?;
        Ok(Holders { table, seat })
    }

    /// The transfer holds the connection from now on. No lease stands for the pair yet.
    pub fn mark(&mut self, connection: u32, transfer: u64)
        requires apart { IsApart (connection, transfer) self.old.granted self.old.leased }
        requires room { HasRoomForPair self.old.granted self.old.leased }
        requires back { self.old.back ≡ None }
        ensures { self.new ≡ granted_too (connection, transfer) self.old }
    {
        let table = &self.table;
        mark_pair::<Brand>(table, &mut self.seat, connection, transfer);
    }

    /// Splits off the seat of the lease for a pair that has none yet, and flags the pair.
    pub fn split(&mut self, connection: u32, transfer: u64) -> HolderSeat
        requires granted { pair_count (connection, transfer) self.old.granted ≡ 1 }
        requires back { self.old.back ≡ None }
        ensures holders { self.new ≡ leased_too (connection, transfer) self.old }
        ensures lease { result ≡ record { table = self.old.table; pair = (connection, transfer) } }
    {
        let table = &self.table;
        let seat = split_pair::<Brand>(table, &mut self.seat, connection, transfer);
        HolderSeat { seat }
    }

    /// Takes a lease back. It is remembered until it is cleared, or handed out again.
    pub fn join(&mut self, lease: HolderSeat)
        requires table { lease.table ≡ self.old.table }
        requires back { self.old.back ≡ None }
        ensures { self.new ≡ record self.old { back = Some lease.pair } }
    {
        let HolderSeat { seat } = lease;
        let table = &self.table;
        table.shared.join_seat::<TakeBack>(&mut self.seat, seat);
    }

    /// The number of pairs held, read off the word. It tells that a pair taken back stood flagged.
    pub fn load(&mut self) -> u64
        ensures holders { self.new ≡ self.old }
        ensures held { result ≡ length self.old.granted + length self.old.leased }
        ensures flagged { IfSome self.old.back (λ pair. pair_count pair self.old.leased ≡ 1) }
    {
        let table = &self.table;
        table.shared.load::<Read>(&mut self.seat, 0)
    }

    /// The pair that was taken back is held no longer. `load` told that it stood flagged.
    pub fn clear(&mut self)
        requires back { IsSome self.old.back }
        requires flagged { IfSome self.old.back (λ pair. pair_count pair self.old.leased ≡ 1) }
        ensures back { self.new.back ≡ None }
        ensures leased { IfSome self.old.back (Loses self.old.leased self.new.leased) }
        ensures granted { self.new.granted ≡ self.old.granted }
        ensures table { self.new.table ≡ self.old.table }
    {
        let table = &self.table;
        table.shared.fetch_sub::<Clear>(&mut self.seat, 0, 1);
    }

    /// Hands a lease that was taken back out again.
    pub fn hand_out(&mut self) -> HolderSeat
        requires { IsSome self.old.back }
        ensures holders { self.new ≡ record self.old { back = None } }
        ensures lease { self.old.back ≡ Some result.pair }
        ensures table { result.table ≡ self.old.table }
    {
        let table = &self.table;
        let seat = table.shared.split_seat::<HandOut>(&mut self.seat);
        HolderSeat { seat }
    }
}

// Marks the pair that N names.
#[inline(always)]
fn mark_pair<N: Named>(
    table: &Table<(), Holding, (), Pairs, Global>,
    seat: &mut Seat<(), Holding>,
    connection: u32,
    transfer: u64,
)
    requires seated { SitsAt seat.old.table_id table.now.shared.table_id }
    requires pair { N.pair ≡ (connection, transfer) }
    requires host { IsHost seat.old.me.0 }
    requires apart { IsApartIn (connection, transfer) seat.old.me.0 }
    requires room { HasRoomIn seat.old.me.0 }
    ensures same { (seat.new.table_id ≡ seat.old.table_id) × (seat.new.id ≡ seat.old.id) }
    ensures bare { seat.new.me.1 ≡ seat.old.me.1 }
    ensures host { seat.new.me.0 ≡ host_granting (connection, transfer) seat.old.me.0 }
{
    table.shared.fetch_add::<Hold<N>>(seat, 0, 1);
}

// Splits off the seat of the pair that N names.
#[inline(always)]
fn split_pair<N: Named>(
    table: &Table<(), Holding, (), Pairs, Global>,
    seat: &mut Seat<(), Holding>,
    connection: u32,
    transfer: u64,
) -> Seat<(), Holding>
    requires seated { SitsAt seat.old.table_id table.now.shared.table_id }
    requires pair { N.pair ≡ (connection, transfer) }
    requires host { IsHost seat.old.me.0 }
    requires granted { pair_count (connection, transfer) (granted_of seat.old.me.0) ≡ 1 }
    ensures same { (seat.new.table_id ≡ seat.old.table_id) × (seat.new.id ≡ seat.old.id) }
    ensures bare { seat.new.me.1 ≡ seat.old.me.1 }
    ensures host { seat.new.me.0 ≡ host_leasing (connection, transfer) seat.old.me.0 }
    ensures table { result.table_id ≡ seat.old.table_id }
    ensures lease { result.me ≡ (Lease (connection, transfer), []) }
{
    table.shared.split_seat::<OfLease<N>>(seat)
}
