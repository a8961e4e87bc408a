//! Which hosts the Lobby lists, beside the mark of each host: the two agree.
//!
//! The Lobby's list and a host's mark lie under two locks. With both locks held, the host's seat
//! visits the Lobby's, a load tells that its mark is whether it is listed, and it leaves with the
//! new values. There is no way to change one without the other.
ghost use Rattle.std.specs.Prelude.{◌≡◌, ◌+◌, [], true, false, IfOk, IfErr};
ghost use Rattle.budget.specs.Lobby.{is_listed, turned};
ghost use Rattle.budget.specs.Marks.{with_listed, with_unlisted, next_mark};
ghost use Rattle.budget.specs.Marks.{list_shown, mark_shown, visited, MayLeave};

use crate::refusal::Refusal;
use atomic_table::{Join, Play, Seat, Split, Table, TableRule};
use std::alloc::Global;
use std::collections::LinkedList;
use std::marker::Model;

/// What a seat at a link's table shows. No value of it is made.
pub enum Listing {
    /// The Lobby's: the hosts listed, in order, and how many hosts have a seat.
    Lobby(LinkedList<u32>, u64),
    /// The same, with a host and its mark as a guest.
    Visited(LinkedList<u32>, u64, u32, bool),
    /// A host's: its index, and whether it is marked as listed.
    Mark(u32, bool),
    /// A seat that visits the Lobby's.
    Gone,
}

struct Marks;

impl TableRule<(), Listing, ()> for Marks {
    ghost use Rattle.std.specs.Prelude.{[]};
    ghost use Rattle.budget.specs.declared.link.Listing.TheVariants.{Lobby};
    ghost use Rattle.budget.specs.Marks.{KeepsMarks};

    ghost holds = { λ _. KeepsMarks };

    ghost first = { λ _. Lobby [] 0 };
}

struct See;

impl Play<(), Listing> for See {
    ghost use Rattle.budget.specs.Marks.{SeesMark};

    ghost then = { SeesMark };
}

struct Turn;

impl Play<(), Listing> for Turn {
    ghost use Rattle.budget.specs.Marks.{Turns};

    ghost then = { Turns };
}

struct JoinMark;

impl Join<Listing> for JoinMark {
    ghost use Rattle.budget.specs.declared.link.Listing.TheVariants.{Gone};
    ghost use Rattle.budget.specs.Marks.{with_guest};

    ghost both = { with_guest };

    ghost spent = { Gone };
}

struct Leave;

impl Split<Listing> for Leave {
    ghost use Rattle.budget.specs.Marks.{left_alone, mark_alone};

    ghost left = { left_alone };

    ghost right = { mark_alone };
}

struct LeaveListed;

impl Split<Listing> for LeaveListed {
    ghost use Rattle.budget.specs.Marks.{left_longer, mark_set};

    ghost left = { left_longer };

    ghost right = { mark_set };
}

struct LeaveUnlisted;

impl Split<Listing> for LeaveUnlisted {
    ghost use Rattle.budget.specs.Marks.{left_shorter, mark_cleared};

    ghost left = { left_shorter };

    ghost right = { mark_cleared };
}

struct NextHost;

impl Split<Listing> for NextHost {
    ghost use Rattle.budget.specs.Marks.{with_host, first_mark};

    ghost left = { with_host };

    ghost right = { first_mark };
}

/// The table of the Lobby's list and the hosts' marks, which threads share. No call but `new` takes
/// memory.
#[derive(Drop)]
pub struct Link {
    table: Table<(), Listing, (), Marks, Global>,
}

impl Model for Link {
    ghost use Rattle.std.specs.Prelude.{◌≡◌};
    ghost use Rattle.atomic_table.specs.Seated.{TableId, table_id_coded};

    ghost Value = { TableId };

    ghost coded = { table_id_coded };

    ghost view = { λ link. link.table.shared.table_id };

    ghost invariant = { λ link. link.table.shared.table_id.words ≡ 1 };
}

/// The Lobby's seat, which lies under its lock: the hosts listed, and how many hosts have a seat.
#[derive(Drop)]
pub struct LobbySeat {
    seat: Seat<(), Listing>,
}

impl Model for LobbySeat {
    ghost use Rattle.budget.specs.Marks.{Listed, list_shown, IsLobbySeat};

    ghost Value = { Listed };

    ghost view = { λ lobby. list_shown lobby.seat.table_id lobby.seat.me.0 };

    ghost invariant = { λ lobby. IsLobbySeat lobby.seat.id lobby.seat.me };
}

/// A host's seat, which lies under its lock: its index, and whether it is marked as listed.
#[derive(Drop)]
pub struct MarkSeat {
    // Nothing only while it visits the Lobby's seat.
    seat: Option<Seat<(), Listing>>,
}

impl Model for MarkSeat {
    ghost use Rattle.budget.specs.Marks.{Marked, marked_by, HasMark};

    ghost Value = { Marked };

    ghost view = { λ host. marked_by host.seat };

    ghost invariant = { λ host. HasMark host.seat };
}

impl Link {
    /// A link without a mark, and the Lobby's seat.
    ///
    /// The only refusal is [`Refusal::Memory`].
    pub fn new(alloc: Global) -> Result<(Link, LobbySeat), Refusal>
        ensures table { IfOk result (λ made. made.1.table ≡ made.0) }
        ensures err { IfErr result (λ refusal. refusal ≡ Refusal.Memory) }
        ensures empty { IfOk result (λ made. (made.1.hosts ≡ []) × (made.1.seats ≡ 0)) }
    {
        let (table, seat) = Table::of_words(alloc, &[0], &())?;
        Ok((Link { table }, LobbySeat { seat }))
    }

    /// The seat of the next host: its index is how many have a seat so far, and it isn't listed.
    pub fn seat_host(&self, lobby: &mut LobbySeat) -> MarkSeat
        requires { lobby.old.table ≡ self.now }
        ensures lobby { lobby.new ≡ record lobby.old { seats = lobby.old.seats + 1 } }
        ensures host { result ≡ next_mark lobby.old }
    {
        let table = &self.table;
        let seat = table.shared.split_seat::<NextHost>(&mut lobby.seat);
        MarkSeat { seat: Some(seat) }
    }

    /// Tells that the host's mark is whether it is listed.
    pub fn load(&self, lobby: &mut LobbySeat, host: &mut MarkSeat)
        requires lobby { lobby.old.table ≡ self.now }
        requires host { host.old.table ≡ self.now }
        ensures agree { is_listed lobby.old.hosts host.old.host ≡ host.old.mark }
        ensures lobby { lobby.new ≡ lobby.old }
        ensures host { host.new ≡ host.old }
    {
        self.visit::<Leave>(lobby, host);
    }

    /// Lists a host that isn't marked, behind the others, and marks it.
    pub fn enlist(&self, lobby: &mut LobbySeat, host: &mut MarkSeat)
        requires lobby { lobby.old.table ≡ self.now }
        requires host { host.old.table ≡ self.now }
        requires unmarked { host.old.mark ≡ false }
        ensures agree { is_listed lobby.old.hosts host.old.host ≡ false }
        ensures lobby { lobby.new ≡ with_listed host.old.host lobby.old }
        ensures host { host.new ≡ record host.old { mark = true } }
    {
        self.visit::<LeaveListed>(lobby, host);
    }

    /// Takes a marked host off the list, and its mark.
    pub fn delist(&self, lobby: &mut LobbySeat, host: &mut MarkSeat)
        requires lobby { lobby.old.table ≡ self.now }
        requires host { host.old.table ≡ self.now }
        requires marked { host.old.mark ≡ true }
        ensures agree { is_listed lobby.old.hosts host.old.host ≡ true }
        ensures lobby { lobby.new ≡ with_unlisted host.old.host lobby.old }
        ensures host { host.new ≡ record host.old { mark = false } }
    {
        self.visit::<LeaveUnlisted>(lobby, host);
    }

    /// The first host of the list goes behind the others.
    pub fn rotate(&self, lobby: &mut LobbySeat)
        requires { lobby.old.table ≡ self.now }
        ensures { lobby.new ≡ record lobby.old { hosts = turned lobby.old.hosts } }
    {
        let table = &self.table;
        table.shared.load::<Turn>(&mut lobby.seat, 0);
    }

    // The host's seat becomes the Lobby's guest, a load tells that its mark is whether it is
    // listed, and it leaves as L says.
    fn visit<L: Split<Listing>>(&self, lobby: &mut LobbySeat, host: &mut MarkSeat)
        requires lobby { lobby.old.table ≡ self.now }
        requires host { host.old.table ≡ self.now }
        requires leaves { is_listed lobby.old.hosts host.old.host ≡ host.old.mark
            → MayLeave L.left L.right (visited lobby.old host.old) }
        ensures agree { is_listed lobby.old.hosts host.old.host ≡ host.old.mark }
        ensures lobby { lobby.new ≡ list_shown self.now (L.left (visited lobby.old host.old)) }
        ensures host { host.new ≡ mark_shown self.now (L.right (visited lobby.old host.old)) }
    {
        let Some(guest) = host.seat.take() else {
            unreachable!()
        };
        let table = &self.table;
        table.shared.join_seat::<JoinMark>(&mut lobby.seat, guest);
        table.shared.load::<See>(&mut lobby.seat, 0);
        let seat = table.shared.split_seat::<L>(&mut lobby.seat);
        host.seat = Some(seat);
    }
}
