//! A tally, a link and holders under locks, with two threads that come and go.
ghost use Rattle.std.specs.Prelude.{◌≡◌, ◌<◌, true, false, None, IfSome};
ghost use Rattle.budget.specs.Marks.{mark_at};

use crate::checks::check_eq;
use budget::{HolderSeat, Holders, Link, Lobby, LobbySeat, MarkSeat, PassSeat, Tally};
use std::marker::{Brand, Model, PhantomData};
use std::sync::{Mutex, Wait};
use std::thread::{Threads, join};

// How often each thread comes.
const ROUNDS: u32 = 1_000;

// Names a table. Each test picks it.
trait Room {
    ghost use Rattle.atomic_table.specs.Seated.{TableId};

    ghost table: { TableId };
}

impl Room for Brand {
    ghost use Rattle.budget.specs.Marks.{no_table};

    ghost table = { no_table };
}

#[derive(Drop)]
struct LockedTally<B: Room> {
    tally: Tally,
    of: PhantomData<B>,
}

impl<B: Room> Model for LockedTally<B> {
    ghost use Rattle.std.specs.Prelude.{◌≡◌};
    ghost use Rattle.budget.specs.Starts.{Starts};

    ghost Value = { Starts };

    ghost view = { λ locked. locked.tally };

    ghost invariant = { λ locked. locked.tally.table ≡ B.table };
}

impl<B: Room> LockedTally<B> {
    fn give_and_spend(&mut self, pass: &mut PassSeat)
        requires { pass.old.table ≡ B.table }
        ensures { pass.new.table ≡ pass.old.table }
    {
        if self.tally.load() < 1_000_000 {
            self.tally.start();
            let start = self.tally.split();
            self.tally.join(pass, start);
        }
    }

    fn starts(&mut self) -> u64 {
        self.tally.load()
    }
}

// Gives and spends leases.
fn spend_many<B: Room, R: Wait>(
    rt: &R,
    lock: &Mutex<LockedTally<B>>,
    mut pass: PassSeat,
) -> PassSeat
    requires { pass.table ≡ B.table }
{
    for _ in 0..ROUNDS {
        lock.lock(rt).give_and_spend(&mut pass);
    }
    pass
}

fn spend_by_two<B: Room + Send + Sync, R: Threads + Wait + Sync>(
    rt: &R,
    tally: Tally,
    one: PassSeat,
    two: PassSeat,
) -> (u64, u64, u64)
    requires tally { tally.table ≡ B.table }
    requires one { one.table ≡ B.table }
    requires two { two.table ≡ B.table }
{
    let shared = Mutex::new(LockedTally::<B> {
        tally,
        of: PhantomData,
    });
    let lock = &shared;
    let (one, two) = join(
        rt,
        || -> PassSeat
            requires { one.table ≡ B.table }
        { spend_many(rt, lock, one) },
        || -> PassSeat
            requires { two.table ≡ B.table }
        { spend_many(rt, lock, two) },
    );
    let mut locked = shared.into_inner();
    (locked.starts(), one.spent(), two.spent())
}

#[test]
fn two_threads_spend_what_a_tally_counted(rt: HostRuntime) {
    let Ok(mut tally) = Tally::new(rt.alloc()) else {
        panic!(rt; "no memory");
    };
    let one = tally.seat_pass();
    let two = tally.seat_pass();
    let counts = spend_by_two::<Brand, _>(&rt, tally, one, two);
    check_eq(&rt, counts, (2_000, 1_000, 1_000));
}

#[derive(Drop)]
struct LockedHolders<B: Room> {
    holders: Holders,
    of: PhantomData<B>,
}

impl<B: Room> Model for LockedHolders<B> {
    ghost use Rattle.std.specs.Prelude.{◌≡◌, None};
    ghost use Rattle.budget.specs.Pairs.{HeldPairs};

    ghost Value = { HeldPairs };

    ghost view = { λ locked. locked.holders };

    ghost invariant = { λ locked. (locked.holders.table ≡ B.table) × (locked.holders.back ≡ None) };
}

impl<B: Room> LockedHolders<B> {
    fn take_back(&mut self, lease: HolderSeat)
        requires { lease.table ≡ B.table }
    {
        self.holders.join(lease);
        let _ = self.holders.load();
        self.holders.clear();
    }

    fn held(&mut self) -> u64 {
        self.holders.load()
    }
}

// A lease that waits to be taken back, as it lies under a lock.
struct Returned<B: Room> {
    lease: Option<HolderSeat>,
    of: PhantomData<B>,
}

impl<B: Room> Model for Returned<B> {
    ghost use Rattle.std.specs.Prelude.{◌≡◌, Option, IfSome};
    ghost use Rattle.budget.specs.Pairs.{LeaseOf};

    ghost Value = { Option LeaseOf };

    ghost view = { λ returned. returned.lease };

    ghost invariant = { λ returned. IfSome returned.lease (λ lease. lease.table ≡ B.table) };
}

impl<B: Room> Returned<B> {
    fn new(lease: HolderSeat) -> Self
        requires { lease.table ≡ B.table }
    {
        Returned {
            lease: Some(lease),
            of: PhantomData,
        }
    }

    fn take(&mut self) -> Option<HolderSeat>
        ensures { IfSome result (λ lease. lease.table ≡ B.table) }
    {
        self.lease.take()
    }

    fn into_lease(self) -> Option<HolderSeat>
        ensures { IfSome result (λ lease. lease.table ≡ B.table) }
    {
        let Returned { lease, of: _ } = self;
        lease
    }
}

// Brings back the lease that waits there.
fn bring_back<B: Room, R: Wait>(
    rt: &R,
    holders: &Mutex<LockedHolders<B>>,
    returned: &Mutex<Returned<B>>,
) {
    let lease = returned.lock(rt).take();
    if let Some(lease) = lease {
        holders.lock(rt).take_back(lease);
    }
}

fn bring_back_by_two<B: Room + Send + Sync, R: Threads + Wait + Sync>(
    rt: &R,
    holders: Holders,
    one: HolderSeat,
    two: HolderSeat,
) -> u64
    requires holders { (holders.table ≡ B.table) × (holders.back ≡ None) }
    requires leases { (one.table ≡ B.table) × (two.table ≡ B.table) }
{
    let shared = Mutex::new(LockedHolders::<B> {
        holders,
        of: PhantomData,
    });
    let first = Mutex::new(Returned::<B>::new(one));
    let second = Mutex::new(Returned::<B>::new(two));
    let lock = &shared;
    let (one, two) = (&first, &second);
    join(
        rt,
        || bring_back(rt, lock, one),
        || bring_back(rt, lock, two),
    );
    if let Some(lease) = first.into_inner().into_lease() {
        shared.lock(rt).take_back(lease);
    }
    if let Some(lease) = second.into_inner().into_lease() {
        shared.lock(rt).take_back(lease);
    }
    let mut locked = shared.into_inner();
    locked.held()
}

#[test]
fn two_threads_bring_two_leases_back(rt: HostRuntime) {
    let Ok(mut holders) = Holders::new(rt.alloc()) else {
        panic!(rt; "no memory");
    };
    holders.mark(1, 10);
    holders.mark(2, 20);
    let one = holders.split(1, 10);
    let two = holders.split(2, 20);
    let held = holders.load();
    let left = bring_back_by_two::<Brand, _>(&rt, holders, one, two);
    check_eq(&rt, (held, left), (2, 0));
}

// The Lobby's list with its seat, as they lie under one lock.
#[derive(Drop)]
struct LockedLobby<B: Room> {
    lobby: Lobby,
    seat: LobbySeat,
    of: PhantomData<B>,
}

impl<B: Room> Model for LockedLobby<B> {
    ghost use Rattle.std.specs.Prelude.{◌≡◌};
    ghost use Rattle.budget.specs.Marks.{Listed};

    ghost Value = { Listed };

    ghost view = { λ locked. locked.seat };

    ghost invariant = { λ locked. record {
      named : locked.seat.table ≡ B.table;
      same : locked.lobby.order ≡ locked.seat.hosts;
      two : locked.lobby.hosts ≡ 2;
    } };
}

impl<B: Room> LockedLobby<B> {
    // Lists the host in both, where its mark says that it isn't.
    fn enlist(&mut self, link: &Link, mark: &mut MarkSeat, host: u32)
        requires link { link.now ≡ B.table }
        requires mark { mark.old ≡ mark_at B.table host false }
        requires host { host < 2 }
        ensures { mark.new ≡ mark_at B.table host true }
    {
        link.enlist(&mut self.seat, mark);
        self.lobby.enlist(host);
    }

    // Takes the host off both, where its mark says that it is listed.
    fn delist(&mut self, link: &Link, mark: &mut MarkSeat, host: u32)
        requires link { link.now ≡ B.table }
        requires mark { mark.old ≡ mark_at B.table host true }
        ensures { mark.new ≡ mark_at B.table host false }
    {
        link.delist(&mut self.seat, mark);
        self.lobby.delist(host);
    }

    fn is_listed(&self, host: u32) -> bool {
        self.lobby.listed(host)
    }

    fn rotate(&mut self, link: &Link)
        requires { link.now ≡ B.table }
    {
        link.rotate(&mut self.seat);
        self.lobby.rotate();
    }
}

// Comes and goes, and says whether the host was always listed in between, and never afterwards.
fn come_and_go<B: Room, R: Wait>(
    rt: &R,
    link: &Link,
    lock: &Mutex<LockedLobby<B>>,
    mut mark: MarkSeat,
    host: u32,
) -> bool
    requires link { link.now ≡ B.table }
    requires mark { mark ≡ mark_at B.table host false }
    requires host { host < 2 }
{
    let mut agreed = true;
    for _ in 0..ROUNDS {
        lock.lock(rt).enlist(link, &mut mark, host);
        agreed = agreed && lock.lock(rt).is_listed(host);
        lock.lock(rt).rotate(link);
        lock.lock(rt).delist(link, &mut mark, host);
        agreed = agreed && !lock.lock(rt).is_listed(host);
    }
    agreed
}

fn come_and_go_by_two<B: Room + Send + Sync, R: Threads + Wait + Sync>(
    rt: &R,
    link: &Link,
    lobby: Lobby,
    seat: LobbySeat,
    one: MarkSeat,
    two: MarkSeat,
) -> (bool, bool)
    requires link { link.now ≡ B.table }
    requires lobby { (lobby.order ≡ seat.hosts) × (lobby.hosts ≡ 2) }
    requires seat { seat.table ≡ B.table }
    requires one { one ≡ mark_at B.table 0 false }
    requires two { two ≡ mark_at B.table 1 false }
{
    let shared = Mutex::new(LockedLobby::<B> {
        lobby,
        seat,
        of: PhantomData,
    });
    let lock = &shared;
    join(
        rt,
        || -> bool
            requires { (link.now ≡ B.table) × (one ≡ mark_at B.table 0 false) }
        { come_and_go(rt, link, lock, one, 0) },
        || -> bool
            requires { (link.now ≡ B.table) × (two ≡ mark_at B.table 1 false) }
        { come_and_go(rt, link, lock, two, 1) },
    )
}

#[test]
fn two_hosts_are_listed_where_they_are_marked(rt: HostRuntime) {
    let Ok(lobby) = Lobby::new(rt.alloc(), 2) else {
        panic!(rt; "no memory");
    };
    let Ok((link, mut seat)) = Link::new(rt.alloc()) else {
        panic!(rt; "no memory");
    };
    let mut one = link.seat_host(&mut seat);
    let two = link.seat_host(&mut seat);
    link.load(&mut seat, &mut one);
    let agreed = come_and_go_by_two::<Brand, _>(&rt, &link, lobby, seat, one, two);
    check_eq(&rt, agreed, (true, true));
}
