//! What no clause says: that calls succeed in ample memory, worked rows with values from the rules,
//! and that threads that hammer one budget are never above its limit.
ghost use Rattle.std.specs.Prelude.{◌≡◌, ◌<◌, ◌+◌, length};
ghost use Rattle.std.specs.Thread.{IsSync};
ghost use Rattle.budget.specs.Words.{whole};

use crate::checks::check_eq;
use budget::{
    BudgetSeat, Held, Limits, LimitsFault, Lobby, Permits, PlainBudget, SeatPermits, Seen, Try,
    WordBudget, Words,
};
use std::thread::{Threads, join};

// Who may ask here needs no key.
const FREELY: () = ();

// How often each thread asks.
const ROUNDS: u32 = 2_000;

#[test]
fn limits_are_kept_as_numbers_from_1_to_65535(rt: HostRuntime) {
    let good = [
        ((0, 0, 4), (65_535, 65_535, 4)),
        ((1, 2, 3), (1, 2, 3)),
        ((65_535, 65_535, 65_535), (65_535, 65_535, 65_535)),
    ];
    for &((host, total, connects), kept) in &good {
        let limits = Limits::new(host, total, connects).expect(&rt, "limits");
        check_eq(
            &rt,
            (limits.host(), limits.total(), limits.connects()),
            kept,
        );
    }
    for &(host, total, connects) in &[(0, 0, 0), (65_536, 1, 1), (1, 65_536, 1), (1, 1, 65_536)] {
        check_eq(
            &rt,
            Limits::new(host, total, connects),
            Err(LimitsFault::BadLimit),
        );
    }
}

// What a part holds.
fn held_of<P: Permits<()>>(part: &P) -> Held
    requires { P.stands part.now }
{
    part.held()
}

// Takes both permits where they are given, and gives back what it took.
fn take_and_give_back<P: Permits<()>>(permits: &mut P) -> (Try, Try)
    requires { P.stands permits.old }
    ensures stands { P.stands permits.new }
    ensures stays { P.stays permits.old permits.new }
    ensures held { P.held permits.new ≡ P.held permits.old }
{
    let open = permits.reserve_open(&FREELY);
    let keep = permits.reserve_kept(&FREELY);
    if keep == Try::Got {
        permits.release_kept();
    }
    if open == Try::Got {
        permits.release_open();
    }
    (open, keep)
}

// Opens a connection at a host, and says what the host holds.
fn open_at(budget: &mut PlainBudget, host: u32) -> (Try, Held)
    requires { host < length budget.old.hosts }
    ensures { length budget.new.hosts ≡ length budget.old.hosts }
{
    let mut part = budget.at(host);
    let answer = part.reserve_open(&FREELY);
    (answer, held_of(&part))
}

#[test]
fn a_plain_budget_opens_up_to_its_total(rt: HostRuntime) {
    let limits = Limits::new(0, 2, 1).expect(&rt, "limits");
    let Ok(mut budget) = PlainBudget::new(rt.alloc(), limits, 2) else {
        panic!(rt; "no memory");
    };
    let one = Held { alive: 1, kept: 0 };
    check_eq(&rt, open_at(&mut budget, 0), (Try::Got, one));
    check_eq(&rt, open_at(&mut budget, 1), (Try::Got, one));
    check_eq(&rt, open_at(&mut budget, 1), (Try::Full, one));
}

#[test]
fn a_plain_budget_keeps_over_all_hosts(rt: HostRuntime) {
    let limits = Limits::new(0, 1, 1).expect(&rt, "limits");
    let Ok(mut budget) = PlainBudget::new(rt.alloc(), limits, 2) else {
        panic!(rt; "no memory");
    };
    let _opened = open_at(&mut budget, 0);
    let mut first = budget.at(0);
    check_eq(&rt, first.reserve_kept(&FREELY), Try::Got);
    check_eq(&rt, take_and_give_back(&mut first), (Try::Full, Try::Full));
    check_eq(&rt, held_of(&first), Held { alive: 1, kept: 1 });
    let mut second = budget.at(1);
    check_eq(&rt, second.reserve_kept(&FREELY), Try::Full);
}

#[test]
fn hosts_take_turns(rt: HostRuntime) {
    let Ok(mut lobby) = Lobby::new(rt.alloc(), 3) else {
        panic!(rt; "no memory");
    };
    check_eq(&rt, lobby.first(), None);
    lobby.rotate();
    lobby.enlist(2);
    lobby.enlist(0);
    lobby.enlist(1);
    check_eq(&rt, lobby.first(), Some(2));
    lobby.rotate();
    check_eq(&rt, lobby.first(), Some(0));
    lobby.delist(0);
    assert!(rt; !lobby.listed(0) && lobby.listed(1) && lobby.listed(2));
    check_eq(&rt, lobby.first(), Some(1));
    lobby.rotate();
    check_eq(&rt, lobby.first(), Some(2));
}

#[test]
fn two_seats_share_one_permit(rt: HostRuntime) {
    let limits = Limits::new(0, 1, 1).expect(&rt, "limits");
    let Ok((budget, mut a)) = WordBudget::new(rt.alloc(), limits) else {
        panic!(rt; "no memory");
    };
    let mut b = budget.split(&mut a);
    let Try::Got = budget.try_open(&mut a, &FREELY) else {
        panic!(rt; "a could not open");
    };
    check_eq(&rt, budget.try_open(&mut b, &FREELY), Try::Full);
    check_eq(&rt, budget.seen(&b), Seen { total: 1, kept: 0 });
    budget.free_open(&mut a);
    budget.join(&mut a, b);
    check_eq(&rt, budget.finish(a), Words { total: 0, kept: 0 });
}

#[test]
fn two_seats_share_one_kept_permit(rt: HostRuntime) {
    let limits = Limits::new(0, 1, 1).expect(&rt, "limits");
    let Ok((budget, mut a)) = WordBudget::new(rt.alloc(), limits) else {
        panic!(rt; "no memory");
    };
    let mut b = budget.split(&mut a);
    let Try::Got = budget.try_open(&mut b, &FREELY) else {
        panic!(rt; "b could not open");
    };
    let Try::Got = budget.try_keep(&mut b, &FREELY) else {
        panic!(rt; "b could not keep");
    };
    assert!(rt; budget.keeps_any());
    check_eq(&rt, budget.try_keep(&mut a, &FREELY), Try::Full);
    check_eq(&rt, b.held(), Held { alive: 1, kept: 1 });
    budget.free_keep(&mut b);
    budget.free_open(&mut b);
    budget.join(&mut a, b);
    check_eq(&rt, budget.finish(a), Words { total: 0, kept: 0 });
}

#[test]
fn a_seat_takes_and_gives_back(rt: HostRuntime) {
    let limits = Limits::new(0, 1, 1).expect(&rt, "limits");
    let Ok((budget, mut seat)) = WordBudget::new(rt.alloc(), limits) else {
        panic!(rt; "no memory");
    };
    let taken = take_and_give_back(&mut SeatPermits::new(&budget, &mut seat));
    check_eq(&rt, taken, (Try::Got, Try::Got));
    assert!(rt; !budget.keeps_any());
    check_eq(&rt, budget.finish(seat), Words { total: 0, kept: 0 });
}

// Asks for two permits and gives them back, again and again. It answers the greatest total seen,
// and how often it got the first.
fn hammer(budget: &WordBudget<()>, mut seat: BudgetSeat<()>) -> (u64, u64, BudgetSeat<()>)
    requires { seat.table ≡ budget.now.table }
    ensures table { result.2.table ≡ seat.table }
    ensures share { result.2.view.share ≡ seat.view.share }
{
    let mut most = 0u64;
    let mut got = 0u64;
    for _ in 0..ROUNDS {
        let first = budget.try_open(&mut seat, &FREELY);
        most = budget.seen(&seat).total.max(most);
        let second = budget.try_open(&mut seat, &FREELY);
        most = budget.seen(&seat).total.max(most);
        if first == Try::Got {
            got = got.wrapping_add(1);
            budget.free_open(&mut seat);
        }
        if second == Try::Got {
            budget.free_open(&mut seat);
        }
    }
    (most, got, seat)
}

// Two threads hammer.
fn hammer_by_two<R: Threads + Sync>(
    rt: &R,
    budget: &WordBudget<()>,
    one: BudgetSeat<()>,
    two: BudgetSeat<()>,
) -> (u64, u64, BudgetSeat<()>)
    requires { (one.table ≡ budget.now.table) × (two.table ≡ budget.now.table) }
    ensures table { result.2.table ≡ one.table }
    ensures share { result.2.view.share ≡ one.view.share + two.view.share }
{
    let (one, two) = join(
        rt,
        || -> (u64, u64, BudgetSeat<()>)
            requires { one.table ≡ budget.now.table }
            ensures { (result.2.table ≡ one.table) × (result.2.view.share ≡ one.view.share) }
        { hammer(budget, one) },
        || -> (u64, u64, BudgetSeat<()>)
            requires { two.table ≡ budget.now.table }
            ensures { (result.2.table ≡ two.table) × (result.2.view.share ≡ two.view.share) }
        { hammer(budget, two) },
    );
    let (most, got, mut seat) = one;
    let (others_most, others_got, other) = two;
    budget.join(&mut seat, other);
    (most.max(others_most), got.wrapping_add(others_got), seat)
}

// Four threads hammer one budget, which is finished at the end.
fn hammer_by_four<R: Threads + Sync>(
    rt: &R,
    budget: WordBudget<()>,
    mut a: BudgetSeat<()>,
) -> (u64, u64, Words)
    requires table { a.table ≡ budget.table }
    requires all { a.view.share ≡ whole }
{
    let b = budget.split(&mut a);
    let c = budget.split(&mut a);
    let d = budget.split(&mut a);
    let shared = &budget;
    let (first, second) = join(
        rt,
        || -> (u64, u64, BudgetSeat<()>)
            requires { IsSync R.row × (a.table ≡ shared.now.table) × (b.table ≡ shared.now.table) }
            ensures table { result.2.table ≡ a.table }
            ensures share { result.2.view.share ≡ a.view.share + b.view.share }
        { hammer_by_two(rt, shared, a, b) },
        || -> (u64, u64, BudgetSeat<()>)
            requires { IsSync R.row × (c.table ≡ shared.now.table) × (d.table ≡ shared.now.table) }
            ensures table { result.2.table ≡ c.table }
            ensures share { result.2.view.share ≡ c.view.share + d.view.share }
        { hammer_by_two(rt, shared, c, d) },
    );
    let (most, got, mut seat) = first;
    let (others_most, others_got, other) = second;
    budget.join(&mut seat, other);
    let words = budget.finish(seat);
    (most.max(others_most), got.wrapping_add(others_got), words)
}

#[test]
fn four_threads_are_never_above_the_limit(rt: HostRuntime) {
    let limits = Limits::new(0, 3, 1).expect(&rt, "limits");
    let Ok((budget, seat)) = WordBudget::new(rt.alloc(), limits) else {
        panic!(rt; "no memory");
    };
    let (most, got, words) = hammer_by_four(&rt, budget, seat);
    assert!(rt; 0 < most && most <= 3 && 0 < got);
    check_eq(&rt, words, Words { total: 0, kept: 0 });
}
