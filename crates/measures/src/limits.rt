//! What limits over all hosts cost: a budget is asked for permits, which it gets back, and the
//! tables that go with leases and with the queue of hosts take their steps.

ghost use Rattle.std.specs.Prelude.{◌≡◌, ◌+◌, ◌<◌, [], None, false, length};
ghost use Rattle.std.specs.Thread.{IsSync};

use crate::counts::{Counts, MeasureError};
use crate::words::{next_choice, next_number};
use budget::{
    BudgetSeat, Holders, Limits, Link, LobbySeat, MarkSeat, PassSeat, Permits, PlainBudget, Tally,
    Try, WordBudget,
};
use std::alloc::Global;
use std::env::Args;
use std::thread::{Threads, join};

/// What a round does.
#[derive(Clone, Copy)]
enum Form {
    OpenByOne,
    OpenByTwo,
    OpenByFour,
    OpenAlone,
    Keep,
    Plain,
    Tally,
    Link,
    Holders,
}

/// Each form's word.
static FORMS: [(&str, Form); 9] = [
    ("open-1", Form::OpenByOne),
    ("open-2", Form::OpenByTwo),
    ("open-4", Form::OpenByFour),
    ("open-alone", Form::OpenAlone),
    ("keep-1", Form::Keep),
    ("plain", Form::Plain),
    ("tally", Form::Tally),
    ("link", Form::Link),
    ("holders", Form::Holders),
];

// Asks for one more open connection and gives it back.
fn open_pairs(budget: &WordBudget<()>, mut seat: BudgetSeat<()>, rounds: u64) -> u64
    requires { seat.table ≡ budget.now.table }
{
    let mut pairs = 0u64;
    for _ in 0..rounds {
        if budget.try_open(&mut seat, &()) == Try::Got {
            pairs = pairs.wrapping_add(1);
            budget.free_open(&mut seat);
        }
    }
    pairs
}

// The same for one more kept.
fn keep_pairs(budget: &WordBudget<()>, mut seat: BudgetSeat<()>, rounds: u64) -> u64
    requires { seat.table ≡ budget.now.table }
{
    let mut pairs = 0u64;
    for _ in 0..rounds {
        if budget.try_keep(&mut seat, &()) == Try::Got {
            pairs = pairs.wrapping_add(1);
            budget.free_keep(&mut seat);
        }
    }
    pairs
}

// Asks for one more open connection, and gives none back.
fn opens(budget: &WordBudget<()>, mut seat: BudgetSeat<()>, rounds: u64) -> u64
    requires { seat.table ≡ budget.now.table }
{
    let mut got = 0u64;
    for _ in 0..rounds {
        if budget.try_open(&mut seat, &()) == Try::Got {
            got = got.wrapping_add(1);
        }
    }
    got
}

// One connection that was kept is used again, and kept again, with the budget of one thread.
#[inline(never)]
fn reuse<P: Permits<()>>(part: &mut P) -> Try
    requires { P.stands part.old }
    ensures stands { P.stands part.new }
    ensures stays { P.stays part.old part.new }
{
    let answer = part.reserve_kept(&());
    if answer == Try::Got {
        part.release_kept();
    }
    answer
}

fn reuses(budget: &mut PlainBudget, rounds: u64) -> u64
    requires { 0 < length budget.old.hosts }
{
    let mut part = budget.at(0);
    let mut got = 0u64;
    for _ in 0..rounds {
        if reuse(&mut part) == Try::Got {
            got = got.wrapping_add(1);
        }
    }
    got
}

// Two threads.
fn both<R: Threads + Sync>(
    rt: &R,
    budget: &WordBudget<()>,
    one: BudgetSeat<()>,
    two: BudgetSeat<()>,
    rounds: u64,
) -> u64
    requires one { one.table ≡ budget.now.table }
    requires two { two.table ≡ budget.now.table }
{
    let (first, second) = join(
        rt,
        || -> u64
            requires { one.table ≡ budget.now.table }
        { open_pairs(budget, one, rounds) },
        || -> u64
            requires { two.table ≡ budget.now.table }
        { open_pairs(budget, two, rounds) },
    );
    first.wrapping_add(second)
}

// Four threads.
fn by_four<R: Threads + Sync>(
    rt: &R,
    budget: &WordBudget<()>,
    mut one: BudgetSeat<()>,
    rounds: u64,
) -> u64
    requires table { one.table ≡ budget.now.table }
    requires share { 3 < one.view.share }
{
    let two = budget.split(&mut one);
    let three = budget.split(&mut one);
    let four = budget.split(&mut one);
    let (first, second) = join(
        rt,
        || -> u64
            requires sync { IsSync R.row }
            requires one { one.table ≡ budget.now.table }
            requires two { two.table ≡ budget.now.table }
        { both(rt, budget, one, two, rounds) },
        || -> u64
            requires sync { IsSync R.row }
            requires three { three.table ≡ budget.now.table }
            requires four { four.table ≡ budget.now.table }
        { both(rt, budget, three, four, rounds) },
    );
    first.wrapping_add(second)
}

// A start, the split of its lease and its spending.
fn spends(tally: &mut Tally, mut pass: PassSeat, rounds: u32) -> u64
    requires pass { pass.table ≡ tally.old.table }
    requires new { tally.old.counted ≡ 0 }
{
    for _round in 0..rounds {
        tally.start();
        let start = tally.split();
        tally.join(&mut pass, start);
    }
    pass.spent()
}

// A host is listed with its mark, and taken off.
fn lists(link: &Link, lobby: &mut LobbySeat, mut host: MarkSeat, rounds: u32)
    requires lobby { lobby.old.table ≡ link.now }
    requires host { (host.table ≡ link.now) × (host.mark ≡ false) }
{
    for _round in 0..rounds {
        link.enlist(lobby, &mut host);
        link.delist(lobby, &mut host);
    }
}

// A pair is held, its lease is split off and comes back, and the pair is cleared.
fn holds(holders: &mut Holders, rounds: u32)
    requires none { (holders.old.granted ≡ []) × (holders.old.leased ≡ []) }
    requires back { holders.old.back ≡ None }
{
    for _round in 0..rounds {
        holders.mark(1, 10);
        let lease = holders.split(1, 10);
        holders.join(lease);
        let _ = holders.load();
        holders.clear();
    }
}

// The rounds at a new tally; `None` where memory is short, here and below.
fn of_tally(alloc: Global, rounds: u32) -> Option<u64> {
    let mut tally = Tally::new(alloc).ok()?;
    let pass = tally.seat_pass();
    Some(spends(&mut tally, pass, rounds))
}

// At a new link.
fn of_link(alloc: Global, rounds: u32) -> Option<u64> {
    let (link, mut lobby) = Link::new(alloc).ok()?;
    let host = link.seat_host(&mut lobby);
    lists(&link, &mut lobby, host, rounds);
    Some(u64::from(rounds))
}

// At new holders.
fn of_holders(alloc: Global, rounds: u32) -> Option<u64> {
    let mut holders = Holders::new(alloc).ok()?;
    holds(&mut holders, rounds);
    Some(holders.load())
}

// At a new budget of one thread.
fn of_plain(alloc: Global, rounds: u32) -> Option<u64> {
    let limits = Limits::new(0, 0, 65_535).ok()?;
    let mut budget = PlainBudget::new(alloc, limits, 1).ok()?;
    Some(reuses(&mut budget, u64::from(rounds)))
}

// At a new budget that threads share.
fn of_words<R: Threads + Sync>(rt: &R, alloc: Global, form: Form, rounds: u64) -> Option<u64> {
    let limits = Limits::new(0, 0, 65_535).ok()?;
    let (budget, mut seat) = WordBudget::new(alloc, limits).ok()?;
    Some(match form {
        Form::Keep => keep_pairs(&budget, seat, rounds),
        Form::OpenAlone => opens(&budget, seat, rounds),
        Form::OpenByFour => by_four(rt, &budget, seat, rounds),
        Form::OpenByTwo => {
            let other = budget.split(&mut seat);
            both(rt, &budget, seat, other, rounds)
        }
        _ => open_pairs(&budget, seat, rounds),
    })
}

/// Measures what the words name, and counts the rounds that got what they asked for.
pub(crate) fn counted<R: Threads + Sync>(
    rt: &R,
    alloc: Global,
    words: &mut Args,
) -> Result<Counts, MeasureError> {
    let form = next_choice(words, &FORMS)?;
    let rounds = next_number(words)?;
    let count = match form {
        Form::Tally => of_tally(alloc, rounds),
        Form::Link => of_link(alloc, rounds),
        Form::Holders => of_holders(alloc, rounds),
        Form::Plain => of_plain(alloc, rounds),
        _ => of_words(rt, alloc, form, u64::from(rounds)),
    };
    match count {
        Some(count) => Ok(Counts::Rounds(count)),
        None => Err(MeasureError::Memory),
    }
}
