//! Limits, tables that threads share, and the counter of jobs, out of memory. Each of these tests
//! passes whichever allocation fails: the refusal says so, and the call succeeds when it comes
//! again.

ghost use Rattle.std.specs.Prelude.{◌≡◌, ◌++◌, ◌∷◌, []};
ghost use Rattle.run_loop.specs.Draws.{first_seat};

use crate::checks::check_eq;
use budget::{
    BudgetSeat, Held, Holders, Limits, Link, Lobby, Pass, Permits, PlainBudget, Refusal, Seen,
    Tally, WordBudget,
};
use run_loop::{JobCounter, JobSeat};
use std::alloc::{AllocGlobal, Global};
use std::process::Abort;

// What is refused, is refused for lack of memory.
fn check_memory(rt: &impl Abort, refusal: Refusal) {
    check_eq(rt, refusal, Refusal::Memory);
}

// What a part of a budget has taken.
fn held_of<P: Permits<()>>(part: &P) -> Held
    requires { P.stands part.now }
{
    part.held()
}

fn check_plain_budget<R: Abort + AllocGlobal>(rt: &R, limits: Limits) {
    let mut budget = match PlainBudget::new(rt.alloc(), limits, 9) {
        Ok(made) => made,
        Err(refusal) => {
            check_memory(rt, refusal);
            PlainBudget::new(rt.alloc(), limits, 9).expect(rt, "memory")
        }
    };
    check_eq(rt, held_of(&budget.at(8)), Held { alive: 0, kept: 0 });
}

fn check_lobby<R: Abort + AllocGlobal>(rt: &R) {
    let lobby = match Lobby::new(rt.alloc(), 9) {
        Ok(made) => made,
        Err(refusal) => {
            check_memory(rt, refusal);
            Lobby::new(rt.alloc(), 9).expect(rt, "memory")
        }
    };
    check_eq(rt, lobby.first(), None);
}

fn check_pass<R: Abort + AllocGlobal>(rt: &R) {
    let pass = match Pass::<u32>::new(rt.alloc(), 9) {
        Ok(made) => made,
        Err(refusal) => {
            check_memory(rt, refusal);
            Pass::<u32>::new(rt.alloc(), 9).expect(rt, "memory")
        }
    };
    check_eq(rt, pass.hosts(), 9);
    pass.discard();
}

#[test]
fn want_of_memory_refuses_what_one_thread_counts(rt: HostRuntime) {
    check_plain_budget(&rt, Limits::new(1, 2, 3).expect(&rt, "limits"));
    check_lobby(&rt);
    check_pass(&rt);
}

fn check_words<R: Abort + AllocGlobal>(rt: &R, limits: Limits) {
    let (budget, seat): (WordBudget<()>, BudgetSeat<()>) = match WordBudget::new(
        rt.alloc(),
        limits,
    ) {
        Ok(made) => made,
        Err(refusal) => {
            check_memory(rt, refusal);
            WordBudget::new(rt.alloc(), limits).expect(rt, "memory")
        }
    };
    check_eq(rt, budget.seen(&seat), Seen { total: 0, kept: 0 });
}

fn check_link<R: Abort + AllocGlobal>(rt: &R) {
    if let Err(refusal) = Link::new(rt.alloc()) {
        check_memory(rt, refusal);
        let _made = Link::new(rt.alloc()).expect(rt, "memory");
    }
}

fn check_tally<R: Abort + AllocGlobal>(rt: &R) {
    let mut tally = match Tally::new(rt.alloc()) {
        Ok(made) => made,
        Err(refusal) => {
            check_memory(rt, refusal);
            Tally::new(rt.alloc()).expect(rt, "memory")
        }
    };
    check_eq(rt, tally.load(), 0);
}

// To mark a lease, and to clear it, takes no memory.
fn check_holders<R: Abort + AllocGlobal>(rt: &R) {
    let mut holders = match Holders::new(rt.alloc()) {
        Ok(made) => made,
        Err(refusal) => {
            check_memory(rt, refusal);
            Holders::new(rt.alloc()).expect(rt, "memory")
        }
    };
    holders.mark(1, 10);
    let lease = holders.split(1, 10);
    holders.join(lease);
    holders.clear();
    check_eq(rt, holders.load(), 0);
}

#[test]
fn want_of_memory_refuses_what_threads_share(rt: HostRuntime) {
    check_words(&rt, Limits::new(1, 2, 3).expect(&rt, "limits"));
    check_link(&rt);
    check_tally(&rt);
    check_holders(&rt);
}

// A counter of two jobs, with its first seat. Where memory runs out the call comes again.
fn new_claim(rt: &impl Abort, alloc: Global) -> (JobCounter, JobSeat)
    ensures seat { result.1 ≡ first_seat result.0 }
{
    match JobCounter::new(alloc, 2) {
        Ok(made) => made,
        Err(_) => JobCounter::new(alloc, 2).expect(rt, "a claim"),
    }
}

// Draws, and expects that job.
fn draw_job(rt: &impl Abort, claim: &JobCounter, seat: &mut JobSeat, job: u64)
    requires claim { seat.old.claim ≡ claim.now }
    requires not_past { seat.old.past ≡ 0 }
    ensures { seat.new ≡ record seat.old { drawn = seat.old.drawn ++ job ∷ [] } }
{
    match claim.draw(seat) {
        Some(number) if number == job => {}
        other => panic!(rt; "{other:?} in place of {job}"),
    }
}

// Whichever allocation fails: a claim that is refused comes when it is asked for again, and to draw
// takes no memory.
#[test]
fn want_of_memory_refuses_a_claim(rt: HostRuntime) {
    let (claim, mut seat) = new_claim(&rt, rt.alloc());
    draw_job(&rt, &claim, &mut seat, 0);
    draw_job(&rt, &claim, &mut seat, 1);
    if let Some(number) = claim.draw(&mut seat) {
        panic!(rt; "{number} in place of none");
    }
    check_eq(&rt, claim.load(&mut seat), 2);
}
