//! What one thread draws, with values from the rules: the first number is 0, and each draw takes
//! the next one, whichever seat draws.

ghost use Rattle.std.specs.Prelude.{◌≡◌, ◌+◌, ◌^◌, ◌<◌, ◌++◌, ◌∷◌, []};
ghost use Rattle.budget.specs.Words.{whole};
ghost use Rattle.run_loop.specs.Draws.{first_seat};

use crate::checks::check_eq;
use run_loop::{JobCounter, JobSeat};
use std::alloc::Global;
use std::process::Abort;

// A claim of so many jobs, with its first seat. Where memory runs out the call comes again.
fn new_claim(rt: &impl Abort, alloc: Global, jobs: u64) -> (JobCounter, JobSeat)
    requires { jobs < 2 ^ 63 }
    ensures jobs { result.0.jobs ≡ jobs }
    ensures seat { result.1 ≡ first_seat result.0 }
{
    match JobCounter::new(alloc, jobs) {
        Ok(made) => made,
        Err(_) => JobCounter::new(alloc, jobs).expect(rt, "a claim"),
    }
}

// Draws, and expects that job.
fn draw_job(rt: &impl Abort, claim: &JobCounter, seat: &mut JobSeat, job: u64)
    requires claim { seat.old.claim ≡ claim.now }
    requires not_past { seat.old.past ≡ 0 }
    ensures { seat.new ≡ record seat.old { drawn = seat.old.drawn ++ job ∷ [] } }
{
    match claim.draw(seat) {
        Some(number) if number == job => {}
        other => panic!(rt; "{other:?} in place of {job}"),
    }
}

// Draws, and expects that no job is left.
fn draw_nothing(rt: &impl Abort, claim: &JobCounter, seat: &mut JobSeat)
    requires claim { seat.old.claim ≡ claim.now }
    requires not_past { seat.old.past ≡ 0 }
    ensures { seat.new ≡ record seat.old { past = seat.old.past + 1 } }
{
    if let Some(number) = claim.draw(seat) {
        panic!(rt; "{number} in place of none");
    }
}

// So many jobs have to have been drawn.
fn check_drawn(rt: &impl Abort, claim: &JobCounter, seat: &mut JobSeat, jobs: u64)
    requires claim { seat.old.claim ≡ claim.now }
    requires whole { seat.old.share ≡ whole }
    ensures { seat.new ≡ seat.old }
{
    check_eq(rt, claim.load(seat), jobs);
}

#[test]
fn no_job_is_drawn_where_there_is_none(rt: HostRuntime) {
    let (claim, mut seat) = new_claim(&rt, rt.alloc(), 0);
    draw_nothing(&rt, &claim, &mut seat);
    check_drawn(&rt, &claim, &mut seat, 0);
}

#[test]
fn one_job_is_drawn_once(rt: HostRuntime) {
    let (claim, mut seat) = new_claim(&rt, rt.alloc(), 1);
    draw_job(&rt, &claim, &mut seat, 0);
    draw_nothing(&rt, &claim, &mut seat);
    check_drawn(&rt, &claim, &mut seat, 1);
}

#[test]
fn two_seats_draw_three_jobs(rt: HostRuntime) {
    let (claim, mut a) = new_claim(&rt, rt.alloc(), 3);
    let mut b = claim.split(&mut a);
    draw_job(&rt, &claim, &mut a, 0);
    draw_job(&rt, &claim, &mut b, 1);
    draw_job(&rt, &claim, &mut a, 2);
    draw_nothing(&rt, &claim, &mut b);
    draw_nothing(&rt, &claim, &mut a);
    claim.join(&mut a, b);
    check_drawn(&rt, &claim, &mut a, 3);
}

#[test]
fn jobs_that_were_not_drawn_are_not_counted(rt: HostRuntime) {
    let (claim, mut a) = new_claim(&rt, rt.alloc(), 3);
    let mut b = claim.split(&mut a);
    draw_job(&rt, &claim, &mut b, 0);
    claim.join(&mut a, b);
    check_drawn(&rt, &claim, &mut a, 1);
    draw_job(&rt, &claim, &mut a, 1);
    draw_job(&rt, &claim, &mut a, 2);
    draw_nothing(&rt, &claim, &mut a);
    check_drawn(&rt, &claim, &mut a, 3);
}
