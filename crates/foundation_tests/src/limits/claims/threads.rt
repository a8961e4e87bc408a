//! Threads that draw until none is left: together they draw each job once.

ghost use Rattle.std.specs.Prelude.{◌≡◌, ◌+◌, ◌^◌, ◌<◌, []};
ghost use Rattle.std.specs.Thread.{IsSync};
ghost use Rattle.run_loop.specs.Draws.{AreFirst, new_seat};

use crate::checks::check_eq;
use run_loop::{JobCounter, JobSeat};
use std::alloc::Global;
use std::process::Abort;
use std::sync::Wait;
use std::thread::{Threads, join};

const JOBS: u64 = 10_000;

// What a thread drew, in that order, and the seat that it drew with.
struct Hand {
    seat: JobSeat,
    numbers: Vec<u64>,
    ghost drawn: { numbers.items ≡ seat.drawn },
    ghost none_left: { 0 < seat.past },
}

// Draws until none is left.
fn draw_all<R: Wait + Abort>(rt: &R, alloc: Global, claim: &JobCounter, seat: JobSeat) -> Hand
    requires { seat ≡ new_seat claim.now }
    ensures claim { result.seat.claim ≡ seat.claim }
    ensures share { result.seat.share ≡ seat.share }
{
    let mut seat = seat;
    let mut numbers = Vec::new(alloc);
    for _ in rt.forever() {
        let Some(number) = claim.draw(&mut seat) else {
            break;
        };
        if numbers.push(number).is_err() {
            panic!(rt; "no memory");
        }
    }
    Hand { seat, numbers }
}

// Puts together what two threads drew.
fn together<R: Abort>(rt: &R, claim: &JobCounter, one: Hand, other: Hand) -> Hand
    requires one { one.seat.claim ≡ claim.now }
    requires other { other.seat.claim ≡ claim.now }
    ensures claim { result.seat.claim ≡ claim.now }
    ensures share { result.seat.share ≡ one.seat.share + other.seat.share }
{
    let Hand {
        mut seat,
        mut numbers,
    } = one;
    let Hand {
        seat: others_seat,
        numbers: others,
    } = other;
    claim.join(&mut seat, others_seat);
    if numbers.extend_from_slice(others.as_slice()).is_err() {
        panic!(rt; "no memory");
    }
    Hand { seat, numbers }
}

// Two threads draw.
fn draw_by_two<R: Threads + Wait + Abort + Sync>(
    rt: &R,
    alloc: Global,
    claim: &JobCounter,
    one: JobSeat,
    two: JobSeat,
) -> Hand
    requires { (one ≡ new_seat claim.now) × (two ≡ new_seat claim.now) }
    ensures claim { result.seat.claim ≡ one.claim }
    ensures share { result.seat.share ≡ one.share + two.share }
{
    let (one, two) = join(
        rt,
        || -> Hand
            requires { IsSync R.row × (one ≡ new_seat claim.now) }
            ensures { (result.seat.claim ≡ one.claim) × (result.seat.share ≡ one.share) }
        { draw_all(rt, alloc, claim, one) },
        || -> Hand
            requires { IsSync R.row × (two ≡ new_seat claim.now) }
            ensures { (result.seat.claim ≡ two.claim) × (result.seat.share ≡ two.share) }
        { draw_all(rt, alloc, claim, two) },
    );
    together(rt, claim, one, two)
}

// What four threads draw of so many jobs: the number of each job once.
fn draw_by_four<R: Threads + Wait + Abort + Sync>(rt: &R, alloc: Global, jobs: u64) -> Vec<u64>
    requires { jobs < 2 ^ 63 }
    ensures { AreFirst jobs result.items }
{
    let (claim, mut seat) = JobCounter::new(alloc, jobs).expect(rt, "a claim");
    let a = claim.split(&mut seat);
    let b = claim.split(&mut seat);
    let c = claim.split(&mut seat);
    let d = claim.split(&mut seat);
    let shared = &claim;
    let (first, second) = join(
        rt,
        || -> Hand
            requires pair { IsSync R.row × (a ≡ new_seat shared.now) × (b ≡ new_seat shared.now) }
            ensures claim { result.seat.claim ≡ a.claim }
            ensures share { result.seat.share ≡ a.share + b.share }
        { draw_by_two(rt, alloc, shared, a, b) },
        || -> Hand
            requires pair { IsSync R.row × (c ≡ new_seat shared.now) × (d ≡ new_seat shared.now) }
            ensures claim { result.seat.claim ≡ c.claim }
            ensures share { result.seat.share ≡ c.share + d.share }
        { draw_by_two(rt, alloc, shared, c, d) },
    );
    let Hand { seat: all, numbers } = together(rt, shared, first, second);
    claim.join(&mut seat, all);
    let count = claim.load(&mut seat);
    check_eq(rt, count, jobs);
    numbers
}

#[test]
fn four_threads_draw_each_job_once(rt: HostRuntime) {
    let mut numbers = draw_by_four(&rt, rt.alloc(), JOBS);
    check_eq(&rt, numbers.len() as u64, JOBS);
    if numbers.sort().is_err() {
        panic!(rt; "no memory");
    }
    for place in 0..numbers.len() {
        check_eq(&rt, numbers[place], place as u64);
    }
}

#[test]
fn four_threads_draw_nothing_where_there_is_none(rt: HostRuntime) {
    let numbers = draw_by_four(&rt, rt.alloc(), 0);
    assert!(rt; numbers.is_empty());
}
