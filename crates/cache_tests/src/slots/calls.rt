//! Calls of a pool with slots, step by step.

use crate::checks::check_eq;
use budget::{Limits, Refusal};
use conn_log::Want;
use held_pool::{FeedError, HeldPool, Slot, SlotAnswer, SlotError};
use persistence::{Facts, Fed, Framing, Method, Version};
use std::alloc::AllocGlobal;
use std::process::Abort;

fn want_of(transfer: u64) -> Want {
    Want::of(transfer)
}

/// The facts of a response that lets its connection persist, or that was cut.
fn facts_of(whole: bool) -> Facts {
    Facts {
        version: Version::V11,
        close: false,
        keep_alive: false,
        request_close: false,
        framing: Framing::Counted,
        both_lengths: false,
        upgraded: false,
        whole,
        surplus: false,
    }
}

/// A pool of two hosts with one connection each.
fn pool_of<R: Abort + AllocGlobal>(rt: &R) -> HeldPool {
    let limits = Limits::new(1, 2, 2).expect(rt, "limits");
    HeldPool::new(rt.alloc(), limits, 2).expect(rt, "memory")
}

/// Closes it; whether all tokens were told then but so many, which are told after it.
fn close(held: HeldPool, left: u32) -> bool {
    let (pool, mut closed) = held.close(9);
    drop(pool);
    for _ in 0..left {
        if closed.next().is_none() {
            return false;
        }
    }
    closed.next().is_none()
}

#[test]
fn a_connection_is_reused_with_its_token(rt: HostRuntime) {
    let mut held = pool_of(&rt);
    let (slot, got) = held.acquire(0, want_of(1), 0).expect(&rt, "a lease");
    check_eq(&rt, got, SlotAnswer::New);
    check_eq(
        &rt,
        held.give_back_as(slot, facts_of(true), 1),
        Err(SlotError::Unattached),
    );
    check_eq(&rt, held.attach(rt.alloc(), slot, 77), Ok(()));
    check_eq(
        &rt,
        held.attach(rt.alloc(), slot, 78),
        Err(SlotError::Attached),
    );
    check_eq(&rt, held.claim(slot), Ok(SlotAnswer::Reused(77)));
    check_eq(&rt, held.give_back_as(slot, facts_of(true), 1), Ok(()));
    // A second use of the slot is a stranger's.
    check_eq(
        &rt,
        held.give_back_as(slot, facts_of(true), 1),
        Err(SlotError::Stranger),
    );
    check_eq(&rt, held.abandon(slot, 1), Err(SlotError::Stranger));
    check_eq(&rt, held.claim(slot), Err(SlotError::Stranger));
    let (again, got) = held.acquire(0, want_of(2), 2).expect(&rt, "a lease");
    check_eq(&rt, got, SlotAnswer::Reused(77));
    assert!(rt; again != slot);
    check_eq(&rt, held.next_closed(), None);
    check_eq(&rt, held.give_back_as(again, facts_of(false), 3), Ok(()));
    check_eq(&rt, held.next_closed(), Some(77));
    check_eq(&rt, held.next_closed(), None);
    assert!(rt; close(held, 0));
}

#[test]
fn a_waiter_claims_what_came_back(rt: HostRuntime) {
    let mut held = pool_of(&rt);
    let (first, _) = held.acquire(0, want_of(1), 0).expect(&rt, "a lease");
    check_eq(&rt, held.attach(rt.alloc(), first, 5), Ok(()));
    let (waiter, got) = held.acquire(0, want_of(2), 0).expect(&rt, "a ticket");
    check_eq(&rt, got, SlotAnswer::Wait);
    let (other, got) = held.acquire(0, want_of(3), 0).expect(&rt, "a ticket");
    check_eq(&rt, got, SlotAnswer::Wait);
    check_eq(&rt, held.claim(waiter), Ok(SlotAnswer::Wait));
    check_eq(
        &rt,
        held.give_back_as(waiter, facts_of(true), 1),
        Err(SlotError::Stranger),
    );
    check_eq(&rt, held.withdraw(first, 1), Err(SlotError::Stranger));
    check_eq(&rt, held.give_back_as(first, facts_of(true), 1), Ok(()));
    check_eq(&rt, held.claim(waiter), Ok(SlotAnswer::Reused(5)));
    check_eq(&rt, held.withdraw(other, 2), Ok(()));
    check_eq(&rt, held.withdraw(other, 2), Err(SlotError::Stranger));
    check_eq(&rt, held.abandon(waiter, 2), Ok(()));
    check_eq(&rt, held.next_closed(), Some(5));
    assert!(rt; close(held, 0));
}

#[test]
fn refusals_are_the_pools(rt: HostRuntime) {
    let mut held = pool_of(&rt);
    let (slot, _) = held.acquire(0, want_of(1), 0).expect(&rt, "a lease");
    check_eq(&rt, held.acquire(2, want_of(2), 0), Err(Refusal::BadSite));
    check_eq(
        &rt,
        held.acquire(0, want_of(1), 0),
        Err(Refusal::TransferBusy),
    );
    check_eq(
        &rt,
        held.claim(Slot {
            index: 9,
            generation: 1,
        }),
        Err(SlotError::Stranger),
    );
    check_eq(&rt, held.set_host_limit(0, 2, 1), Ok(()));
    check_eq(&rt, held.attach(rt.alloc(), slot, 8), Ok(()));
    check_eq(&rt, held.look(0).map(|counts| counts.leased), Ok(1));
    check_eq(&rt, held.prune(9, 0, 0), 0);
    check_eq(&rt, held.hosts(), 2);
    // What is leased is abandoned, so that its token is told.
    assert!(rt; close(held, 1));
}

const RESPONSE: &[u8] = b"HTTP/1.1 200 OK\r\nContent-Length: 2\r\n\r\nok";

#[test]
fn a_response_that_was_read_gives_its_lease_back(rt: HostRuntime) {
    let mut held = pool_of(&rt);
    let site = held.site("a.test:80").expect(&rt, "a site");
    check_eq(&rt, held.site("b.test:80"), Ok(1));
    let (slot, _) = held.acquire(site, want_of(1), 0).expect(&rt, "a lease");
    check_eq(&rt, held.site("c.test:80"), Ok(1));
    check_eq(&rt, held.attach(rt.alloc(), slot, 4), Ok(()));
    check_eq(&rt, held.give_back(slot, 1), Err(SlotError::Unread));
    let (waiter, _) = held.acquire(site, want_of(2), 0).expect(&rt, "a ticket");
    check_eq(&rt, held.give_back(waiter, 1), Err(SlotError::Unread));
    check_eq(&rt, held.withdraw(waiter, 1), Ok(()));
    check_eq(&rt, held.feed(slot, RESPONSE), Err(FeedError::NoReader));
    check_eq(
        &rt,
        held.begin_response(rt.alloc(), slot, Method::Get, false),
        Ok(()),
    );
    check_eq(&rt, held.feed(slot, RESPONSE), Ok(Fed::Whole));
    check_eq(
        &rt,
        held.response(slot).map(|told| told.persists),
        Some(true),
    );
    check_eq(&rt, held.give_back(slot, 1), Ok(()));
    check_eq(&rt, held.feed(slot, RESPONSE), Err(FeedError::NoReader));
    assert!(rt; held.response(slot).is_none());
    assert!(rt; !held.end(slot));
    check_eq(&rt, held.give_back(slot, 1), Err(SlotError::Stranger));
    check_eq(&rt, held.look(site).map(|counts| counts.idle), Ok(1));
    assert!(rt; close(held, 1));
}

/// Passes whichever allocation fails: what failed has changed nothing, and works as it is asked
/// again.
#[test]
fn an_allocation_failure_changes_nothing(rt: HostRuntime) {
    let limits = Limits::new(1, 2, 2).expect(&rt, "limits");
    let made = HeldPool::new(rt.alloc(), limits, 2);
    let mut held = match made {
        Ok(held) => held,
        Err(refusal) => {
            check_eq(&rt, refusal, Refusal::Memory);
            HeldPool::new(rt.alloc(), limits, 2).expect(&rt, "memory")
        }
    };
    let got = held.acquire(0, want_of(1), 0);
    let (slot, _) = match got {
        Ok(got) => got,
        Err(refusal) => {
            check_eq(&rt, refusal, Refusal::Memory);
            held.acquire(0, want_of(1), 0).expect(&rt, "memory")
        }
    };
    if held.attach(rt.alloc(), slot, 6).is_err() {
        check_eq(&rt, held.attach(rt.alloc(), slot, 6), Ok(()));
    }
    if held
        .begin_response(rt.alloc(), slot, Method::Get, false)
        .is_err()
    {
        let again = held.begin_response(rt.alloc(), slot, Method::Get, false);
        check_eq(&rt, again, Ok(()));
    }
    check_eq(&rt, held.feed(slot, RESPONSE), Ok(Fed::Whole));
    check_eq(&rt, held.give_back(slot, 1), Ok(()));
    assert!(rt; close(held, 1));
}

#[test]
fn waiters_are_told_in_their_order(rt: HostRuntime) {
    let mut held = pool_of(&rt);
    let (first, _) = held.acquire(0, want_of(1), 0).expect(&rt, "a lease");
    check_eq(&rt, held.attach(rt.alloc(), first, 5), Ok(()));
    let (second, _) = held.acquire(0, want_of(2), 0).expect(&rt, "a ticket");
    let (third, _) = held.acquire(0, want_of(3), 0).expect(&rt, "a ticket");
    let (fourth, _) = held.acquire(0, want_of(4), 0).expect(&rt, "a ticket");
    check_eq(&rt, held.granted(), None);
    check_eq(&rt, held.give_back_as(first, facts_of(true), 1), Ok(()));
    check_eq(&rt, held.granted(), Some(second));
    check_eq(&rt, held.granted(), None);
    check_eq(&rt, held.claim(second), Ok(SlotAnswer::Reused(5)));
    // One that withdraws, or claims by itself, is not told.
    check_eq(&rt, held.withdraw(third, 1), Ok(()));
    check_eq(&rt, held.granted(), None);
    check_eq(&rt, held.abandon(second, 2), Ok(()));
    check_eq(&rt, held.claim(fourth), Ok(SlotAnswer::New));
    check_eq(&rt, held.granted(), None);
    check_eq(&rt, held.abandon(fourth, 2), Ok(()));
    check_eq(&rt, held.next_closed(), Some(5));
    assert!(rt; close(held, 0));
}

#[test]
fn waiters_of_each_site_are_told(rt: HostRuntime) {
    let limits = Limits::new(2, 2, 2).expect(&rt, "limits");
    let mut held = HeldPool::new(rt.alloc(), limits, 3).expect(&rt, "memory");
    let (first, _) = held.acquire(0, want_of(1), 0).expect(&rt, "a lease");
    let (second, _) = held.acquire(0, want_of(2), 0).expect(&rt, "a lease");
    // The total is at its limit: the others wait for turns.
    let (third, got) = held.acquire(1, want_of(3), 0).expect(&rt, "a ticket");
    check_eq(&rt, got, SlotAnswer::Wait);
    let (fourth, got) = held.acquire(2, want_of(4), 0).expect(&rt, "a ticket");
    check_eq(&rt, got, SlotAnswer::Wait);
    check_eq(&rt, held.abandon(first, 1), Ok(()));
    check_eq(&rt, held.abandon(second, 1), Ok(()));
    // Each of them is told once.
    assert!(rt; held.granted().is_some());
    assert!(rt; held.granted().is_some());
    assert!(rt; held.granted().is_none());
    assert!(rt; held.claim(third) == Ok(SlotAnswer::New));
    assert!(rt; held.claim(fourth) == Ok(SlotAnswer::New));
    check_eq(&rt, held.counts(0).expect(&rt, "counts").opened, 2);
    assert!(rt; held.counts(3).is_err());
    let part = held.cut(0).expect(&rt, "memory");
    check_eq(&rt, part.len(), 4);
    check_eq(&rt, held.counts(0).expect(&rt, "counts").closed, 2);
    assert!(rt; close(held, 0));
}
