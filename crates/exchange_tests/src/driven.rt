//! An exchange that an executor drives, and transfers that are polled in turn over one pool.

use crate::checks::check_eq;
use crate::driving::{
    GOOD, KEEP, NOW, OK, check_pool, dial_of, dial_of_two_answers, leased, opened, poll_once,
    pool_of, prepared, prepared_at, returned, waited, want_of, wire_of,
};
use exchange::{Answer, Done, Exchange, Polled, Stage, Transfer};
use exchange_memory::FixedClock;
use futures::executor::block_on;
use futures::task::{Doorbell, Solo};
use persistence::Method;
use std::test::Fail;

#[test]
fn an_executor_drives_an_exchange(rt: HostRuntime) -> Result<(), Fail> {
    // 37 bytes are sent and 40 read, one at a step: more than one poll takes
    let mut wire = wire_of(&rt, OK);
    wire.set_most_written(1);
    wire.set_most_read(1);
    let mut dial = dial_of(&rt, wire);
    let mut pool = pool_of(&rt, 0);
    let clock = FixedClock { now: NOW };
    let mut exchange = Exchange::new(prepared(&rt), &mut pool, &mut dial, &clock);
    let driven = block_on(&rt, Polled::new(&mut exchange));
    let (done, _, _, _) = exchange.close(NOW);
    driven?;
    check_eq(&rt, done, Done::Good(GOOD));
    check_pool(
        &rt,
        &pool,
        &[opened(1, want_of(1), NOW), returned(1, KEEP, NOW)],
    );
    Ok(())
}

#[test]
fn two_transfers_take_turns_at_a_connection(rt: HostRuntime) {
    let mut dial = dial_of_two_answers(&rt);
    let mut pool = pool_of(&rt, 1);
    let solo = Solo::new(&rt, Doorbell::spinning()).expect(&rt, "a task");
    let other = prepared_at(&rt, 0, Method::Get, "http://example.com/b", want_of(2));
    let mut first = Transfer::new(prepared(&rt));
    let mut second = Transfer::new(other);
    let begun = poll_once(&solo, &mut first, &mut pool, &mut dial);
    let waiting = poll_once(&solo, &mut second, &mut pool, &mut dial);
    let stages = (first.waits_on(), second.waits_on());
    let ended = poll_once(&solo, &mut first, &mut pool, &mut dial);
    let granted = poll_once(&solo, &mut second, &mut pool, &mut dial);
    let (one, _) = first.close(NOW, &mut pool, &mut dial);
    let (two, _) = second.close(NOW, &mut pool, &mut dial);
    let reused = Answer {
        reused: true,
        ..GOOD
    };
    check_eq(&rt, (one, two), (Done::Good(GOOD), Done::Good(reused)));
    check_eq(&rt, stages, (Stage::Reading, Stage::Grant));
    // whether each poll was ready, and spent a lease
    check_eq(&rt, (begun, waiting), ((false, false), (false, false)));
    check_eq(&rt, (ended, granted), ((true, true), (true, true)));
    check_pool(
        &rt,
        &pool,
        &[
            opened(1, want_of(1), NOW),
            waited(want_of(2), NOW),
            returned(1, KEEP, NOW),
            leased(1, want_of(2), NOW),
            returned(1, KEEP, NOW),
        ],
    );
}
