//! A thousand transfers at once, over one pool, from a slab.

ghost use Rattle.std.specs.Prelude.{◌≡◌, ⊤};
ghost use Rattle.cache.specs.PoolCalls.{home_of};
ghost use Rattle.exchange.specs.Answers.{IsUnused};
ghost use Rattle.transfer_slab.specs.Slabs.{AreKept};
ghost use Rattle.exchange.specs.Worlds.{world_of};

use crate::checks::check_eq;
use crate::drawn::{DrawnDial, DrawnWire};
use crate::driving::{prepared_at, want_of};
use budget::Limits;
use cache::Pool;
use conn_log::{Event, Log};
use exchange::{Done, Fault, Prepared};
use exchange_memory::FixedClock;
use futures::task::{Doorbell, Poll, Solo};
use persistence::Method;
use std::alloc::AllocGlobal;
use std::process::Abort;
use std::time::Duration;
use transfer_slab::Slab;

const TRANSFERS: u64 = 1_000;

const HOSTS: u32 = 8;

/// More polls between two turns than any run here takes.
const MOST_POLLS: u32 = 2_000;

/// More turns of the dial than any run here takes.
const MOST_TURNS: u32 = 10_000;

// How many transfers ended so.
#[derive(Drop)]
struct Ends {
    good: u64,
    bad: u64,
}

// What a transfer asks of its host: as many bytes as its number.
fn prepared<R: Abort + AllocGlobal>(rt: &R, transfer: u64) -> Prepared
    ensures { IsUnused result }
{
    let site = (transfer % HOSTS as u64) as u32;
    let url = format!(in rt.alloc(); "http://h{site}.example/{transfer}").expect(rt, "memory");
    prepared_at(rt, site, Method::Get, &url, want_of(transfer))
}

impl Ends {
    // Counts one more: a good one has as many bytes as its number.
    fn count<R: Abort>(&mut self, rt: &R, done: Done, transfer: u64) {
        match done {
            Done::Good(answer) => {
                check_eq(rt, (answer.status, answer.body_len), (200, transfer));
                self.good = self.good.saturating_add(1);
            }
            Done::Bad(fault) => {
                let is_drawn = matches!(
                    fault,
                    Fault::Dial | Fault::Read | Fault::Write | Fault::Cut
                );
                assert!(rt; is_drawn, "{transfer}: {fault:?}");
                self.bad = self.bad.saturating_add(1);
            }
        }
    }
}

// How often a log says that a connection was opened, leased and closed.
fn logged<R: Abort>(rt: &R, log: &Log) -> (u64, u64, u64) {
    let (mut opened, mut leased, mut closed) = (0u64, 0u64, 0u64);
    for place in 0..log.len() {
        match log.get(place).expect(rt, "an entry").event {
            Event::Opened { .. } => opened = opened.saturating_add(1),
            Event::Leased { .. } => leased = leased.saturating_add(1),
            Event::Closed { .. } => closed = closed.saturating_add(1),
            _ => {}
        }
    }
    (opened, leased, closed)
}

// Each host's log has to balance: nobody holds a connection or waits, what was opened and not
// closed is idle, and each start was spent.
fn check_accounts<R: Abort>(rt: &R, pool: &Pool<DrawnWire>) {
    for site in 0..HOSTS {
        let counts = pool.look(site).expect(rt, "a host");
        let (opened, leased, closed) = logged(rt, pool.log(site).expect(rt, "a host"));
        let open = opened.saturating_sub(closed);
        let spent = pool.spent(site).expect(rt, "a host");
        check_eq(
            rt,
            (counts.leased, counts.waiting, open, spent),
            (0, 0, counts.idle as u64, opened.saturating_add(leased)),
        );
    }
}

// Polls until none is due, and takes a turn of the dial, unless all have ended.
fn take_turn<R: Abort>(
    rt: &R,
    task: &Solo,
    slab: &mut Slab<DrawnWire>,
    pool: &mut Pool<DrawnWire>,
    dial: &mut DrawnDial,
    clock: FixedClock,
    ends: &mut Ends,
)
    requires kept { AreKept (world_of (λ wire site transfer. ⊤) (λ old new happening. ⊤)
        (λ moment. moment ≡ clock.now)) (home_of pool.old) slab.old.slots }
    ensures kept { AreKept (world_of (λ wire site transfer. ⊤) (λ old new happening. ⊤)
        (λ moment. moment ≡ clock.now)) (home_of pool.new) slab.new.slots }
{
    if slab.is_empty() {
        return;
    }
    let mut context = task.begin();
    for _ in 0..MOST_POLLS {
        if !slab.has_due() {
            break;
        }
        let ended = slab.poll_next(&mut context, pool, dial, &clock);
        if let Some(ended) = ended {
            ends.count(rt, ended.done, ended.parts.transfer());
        }
    }
    let turn: Poll<()> = context.yield_now();
    context.end(&turn);
    let _ = slab.turn(dial, Duration::MAX);
}

#[test]
fn a_thousand_go_on_at_once(rt: HostRuntime) {
    let clock = FixedClock { now: 7 };
    let task = Solo::new(&rt, Doorbell::spinning()).expect(&rt, "a task");
    let mut dial = DrawnDial::new(rt.alloc(), 42);
    let limits = Limits::new(6, 20, 4).expect(&rt, "limits");
    let mut pool = Pool::new(rt.alloc(), limits, HOSTS).expect(&rt, "memory");
    let mut slab = Slab::new(rt.alloc()).expect(&rt, "memory");
    for transfer in 0..TRANSFERS {
        let joined = slab.join(prepared(&rt, transfer), &pool, &clock);
        assert!(rt; joined.is_ok());
    }
    let mut ends = Ends { good: 0, bad: 0 };
    for _ in 0..MOST_TURNS {
        take_turn(
            &rt, &task, &mut slab, &mut pool, &mut dial, clock, &mut ends,
        );
    }
    let left = slab.len();
    slab.close(&mut pool, &mut dial, &clock);
    check_eq(&rt, left, 0);
    check_eq(&rt, ends.good.saturating_add(ends.bad), TRANSFERS);
    assert!(rt;
        ends.good > 800 && ends.bad > 10,
        "{} and {}",
        ends.good,
        ends.bad
    );
    assert!(rt; dial.opened() < TRANSFERS / 2, "{} opened", dial.opened());
    check_accounts(&rt, &pool);
}
