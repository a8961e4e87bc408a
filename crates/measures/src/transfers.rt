//! What a transfer costs: requests go over connections that answer each at once.

ghost use Rattle.std.specs.Prelude.{◌<◌, length, ⊤};
ghost use Rattle.cache.specs.PoolCalls.{home_of};
ghost use Rattle.exchange.specs.Answers.{IsUnused};
ghost use Rattle.transfer_slab.specs.Slabs.{AreKept};
ghost use Rattle.measures.specs.Told.{all_told};

use crate::counts::{Counts, MeasureError};
use crate::endless::{EndlessDial, EndlessWire};
use crate::words::{next_choice, next_number};
use budget::Limits;
use cache::Pool;
use conn_key::{CountedMemory, read_target};
use conn_log::Want;
use exchange::{Clock, Done, Job, Prepared, Transfer};
use futures::task::{Doorbell, Poll, Solo};
use persistence::Method;
use std::alloc::{AllocGlobal, Global};
use std::env::Args;
use std::random::RandomSource;
use transfer_slab::{Ended, Slab};

/// The word for transfers alone, one after the other, or while others wait.
static FORMS: [(&str, bool); 2] = [("transfers", false), ("waiting", true)];

/// The moment of all that is done.
const NOW: u64 = 7;

/// A clock that stands still.
struct Still;

impl Clock for Still {
    ghost tells = { λ clock moment. ⊤ };

    fn now(&self) -> u64 {
        NOW
    }

    fn micros(&self) -> u64 {
        0
    }
}

// What a transfer asks of the one host.
fn job(alloc: Global, transfer: u64) -> Option<Job> {
    let mut memory = CountedMemory::new(alloc);
    let target = read_target(&mut memory, "http://example.com/a?b=1").ok()?;
    Some(Job {
        site: 0,
        want: Want::of(transfer),
        method: Method::Get,
        target,
    })
}

// What rounds are made with: a task, a pool of one host, and a job there.
fn world_of<R: RandomSource + AllocGlobal>(
    rt: &R,
    alloc: Global,
    host: u32,
    total: u32,
) -> Option<(Solo, Pool<EndlessWire>, Job)> {
    let limits = Limits::new(host, total, 4).ok()?;
    let job = job(alloc, 1)?;
    let pool = Pool::new(alloc, limits, 1).ok()?;
    let task = Solo::new(rt, Doorbell::spinning()).ok()?;
    Some((task, pool, job))
}

// One transfer, which one poll brings to its end: how, and what was prepared.
fn transfer(
    task: &Solo,
    parts: Prepared,
    pool: &mut Pool<EndlessWire>,
    dial: &mut EndlessDial,
) -> (Done, Prepared)
    requires unused { IsUnused parts }
    ensures room { 0 < length result.1.buffer.items }
{
    let mut transfer = Transfer::new(parts);
    let mut context = task.begin();
    let polled = transfer.poll(&mut context, pool, dial, &Still);
    context.end(&polled);
    transfer.close(NOW, pool, dial)
}

// So many transfers, one after the other, over one connection, each prepared in the memory of the
// one before it; how many were good. `None` where memory is short.
fn in_turn<R: RandomSource + AllocGlobal>(
    rt: &R,
    alloc: Global,
    dial: &mut EndlessDial,
    count: u32,
) -> Option<u32> {
    let (task, mut pool, job) = world_of(rt, alloc, 6, 20)?;
    let mut parts = Prepared::new(alloc, &job).ok()?;
    let mut good: u32 = 0;
    for _ in 0..count {
        let (done, used) = transfer(&task, parts, &mut pool, dial);
        good = good.saturating_add(matches!(done, Done::Good(_)) as u32);
        parts = used.again(&job).ok()?;
    }
    Some(good)
}

// So many transfers join, whose numbers are the first ones; whether all did.
fn all_join(
    alloc: Global,
    slab: &mut Slab<EndlessWire>,
    pool: &Pool<EndlessWire>,
    job: &mut Job,
    count: u32,
) -> bool
    requires kept { AreKept all_told (home_of pool.now) slab.old.slots }
    ensures kept { AreKept all_told (home_of pool.now) slab.new.slots }
{
    for transfer in 0..count {
        job.want.transfer = transfer as u64;
        let Ok(parts) = Prepared::new(alloc, job) else {
            return false;
        };
        if slab.join(parts, pool, &Still).is_err() {
            return false;
        }
    }
    true
}

// The transfer that has ended joins once more; whether it did.
fn joins_again(
    slab: &mut Slab<EndlessWire>,
    pool: &Pool<EndlessWire>,
    job: &mut Job,
    used: Prepared,
) -> bool
    requires room { 0 < length used.buffer.items }
    requires kept { AreKept all_told (home_of pool.now) slab.old.slots }
    ensures kept { AreKept all_told (home_of pool.now) slab.new.slots }
{
    job.want.transfer = used.transfer();
    match used.again(job) {
        Ok(parts) => slab.join(parts, pool, &Still).is_ok(),
        Err(_) => false,
    }
}

// Transfers end, so many, at a host that may have one connection, while so many others wait for it;
// each joins again as the last one. How many were good; `None` where memory is short.
fn waiting<R: RandomSource + AllocGlobal>(
    rt: &R,
    alloc: Global,
    dial: &mut EndlessDial,
    others: u32,
    ends: u32,
) -> Option<u32> {
    let (task, mut pool, mut job) = world_of(rt, alloc, 1, 0)?;
    let Ok(mut slab) = Slab::new(alloc) else {
        return None;
    };
    let mut goes_on = all_join(alloc, &mut slab, &pool, &mut job, others.saturating_add(1));
    let mut good: u32 = 0;
    let mut context = task.begin();
    for _ in 0..ends.saturating_mul(4) {
        if !goes_on || good == ends {
            break;
        }
        if let Some(ended) = slab.poll_next(&mut context, &mut pool, dial, &Still) {
            let Ended {
                place: _,
                done,
                parts: used,
                phases: _,
                reason: _,
            } = ended;
            good = good.saturating_add(matches!(done, Done::Good(_)) as u32);
            goes_on = joins_again(&mut slab, &pool, &mut job, used);
        }
    }
    let turn: Poll<()> = context.yield_now();
    context.end(&turn);
    slab.close(&mut pool, dial, &Still);
    if goes_on { Some(good) } else { None }
}

/// Measures what the words name, and counts the transfers and their connections.
pub(crate) fn counted<R: RandomSource + AllocGlobal>(
    rt: &R,
    alloc: Global,
    words: &mut Args,
) -> Result<Counts, MeasureError> {
    let has_waiters = next_choice(words, &FORMS)?;
    let others = if has_waiters { next_number(words)? } else { 0 };
    let count = next_number(words)?;
    let mut dial = EndlessDial::new();
    let good = if has_waiters {
        waiting(rt, alloc, &mut dial, others, count)
    } else {
        in_turn(rt, alloc, &mut dial, count)
    };
    match good {
        Some(good) => Ok(Counts::Connections {
            rounds: u64::from(good),
            kind: "good",
            opened: dial.opened(),
        }),
        None => Err(MeasureError::Memory),
    }
}
