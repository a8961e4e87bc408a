//! How an exchange over a desk is prepared and polled, and a connection given up.

ghost use Rattle.cache_trait.specs.Homes.{IsMadeBy};
ghost use Rattle.exchange.specs.Answers.{IsUnused};

use crate::desks::connections::NOW;
use crate::making::WANT;
use bundle::Lease;
use cache_trait::Cache;
use conn_key::{CountedMemory, read_target};
use exchange::{Done, Exchange, Job, Prepared};
use exchange_memory::{FixedClock, MemoryDial, MemoryWire};
use futures::task::{Doorbell, Solo};
use persistence::Method;
use shared_cache::{Desk, Names};
use std::alloc::AllocGlobal;
use std::process::Abort;
use std::random::RandomSource;
use std::sync::Wait;

/// More polls than any exchange here takes.
const MOST_POLLS: u32 = 1_000;

/// A GET from the first host, with the memory for it.
pub(crate) fn prepared<R: Abort + AllocGlobal>(rt: &R) -> Prepared
    ensures { IsUnused result }
{
    let mut memory = CountedMemory::new(rt.alloc());
    let target = read_target(&mut memory, "http://example.com/").expect(rt, "a target");
    let job = Job {
        site: 0,
        want: WANT,
        method: Method::Get,
        target,
    };
    Prepared::new(rt.alloc(), &job).expect(rt, "memory")
}

/// Polls an exchange over that desk until it is ready: how it ended. One that does not end is
/// cancelled.
pub(crate) fn run<N: Names, R: Wait + Abort + AllocGlobal + RandomSource>(
    rt: &R,
    desk: &mut Desk<'_, MemoryWire, N, R>,
    dial: &mut MemoryDial,
) -> Done {
    let solo = Solo::new(rt, Doorbell::spinning()).expect(rt, "a task");
    let clock = FixedClock { now: NOW };
    let mut exchange = Exchange::new(prepared(rt), desk, dial, &clock);
    for _ in 0..MOST_POLLS {
        let mut cx = solo.begin();
        let polled = exchange.poll(&mut cx);
        cx.end(&polled);
        if polled.is_ready() {
            break;
        }
    }
    let (done, _, _, _) = exchange.close(NOW);
    done
}

/// Gives that connection up.
pub(crate) fn give_up<N: Names, R: Wait + Abort>(
    rt: &R,
    desk: &mut Desk<'_, MemoryWire, N, R>,
    lease: Lease<MemoryWire>,
    now: u64,
)
    requires { IsMadeBy N.names.hosts lease.site lease.tables }
{
    match Cache::abandon(desk, lease, now) {
        Ok(()) => {}
        Err(_stray) => panic!(rt; "a stranger"),
    }
}
