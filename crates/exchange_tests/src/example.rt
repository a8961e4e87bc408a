//! README's program, over an exchange.

use budget::Limits;
use cache::Pool;
use conn_key::{CountedMemory, read_target};
use conn_log::Want;
use exchange::{Done, Exchange, Job, Prepared};
use exchange_memory::{FixedClock, MemoryDial, MemoryWire};
use futures::task::{Doorbell, Solo};
use persistence::Method;
use std::alloc::AllocGlobal;

/// What the peer answers.
const RESPONSE: &[u8] = b"HTTP/1.1 200 OK\r\nContent-Length: 2\r\n\r\nok";

/// What the transfer wants.
const WANT: Want = Want {
    transfer: 1,
    lane: 0,
    max_age: 118,
    max_life: 0,
    fresh: false,
    forbid_reuse: false,
};

#[test]
fn one_transfer(rt: HostRuntime) {
    let mut memory = CountedMemory::new(rt.alloc());
    let target = read_target(&mut memory, "http://example.com/a?b=1").expect(&rt, "a target");
    let job = Job {
        site: 0,
        want: WANT,
        method: Method::Get,
        target,
    };
    let parts = Prepared::new(rt.alloc(), &job).expect(&rt, "memory");
    // Connections in memory: the peer of the first one that is dialled answers that.
    let wire = MemoryWire::new(rt.alloc(), RESPONSE, 200).expect(&rt, "memory");
    let mut dial = MemoryDial::new(rt.alloc());
    dial.add(wire).expect(&rt, "memory");
    let clock = FixedClock { now: 7 };
    let task = Solo::new(&rt, Doorbell::spinning()).expect(&rt, "a task");
    let limits = Limits::new(6, 20, 4).expect(&rt, "limits");
    let mut pool = Pool::new(rt.alloc(), limits, 1).expect(&rt, "memory");
    let mut exchange = Exchange::new(parts, &mut pool, &mut dial, &clock);
    for _ in 0..100 {
        let mut context = task.begin();
        let polled = exchange.poll(&mut context);
        context.end(&polled);
        if polled.is_ready() {
            break;
        }
        let _ = exchange.turn();
    }
    // It is cancelled here if no poll was ready.
    let (done, _, _, _) = exchange.close(7);
    let Done::Good(answer) = done else {
        panic!(rt; "no response: {done:?}");
    };
    assert_eq!(rt; (answer.status, answer.body_len), (200, 2));
    assert_eq!(rt; pool.look(0).expect(&rt, "a host").idle, 1);
}
