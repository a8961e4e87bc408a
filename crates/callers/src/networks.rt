//! Calls of dials over sockets, and of a client over one.

use crate::checks::check_eq;
use budget::Limits;
use cache::Pool;
use client::Client;
use conn_key::Target;
use conn_log::Want;
use exchange::{Done, Fault, Job};
use persistence::Method;
use socket::{Addresses, PolledDial, SystemClock, WaitingDial};
use std::time::Duration;

#[test]
fn a_new_dial_has_counted_nothing(rt: HostRuntime) {
    let addresses = Addresses::new(rt.alloc());
    let waiting = WaitingDial::new(&rt, rt.alloc(), addresses).expect(&rt, "a dial");
    check_eq(&rt, (waiting.opened(), waiting.failures()), (0, 0));
    let addresses = Addresses::new(rt.alloc());
    let polled = PolledDial::new(&rt, rt.alloc(), addresses).expect(&rt, "a dial");
    check_eq(&rt, (polled.opened(), polled.failures()), (0, 0));
}

#[test]
fn a_client_without_addresses_cannot_connect(rt: HostRuntime) {
    let alloc = rt.alloc();
    let limits = Limits::new(0, 0, 4).expect(&rt, "limits");
    let pool = Pool::new(alloc, limits, 1).expect(&rt, "a pool");
    let dial = WaitingDial::new(&rt, alloc, Addresses::new(alloc)).expect(&rt, "a dial");
    let clock = SystemClock::or_still(&rt);
    let mut client = Client::new(&rt, alloc, pool, dial, clock).expect(&rt, "a client");
    let job = Job {
        site: 0,
        want: Want::of(1),
        method: Method::Get,
        target: Target {
            host: String::new(alloc),
            port: 80,
            path: String::new(alloc),
        },
    };
    let fetched = client.fetch(&job, Duration::from_secs(1));
    check_eq(
        &rt,
        (fetched.done, fetched.retried),
        (Done::Bad(Fault::Dial), false),
    );
    check_eq(&rt, client.dial().failures(), 1);
    check_eq(&rt, client.pool().hosts(), 1);
}
