//! Jobs that the gate cancels over sockets, whose peer takes connections and never answers: nothing
//! that they held is left.

ghost use Rattle.std.specs.Prelude.{◌≡◌};

use crate::drivers::cancels::{check_cancelled, gate_of};
use crate::drivers::jobs::{JOBS, jobs_of};
use crate::making::{cache_of, gathered_with, plan_of, push};
use driver::{RunReport, run};
use exchange::Done;
use shared_cache::{Gathered, Names, Plan};
use socket::{Addresses, SystemClock, WaitingDial, WaitingWire};
use std::alloc::AllocGlobal;
use std::marker::Brand;
use std::net::{IpAddr, Ipv4Addr, SocketAddr, TcpListener};
use std::process::Abort;
use std::random::RandomSource;
use std::sync::Wait;
use std::thread::Threads;

// A dial whose one site listens at that address.
fn dial_to<'s, R: Abort + AllocGlobal>(
    rt: &R,
    system: &'s HostRuntime,
    site: SocketAddr,
) -> WaitingDial<'s, HostRuntime> {
    let resolved = vec![in rt.alloc(); site; 1].expect(rt, "memory");
    let mut addresses = Addresses::new(rt.alloc());
    addresses.add_resolved(resolved).expect(rt, "memory");
    WaitingDial::new(system, rt.alloc(), addresses).expect(rt, "a dial, and memory for it")
}

// When each job is cancelled, and how much later at most.
struct Row {
    name: &'static str,
    nth: u64,
    later: u64,
    opens_none: bool,
}

static ROWS: [Row; 3] = [
    Row {
        name: "at once",
        nth: 1,
        later: 0,
        opens_none: true,
    },
    Row {
        name: "at the second ask",
        nth: 2,
        later: 0,
        opens_none: false,
    },
    Row {
        name: "at a drawn ask",
        nth: 1,
        later: 7,
        opens_none: false,
    },
];

// How the jobs ended over a cache of that plan, by two workers, and its account.
fn left_by<N: Names + Send + Sync, R: Threads + Wait + Abort + RandomSource + AllocGlobal + Sync>(
    rt: &R,
    system: &HostRuntime,
    plan: Plan<WaitingWire>,
    site: SocketAddr,
    row: &Row,
) -> (Vec<Done>, Gathered<WaitingWire>)
    requires { plan ≡ N.names }
{
    let cache = cache_of::<WaitingWire, N, R>(rt, plan);
    let gate = gate_of(rt, row.nth, row.later);
    let mut dials = Vec::new(rt.alloc());
    for _ in 0..2 {
        push(rt, &mut dials, dial_to(rt, system, site));
    }
    let jobs = jobs_of(rt, JOBS, 1, false);
    let clock = SystemClock::new(system).expect(rt, "a clock");
    match run(rt, rt.alloc(), &cache, &jobs, &mut dials, &clock, &gate) {
        Ok(RunReport { results, passes }) => (results, gathered_with(rt, cache, passes)),
        Err((fault, _passes)) => panic!(rt; "{fault:?}"),
    }
}

#[test]
fn each_job_over_sockets_is_cancelled(rt: HostRuntime) {
    let any_port = SocketAddr::new(IpAddr::V4(Ipv4Addr::LOCALHOST), 0);
    let listener = TcpListener::bind(&rt, any_port).expect(&rt, "memory");
    let site = listener.local_addr().expect(&rt, "memory");
    for row in &ROWS {
        let plan: Plan<WaitingWire> = plan_of(&rt, 0, 1, 1);
        let (results, gathered) = left_by::<Brand, HostRuntime>(&rt, &rt, plan, site, row);
        check_cancelled(&rt, &results, row.name);
        let host = gathered.hosts.first().expect(&rt, "a host");
        let counts = (host.opened == 0, host.opened == host.closed);
        assert_eq!(rt; counts, (row.opens_none, true), "{}", row.name);
        let left = (host.reused, host.alive, gathered.total, gathered.kept);
        assert_eq!(rt; left, (0, 0, 0, 0), "{}", row.name);
    }
}
