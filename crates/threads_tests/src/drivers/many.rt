//! Runs with many jobs at once.

ghost use Rattle.std.specs.Prelude.{◌≡◌};
ghost use Rattle.std.specs.List.{All};
ghost use Rattle.shared_cache.specs.Passes.{IsPassOf};
ghost use Rattle.driver.specs.ManyWork.{HavePasses};

use crate::drivers::jobs::{SETUP, Setup, dials_of, jobs_of};
use crate::drivers::peers::{Peer, PeerDial, PeerWire};
use crate::drivers::whole::put_by;
use crate::making::{cache_of, gathered_with, pass_of, plan_of, push};
use budget::Pass;
use bundle::Did;
use driver::{DriverFault, Finished, ListedJobs, ManyReport, NotBegun, Tools, run_many};
use exchange::{Clock, Done};
use load_report::totals;
use run_loop::{MicroClock, Results, RunEnd, Span, Timer};
use shared_cache::{Names, Plan, SharedCache};
use std::alloc::{AllocGlobal, Global};
use std::marker::Brand;
use std::process::Abort;
use std::random::RandomSource;
use std::sync::Wait;
use std::thread::Threads;

// How many ended well, and how many otherwise; the sum of the bodies' lengths.
#[derive(Clone, Copy, Debug, PartialEq, Eq, Drop)]
struct Tally {
    good: u64,
    bad: u64,
    bytes: u64,
}

const NOTHING: Tally = Tally {
    good: 0,
    bad: 0,
    bytes: 0,
};

impl Tally {
    fn add(&mut self, other: Tally) {
        self.good = self.good.saturating_add(other.good);
        self.bad = self.bad.saturating_add(other.bad);
        self.bytes = self.bytes.saturating_add(other.bytes);
    }
}

impl Results for Tally {
    ghost use Rattle.std.specs.Prelude.{⊤};

    ghost took = { λ old new number done span. ⊤ };

    fn take(&mut self, _number: u64, done: Done, _span: Span) {
        match done {
            Done::Good(answer) => {
                self.good = self.good.saturating_add(1);
                self.bytes = self.bytes.saturating_add(answer.body_len);
            }
            Done::Bad(_) => self.bad = self.bad.saturating_add(1),
        }
    }
}

// A clock that stands still; whether the run is over from the beginning.
#[derive(Drop)]
struct Standing {
    is_over: bool,
}

impl Clock for Standing {
    ghost use Rattle.std.specs.Prelude.{⊤};

    ghost tells = { λ standing moment. ⊤ };

    fn now(&self) -> u64 {
        7
    }

    fn micros(&self) -> u64 {
        0
    }
}

impl MicroClock for Standing {
    ghost use Rattle.std.specs.Prelude.{⊤};

    ghost tells_micros = { λ clock moment. ⊤ };

    fn moment(&self) -> u64 {
        0
    }
}

impl Timer for Standing {
    ghost use Rattle.std.specs.Prelude.{⊤};

    ghost may_stop = { λ standing job. ⊤ };

    fn stops(&self, _number: u64, _began: u64, _now: u64) -> bool {
        false
    }

    fn is_over(&self) -> bool {
        self.is_over
    }
}

// These dials' turns don't wait.
static ALARMS: [(); 0] = [];

// A run, and what it leaves.
struct Row {
    name: &'static str,
    setup: Setup,
    places: usize,
    is_over: bool,
    end: RunEnd,
    drawn: u64,
    tally: Tally,
}

const ROW: Row = Row {
    name: "two workers, three places, one connection",
    setup: SETUP,
    places: 3,
    is_over: false,
    end: RunEnd::Complete,
    drawn: 20,
    tally: Tally {
        good: 20,
        bad: 0,
        bytes: 0,
    },
};

static ROWS: [Row; 5] = [
    ROW,
    Row {
        name: "each job gets its own answer, at many places",
        setup: Setup {
            workers: 4,
            hosts: 3,
            total: 2,
            jobs: 90,
            for_bytes: true,
            ..SETUP
        },
        places: 64,
        drawn: 90,
        tally: Tally {
            good: 90,
            bad: 0,
            bytes: 4_005,
        },
        ..ROW
    },
    Row {
        name: "each read fails",
        setup: Setup {
            peer: Peer::Breaks,
            ..SETUP
        },
        tally: Tally {
            good: 0,
            bad: 20,
            bytes: 0,
        },
        ..ROW
    },
    Row {
        name: "over at once",
        is_over: true,
        end: RunEnd::Stopped,
        drawn: 0,
        tally: NOTHING,
        ..ROW
    },
    Row {
        name: "a turn fails: the jobs of all places end",
        setup: Setup {
            workers: 1,
            peer: Peer::KeepsSilent,
            fails_turns: true,
            ..SETUP
        },
        end: RunEnd::TurnFailed,
        drawn: 3,
        tally: Tally {
            good: 0,
            bad: 3,
            bytes: 0,
        },
        ..ROW
    },
];

#[test]
fn jobs_of_many_places_have_their_results(rt: HostRuntime) {
    for row in &ROWS {
        let plan = plan_of(&rt, 0, row.setup.total, row.setup.hosts);
        check_row::<Brand, HostRuntime>(&rt, plan, row);
    }
}

// Runs it, and compares what it leaves; nothing is open in the end.
fn check_row<N: Names + Send + Sync, R: Threads + Wait + Abort + RandomSource + AllocGlobal + Sync>(
    rt: &R,
    plan: Plan<PeerWire>,
    row: &Row,
)
    requires { plan ≡ N.names }
{
    let cache = cache_of::<PeerWire, N, R>(rt, plan);
    let jobs = jobs_of(rt, row.setup.jobs, row.setup.hosts, row.setup.for_bytes);
    let source = ListedJobs::new(rt.alloc(), &jobs).expect(rt, "jobs");
    let timer = Standing {
        is_over: row.is_over,
    };
    let tools = tools_of(rt, &row.setup);
    let alloc = rt.alloc();
    let count = row.setup.jobs;
    let name = row.name;
    match run_many(
        rt, alloc, &cache, &source, count, row.places, tools, &ALARMS, &timer,
    ) {
        Ok(report) => {
            let ManyReport {
                end,
                drawn,
                workers,
            } = report;
            assert_eq!(rt; (end, drawn), (row.end, row.drawn), "{name}");
            let (tally, passes) = taken_from::<N, R>(rt, workers);
            assert_eq!(rt; tally, row.tally, "{name}");
            check_balance(rt, cache, passes, name);
        }
        Err(NotBegun { fault, .. }) => panic!(rt; "{name}: {fault:?}"),
    }
}

// Workers and places: no worker, more than a run has, more than there are places.
static BAD: [(u32, usize); 3] = [(0, 4), (65, 100), (3, 2)];

#[test]
fn bad_workers_get_their_tools_back(rt: HostRuntime) {
    for (workers, places) in &BAD {
        let setup = Setup {
            workers: *workers,
            ..SETUP
        };
        let plan = plan_of(&rt, 0, setup.total, setup.hosts);
        check_refused::<Brand, HostRuntime>(&rt, plan, &setup, *places);
    }
}

// The run doesn't begin, and all that was handed in comes back.
fn check_refused<
    N: Names + Send + Sync,
    R: Threads + Wait + Abort + RandomSource + AllocGlobal + Sync,
>(rt: &R, plan: Plan<PeerWire>, setup: &Setup, places: usize)
    requires { plan ≡ N.names }
{
    let cache = cache_of::<PeerWire, N, R>(rt, plan);
    let jobs = jobs_of(rt, setup.jobs, setup.hosts, setup.for_bytes);
    let source = ListedJobs::new(rt.alloc(), &jobs).expect(rt, "jobs");
    let timer = Standing { is_over: false };
    let tools = tools_of(rt, setup);
    let alloc = rt.alloc();
    match run_many(
        rt, alloc, &cache, &source, setup.jobs, places, tools, &ALARMS, &timer,
    ) {
        Ok(_) => panic!(rt; "{places}: it began"),
        Err(
            NotBegun {
                fault,
                tools,
                passes,
            },
        ) => {
            assert_eq!(rt; fault, DriverFault::BadWorkers, "{places}");
            assert_eq!(rt; tools.len(), setup.workers as usize, "{places}");
            check_balance(rt, cache, passes, "refused");
        }
    }
}

// What all workers took, and their passes.
fn taken_from<N: Names, R: Abort + AllocGlobal>(
    rt: &R,
    workers: Vec<Finished<PeerDial, Tally>>,
) -> (Tally, Vec<Pass<Did>>)
    requires { HavePasses N.names workers.items }
    ensures { All (IsPassOf N.names) result.1.items }
{
    let mut workers = workers;
    let mut passes = Vec::new(rt.alloc());
    let mut tally = NOTHING;
    while let Some(last) = workers.pop() {
        let Finished {
            dial: _,
            results,
            pass,
        } = last;
        tally.add(results);
        put_by::<N>(rt, &mut passes, pass);
    }
    workers.destroy_empty();
    (tally, passes)
}

// Closes what is idle, and gathers: nothing may be open.
fn check_balance<N: Names, R: Wait + Abort + AllocGlobal>(
    rt: &R,
    cache: SharedCache<PeerWire, N>,
    passes: Vec<Pass<Did>>,
    name: &str,
)
    requires { All (IsPassOf N.names) passes.items }
{
    let mut passes = passes;
    let mut pass = pass_of(rt, &cache);
    let _closed = cache.prune(rt, 8, 0, 0, &mut pass);
    put_by::<N>(rt, &mut passes, pass);
    let gathered = gathered_with(rt, cache, passes);
    let all = totals(&gathered.hosts);
    let left = (gathered.total, gathered.kept, all.alive);
    assert_eq!(rt; left, (0, 0, 0), "{name}");
    assert_eq!(rt; all.opened, all.closed, "{name}");
}

// A dial and a tally for each worker.
fn tools_of<R: Abort + AllocGlobal>(rt: &R, setup: &Setup) -> Vec<Tools<PeerDial, Tally>> {
    let mut dials = dials_of(rt, setup);
    let mut tools = Vec::new(rt.alloc());
    while let Some(dial) = dials.pop() {
        let results = NOTHING;
        push(rt, &mut tools, Tools { dial, results });
    }
    tools
}
