//! Many requests at once over one pool, in one run and in the next.

ghost use Rattle.std.specs.Prelude.{◌<◌, length};
ghost use Rattle.std.specs.List.{All};

use crate::checks::check_eq;
use crate::servers::beside::beside;
use budget::Limits;
use cache::Pool;
use conn_key::{CountedMemory, read_target};
use conn_log::Want;
use exchange::{Clock, Done, Job, Prepared};
use futures::task::{Doorbell, Solo};
use loopback_server::Server;
use persistence::Method;
use run_loop::{Draw, Jobs, MicroClock, Results, RunEnd, RunLoop, Span, Timer};
use socket::{Addresses, PolledDial, PolledWire};
use std::alloc::{AllocGlobal, Global};
use std::io;
use std::random::RandomSource;
use std::sync::Wait;
use std::test::Fail;

/// Jobs that are due at once; each has its place as its number.
#[derive(Drop)]
struct Listed<'a> {
    alloc: Global,
    jobs: &'a [Job],
    other: &'a Job,
    drawn: Vec<u64>,
    ghost below: { All (λ number. number < length drawn.items) drawn.items },
}

impl Jobs for Listed<'_> {
    ghost use Rattle.std.specs.Prelude.{⊤, slice_index_or};

    ghost job_at = { λ listed number. slice_index_or listed.jobs.now number listed.other.now };

    ghost drawn = { λ listed. listed.drawn.items };

    ghost is_over = { λ listed. ⊤ };

    ghost holds_none = { λ listed. ⊤ };

    ghost kept = { λ listed. tt };

    fn draw(&mut self, _now: u64) -> Draw {
        let number = self.drawn.len();
        if number >= self.jobs.len() {
            return Draw::Over;
        }
        let Ok(()) = self.drawn.push(number as u64) else {
            return Draw::Over;
        };
        Draw::Job(number as u64)
    }

    fn draw_early(&mut self) -> Option<u64> {
        None
    }

    fn prepare(&self, number: u64, spare: Option<Prepared>) -> Result<Prepared, Option<Prepared>> {
        let Some(job) = self.jobs.get(number as usize) else {
            return Err(spare);
        };
        if job.want.transfer != number {
            return Err(spare);
        }
        let Some(used) = spare else {
            return Prepared::new(self.alloc, job).map_err(|_| None);
        };
        used.again(job).map_err(|(left, _)| Some(left))
    }
}

/// How often each number had a good result, and how many went over used connections.
#[derive(Drop)]
struct Counts {
    good: [u32; JOBS],
    reused: u32,
}

/// How many jobs there are.
const JOBS: usize = 6;

impl Results for Counts {
    ghost use Rattle.std.specs.Prelude.{⊤};

    ghost took = { λ old new number done span. ⊤ };

    fn take(&mut self, number: u64, done: Done, _span: Span) {
        let Done::Good(answer) = done else {
            return;
        };
        if answer.status != 200 || answer.body_len != 2 {
            return;
        }
        if let Some(count) = self.good.get_mut(number as usize) {
            *count = count.saturating_add(1);
        }
        self.reused = self.reused.saturating_add(answer.reused as u32);
    }
}

/// A clock that stands still, and stops no job.
#[derive(Drop)]
struct Still;

impl Clock for Still {
    ghost use Rattle.std.specs.Prelude.{⊤};

    ghost tells = { λ still moment. ⊤ };

    fn now(&self) -> u64 {
        7
    }

    fn micros(&self) -> u64 {
        0
    }
}

impl MicroClock for Still {
    ghost use Rattle.std.specs.Prelude.{⊤};

    ghost tells_micros = { λ clock moment. ⊤ };

    fn moment(&self) -> u64 {
        0
    }
}

impl Timer for Still {
    ghost may_stop = { λ still number. ⊥ };

    fn stops(&self, _number: u64, _began: u64, _now: u64) -> bool {
        false
    }

    fn is_over(&self) -> bool {
        false
    }
}

// GETs of that port, and its address.
fn plan(rt: &HostRuntime, port: u16) -> Result<(Vec<Job>, Addresses), Fail> {
    let url = format!(in rt.alloc(); "http://127.0.0.1:{port}/a")?;
    let mut addresses = Addresses::new(rt.alloc());
    let mut jobs = Vec::new(rt.alloc());
    for transfer in 0..JOBS as u64 {
        let target = read_target(&mut CountedMemory::new(rt.alloc()), url.as_str())?;
        if addresses.is_empty() {
            addresses.add(&target)?;
        }
        let want = Want::of(transfer);
        jobs.push(Job {
            site: 0,
            want,
            method: Method::Get,
            target,
        })?;
    }
    Ok((jobs, addresses))
}

// Carries out the jobs over that pool, two at once.
fn run_over<R: RandomSource + AllocGlobal + Wait>(
    rt: &R,
    jobs: &[Job],
    pool: &mut Pool<PolledWire>,
    dial: &mut PolledDial<'_, HostRuntime>,
) -> io::Result<(RunEnd, Counts)> {
    let mut counts = Counts {
        good: [0; JOBS],
        reused: 0,
    };
    let Some(other) = jobs.first() else {
        return Ok((RunEnd::Stopped, counts));
    };
    let mut listed = Listed {
        alloc: rt.alloc(),
        jobs,
        other,
        drawn: Vec::new(rt.alloc()),
    };
    let task = Solo::new(rt, Doorbell::spinning())?;
    let places = RunLoop::new(rt.alloc(), 2, 1, task)?;
    let end = places.run(rt, pool, dial, &mut listed, &mut counts, &Still);
    Ok((end, counts))
}

/// How many responses come over used connections in the first run and in the next: the first one
/// opens two connections, and the pool keeps both.
const REUSED: [u32; 2] = [4, 6];

#[test]
fn each_job_has_one_result_and_connections_are_kept(rt: HostRuntime) -> Result<(), Fail> {
    let server = Server::listen(&rt, rt.alloc(), 1)?;
    let (jobs, addresses) = plan(&rt, server.ports()[0])?;
    let limits = Limits::new(0, 0, 4)?;
    let mut pool = Pool::new(rt.alloc(), limits, 1)?;
    let mut dial = PolledDial::new(&rt, rt.alloc(), addresses)?;
    beside(&rt, server, || -> io::Result<()> {
        for &reused in &REUSED {
            let (end, counts) = run_over(&rt, &jobs, &mut pool, &mut dial)?;
            check_eq(&rt, end, RunEnd::Complete);
            check_eq(&rt, counts.good, [1; JOBS]);
            check_eq(&rt, counts.reused, reused);
        }
        Ok(())
    })?;
    Ok(())
}
