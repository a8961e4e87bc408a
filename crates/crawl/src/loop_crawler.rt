//! Runs the jobs of a crawl in a loop, over any cache, dial and clock.

ghost use Rattle.std.specs.Prelude.{◌≡◌, [], IfOk};

use crate::crawler::{Crawler, Signals};
use crate::fault::NetworkFault;
use crate::host_cache::{HostCache, HostDial};
use crate::jobs::BatchJobs;
use crate::timer::CrawlTimer;
use commands::CrawlOptions;
use conn_key::{Places, Target};
use conn_log::Want;
use exchange::{Job, Wire};
use futures::task::Solo;
use persistence::Method;
use run_loop::{MicroClock, Results, RunEnd, RunLoop, Until};
use std::alloc::{AllocError, AllocGlobal, Global};
use std::net::SocketAddr;
use std::sync::Wait;
use std::sync::atomic::{AtomicBool, Ordering};

/// Number of microseconds in a second.
const MICROS: u64 = 1_000_000;

/// Number of jobs after which logs are cut.
const JOBS_BETWEEN_CUTS: usize = 1_024;

/// A cache, the dial that opens its connections, a clock, and the loop of the transfers in flight.
/// The caller must call `finish`.
pub struct LoopCrawler<
    'a,
    H: Wait,
    W: Wire,
    K: HostCache<W> + Drop,
    D: HostDial<W> + Drop,
    C: MicroClock + Drop,
> {
    waits: &'a H,
    alloc: Global,
    cache: K,
    dial: D,
    clock: C,
    run: RunLoop<W>,
    // The time limit of a transfer, in microseconds.
    limit: u64,
    // Number of wake-ups for news from outside.
    wakeups: u64,
    // Number of jobs since the logs were cut.
    uncut: usize,
    // A job that never runs.
    no_job: Job,
}

impl<
    'a,
    H: Wait + AllocGlobal,
    W: Wire,
    K: HostCache<W> + Drop,
    D: HostDial<W> + Drop,
    C: MicroClock + Drop,
> LoopCrawler<'a, H, W, K, D, C> {
    ghost use Rattle.exchange.specs.Worlds.{world_of};
    ghost use Rattle.crawl.specs.Alone.{CanGoOn};

    /// Makes a crawler over that cache, dial and clock, whose loop is polled by `task`, with the
    /// time limit and the number of transfers in flight of these options.
    ///
    /// # Errors
    ///
    /// There is no memory for it.
    pub fn new(
        waits: &'a H,
        options: CrawlOptions,
        cache: K,
        dial: D,
        clock: C,
        task: Solo,
    ) -> Result<Self, AllocError>
        ensures can_go_on { IfOk result (λ crawler. CanGoOn (world_of W.untouched W.happened
            (C.tells crawler.clock)) (C.tells_micros crawler.clock) (K.home crawler.cache)
            crawler.run.slab.slots crawler.run.begins.moments.items) }
    {
        let alloc = waits.alloc();
        let hosts = cache.hosts() as usize;
        let run = RunLoop::new(alloc, options.parallel as usize, hosts, task)?;
        Ok(LoopCrawler {
            waits,
            alloc,
            cache,
            dial,
            clock,
            run,
            limit: (options.timeout as u64).saturating_mul(MICROS),
            wakeups: 0,
            uncut: 0,
            no_job: no_job(alloc),
        })
    }
}

// Makes a job of no host.
fn no_job(alloc: Global) -> Job {
    Job {
        site: 0,
        want: Want {
            transfer: 0,
            max_age: 0,
            max_life: 0,
            lane: 0,
            fresh: false,
            forbid_reuse: false,
        },
        method: Method::Get,
        target: Target {
            host: String::new(alloc),
            port: 0,
            path: String::new(alloc),
        },
    }
}

// Cuts the logs of a cache, if many jobs were begun since. Returns how many jobs were begun since
// the logs were cut: `uncut`, or none.
fn cut_if_due<W: Wire, K: HostCache<W>>(cache: &mut K, uncut: usize) -> usize
    ensures { K.home cache.new ≡ K.home cache.old }
{
    if uncut < JOBS_BETWEEN_CUTS {
        return uncut;
    }
    cache.cut();
    0
}

// Returns the fault of a run, if a fault ended it.
fn ended_by(end: RunEnd) -> Result<(), NetworkFault> {
    if end.is_fault() {
        Err(NetworkFault::Poll)
    } else {
        Ok(())
    }
}

impl<H: Wait, W: Wire, K: HostCache<W> + Drop, D: HostDial<W> + Drop, C: MicroClock + Drop> Places
    for LoopCrawler<'_, H, W, K, D, C> {
    ghost unused = { λ crawler place. K.unused crawler.cache place };

    fn is_unused(&self, place: u32) -> bool {
        self.cache.is_unused(place)
    }
}

impl<H: Wait, W: Wire, K: HostCache<W> + Drop, D: HostDial<W> + Drop, C: MicroClock + Drop> Crawler
    for LoopCrawler<'_, H, W, K, D, C> {
    ghost use Rattle.exchange.specs.Worlds.{world_of};
    ghost use Rattle.crawl.specs.Alone.{CanGoOn, RanAlone};

    ghost can_go_on = { λ crawler. CanGoOn (world_of W.untouched W.happened (C.tells crawler.clock))
        (C.tells_micros crawler.clock) (K.home crawler.cache) crawler.run.slab.slots
        crawler.run.begins.moments.items };

    ghost dials = { λ crawler place addresses. D.dials crawler.dial place addresses };

    ghost crawled = { λ old new jobs results. RanAlone K.did (world_of W.untouched W.happened
        (C.tells old.clock)) old.no_job old.cache old.run.slab.slots new.run.slab.slots jobs
        results };

    ghost finished = { λ crawler results. RanAlone K.did (world_of W.untouched W.happened
        (C.tells crawler.clock)) crawler.no_job crawler.cache crawler.run.slab.slots [] []
        results };

    fn set_host(&mut self, place: u32, addresses: Vec<SocketAddr>) -> Result<(), AllocError> {
        self.dial.set_host(self.alloc, place, addresses)
    }

    fn prune(&mut self) {
        let now = self.clock.now();
        self.cache.prune(now);
    }

    fn crawl<R: Results, S: Signals>(
        &mut self,
        jobs: &[Job],
        until: Until,
        results: &mut R,
        signals: &S,
    ) -> Result<(), NetworkFault> {
        let Some(mut drawn) = BatchJobs::new(self.alloc, jobs, &self.no_job) else {
            return Err(NetworkFault::Memory);
        };
        let has_woken = AtomicBool::new(false);
        let timer = CrawlTimer {
            clock: &self.clock,
            limit: self.limit,
            wakeups: self.wakeups,
            has_woken: &has_woken,
            signals,
        };
        let end = self.run.run_on(
            until,
            self.waits,
            &mut self.cache,
            &mut self.dial,
            &mut drawn,
            results,
            &timer,
        );
        let more = has_woken.load(Ordering::SeqCst) as u64;
        self.wakeups = self.wakeups.saturating_add(more);
        let uncut = self.uncut.saturating_add(jobs.len());
        self.uncut = cut_if_due::<W, K>(&mut self.cache, uncut);
        ended_by(end)
    }

    fn finish<R: Results, S: Signals>(
        self,
        results: &mut R,
        signals: &S,
    ) -> Result<(), NetworkFault> {
        let LoopCrawler {
            waits,
            alloc,
            mut cache,
            mut dial,
            clock,
            run,
            limit,
            wakeups,
            uncut: _,
            no_job,
        } = self;
        let mut drawn = BatchJobs::none(alloc, &no_job);
        let has_woken = AtomicBool::new(false);
        let timer = CrawlTimer {
            clock: &clock,
            limit,
            wakeups,
            has_woken: &has_woken,
            signals,
        };
        let end = run.finish(waits, &mut cache, &mut dial, &mut drawn, results, &timer);
        ended_by(end)
    }
}
