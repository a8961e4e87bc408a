//! A crawler without a network: the path of a URL gives the result of its transfer.

ghost use Rattle.std.specs.Prelude.{⊤, true};
ghost use Rattle.crawl.specs.Results.{TakesAll};

use crate::networks::FakeFetcher;
use conn_key::Places;
use crawl::{Crawler, NetworkFault, Signals};
use exchange::{Done, Fault, Job, Phases, Reason};
use run_loop::{Results, Span, Until};
use std::alloc::{AllocError, Global};
use std::net::SocketAddr;

/// The paths of transfers whose connections fail, and the reason of each.
static REASONS: [(&str, Reason); 4] = [
    ("/dial/refused", Reason::Refused),
    ("/dial/unreachable", Reason::Unreachable),
    ("/dial/late", Reason::TimedOut),
    ("/again/reset", Reason::Reset),
];

// Why the connection of a job fails, if it does.
fn reason_of(job: &Job) -> Option<Reason> {
    for (path, reason) in &REASONS {
        if *path == job.target.path.as_str() {
            return Some(*reason);
        }
    }
    None
}

// The moments of a transfer that began at 3, and ended so at 7.
fn phases_of(done: Done) -> Phases {
    let leased = Some(4);
    let (open, first_byte) = match done {
        Done::Good(answer) if answer.reused => (leased, Some(6)),
        Done::Good(_) => (Some(5), Some(6)),
        Done::Bad(Fault::Dial) => (None, None),
        Done::Bad(_) => (Some(5), None),
    };
    Phases {
        leased,
        open,
        first_byte,
    }
}

/// The path of a transfer that ends only once nothing else is to be done.
const LATE: &str = "/late";

/// How a transfer ended.
#[derive(Clone, Copy)]
struct Ending {
    number: u64,
    done: Done,
    span: Span,
}

/// The transfer of every second place ends after its neighbour's, if two may be under way at once.
#[derive(Drop)]
pub struct FakeCrawler {
    parallel: u32,
    fetcher: FakeFetcher,
    late: Vec<Ending>,
}

impl FakeCrawler {
    pub fn new(alloc: Global, parallel: u32) -> FakeCrawler {
        FakeCrawler {
            parallel,
            fetcher: FakeFetcher::new(),
            late: Vec::new(alloc),
        }
    }

    // Which place ends at that place's turn, of so many.
    fn turned(&self, place: usize, count: usize) -> usize {
        let neighbour = place ^ 1;
        if self.parallel > 1 && neighbour < count {
            neighbour
        } else {
            place
        }
    }

    // Runs the job at that place, if there is one, and the crawl continues.
    #[tactic(auto, using(crate::proofs::Takes::takes_none, crate::proofs::Takes::takes_one))]
    fn fetch<R: Results, S: Signals>(
        &mut self,
        jobs: &[Job],
        place: usize,
        results: &mut R,
        signals: &S,
    )
        ensures { TakesAll (λ told. ⊤) R.took results.old results.new }
    {
        let Some(job) = jobs.get(place) else {
            return;
        };
        if signals.is_over() {
            return;
        }
        let ending = self.ending_of(job);
        if job.target.path.as_str() == LATE && self.late.push(ending).is_ok() {
            return;
        }
        results.take(ending.number, ending.done, ending.span);
    }

    // How the transfer of a job ends.
    fn ending_of(&mut self, job: &Job) -> Ending {
        let fetched = self.fetcher.answer(job);
        let done = fetched.done;
        Ending {
            number: job.want.transfer,
            done,
            span: Span {
                began: 3,
                ended: 7,
                phases: phases_of(done),
                reason: reason_of(job),
                retried: fetched.retried,
            },
        }
    }

    // Ends the transfers that are late.
    fn end_late<R: Results>(&mut self, results: &mut R)
        ensures { TakesAll (λ told. ⊤) R.took results.old results.new }
    {
        for ending in self.late.iter() {
            results.take(ending.number, ending.done, ending.span);
        }
        self.late.clear();
    }
}

impl Places for FakeCrawler {
    ghost unused = { λ crawler place. true };

    fn is_unused(&self, _place: u32) -> bool {
        true
    }
}

impl Crawler for FakeCrawler {
    ghost can_go_on = { λ crawler. ⊤ };

    ghost dials = { λ crawler place addresses. ⊤ };

    ghost crawled = { λ old new jobs told. ⊤ };

    ghost finished = { λ crawler told. ⊤ };

    fn set_host(&mut self, _place: u32, _addresses: Vec<SocketAddr>) -> Result<(), AllocError> {
        Ok(())
    }

    fn prune(&mut self) {}

    fn crawl<R: Results, S: Signals>(
        &mut self,
        jobs: &[Job],
        until: Until,
        results: &mut R,
        signals: &S,
    ) -> Result<(), NetworkFault> {
        for place in 0..jobs.len() {
            let turned = self.turned(place, jobs.len());
            self.fetch(jobs, turned, results, signals);
        }
        if jobs.is_empty() || until == Until::Ended {
            self.end_late(results);
        }
        Ok(())
    }

    fn finish<R: Results, S: Signals>(
        self,
        results: &mut R,
        _signals: &S,
    ) -> Result<(), NetworkFault> {
        let mut crawler = self;
        crawler.end_late(results);
        Ok(())
    }
}
