//! A network without sockets: the path of a URL says how its transfer ends.

use crate::crawlers::FakeCrawler;
use budget::Refusal;
use client::{Answer, Fetched, Names};
use commands::CrawlOptions;
use crawl::{Network, NetworkFault};
use exchange::{Done, Fault, Job};
use persistence::{Facts, Framing, Method, Version};
use std::alloc::{AllocError, Global};
use std::cell::RefCell;
use std::collections::VecDeque;
use std::net::{IpAddr, Ipv4Addr, Ipv6Addr, SocketAddr};
use std::sync::atomic::{AtomicU32, Ordering};

/// The paths of transfers that fail, each with its fault, and whether its request was tried once
/// more.
static FAULTS: [(&str, Fault, bool); 15] = [
    ("/memory", Fault::Memory, false),
    ("/dial", Fault::Dial, false),
    ("/read", Fault::Read, false),
    ("/write", Fault::Write, false),
    ("/bad", Fault::BadResponse, false),
    ("/cut", Fault::Cut, false),
    ("/refused", Fault::Refused(Refusal::Exhausted), false),
    ("/cancelled", Fault::Cancelled, false),
    ("/dial/refused", Fault::Dial, false),
    ("/dial/unreachable", Fault::Dial, false),
    ("/dial/late", Fault::Dial, false),
    ("/again/reset", Fault::Read, true),
    ("/again/dial", Fault::Dial, true),
    ("/again/refused", Fault::Refused(Refusal::Memory), true),
    ("/again/cancelled", Fault::Cancelled, true),
];

/// The host that no resolver knows.
pub const UNKNOWN: &str = "gone.test";

/// The facts of each response, of which no line tells.
const FACTS: Facts = Facts {
    version: Version::V11,
    close: false,
    keep_alive: false,
    request_close: false,
    framing: Framing::Counted,
    both_lengths: false,
    upgraded: false,
    whole: true,
    surplus: false,
};

/// Counts what it is asked, and remembers what it was opened with.
#[derive(Drop)]
pub struct FakeNetwork {
    fault: Option<NetworkFault>,
    pub names: FakeNames,
    /// Number of times that it was opened.
    pub openings: AtomicU32,
    /// Number of hosts for which it has places.
    pub hosts: AtomicU32,
    /// Time limit of a transfer, in seconds.
    pub timeout: AtomicU32,
    /// Maximum number of transfers in flight.
    pub parallel: AtomicU32,
}

impl FakeNetwork {
    pub fn new(alloc: Global, fault: Option<NetworkFault>) -> FakeNetwork {
        FakeNetwork {
            fault,
            names: FakeNames::new(alloc),
            openings: AtomicU32::new(0),
            hosts: AtomicU32::new(0),
            timeout: AtomicU32::new(0),
            parallel: AtomicU32::new(0),
        }
    }

    /// Number of times that it was opened, number of hosts, and timeout in seconds.
    pub fn opened(&self) -> (u32, u32, u32) {
        (
            self.openings.load(Ordering::SeqCst),
            self.hosts.load(Ordering::SeqCst),
            self.timeout.load(Ordering::SeqCst),
        )
    }
}

/// Looks up each name at once.
#[derive(Drop)]
pub struct FakeNames {
    alloc: Global,
    /// Number of look-ups.
    pub lookups: AtomicU32,
    answers: RefCell<VecDeque<Answer>>,
}

impl FakeNames {
    pub fn new(alloc: Global) -> FakeNames {
        FakeNames {
            alloc,
            lookups: AtomicU32::new(0),
            answers: RefCell::new(VecDeque::new(alloc)),
        }
    }
}

impl Names for FakeNames {
    ghost use Rattle.std.specs.Prelude.{⊤};

    ghost found = { λ name addresses. ⊤ };

    fn ask(&self, name: &str) -> Result<(), AllocError> {
        self.lookups.fetch_add(1, Ordering::SeqCst);
        let answer = Answer {
            name: String::from_str(self.alloc, name)?,
            found: found_for(self.alloc, name)?,
        };
        let Ok(mut answers) = self.answers.try_borrow_mut() else {
            return Err(AllocError);
        };
        answers.push_back(answer)?;
        Ok(())
    }

    fn answer(&self) -> Option<Answer> {
        match self.answers.try_borrow_mut() {
            Ok(mut answers) => answers.pop_front(),
            Err(_) => None,
        }
    }

    fn has_answer(&self) -> bool {
        match self.answers.try_borrow() {
            Ok(answers) => !answers.is_empty(),
            Err(_) => false,
        }
    }

    fn wait(&self) {}
}

/// The addresses of a name: ::1 and then 127.0.0.1, unless it is unknown.
fn found_for(alloc: Global, host: &str) -> Result<Vec<SocketAddr>, AllocError> {
    let mut found = Vec::new(alloc);
    if host != UNKNOWN {
        let first = IpAddr::V6(Ipv6Addr::new(0, 0, 0, 0, 0, 0, 0, 1));
        found.push(SocketAddr::new(first, 0))?;
        let second = IpAddr::V4(Ipv4Addr::new(127, 0, 0, 1));
        found.push(SocketAddr::new(second, 0))?;
    }
    Ok(found)
}

impl Network for FakeNetwork {
    type Crawler = FakeCrawler;

    type Names = FakeNames;

    fn open(
        &self,
        alloc: Global,
        options: CrawlOptions,
        hosts: u32,
    ) -> Result<FakeCrawler, NetworkFault> {
        self.openings.fetch_add(1, Ordering::SeqCst);
        self.hosts.store(hosts, Ordering::SeqCst);
        self.timeout.store(options.timeout, Ordering::SeqCst);
        self.parallel.store(options.parallel, Ordering::SeqCst);
        match self.fault {
            Some(fault) => Err(fault),
            None => Ok(FakeCrawler::new(alloc, options.parallel)),
        }
    }

    fn names(&self) -> &FakeNames {
        &self.names
    }
}

/// Keeps one connection to each of the first sites.
#[derive(Drop)]
pub struct FakeFetcher {
    open: [bool; 64],
}

impl FakeFetcher {
    /// None is open.
    pub fn new() -> FakeFetcher {
        FakeFetcher { open: [false; 64] }
    }

    /// What comes of a job.
    pub fn answer(&mut self, job: &Job) -> Fetched {
        let path = job.target.path.as_str();
        for row in &FAULTS {
            if row.0 == path {
                return Fetched {
                    done: Done::Bad(row.1),
                    retried: row.2,
                };
            }
        }
        if job.target.host.as_str() == UNKNOWN {
            return Fetched {
                done: Done::Bad(Fault::Dial),
                retried: false,
            };
        }
        let site = job.site as usize;
        let reused = site < 64 && self.open[site] && job.want.max_age != 0;
        if site < 64 {
            self.open[site] = true;
        }
        let body_len = match job.method {
            Method::Get => path.len() as u64,
            Method::Head => 0,
        };
        let retried = path == "/again";
        let done = Done::Good(exchange::Answer {
            status: if path == "/404" { 404 } else { 200 },
            body_len,
            facts: FACTS,
            reused,
            retried,
        });
        Fetched { done, retried }
    }
}
