//! The system's network.

use budget::Limits;
use cache::Pool;
use client::{LookUps, SystemNames, SystemResolver};
use commands::CrawlOptions;
use crawl::{LoopCrawler, Network, NetworkFault};
use futures::task::{Doorbell, Solo};
use socket::{Addresses, PolledDial, PolledWire, SystemClock};
use std::alloc::{AllocGlobal, Global};
use std::io;
use std::io::ErrorKind;
use std::random::RandomSource;
use std::sync::Wait;

/// Maximum number of idle connections, well below the usual limit of open files.
const MOST_IDLE: u32 = 256;

/// The system's error if too many files are open in the system (ENFILE of open(2)).
const TOO_MANY_IN_SYSTEM: i32 = 23;

/// The system's error if the process has too many open descriptors (EMFILE of open(2)).
const TOO_MANY_IN_PROCESS: i32 = 24;

/// The network of the system. No contract says what servers answer.
#[derive(Drop)]
pub struct SystemNetwork<'s, 'a: 's, H: Wait + RandomSource + AllocGlobal> {
    system: &'a HostRuntime,
    /// The runtime with which a crawl waits.
    waits: &'a H,
    names: SystemNames<'s, 'a, H>,
}

impl<'s, 'a: 's, H: Wait + RandomSource + AllocGlobal> SystemNetwork<'s, 'a, H> {
    /// Makes the network of a system. `has_threads` is true if threads serve `look_ups`; otherwise
    /// the caller of the network looks up names. `waits` is the same runtime.
    pub fn new(
        system: &'a HostRuntime,
        waits: &'a H,
        look_ups: &'s LookUps<'a, H, SystemResolver<'a>>,
        has_threads: bool,
    ) -> SystemNetwork<'s, 'a, H> {
        SystemNetwork {
            system,
            waits,
            names: SystemNames::new(system, look_ups, has_threads),
        }
    }
}

impl<'s, 'a: 's, H: Wait + RandomSource + AllocGlobal> Network for SystemNetwork<'s, 'a, H> {
    type Crawler = LoopCrawler<
        'a,
        H,
        PolledWire,
        Pool<PolledWire>,
        PolledDial<'a, HostRuntime>,
        SystemClock<'a, HostRuntime>,
    >;

    type Names = SystemNames<'s, 'a, H>;

    fn open(
        &self,
        alloc: Global,
        options: CrawlOptions,
        hosts: u32,
    ) -> Result<Self::Crawler, NetworkFault> {
        let Ok(limits) = Limits::new(options.host_limit, options.total, MOST_IDLE) else {
            return Err(NetworkFault::Memory);
        };
        let Ok(pool) = Pool::new(alloc, limits, hosts) else {
            return Err(NetworkFault::Memory);
        };
        let dial = match PolledDial::new(self.system, alloc, Addresses::new(alloc)) {
            Ok(dial) => dial,
            Err(error) => return Err(fault_of(&error)),
        };
        let clock = match SystemClock::new(self.system) {
            Ok(clock) => clock,
            Err(error) => return Err(fault_of(&error)),
        };
        let task = match Solo::new(self.waits, Doorbell::spinning()) {
            Ok(task) => task,
            Err(error) => return Err(fault_of(&error)),
        };
        match LoopCrawler::new(self.waits, options, pool, dial, clock, task) {
            Ok(crawler) => Ok(crawler),
            Err(_) => Err(NetworkFault::Memory),
        }
    }

    fn names(&self) -> &SystemNames<'s, 'a, H> {
        &self.names
    }
}

/// Returns the fault for an error of the system while the network was opened.
fn fault_of(error: &io::Error) -> NetworkFault {
    if error.kind() == ErrorKind::OutOfMemory {
        NetworkFault::Memory
    } else if lacks_descriptors(error) {
        NetworkFault::Descriptors
    } else {
        NetworkFault::Poll
    }
}

/// True if the system or the process has too many open files.
fn lacks_descriptors(error: &io::Error) -> bool {
    match error.raw_os_error() {
        Some(code) => code == TOO_MANY_IN_SYSTEM || code == TOO_MANY_IN_PROCESS,
        None => false,
    }
}
