//! State that all threads share besides the cache.

use crate::soaking::counts::Counts;
use socket::SystemClock;
use std::time::Duration;

/// State that all threads share besides the cache.
#[derive(Drop)]
pub(crate) struct Course<'n> {
    pub(crate) system: &'n HostRuntime,
    pub(crate) clock: SystemClock<'n, HostRuntime>,
    /// Length of the run.
    pub(crate) seconds: u64,
    /// Ports of the hosts.
    pub(crate) ports: &'n [u16],
    pub(crate) counts: Counts,
}

impl<'n> Course<'n> {
    /// True if the run is over.
    pub(crate) fn is_over(&self) -> bool {
        self.clock
            .is_past(Some(Duration::ZERO), Duration::from_secs(self.seconds))
    }

    /// Minutes since the start.
    pub(crate) fn minutes(&self) -> u64 {
        match self.clock.elapsed() {
            Some(elapsed) => elapsed.as_secs() / 60,
            None => 0,
        }
    }

    /// Returns the host of that number, modulo the number of hosts, and its port.
    pub(crate) fn host(&self, number: u64) -> (u32, u16) {
        let hosts = self.ports.len().max(1) as u64;
        let site = u32::try_from(number % hosts).unwrap_or(0);
        let port = self.ports.get(site as usize).copied();
        (site, port.unwrap_or(0))
    }
}
