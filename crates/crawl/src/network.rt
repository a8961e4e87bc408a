//! Networks that a crawl works on.

use crate::crawler::Crawler;
use crate::fault::NetworkFault;
use client::Names;
use commands::CrawlOptions;
use std::alloc::Global;

/// A network, on which connections are opened, and names of hosts are looked up.
pub trait Network {
    ghost use Rattle.std.specs.Prelude.{IfOk};

    /// Carries out the jobs of a crawl. The caller must call `finish`.
    type Crawler: Crawler;

    type Names: Names;

    /// Opens a crawler with these options, with places for `hosts` hosts.
    ///
    /// # Errors
    ///
    /// `Memory` if memory ran out, `Descriptors` if none is left, `Poll` if the system cannot wait
    /// for connections for another reason.
    fn open(
        &self,
        alloc: Global,
        options: CrawlOptions,
        hosts: u32,
    ) -> Result<Self::Crawler, NetworkFault>
        ensures { IfOk result Self.Crawler.can_go_on };

    /// The look-ups of names.
    fn names(&self) -> &Self::Names;
}
