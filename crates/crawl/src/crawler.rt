//! Crawlers, which run the jobs of a crawl.

use crate::fault::NetworkFault;
use conn_key::Places;
use exchange::Job;
use run_loop::{Results, Until};
use std::alloc::AllocError;
use std::net::SocketAddr;

/// Signals to a crawler.
pub trait Signals {
    /// True if the crawl is to end: transfers in flight are cancelled.
    fn is_over(&self) -> bool;

    /// True if there is other work to do before the next transfer ends: an answer of a look-up has
    /// arrived, or more of the input can be read.
    fn has_news(&self) -> bool;
}

/// Runs the jobs of a crawl over kept connections. It has a place for each host. The caller must
/// call `finish`.
pub trait Crawler: Places {
    ghost use Rattle.std.specs.Prelude.{ℕ, List, [], OnOk};
    ghost use Rattle.crawl.specs.Results.{TakesAll};
    ghost use Rattle.exchange.specs.declared.job.Job.{Job};
    ghost use Rattle.run_loop.specs.Taking.{JobResult};
    ghost use Rattle.std.specs.declared.net.socket_addr.SocketAddr.{SocketAddr};

    /// Each transfer in flight can continue.
    ghost can_go_on: { Self → Type 0 };

    /// Connections to the host at that place are opened to these addresses, in this order.
    ghost dials: { Self → ℕ → List SocketAddr → Type 0 };

    /// Between the two states these jobs began, and these results arrived, the newest first, of
    /// them and of jobs that were in flight before.
    ghost crawled: { Self → Self → List Job → List JobResult → Type 0 };

    /// These are the results, the newest first, of the transfers that were in flight at the end.
    ghost finished: { Self → List JobResult → Type 0 };

    /// Sets the addresses of the host at that place.
    ///
    /// # Errors
    ///
    /// There is no memory for them.
    fn set_host(&mut self, place: u32, addresses: Vec<SocketAddr>) -> Result<(), AllocError>
        requires { can_go_on self.old }
        ensures can_go_on { can_go_on self.new }
        ensures dials { OnOk result (dials self.new place addresses.items) };

    /// Closes the idle connections that it keeps.
    fn prune(&mut self)
        requires { can_go_on self.old }
        ensures { can_go_on self.new };

    /// Begins jobs, whose transfers have consecutive numbers, runs them next to those in flight,
    /// and passes on the results that arrive. It returns after the event `until`, or once the
    /// signals report that the crawl is over.
    ///
    /// # Errors
    ///
    /// `Memory` if the numbers of the jobs pass the greatest `u64`, `Poll` if the system's wait for
    /// connections failed. Jobs that were not begun have no result then.
    fn crawl<R: Results, S: Signals>(
        &mut self,
        jobs: &[Job],
        until: Until,
        results: &mut R,
        signals: &S,
    ) -> Result<(), NetworkFault>
        requires { can_go_on self.old }
        ensures can_go_on { can_go_on self.new }
        ensures takes { TakesAll (crawled self.old self.new jobs.now) R.took results.old
            results.new };

    /// Runs the transfers in flight to their ends, passes on the results, and closes the
    /// connections. Once the signals report that the crawl is over, it cancels the transfers.
    ///
    /// # Errors
    ///
    /// `Poll` if the system's wait for connections failed; the transfers are cancelled then.
    fn finish<R: Results, S: Signals>(
        self,
        results: &mut R,
        signals: &S,
    ) -> Result<(), NetworkFault>
        requires { can_go_on self }
        ensures { TakesAll (finished self) R.took results.old results.new };
}
