//! Caches and dials whose hosts change during a crawl.

ghost use Rattle.std.specs.Prelude.{◌≡◌};
ghost use Rattle.cache.specs.PoolCalls.{home_of};

use cache::Pool;
use cache_trait::Cache;
use exchange::{Dial, Wire};
use socket::{PolledDial, PolledWire};
use std::alloc::{AllocError, Global};
use std::net::{Net, SocketAddr};

/// Length from which the log of a host is cut, in entries.
const LONG_LOG: usize = 1_024;

/// A cache whose places are given to other hosts while they are unused.
pub trait HostCache<W: Wire>: Cache<W> {
    ghost use Rattle.std.specs.Prelude.{◌≡◌, ℕ, Bool};

    /// No connection is open at that place, and no transfer waits there.
    ghost unused: { Self → ℕ → Bool };

    /// Returns the number of its places.
    fn hosts(&self) -> u32;

    /// True if no connection is open at this place, and no transfer waits there.
    fn is_unused(&self, place: u32) -> bool
        ensures { result ≡ unused self.now place };

    /// Closes the idle connections, at `now`, in seconds.
    fn prune(&mut self, now: u64)
        ensures { Self.home self.new ≡ Self.home self.old };

    /// Drops entries of its logs that it does not need any more.
    fn cut(&mut self)
        ensures { Self.home self.new ≡ Self.home self.old };
}

/// A dial whose hosts change.
pub trait HostDial<W: Wire>: Dial<W> {
    ghost use Rattle.std.specs.Prelude.{ℕ, List, OnOk};
    ghost use Rattle.std.specs.declared.net.socket_addr.SocketAddr.{SocketAddr};

    /// Connections to the host at that place are opened to these addresses, in this order.
    ghost dials: { Self → ℕ → List SocketAddr → Type 0 };

    /// Sets the addresses of the host at that place.
    ///
    /// # Errors
    ///
    /// There is no memory for them.
    fn set_host(
        &mut self,
        alloc: Global,
        place: u32,
        addresses: Vec<SocketAddr>,
    ) -> Result<(), AllocError>
        ensures { OnOk result (dials self.new place addresses.items) };
}

impl<W: Wire> HostCache<W> for Pool<W> {
    ghost use Rattle.crawl.specs.Unused.{is_unused_site};

    ghost unused = { λ pool place. is_unused_site pool place };

    fn hosts(&self) -> u32 {
        self.hosts()
    }

    fn is_unused(&self, place: u32) -> bool {
        match self.look(place) {
            Ok(counts) => counts.alive == 0 && counts.waiting == 0,
            Err(_) => false,
        }
    }

    fn prune(&mut self, now: u64) {
        let _closed = self.prune(now.saturating_add(1), 0, 0);
    }

    fn cut(&mut self) {
        for place in 0..self.hosts() {
            cut_if_long(self, place);
        }
    }
}

// Cuts the log of the host at that place, if it is long.
fn cut_if_long<W: Wire>(pool: &mut Pool<W>, place: u32)
    ensures { home_of pool.new ≡ home_of pool.old }
{
    let Some(log) = pool.log(place) else {
        return;
    };
    if log.len() < LONG_LOG {
        return;
    }
    let _entries = pool.cut(place);
}

impl<'n, N: Net> HostDial<PolledWire> for PolledDial<'n, N> {
    ghost use Rattle.std.specs.Prelude.{◌≡◌};
    ghost use Rattle.socket.specs.Hosts.{addresses_at};

    ghost dials = { λ dial place addresses.
        addresses_at dial.connector.addresses.hosts.items place ≡ addresses };

    fn set_host(
        &mut self,
        alloc: Global,
        place: u32,
        addresses: Vec<SocketAddr>,
    ) -> Result<(), AllocError> {
        self.set_host(alloc, place, addresses)
    }
}
