//! Leases of new connections, which tests dial with.

ghost use Rattle.std.specs.Prelude.{◌≡◌, None};
ghost use Rattle.cache_trait.specs.Homes.{IsMadeBy};
ghost use Rattle.cache.specs.PoolCalls.{home_of};

use budget::Limits;
use bundle::{Acquired, Lease};
use cache::Pool;
use cache_trait::Cache;
use conn_log::Want;
use exchange::Wire;
use std::alloc::AllocGlobal;
use std::process::Abort;

/// A pool of three hosts, without limits.
pub(crate) fn pool_of<W: Drop, R: Abort + AllocGlobal>(rt: &R) -> Pool<W> {
    let limits = Limits::new(0, 0, 4).expect(rt, "limits");
    Pool::new(rt.alloc(), limits, 3).expect(rt, "memory")
}

/// The lease of a new connection to that site for that transfer.
pub(crate) fn lease_at<W: Wire, R: Abort>(
    rt: &R,
    pool: &mut Pool<W>,
    site: u32,
    transfer: u64,
) -> Lease<W>
    ensures here { IsMadeBy (home_of pool.new) result.site result.tables }
    ensures stays { home_of pool.new ≡ home_of pool.old }
    ensures none { result.stream ≡ None }
{
    let want = Want {
        transfer,
        lane: 0,
        max_age: 118,
        max_life: 0,
        fresh: true,
        forbid_reuse: false,
    };
    match Cache::acquire(pool, site, want, 0) {
        Ok(Acquired::Lease(lease)) => {
            assert!(rt; !lease.has_stream());
            lease
        }
        Ok(Acquired::Wait(_ticket)) => panic!(rt; "it has to wait"),
        Err(refusal) => panic!(rt; "{refusal:?}"),
    }
}

/// Ends a lease of that pool.
pub(crate) fn abandon<W: Wire>(pool: &mut Pool<W>, lease: Lease<W>)
    requires { IsMadeBy (home_of pool.old) lease.site lease.tables }
    ensures { home_of pool.new ≡ home_of pool.old }
{
    if let Err(stray) = Cache::abandon(pool, lease, 0) {
        stray.scrap();
    }
}
