//! What a pool gives to a transfer.

ghost use Rattle.std.specs.Prelude.{◌≡◌, IfErr, IfOk, OnErr, OnOk};
ghost use Rattle.cache_trait.specs.CacheCalls.{GivesBy};
ghost use Rattle.cache_trait.specs.Homes.{Gives};
ghost use Rattle.cache.specs.Pools.{host_at};
ghost use Rattle.cache.specs.PoolCalls.{DidToPool, IsRefusalOf, home_of};
ghost use Rattle.held_pool.specs.Due.{HasNothing};
ghost use Rattle.held_pool.specs.Calls.{got_of, told_stream};

use crate::answers::SlotAnswer;
use crate::token::Token;
use budget::Refusal;
use bundle::{Acquired, Lease};
use cache::Pool;
use conn_log::Want;

// Acquires a connection, or a wait, of a transfer that had nothing at the site.
#[inline(always)]
pub(crate) fn acquire_from(
    pool: &mut Pool<Token>,
    site: u32,
    want: Want,
    now: u64,
) -> Result<Acquired<Token>, Refusal>
    ensures given { IfOk result (Gives (home_of pool.new) site want) }
    ensures done { IfOk result (GivesBy (DidToPool pool.old pool.new) now) }
    ensures nothing { OnOk result (HasNothing (host_at pool.old site) want.transfer) }
    ensures refused { IfErr result (IsRefusalOf pool.old site want) }
    ensures err { OnErr result (pool.new ≡ pool.old) }
{
    // For the proof.
    pool.is_at_rest();
    pool.acquire(site, want, now)
}

// What the caller is told of it.
#[inline(always)]
pub(crate) fn got_of(acquired: &mut Acquired<Token>) -> SlotAnswer
    ensures told { result ≡ got_of acquired.old }
    ensures same { acquired.new ≡ acquired.old }
{
    match acquired {
        Acquired::Lease(lease) => told_stream(lease),
        Acquired::Wait(_) => SlotAnswer::Wait,
    }
}

// What the caller is told of a lease.
#[inline(always)]
fn told_stream(lease: &mut Lease<Token>) -> SlotAnswer
    ensures told { result ≡ told_stream lease.old.stream }
    ensures same { lease.new ≡ lease.old }
{
    match lease.stream_mut() {
        None => SlotAnswer::New,
        Some(token) => SlotAnswer::Reused(token.number()),
    }
}
