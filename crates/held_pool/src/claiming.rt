//! What a ticket is claimed for.

ghost use Rattle.std.specs.Prelude.{◌≡◌};
ghost use Rattle.bundle.specs.declared.answers.Acquired.TheVariants.{Wait};
ghost use Rattle.held_pool.specs.Due.{IsDue};
ghost use Rattle.held_pool.specs.Calls.{ClaimsTicket};

use crate::token::Token;
use bundle::{Acquired, Claimed, Ticket};
use cache::Pool;
use cache_trait::Cache;

// Claims what a ticket was granted; the ticket itself while it still waits.
#[inline(always)]
pub(crate) fn claim_from(pool: &mut Pool<Token>, ticket: Ticket) -> Acquired<Token>
    requires { IsDue pool.old (Wait ticket) }
    ensures done { ClaimsTicket pool.old pool.new ticket result }
    ensures due { IsDue pool.new result }
{
    match Cache::claim(pool, ticket) {
        Ok(Claimed::Lease(lease)) => Acquired::Lease(lease),
        Ok(Claimed::Still(same)) => Acquired::Wait(same),
        // It is the pool's own.
        Err(_stray) => unreachable!(),
    }
}
