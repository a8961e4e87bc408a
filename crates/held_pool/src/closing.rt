//! How all that the slots hold is ended.

ghost use Rattle.std.specs.Prelude.{◌≡◌, [], IfSome};
ghost use Rattle.cache_trait.specs.CacheCalls.{AllDone};
ghost use Rattle.cache.specs.PoolCalls.{DidToPool};
ghost use Rattle.held_pool.specs.Due.{AreDue, IsDue};
ghost use Rattle.held_pool.specs.Calls.{EndsHeld, endings_in};

use crate::slot_table::SlotTable;
use crate::spending::{abandon_from, withdraw_from};
use crate::token::Token;
use bundle::Acquired;
use cache::Pool;

// Abandons the leases and withdraws the tickets, the last place first.
pub(crate) fn end_all(pool: &mut Pool<Token>, slots: &mut SlotTable<Acquired<Token>>, now: u64)
    requires { AreDue pool.old slots.old.places.items }
    ensures done { AllDone DidToPool pool.old pool.new (endings_in now slots.old.places.items) }
    ensures empty { slots.new.places.items ≡ [] }
{
    while let Some(held) = slots.pop() {
        end(pool, held, now);
    }
}

// Abandons a lease, or withdraws a ticket, if there is one.
fn end(pool: &mut Pool<Token>, held: Option<Acquired<Token>>, now: u64)
    requires { IfSome held (IsDue pool.old) }
    ensures { EndsHeld pool.old pool.new now held }
{
    match held {
        Some(Acquired::Lease(lease)) => abandon_from(pool, lease, now),
        Some(Acquired::Wait(ticket)) => withdraw_from(pool, ticket, now),
        None => {}
    }
}
