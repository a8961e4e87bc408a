//! What is taken out of a slot, to be spent.

ghost use Rattle.std.specs.Prelude.{◌≡◌, IfErr, IfOk, OnErr, None, Some, IsSome, true, false};
ghost use Rattle.held_pool.specs.Slots.{Takes, value_in};
ghost use Rattle.bundle.specs.declared.answers.Acquired.TheVariants as acquired;
ghost use Rattle.cache_trait.specs.CacheCalls.CacheCall.{abandons, gives_back, withdraws};
ghost use Rattle.cache.specs.PoolCalls.{DidToPool};
ghost use Rattle.held_pool.specs.Due.{IsDue};
ghost use Rattle.held_pool.specs.declared.answers.SlotError.TheVariants as faults;
ghost use Rattle.held_pool.specs.Calls.{attach_fault, back_fault, lease_fault, ticket_fault};

use crate::answers::SlotError;
use crate::slot::Slot;
use crate::slot_table::SlotTable;
use crate::token::Token;
use bundle::{Acquired, Lease, Ticket};
use cache::Pool;
use cache_trait::Cache;
use persistence::Facts;

type Slots = SlotTable<Acquired<Token>>;

// Whether the slot has a lease.
#[inline(always)]
pub(crate) fn has_lease(slots: &Slots, slot: Slot) -> bool
    ensures lease { result ≡ true → lease_fault (value_in slots.now.places.items slot) ≡ None }
    ensures none { result ≡ false → lease_fault (value_in slots.now.places.items slot)
        ≡ Some faults.Stranger }
{
    matches!(slots.get(slot), Some(Acquired::Lease(_)))
}

// Whether the slot has a ticket.
#[inline(always)]
pub(crate) fn has_ticket(slots: &Slots, slot: Slot) -> bool
    ensures ticket { result ≡ true → ticket_fault (value_in slots.now.places.items slot) ≡ None }
{
    matches!(slots.get(slot), Some(Acquired::Wait(_)))
}

// Takes the slot's lease out.
#[inline(always)]
pub(crate) fn take_lease(slots: &mut Slots, slot: Slot) -> Result<Lease<Token>, SlotError>
    ensures ok { IfOk result (λ lease.
        Takes slots.old.places.items slots.new.places.items slot (acquired.Lease lease)) }
    ensures err { IfErr result (λ fault.
        lease_fault (value_in slots.old.places.items slot) ≡ Some fault) }
    ensures same { OnErr result (slots.new.places.items ≡ slots.old.places.items) }
{
    let Some(Acquired::Lease(_)) = slots.get(slot) else {
        return Err(SlotError::Stranger);
    };
    match slots.take(slot) {
        Some(Acquired::Lease(lease)) => Ok(lease),
        Some(Acquired::Wait(_ticket)) => unreachable!(),
        None => unreachable!(),
    }
}

// Takes it out, if its connection has its token.
#[inline(always)]
pub(crate) fn take_attached(slots: &mut Slots, slot: Slot) -> Result<Lease<Token>, SlotError>
    ensures ok { IfOk result (λ lease.
        Takes slots.old.places.items slots.new.places.items slot (acquired.Lease lease)) }
    ensures stream { IfOk result (λ lease. IsSome lease.stream) }
    ensures err { IfErr result (λ fault.
        back_fault (value_in slots.old.places.items slot) ≡ Some fault) }
    ensures same { OnErr result (slots.new.places.items ≡ slots.old.places.items) }
{
    let Some(Acquired::Lease(lease)) = slots.get(slot) else {
        return Err(SlotError::Stranger);
    };
    if !lease.has_stream() {
        return Err(SlotError::Unattached);
    }
    match slots.take(slot) {
        Some(Acquired::Lease(lease)) => Ok(lease),
        Some(Acquired::Wait(_ticket)) => unreachable!(),
        None => unreachable!(),
    }
}

// Takes the slot's ticket out.
#[inline(always)]
pub(crate) fn take_ticket(slots: &mut Slots, slot: Slot) -> Result<Ticket, SlotError>
    ensures ok { IfOk result (λ ticket.
        Takes slots.old.places.items slots.new.places.items slot (acquired.Wait ticket)) }
    ensures err { IfErr result (λ fault.
        ticket_fault (value_in slots.old.places.items slot) ≡ Some fault) }
    ensures same { OnErr result (slots.new.places.items ≡ slots.old.places.items) }
{
    let Some(Acquired::Wait(_)) = slots.get(slot) else {
        return Err(SlotError::Stranger);
    };
    match slots.take(slot) {
        Some(Acquired::Wait(ticket)) => Ok(ticket),
        Some(Acquired::Lease(_lease)) => unreachable!(),
        None => unreachable!(),
    }
}

// Takes a lease of the pool's own back.
#[inline(always)]
pub(crate) fn give_back_to(pool: &mut Pool<Token>, lease: Lease<Token>, facts: Facts, now: u64)
    requires due { IsDue pool.old (acquired.Lease lease) }
    requires stream { IsSome lease.stream }
    ensures { DidToPool pool.old pool.new (gives_back lease facts now) }
{
    match Cache::give_back(pool, lease, facts, now) {
        Ok(()) => {}
        Err(_stray) => unreachable!(),
    }
}

// Abandons a lease of the pool's own.
pub(crate) fn abandon_from(pool: &mut Pool<Token>, lease: Lease<Token>, now: u64)
    requires { IsDue pool.old (acquired.Lease lease) }
    ensures { DidToPool pool.old pool.new (abandons lease now) }
{
    match Cache::abandon(pool, lease, now) {
        Ok(()) => {}
        Err(_stray) => unreachable!(),
    }
}

// Lifts the slot's lease, which has no token yet, out of its slot.
#[inline(always)]
pub(crate) fn lift_lease(slots: &mut Slots, slot: Slot) -> Lease<Token>
    requires { attach_fault (value_in slots.old.places.items slot) ≡ None }
    ensures takes { Takes slots.old.places.items slots.new.places.items slot
        (acquired.Lease result) }
    ensures none { result.stream ≡ None }
{
    match slots.lift(slot) {
        Some(Acquired::Lease(lease)) => lease,
        Some(Acquired::Wait(_ticket)) => unreachable!(),
        None => unreachable!(),
    }
}

// Why the slot's lease can be given no token, if it cannot.
#[inline(always)]
pub(crate) fn attach_fault(slots: &Slots, slot: Slot) -> Option<SlotError>
    ensures { result ≡ attach_fault (value_in slots.now.places.items slot) }
{
    let Some(Acquired::Lease(lease)) = slots.get(slot) else {
        return Some(SlotError::Stranger);
    };
    if lease.has_stream() {
        return Some(SlotError::Attached);
    }
    None
}

// Withdraws a ticket of the pool's own.
pub(crate) fn withdraw_from(pool: &mut Pool<Token>, ticket: Ticket, now: u64)
    requires { IsDue pool.old (acquired.Wait ticket) }
    ensures { DidToPool pool.old pool.new (withdraws ticket now) }
{
    match Cache::withdraw(pool, ticket, now) {
        Ok(()) => {}
        Err(_stray) => unreachable!(),
    }
}
