//! How a lease of a transfer ends: given back with the facts of its response, or abandoned, and
//! perhaps tried again.

ghost use Rattle.std.specs.Prelude.{◌≡◌, ℕ, true, false, IsSome};
ghost use Rattle.cache_trait.specs.CacheCalls.{DropsBy, WithdrawsBy};
ghost use Rattle.exchange.specs.Answers.{IsSameJob, IsFruitless, may_retry};
ghost use Rattle.exchange.specs.Worlds.{world_of};
ghost use Rattle.exchange.specs.Steps.{IsGivenBack, LeadsOn, IsRetriable, FailsSo, IsAtEnd};
ghost use Rattle.exchange.specs.Steps.{CanSettle, IsWireFault, HasNoDialFault, OpensNoMore};
ghost use Rattle.exchange.specs.Stepping.{IsLeft};
ghost use Rattle.exchange.specs.Owning.{IsReady, OwnsLease, OwnsTicket, OwnsWire, OwnsAt};
ghost use Rattle.exchange.specs.declared.state.State.TheVariants as at;

use crate::done::{Answer, Done, Fault};
use crate::job::Prepared;
use crate::state::State;
use crate::wire::{Clock, Wire};
use budget::Refusal;
use bundle::{Lease, Ticket};
use cache_trait::Cache;
use persistence::Facts;

// Gives a lease back; whether the cache knew it.
pub(crate) fn give_back<W: Wire, C: Cache<W>>(
    cache: &mut C,
    lease: Lease<W>,
    facts: Facts,
    now: u64,
) -> bool
    requires here { OwnsLease (C.home cache.old) lease }
    requires wire { IsSome lease.stream }
    ensures stays { C.home cache.new ≡ C.home cache.old }
    ensures did { IsGivenBack (C.did cache.old cache.new) lease facts now result }
{
    match cache.give_back(lease, facts, now) {
        Ok(()) => true,
        Err(stray) => {
            stray.scrap();
            false
        }
    }
}

// Abandons a lease; a stranger is scrapped.
pub(crate) fn abandon<W: Wire, C: Cache<W>>(cache: &mut C, lease: Lease<W>, now: u64)
    requires here { OwnsLease (C.home cache.old) lease }
    ensures stays { C.home cache.new ≡ C.home cache.old }
    ensures did { DropsBy (C.did cache.old cache.new) lease now }
{
    if let Err(stray) = cache.abandon(lease, now) {
        stray.scrap();
    }
}

// Withdraws a ticket; a stranger is scrapped.
pub(crate) fn withdraw<W: Wire, C: Cache<W>>(cache: &mut C, ticket: Ticket, now: u64)
    requires here { OwnsTicket (C.home cache.old) ticket }
    ensures stays { C.home cache.new ≡ C.home cache.old }
    ensures did { WithdrawsBy (C.did cache.old cache.new) ticket now }
{
    if let Err(stray) = cache.withdraw(ticket, now) {
        stray.scrap();
    }
}

// Whether its request may be sent once more: it was sent on a reused connection, for the first
// time, and no byte of a response came. GET and HEAD are safe to send again (RFC 9110, section
// 9.2.2; RFC 9112, section 9.3.1).
pub(crate) fn may_retry<W: Wire>(parts: &Prepared, lease: &Lease<W>) -> bool
    ensures { result ≡ may_retry parts.now.retried lease.now.start.reused parts.now.reader.bytes }
{
    !parts.retried && lease.reused() && !parts.reader.any_byte()
}

// Abandons its lease, and asks for a new connection.
fn retry<W: Wire, C: Cache<W>, K: Clock>(
    parts: &mut Prepared,
    cache: &mut C,
    _clock: &K,
    now: u64,
    lease: Lease<W>,
) -> State<W>
    requires told { K.tells _clock.now now }
    requires owns { OwnsLease (C.home cache.old) lease }
    requires ready { IsReady parts.old }
    requires first { parts.old.retried ≡ false }
    requires reused { lease.start.reused ≡ true }
    ensures stays { C.home cache.new ≡ C.home cache.old }
    ensures owns { OwnsAt (C.home cache.new) parts.new result }
    ensures ready { IsReady parts.new }
    ensures same_job { IsSameJob parts.old parts.new }
    ensures story { LeadsOn C.did (world_of W.untouched W.happened (K.tells _clock.now)) parts.old
        parts.new cache.old cache.new lease (IsRetriable parts.old) result }
    ensures left { IsLeft C.did cache.old cache.new lease result }
    ensures dialled { HasNoDialFault result }
    ensures opens { OpensNoMore parts.old parts.new (at.Reading lease) result }
{
    match cache.abandon(lease, now) {
        Ok(()) => {
            parts.retried = true;
            parts.reader.clear();
            State::Asking
        }
        Err(stray) => {
            stray.scrap();
            State::Finished(Done::Bad(Fault::Refused(Refusal::StrangeLease)))
        }
    }
}

// Its wire failed: retries the request if it may, or abandons the lease.
pub(crate) fn fail<W: Wire, C: Cache<W>, K: Clock>(
    parts: &mut Prepared,
    cache: &mut C,
    clock: &K,
    now: u64,
    lease: Lease<W>,
    fault: Fault,
) -> State<W>
    requires told { K.tells clock.now now }
    requires owns { OwnsLease (C.home cache.old) lease }
    requires ready { IsReady parts.old }
    requires wire_fault { IsWireFault fault }
    ensures stays { C.home cache.new ≡ C.home cache.old }
    ensures owns { OwnsAt (C.home cache.new) parts.new result }
    ensures ready { IsReady parts.new }
    ensures same_job { IsSameJob parts.old parts.new }
    ensures story { LeadsOn C.did (world_of W.untouched W.happened (K.tells clock.now)) parts.old
        parts.new cache.old cache.new lease (FailsSo parts.old fault) result }
    ensures left { IsLeft C.did cache.old cache.new lease result }
    ensures dialled { HasNoDialFault result }
    ensures opens { OpensNoMore parts.old parts.new (at.Reading lease) result }
{
    if may_retry(parts, &lease) {
        return retry(parts, cache, clock, now, lease);
    }
    abandon(cache, lease, now);
    State::Finished(Done::Bad(fault))
}

// Its connection ended: retries the request if it may, or answers what came.
pub(crate) fn end<W: Wire, C: Cache<W>, K: Clock>(
    parts: &mut Prepared,
    cache: &mut C,
    clock: &K,
    now: u64,
    lease: Lease<W>,
) -> State<W>
    requires told { K.tells clock.now now }
    requires owns { OwnsWire (C.home cache.old) lease }
    requires ready { IsReady parts.old }
    ensures stays { C.home cache.new ≡ C.home cache.old }
    ensures owns { OwnsAt (C.home cache.new) parts.new result }
    ensures ready { IsReady parts.new }
    ensures same_job { IsSameJob parts.old parts.new }
    ensures story { LeadsOn C.did (world_of W.untouched W.happened (K.tells clock.now)) parts.old
        parts.new cache.old cache.new lease (IsAtEnd parts.old) result }
    ensures left { IsLeft C.did cache.old cache.new lease result }
    ensures dialled { HasNoDialFault result }
    ensures opens { OpensNoMore parts.old parts.new (at.Reading lease) result }
{
    if may_retry(parts, &lease) {
        return retry(parts, cache, clock, now, lease);
    }
    parts.reader.end();
    settle(parts, cache, clock, now, lease)
}

// Gives its lease back with the facts of all bytes that came, and answers them: a response where
// they are whole, else that it was cut.
pub(crate) fn settle<W: Wire, C: Cache<W>, K: Clock>(
    parts: &Prepared,
    cache: &mut C,
    _clock: &K,
    now: u64,
    lease: Lease<W>,
) -> State<W>
    requires told { K.tells _clock.now now }
    requires owns { OwnsWire (C.home cache.old) lease }
    ensures stays { C.home cache.new ≡ C.home cache.old }
    ensures owns { OwnsAt (C.home cache.new) parts.now result }
    ensures story { LeadsOn C.did (world_of W.untouched W.happened (K.tells _clock.now)) parts.now
        parts.now cache.old cache.new lease (CanSettle parts.now lease.start.reused) result }
    ensures left { IsLeft C.did cache.old cache.new lease result }
    ensures dialled { HasNoDialFault result }
    ensures opens { OpensNoMore parts.now parts.now (at.Reading lease) result }
{
    let facts = parts.reader.facts();
    let reused = lease.reused();
    let known = give_back(cache, lease, facts, now);
    let done = match parts.reader.status() {
        Some(status) if facts.whole => {
            if known {
                Done::Good(Answer {
                    status,
                    body_len: parts.reader.body_len(),
                    facts,
                    reused,
                    retried: parts.retried,
                })
            } else {
                Done::Bad(Fault::Refused(Refusal::StrangeLease))
            }
        }
        _ => Done::Bad(Fault::Cut),
    };
    State::Finished(done)
}
