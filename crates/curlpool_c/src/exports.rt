//! The calls that C sees, as `c/curlpool.h` declares them. Each states its definition.

ghost use Rattle.persistence.specs.Reader.{new_reader};
ghost use Rattle.std.specs.Prelude.{◌≡◌, IfNone};
ghost use Rattle.curlpool_c.specs.Behind.{OfBehind, OnBehind, held_behind};
ghost use Rattle.curlpool_c.specs.Numbers.{method_of, slot_of, wanted};
ghost use Rattle.curlpool_c.specs.Structs.{facts_of};
ghost use Rattle.curlpool_c.specs.Lifecycle.{Closes, EndsBehind, Opens};
ghost use Rattle.curlpool_c.specs.Transfers.{TellsAcquireOf, TellsAttach, TellsClaim};
ghost use Rattle.curlpool_c.specs.Transfers.{TellsGranted, TellsBegin, TellsFeed, TellsEnd};
ghost use Rattle.curlpool_c.specs.Transfers.{TellsGiveBack, TellsGiveBackOf, TellsAbandon};
ghost use Rattle.curlpool_c.specs.Transfers.{TellsWithdraw};
ghost use Rattle.curlpool_c.specs.Sites.{TellsClosedBehind, TellsCounts, TellsLimit, TellsLook};
ghost use Rattle.curlpool_c.specs.Sites.{TellsPrune, TellsResponse, TellsSite, TellsUpkeep};
ghost use Rattle.curlpool_c.specs.Sites.{key_of};
ghost use Rattle.curlpool_c.specs.Logs.{DropsBehind, TakesBehind};
ghost use Rattle.curlpool_c.specs.Targets.{TellsTarget};

use crate::handle::Handle;
use crate::lifecycle::opened;
use crate::slots::{method_of, wanted};
use crate::status::{ALREADY_OPEN, CLOSED, MORE, OK};
use crate::structs::{CCounts, CFacts, CLook, CResponse, CTarget};
use crate::target::tell_target;
use std::alloc::Global;

/// Opens a pool.
#[unsafe(no_mangle)]
pub extern "C" fn curlpool_open(
    pool: &mut Handle,
    alloc: Global,
    hosts: u32,
    host_limit: u32,
    total: u32,
    connects: u32,
) -> u32
    ensures { Opens hosts host_limit total connects result
        pool.old.held.value pool.new.held.value }
{
    if pool.is_open() {
        return ALREADY_OPEN;
    }
    match opened(alloc, hosts, host_limit, total, connects) {
        Ok(inner) => {
            *pool = Handle::open(inner);
            OK
        }
        Err(status) => status,
    }
}

/// Tells the site of a host.
#[unsafe(no_mangle)]
pub extern "C" fn curlpool_site(
    pool: &mut Handle,
    alloc: Global,
    host: &[u8],
    port: u16,
    site: &mut u32,
) -> u32
    ensures done { OnBehind pool.old.held.value pool.new.held.value result (λ old new.
        TellsSite old new (key_of host.now port) result site.old site.new) }
    ensures unwritten { IfNone (held_behind pool.old.held.value) (site.new ≡ site.old) }
{
    let Some(mut inner) = pool.take(alloc) else {
        return CLOSED;
    };
    let status = inner.site(alloc, host, port, site);
    *pool = Handle::open(inner);
    status
}

/// Acquires a connection for a transfer, or begins its wait.
#[unsafe(no_mangle)]
pub extern "C" fn curlpool_acquire(
    pool: &mut Handle,
    alloc: Global,
    site: u32,
    transfer: u64,
    lane: u32,
    max_age: u64,
    max_life: u64,
    flags: u32,
    now: u64,
    slot: &mut u64,
    token: &mut u64,
) -> u32
    ensures done { OnBehind pool.old.held.value pool.new.held.value result (λ old new.
        TellsAcquireOf old new site (wanted transfer lane max_age max_life flags) now result
        slot.old slot.new token.old token.new) }
    ensures unwritten { IfNone (held_behind pool.old.held.value)
        ((slot.new ≡ slot.old) × (token.new ≡ token.old)) }
{
    let Some(mut inner) = pool.take(alloc) else {
        return CLOSED;
    };
    let status = inner.acquire(
        site,
        wanted(transfer, lane, max_age, max_life, flags),
        now,
        slot,
        token,
    );
    *pool = Handle::open(inner);
    status
}

/// Gives the new connection of a slot its token.
#[unsafe(no_mangle)]
pub extern "C" fn curlpool_attach(pool: &mut Handle, alloc: Global, slot: u64, token: u64) -> u32
    ensures { OnBehind pool.old.held.value pool.new.held.value result (λ old new.
        TellsAttach old new (slot_of slot) token result) }
{
    let Some(mut inner) = pool.take(alloc) else {
        return CLOSED;
    };
    let status = inner.attach(alloc, slot, token);
    *pool = Handle::open(inner);
    status
}

/// Claims what the waiter of a slot was granted.
#[unsafe(no_mangle)]
pub extern "C" fn curlpool_claim(
    pool: &mut Handle,
    alloc: Global,
    slot: u64,
    token: &mut u64,
) -> u32
    ensures done { OnBehind pool.old.held.value pool.new.held.value result (λ old new.
        TellsClaim old new (slot_of slot) result token.old token.new) }
    ensures unwritten { IfNone (held_behind pool.old.held.value) (token.new ≡ token.old) }
{
    let Some(mut inner) = pool.take(alloc) else {
        return CLOSED;
    };
    let status = inner.claim(slot, token);
    *pool = Handle::open(inner);
    status
}

/// Tells the next waiter that has its connection.
#[unsafe(no_mangle)]
pub extern "C" fn curlpool_granted(pool: &mut Handle, alloc: Global, slot: &mut u64) -> u32
    ensures done { OnBehind pool.old.held.value pool.new.held.value result (λ old new.
        TellsGranted old new result slot.old slot.new) }
    ensures unwritten { IfNone (held_behind pool.old.held.value) (slot.new ≡ slot.old) }
{
    let Some(mut inner) = pool.take(alloc) else {
        return CLOSED;
    };
    let status = inner.granted(slot);
    *pool = Handle::open(inner);
    status
}

/// Begins the response that is read for a slot.
#[unsafe(no_mangle)]
pub extern "C" fn curlpool_begin(
    pool: &mut Handle,
    alloc: Global,
    slot: u64,
    is_head: bool,
    request_close: bool,
) -> u32
    ensures { OnBehind pool.old.held.value pool.new.held.value result (λ old new.
        TellsBegin old new (slot_of slot) (new_reader (method_of is_head) request_close)
        result) }
{
    let Some(mut inner) = pool.take(alloc) else {
        return CLOSED;
    };
    let status = inner.begin(alloc, slot, method_of(is_head), request_close);
    *pool = Handle::open(inner);
    status
}

/// Reads one piece more of a response.
#[unsafe(no_mangle)]
pub extern "C" fn curlpool_feed(pool: &mut Handle, alloc: Global, slot: u64, bytes: &[u8]) -> u32
    ensures { OnBehind pool.old.held.value pool.new.held.value result (λ old new.
        TellsFeed old new (slot_of slot) bytes.now result) }
{
    let Some(mut inner) = pool.take(alloc) else {
        return CLOSED;
    };
    let status = inner.feed(slot, bytes);
    *pool = Handle::open(inner);
    status
}

/// Tells that the connection of a response has ended.
#[unsafe(no_mangle)]
pub extern "C" fn curlpool_end(pool: &mut Handle, alloc: Global, slot: u64) -> u32
    ensures { OnBehind pool.old.held.value pool.new.held.value result (λ old new.
        TellsEnd old new (slot_of slot) result) }
{
    let Some(mut inner) = pool.take(alloc) else {
        return CLOSED;
    };
    let status = inner.end(slot);
    *pool = Handle::open(inner);
    status
}

/// Tells what a response says so far.
#[unsafe(no_mangle)]
pub extern "C" fn curlpool_response(
    pool: &mut Handle,
    alloc: Global,
    slot: u64,
    response: &mut CResponse,
) -> u32
    ensures done { OfBehind pool.old.held.value pool.new.held.value result (λ held.
        TellsResponse held (slot_of slot) result response.old response.new) }
    ensures unwritten { IfNone (held_behind pool.old.held.value) (response.new ≡ response.old) }
{
    let Some(mut inner) = pool.take(alloc) else {
        return CLOSED;
    };
    let status = inner.response(slot, response);
    *pool = Handle::open(inner);
    status
}

/// Gives a connection back with the facts of the response that was read.
#[unsafe(no_mangle)]
pub extern "C" fn curlpool_give_back(pool: &mut Handle, alloc: Global, slot: u64, now: u64) -> u32
    ensures { OnBehind pool.old.held.value pool.new.held.value result (λ old new.
        TellsGiveBack old new (slot_of slot) now result) }
{
    let Some(mut inner) = pool.take(alloc) else {
        return CLOSED;
    };
    let status = inner.give_back(slot, now);
    *pool = Handle::open(inner);
    status
}

/// Gives a connection back with facts of the caller's own.
#[unsafe(no_mangle)]
pub extern "C" fn curlpool_give_back_as(
    pool: &mut Handle,
    alloc: Global,
    slot: u64,
    facts: &CFacts,
    now: u64,
) -> u32
    ensures { OnBehind pool.old.held.value pool.new.held.value result (λ old new.
        TellsGiveBackOf old new (slot_of slot) (facts_of facts.now) now result) }
{
    let Some(mut inner) = pool.take(alloc) else {
        return CLOSED;
    };
    let status = inner.give_back_as(slot, facts.facts(), now);
    *pool = Handle::open(inner);
    status
}

/// Closes the connection of a slot.
#[unsafe(no_mangle)]
pub extern "C" fn curlpool_abandon(pool: &mut Handle, alloc: Global, slot: u64, now: u64) -> u32
    ensures { OnBehind pool.old.held.value pool.new.held.value result (λ old new.
        TellsAbandon old new (slot_of slot) now result) }
{
    let Some(mut inner) = pool.take(alloc) else {
        return CLOSED;
    };
    let status = inner.abandon(slot, now);
    *pool = Handle::open(inner);
    status
}

/// Ends the wait of a slot.
#[unsafe(no_mangle)]
pub extern "C" fn curlpool_withdraw(pool: &mut Handle, alloc: Global, slot: u64, now: u64) -> u32
    ensures { OnBehind pool.old.held.value pool.new.held.value result (λ old new.
        TellsWithdraw old new (slot_of slot) now result) }
{
    let Some(mut inner) = pool.take(alloc) else {
        return CLOSED;
    };
    let status = inner.withdraw(slot, now);
    *pool = Handle::open(inner);
    status
}

/// Closes each idle connection that is too old.
#[unsafe(no_mangle)]
pub extern "C" fn curlpool_prune(
    pool: &mut Handle,
    alloc: Global,
    max_age: u64,
    max_life: u64,
    now: u64,
    closed: &mut u32,
) -> u32
    ensures done { OnBehind pool.old.held.value pool.new.held.value result (λ old new.
        TellsPrune old new now max_age max_life result closed.new) }
    ensures unwritten { IfNone (held_behind pool.old.held.value) (closed.new ≡ closed.old) }
{
    let Some(mut inner) = pool.take(alloc) else {
        return CLOSED;
    };
    let status = inner.prune(max_age, max_life, now, closed);
    *pool = Handle::open(inner);
    status
}

/// Keeps connections alive.
#[unsafe(no_mangle)]
pub extern "C" fn curlpool_upkeep(pool: &mut Handle, alloc: Global, kept: &mut u32) -> u32
    ensures done { OnBehind pool.old.held.value pool.new.held.value result (λ old new.
        TellsUpkeep old new result kept.new) }
    ensures unwritten { IfNone (held_behind pool.old.held.value) (kept.new ≡ kept.old) }
{
    let Some(mut inner) = pool.take(alloc) else {
        return CLOSED;
    };
    let status = inner.upkeep(kept);
    *pool = Handle::open(inner);
    status
}

/// Changes the limit of a host.
#[unsafe(no_mangle)]
pub extern "C" fn curlpool_set_host_limit(
    pool: &mut Handle,
    alloc: Global,
    site: u32,
    limit: u32,
    now: u64,
) -> u32
    ensures { OnBehind pool.old.held.value pool.new.held.value result (λ old new.
        TellsLimit old new site limit now result) }
{
    let Some(mut inner) = pool.take(alloc) else {
        return CLOSED;
    };
    let status = inner.set_host_limit(site, limit, now);
    *pool = Handle::open(inner);
    status
}

/// Tells the counts of a site at this moment.
#[unsafe(no_mangle)]
pub extern "C" fn curlpool_look(
    pool: &mut Handle,
    alloc: Global,
    site: u32,
    look: &mut CLook,
) -> u32
    ensures done { OfBehind pool.old.held.value pool.new.held.value result (λ held.
        TellsLook held site result look.old look.new) }
    ensures unwritten { IfNone (held_behind pool.old.held.value) (look.new ≡ look.old) }
{
    let Some(mut inner) = pool.take(alloc) else {
        return CLOSED;
    };
    let status = inner.look(site, look);
    *pool = Handle::open(inner);
    status
}

/// Tells what happened at a site.
#[unsafe(no_mangle)]
pub extern "C" fn curlpool_counts(
    pool: &mut Handle,
    alloc: Global,
    site: u32,
    counts: &mut CCounts,
) -> u32
    ensures done { OfBehind pool.old.held.value pool.new.held.value result (λ held.
        TellsCounts held site result counts.old counts.new) }
    ensures unwritten { IfNone (held_behind pool.old.held.value) (counts.new ≡ counts.old) }
{
    let Some(mut inner) = pool.take(alloc) else {
        return CLOSED;
    };
    let status = inner.counts(site, counts);
    *pool = Handle::open(inner);
    status
}

/// Tells the log of a site, and cuts it once all of it was told.
#[unsafe(no_mangle)]
pub extern "C" fn curlpool_take_log(
    pool: &mut Handle,
    alloc: Global,
    site: u32,
    buffer: &mut [u8],
    written: &mut usize,
) -> u32
    ensures { TakesBehind pool.old.held.value pool.new.held.value site result
        buffer.old buffer.new written.old written.new }
{
    let Some(mut inner) = pool.take(alloc) else {
        return CLOSED;
    };
    let status = inner.take_log(alloc, site, buffer, written);
    *pool = Handle::open(inner);
    status
}

/// Cuts all logs.
#[unsafe(no_mangle)]
pub extern "C" fn curlpool_drop_logs(pool: &mut Handle, alloc: Global) -> u32
    ensures { DropsBehind pool.old.held.value pool.new.held.value result }
{
    let Some(mut inner) = pool.take(alloc) else {
        return CLOSED;
    };
    let status = inner.drop_logs();
    *pool = Handle::open(inner);
    status
}

/// Tells the next connection that the pool has closed.
#[unsafe(no_mangle)]
pub extern "C" fn curlpool_closed(pool: &mut Handle, alloc: Global, token: &mut u64) -> u32
    ensures { TellsClosedBehind pool.old.held.value pool.new.held.value result
        token.old token.new }
{
    let Some(mut inner) = pool.take(alloc) else {
        return CLOSED;
    };
    let status = inner.closed(token);
    *pool = Handle::open(inner);
    status
}

/// Ends all that the pool has.
#[unsafe(no_mangle)]
pub extern "C" fn curlpool_close_all(pool: &mut Handle, alloc: Global, now: u64) -> u32
    ensures { EndsBehind pool.old.held.value pool.new.held.value now result }
{
    let Some(mut inner) = pool.take(alloc) else {
        return CLOSED;
    };
    let status = inner.close_all(now);
    *pool = Handle::open(inner);
    status
}

/// Gives all memory back.
#[unsafe(no_mangle)]
pub extern "C" fn curlpool_close(pool: &mut Handle, alloc: Global) -> u32
    ensures { Closes pool.old.held.value pool.new.held.value result }
{
    let Some(mut inner) = pool.take(alloc) else {
        return OK;
    };
    if inner.is_told() {
        return OK;
    }
    *pool = Handle::open(inner);
    MORE
}

/// Reads a URL.
#[unsafe(no_mangle)]
pub extern "C" fn curlpool_target(
    alloc: Global,
    url: &[u8],
    buffer: &mut [u8],
    target: &mut CTarget,
) -> u32
    ensures { TellsTarget url.now result buffer.old buffer.new target.old target.new }
{
    tell_target(alloc, url, buffer, target)
}
