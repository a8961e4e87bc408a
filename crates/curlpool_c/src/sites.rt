//! What is asked of sites, and what is told of them.

ghost use Rattle.std.specs.Prelude.{◌≡◌, IfNone, IfOk, string_bytes, unwrap_or};
ghost use Rattle.curlpool_c.specs.Behind.{OfHeld, OnHeld, SameBeside};
ghost use Rattle.curlpool_c.specs.Numbers.{slot_of};
ghost use Rattle.curlpool_c.specs.Sites.{TellsClosed, TellsCounts, TellsLimit, TellsLook};
ghost use Rattle.curlpool_c.specs.Sites.{TellsPrune, TellsResponse, TellsSite, TellsUpkeep};
ghost use Rattle.curlpool_c.specs.Sites.{key_of, next_status};

use crate::inner::Inner;
use crate::slots::slot_of;
use crate::status::{CLOSED, NO_MEMORY, NONE, NOT_TEXT, OK, UNREAD, place_status, refusal_status};
use crate::structs::{CCounts, CLook, CResponse};
use held_pool::HeldPool;
use std::alloc::{AllocError, Global};

// The key of a host and a port.
fn key_of(alloc: Global, host: &str, port: u16) -> Result<String, AllocError>
    ensures { IfOk result (λ key. string_bytes key ≡ key_of host.now port) }
{
    match format!(in alloc; "{host}:{port}") {
        Ok(key) => Ok(key),
        Err(_) => Err(AllocError),
    }
}

// Tells the next closed token.
fn tell_next(next: Option<u64>, token: &mut u64) -> u32
    ensures status { result ≡ next_status next }
    ensures token { token.new ≡ unwrap_or next token.old }
{
    match next {
        Some(number) => {
            *token = number;
            OK
        }
        None => NONE,
    }
}

// The site of a host.
fn site_in(held: &mut HeldPool, alloc: Global, host: &[u8], port: u16, site: &mut u32) -> u32
    ensures { TellsSite held.old held.new (key_of host.now port) result site.old site.new }
{
    let Ok(host) = str::from_utf8(host) else {
        return NOT_TEXT;
    };
    let Ok(key) = key_of(alloc, host, port) else {
        return NO_MEMORY;
    };
    match held.site(key.as_str()) {
        Ok(place) => {
            *site = place;
            OK
        }
        Err(error) => place_status(error),
    }
}

impl Inner {
    // The site of a host.
    pub(crate) fn site(&mut self, alloc: Global, host: &[u8], port: u16, site: &mut u32) -> u32
        ensures done { OnHeld self.old.held self.new.held result (λ old new.
            TellsSite old new (key_of host.now port) result site.old site.new) }
        ensures rest { SameBeside self.old self.new }
        ensures unwritten { IfNone self.old.held (site.new ≡ site.old) }
    {
        let Some(held) = &mut self.held else {
            return CLOSED;
        };
        site_in(held, alloc, host, port, site)
    }

    // Closes what is too old.
    pub(crate) fn prune(&mut self, max_age: u64, max_life: u64, now: u64, closed: &mut u32) -> u32
        ensures done { OnHeld self.old.held self.new.held result (λ old new.
            TellsPrune old new now max_age max_life result closed.new) }
        ensures rest { SameBeside self.old self.new }
        ensures unwritten { IfNone self.old.held (closed.new ≡ closed.old) }
    {
        let Some(held) = &mut self.held else {
            return CLOSED;
        };
        *closed = held.prune(now, max_age, max_life);
        OK
    }

    // Keeps connections alive.
    pub(crate) fn upkeep(&mut self, kept: &mut u32) -> u32
        ensures done { OnHeld self.old.held self.new.held result (λ old new.
            TellsUpkeep old new result kept.new) }
        ensures rest { SameBeside self.old self.new }
        ensures unwritten { IfNone self.old.held (kept.new ≡ kept.old) }
    {
        let Some(held) = &mut self.held else {
            return CLOSED;
        };
        *kept = held.upkeep();
        OK
    }

    // Changes a host's limit.
    pub(crate) fn set_host_limit(&mut self, site: u32, limit: u32, now: u64) -> u32
        ensures done { OnHeld self.old.held self.new.held result (λ old new.
            TellsLimit old new site limit now result) }
        ensures rest { SameBeside self.old self.new }
    {
        let Some(held) = &mut self.held else {
            return CLOSED;
        };
        match held.set_host_limit(site, limit, now) {
            Ok(()) => OK,
            Err(refusal) => refusal_status(refusal),
        }
    }

    // The counts of a site at this moment.
    pub(crate) fn look(&self, site: u32, look: &mut CLook) -> u32
        ensures done { OfHeld self.now.held result (λ held.
            TellsLook held site result look.old look.new) }
        ensures unwritten { IfNone self.now.held (look.new ≡ look.old) }
    {
        let Some(held) = &self.held else {
            return CLOSED;
        };
        match held.look(site) {
            Ok(counts) => {
                *look = CLook::of(&counts);
                OK
            }
            Err(refusal) => refusal_status(refusal),
        }
    }

    // What happened at a site.
    pub(crate) fn counts(&self, site: u32, told: &mut CCounts) -> u32
        ensures done { OfHeld self.now.held result (λ held.
            TellsCounts held site result told.old told.new) }
        ensures unwritten { IfNone self.now.held (told.new ≡ told.old) }
    {
        let Some(held) = &self.held else {
            return CLOSED;
        };
        match held.counts(site) {
            Ok(counts) => {
                *told = CCounts::of(&counts);
                OK
            }
            Err(refusal) => refusal_status(refusal),
        }
    }

    // What the response of a slot's lease tells.
    pub(crate) fn response(&self, slot: u64, told: &mut CResponse) -> u32
        ensures done { OfHeld self.now.held result (λ held.
            TellsResponse held (slot_of slot) result told.old told.new) }
        ensures unwritten { IfNone self.now.held (told.new ≡ told.old) }
    {
        let Some(held) = &self.held else {
            return CLOSED;
        };
        match held.response(slot_of(slot)) {
            Some(response) => {
                *told = CResponse::of(&response);
                OK
            }
            None => UNREAD,
        }
    }

    // The next connection that the pool has closed, also once all was ended.
    pub(crate) fn closed(&mut self, token: &mut u64) -> u32
        ensures { TellsClosed self.old self.new result token.old token.new }
    {
        if let Some(held) = &mut self.held {
            return tell_next(held.next_closed(), token);
        }
        if let Some(tokens) = &mut self.closing {
            return tell_next(tokens.next(), token);
        }
        CLOSED
    }
}
