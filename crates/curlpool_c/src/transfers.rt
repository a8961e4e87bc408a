//! How transfers get connections, and how these come back.

ghost use Rattle.std.specs.Prelude.{◌≡◌, IfNone};
ghost use Rattle.persistence.specs.Reader.{new_reader};
ghost use Rattle.curlpool_c.specs.Behind.{OnHeld, SameBeside};
ghost use Rattle.curlpool_c.specs.Numbers.{slot_of};
ghost use Rattle.curlpool_c.specs.Transfers.{TellsAcquire, TellsAcquireOf, TellsAttach};
ghost use Rattle.curlpool_c.specs.Transfers.{TellsClaim, TellsGranted, TellsBegin, TellsFeed};
ghost use Rattle.curlpool_c.specs.Transfers.{TellsEnd, TellsGiveBack, TellsGiveBackAs};
ghost use Rattle.curlpool_c.specs.Transfers.{TellsGiveBackOf, TellsAbandon, TellsWithdraw};
ghost use Rattle.curlpool_c.specs.Transfers.{done_status, token_told};

use crate::inner::Inner;
use crate::slots::{number_of, slot_of};
use crate::status::{
    BAD_VALUE, CLOSED, MORE, NONE, OK, UNREAD, WHOLE, feed_status, got_status, refusal_status,
    slot_status,
};
use conn_log::Want;
use held_pool::{HeldPool, SlotAnswer, SlotError};
use persistence::{Facts, Fed, Method};
use std::alloc::Global;

// Writes the token that is told with what a transfer got, if one is.
#[inline(always)]
fn tell_token(got: SlotAnswer, token: &mut u64)
    ensures { token.new ≡ token_told got token.old }
{
    if let SlotAnswer::Reused(number) = got {
        *token = number;
    }
}

// The status of a call by slot.
#[inline(always)]
fn done_status(answer: Result<(), SlotError>) -> u32
    ensures { result ≡ done_status answer }
{
    match answer {
        Ok(()) => OK,
        Err(error) => slot_status(error),
    }
}

// Acquires what is wanted.
#[inline(always)]
fn acquire_from(
    held: &mut HeldPool,
    site: u32,
    want: Want,
    now: u64,
    slot: &mut u64,
    token: &mut u64,
) -> u32
    ensures { TellsAcquire held.old held.new site want now result
        slot.old slot.new token.old token.new }
{
    match held.acquire(site, want, now) {
        Ok((given, got)) => {
            *slot = number_of(given);
            tell_token(got, token);
            got_status(got)
        }
        Err(refusal) => refusal_status(refusal),
    }
}

// Gives a lease back with these facts, which are passed in memory: in registers they are packed
// and unpacked byte by byte.
#[inline(never)]
fn give_back_to(held: &mut HeldPool, slot: u64, facts: &Facts, now: u64) -> u32
    ensures { TellsGiveBackAs held.old held.new (slot_of slot) facts.now now result }
{
    let answer = held.give_back_as(slot_of(slot), *facts, now);
    done_status(answer)
}

impl Inner {
    // Acquires a connection, or a wait.
    #[inline(always)]
    pub(crate) fn acquire(
        &mut self,
        site: u32,
        want: Option<Want>,
        now: u64,
        slot: &mut u64,
        token: &mut u64,
    ) -> u32
        ensures done { OnHeld self.old.held self.new.held result (λ old new.
            TellsAcquireOf old new site want now result slot.old slot.new token.old token.new) }
        ensures rest { SameBeside self.old self.new }
        ensures unwritten { IfNone self.old.held
            ((slot.new ≡ slot.old) × (token.new ≡ token.old)) }
    {
        let Some(held) = &mut self.held else {
            return CLOSED;
        };
        let Some(want) = want else {
            return BAD_VALUE;
        };
        acquire_from(held, site, want, now, slot, token)
    }

    // Attaches a token.
    pub(crate) fn attach(&mut self, alloc: Global, slot: u64, token: u64) -> u32
        ensures done { OnHeld self.old.held self.new.held result (λ old new.
            TellsAttach old new (slot_of slot) token result) }
        ensures rest { SameBeside self.old self.new }
    {
        let Some(held) = &mut self.held else {
            return CLOSED;
        };
        let answer = held.attach(alloc, slot_of(slot), token);
        done_status(answer)
    }

    // Claims what a waiter was granted.
    pub(crate) fn claim(&mut self, slot: u64, token: &mut u64) -> u32
        ensures done { OnHeld self.old.held self.new.held result (λ old new.
            TellsClaim old new (slot_of slot) result token.old token.new) }
        ensures rest { SameBeside self.old self.new }
        ensures unwritten { IfNone self.old.held (token.new ≡ token.old) }
    {
        let Some(held) = &mut self.held else {
            return CLOSED;
        };
        match held.claim(slot_of(slot)) {
            Ok(got) => {
                tell_token(got, token);
                got_status(got)
            }
            Err(error) => slot_status(error),
        }
    }

    // Tells the next waiter that has its connection.
    pub(crate) fn granted(&mut self, slot: &mut u64) -> u32
        ensures done { OnHeld self.old.held self.new.held result (λ old new.
            TellsGranted old new result slot.old slot.new) }
        ensures rest { SameBeside self.old self.new }
        ensures unwritten { IfNone self.old.held (slot.new ≡ slot.old) }
    {
        let Some(held) = &mut self.held else {
            return CLOSED;
        };
        match held.granted() {
            Some(given) => {
                *slot = number_of(given);
                OK
            }
            None => NONE,
        }
    }

    // Begins the response of a lease.
    pub(crate) fn begin(
        &mut self,
        alloc: Global,
        slot: u64,
        method: Method,
        request_close: bool,
    ) -> u32
        ensures done { OnHeld self.old.held self.new.held result (λ old new.
            TellsBegin old new (slot_of slot) (new_reader method request_close) result) }
        ensures rest { SameBeside self.old self.new }
    {
        let Some(held) = &mut self.held else {
            return CLOSED;
        };
        let answer = held.begin_response(alloc, slot_of(slot), method, request_close);
        done_status(answer)
    }

    // Reads one piece more of it.
    #[inline(always)]
    pub(crate) fn feed(&mut self, slot: u64, piece: &[u8]) -> u32
        ensures done { OnHeld self.old.held self.new.held result (λ old new.
            TellsFeed old new (slot_of slot) piece.now result) }
        ensures rest { SameBeside self.old self.new }
    {
        let Some(held) = &mut self.held else {
            return CLOSED;
        };
        match held.feed(slot_of(slot), piece) {
            Ok(Fed::More) => MORE,
            Ok(Fed::Whole) => WHOLE,
            Err(error) => feed_status(error),
        }
    }

    // Tells that its connection has ended.
    pub(crate) fn end(&mut self, slot: u64) -> u32
        ensures done { OnHeld self.old.held self.new.held result (λ old new.
            TellsEnd old new (slot_of slot) result) }
        ensures rest { SameBeside self.old self.new }
    {
        let Some(held) = &mut self.held else {
            return CLOSED;
        };
        if held.end(slot_of(slot)) { OK } else { UNREAD }
    }

    // Gives a lease back with the facts of its response.
    #[inline(always)]
    pub(crate) fn give_back(&mut self, slot: u64, now: u64) -> u32
        ensures done { OnHeld self.old.held self.new.held result (λ old new.
            TellsGiveBack old new (slot_of slot) now result) }
        ensures rest { SameBeside self.old self.new }
    {
        let Some(held) = &mut self.held else {
            return CLOSED;
        };
        let answer = held.give_back(slot_of(slot), now);
        done_status(answer)
    }

    // Gives it back with facts of the caller's own.
    #[inline(always)]
    pub(crate) fn give_back_as(&mut self, slot: u64, facts: Option<Facts>, now: u64) -> u32
        ensures done { OnHeld self.old.held self.new.held result (λ old new.
            TellsGiveBackOf old new (slot_of slot) facts now result) }
        ensures rest { SameBeside self.old self.new }
    {
        let Some(held) = &mut self.held else {
            return CLOSED;
        };
        let Some(facts) = facts else {
            return BAD_VALUE;
        };
        give_back_to(held, slot, &facts, now)
    }

    // Abandons a lease.
    pub(crate) fn abandon(&mut self, slot: u64, now: u64) -> u32
        ensures done { OnHeld self.old.held self.new.held result (λ old new.
            TellsAbandon old new (slot_of slot) now result) }
        ensures rest { SameBeside self.old self.new }
    {
        let Some(held) = &mut self.held else {
            return CLOSED;
        };
        let answer = held.abandon(slot_of(slot), now);
        done_status(answer)
    }

    // Withdraws a ticket.
    pub(crate) fn withdraw(&mut self, slot: u64, now: u64) -> u32
        ensures done { OnHeld self.old.held self.new.held result (λ old new.
            TellsWithdraw old new (slot_of slot) now result) }
        ensures rest { SameBeside self.old self.new }
    {
        let Some(held) = &mut self.held else {
            return CLOSED;
        };
        let answer = held.withdraw(slot_of(slot), now);
        done_status(answer)
    }
}
