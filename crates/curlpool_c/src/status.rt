//! The statuses that calls answer. `c/curlpool.h` has the same numbers.

ghost use Rattle.std.specs.Prelude.{◌≡◌};
ghost use Rattle.curlpool_c.specs.Statuses.{feed_status, got_status, key_status, place_status};
ghost use Rattle.curlpool_c.specs.Statuses.{fault_status, refusal_status, slot_status};

use budget::Refusal;
use conn_key::{KeyError, PlaceError};
use held_pool::{FeedError, SlotAnswer, SlotError};
use persistence::ReadFault;

/// It is done.
pub const OK: u32 = 0;
/// The transfer has a new connection, which the caller dials.
pub const NEW: u32 = 1;
/// The transfer has a connection that was idle.
pub const REUSED: u32 = 2;
/// The transfer waits.
pub const WAIT: u32 = 3;
/// There is more to come, or to take.
pub const MORE: u32 = 4;
/// The response is whole.
pub const WHOLE: u32 = 5;
/// There is nothing to tell.
pub const NONE: u32 = 6;
/// There is no memory.
pub const NO_MEMORY: u32 = 7;
/// Each site is in use.
pub const FULL: u32 = 8;
/// The slot has nothing of that kind, or has it no more.
pub const STRANGER: u32 = 9;
/// There is no open pool behind the handle.
pub const CLOSED: u32 = 10;
/// There is an open pool behind the handle already.
pub const ALREADY_OPEN: u32 = 11;
/// The numbers are no limits, or too many hosts.
pub const BAD_LIMIT: u32 = 12;
/// There is no such site.
pub const BAD_SITE: u32 = 13;
/// The transfer has a connection of the site already, or waits there.
pub const BUSY: u32 = 14;
/// The site has no connection numbers left.
pub const EXHAUSTED: u32 = 15;
/// More connections are leased than the limit allows.
pub const LEASED: u32 = 16;
/// The connection has no token yet.
pub const UNATTACHED: u32 = 17;
/// The connection has its token already.
pub const ATTACHED: u32 = 18;
/// No response was begun for the slot's lease.
pub const UNREAD: u32 = 19;
/// The connection of the response has ended.
pub const ENDED: u32 = 20;
/// A flag or a number stands for nothing.
pub const BAD_VALUE: u32 = 21;
/// The response's head is none.
pub const BAD_HEAD: u32 = 22;
/// The response has no valid content length.
pub const BAD_LENGTH: u32 = 23;
/// A chunk of the response is none.
pub const BAD_CHUNK: u32 = 24;
/// The response's head is too long.
pub const HEAD_TOO_LONG: u32 = 25;
/// The response has too many interim heads.
pub const TOO_MANY_INTERIMS: u32 = 26;
/// The response's trailer section is too long.
pub const TRAILER_TOO_LONG: u32 = 27;
/// The bytes are not UTF-8.
pub const NOT_TEXT: u32 = 28;
/// The text is not a URL.
pub const NOT_URL: u32 = 29;
/// The URL is not an http URL.
pub const NOT_HTTP: u32 = 30;
/// The URL is too long.
pub const URL_TOO_LONG: u32 = 31;
/// The buffer is too small.
pub const SMALL: u32 = 32;

// What a transfer got.
#[inline(always)]
pub(crate) fn got_status(got: SlotAnswer) -> u32
    ensures { result ≡ got_status got }
{
    match got {
        SlotAnswer::New => NEW,
        SlotAnswer::Reused(_) => REUSED,
        SlotAnswer::Wait => WAIT,
    }
}

// Why the pool refused.
pub(crate) fn refusal_status(refusal: Refusal) -> u32
    ensures { result ≡ refusal_status refusal }
{
    match refusal {
        Refusal::Memory => NO_MEMORY,
        Refusal::BadSite => BAD_SITE,
        Refusal::TransferBusy => BUSY,
        Refusal::StrangeLease | Refusal::StrangeTicket | Refusal::PassesMissing => STRANGER,
        Refusal::Exhausted => EXHAUSTED,
        Refusal::Busy(_) => LEASED,
        Refusal::BadLimit => BAD_LIMIT,
    }
}

// Why a call by slot changed nothing.
pub(crate) fn slot_status(error: SlotError) -> u32
    ensures { result ≡ slot_status error }
{
    match error {
        SlotError::Stranger => STRANGER,
        SlotError::Unattached => UNATTACHED,
        SlotError::Attached => ATTACHED,
        SlotError::Unread => UNREAD,
        SlotError::Memory => NO_MEMORY,
    }
}

// Why a response was not read on.
pub(crate) fn feed_status(error: FeedError) -> u32
    ensures { result ≡ feed_status error }
{
    match error {
        FeedError::NoReader => UNREAD,
        FeedError::Ended => ENDED,
        FeedError::Fault(fault) => fault_status(fault),
    }
}

// Why bytes are no response.
fn fault_status(fault: ReadFault) -> u32
    ensures { result ≡ fault_status fault }
{
    match fault {
        ReadFault::Memory => NO_MEMORY,
        ReadFault::BadHead => BAD_HEAD,
        ReadFault::BadLength => BAD_LENGTH,
        ReadFault::BadChunk => BAD_CHUNK,
        ReadFault::HeadTooLong => HEAD_TOO_LONG,
        ReadFault::TooManyInterims => TOO_MANY_INTERIMS,
        ReadFault::TrailerTooLong => TRAILER_TOO_LONG,
    }
}

// Why a host was given no site.
pub(crate) fn place_status(error: PlaceError) -> u32
    ensures { result ≡ place_status error }
{
    match error {
        PlaceError::Memory => NO_MEMORY,
        PlaceError::Full => FULL,
    }
}

// Why a text gives no target.
pub(crate) fn key_status(error: KeyError) -> u32
    ensures { result ≡ key_status error }
{
    match error {
        KeyError::Memory => NO_MEMORY,
        KeyError::NotUrl => NOT_URL,
        KeyError::NotHttp => NOT_HTTP,
        KeyError::TooLong => URL_TOO_LONG,
    }
}
