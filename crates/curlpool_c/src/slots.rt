//! Slots and wants, as the numbers that C passes.

ghost use Rattle.std.specs.Prelude.{◌≡◌};
ghost use Rattle.curlpool_c.specs.Numbers.{method_of, slot_of, wanted};

use conn_log::Want;
use held_pool::Slot;
use persistence::Method;

/// The slot with this number: its index, and for how many values its place was filled.
#[inline(always)]
pub(crate) fn slot_of(number: u64) -> Slot
    ensures { result ≡ slot_of number }
{
    Slot {
        index: (number % 4_294_967_296) as u32,
        generation: (number / 4_294_967_296) as u32,
    }
}

/// Its number.
#[inline(always)]
pub(crate) fn number_of(slot: Slot) -> u64
    ensures { slot_of result ≡ slot }
{
    slot.generation as u64 * 4_294_967_296 + slot.index as u64
}

/// What a transfer wants, with these flags: 1 for only a new connection, 2 for one that is closed
/// after its use. `None` if there are other flags.
#[inline(always)]
pub(crate) fn wanted(
    transfer: u64,
    lane: u32,
    max_age: u64,
    max_life: u64,
    flags: u32,
) -> Option<Want>
    ensures { result ≡ wanted transfer lane max_age max_life flags }
{
    if flags > 3 {
        return None;
    }
    Some(Want {
        transfer,
        max_age,
        max_life,
        lane,
        fresh: flags == 1 || flags == 3,
        forbid_reuse: flags >= 2,
    })
}

/// The method of a request.
pub(crate) fn method_of(is_head: bool) -> Method
    ensures { result ≡ method_of is_head }
{
    if is_head { Method::Head } else { Method::Get }
}
