ghost use Rattle.std.specs.Prelude.{◌≡◌, ℕ, ◌+◌, ◌<◌, ◌≤◌, ◌==◌, None, Some, IsSome, IfSome};
ghost use Rattle.std.specs.Prelude.{IfNone, OnSome, true, false, nat_eq, if◌then◌else◌};
ghost use Rattle.std.specs.HashMap.{get, hash_map_len, spare};
ghost use Rattle.host_state.specs.State.{is_that, EntersHeld, TakesHeld};

use std::collections::HashMap;
use std::collections::hash_map::Entry;

/// What is kept of a connection while a transfer holds it.
#[derive(Clone, Copy, Debug)]
pub struct Held {
    pub number: u32,
    pub lane: u32,
    /// The moment in which it was opened, in seconds.
    pub born: u64,
    /// The want of its transfer forbids reuse.
    pub forbids_reuse: bool,
}

/// Enters what a transfer holds, in room made before.
#[inline(always)]
pub(crate) fn enter(table: &mut HashMap<u64, Held>, transfer: u64, held: Held)
    requires room { 0 < spare table.old }
    requires absent { get nat_eq table.old transfer ≡ None }
    ensures entered { EntersHeld (get nat_eq table.old) (get nat_eq table.new) transfer held }
    ensures len { hash_map_len table.new ≡ hash_map_len table.old + 1 }
    ensures room { spare table.old ≤ spare table.new + 1 }
{
    let earlier: Result<_, _> = table.insert(transfer, held);
    let _ = earlier.unwrap();
}

/// Enters what a transfer holds, in one search of the table. Where it holds something already, or
/// memory runs out, what each transfer holds stays.
#[inline(always)]
pub(crate) fn enter_if_free(table: &mut HashMap<u64, Held>, transfer: u64, held: Held) -> bool
    ensures free { result ≡ true → get nat_eq table.old transfer ≡ None }
    ensures entered { result ≡ true →
        EntersHeld (get nat_eq table.old) (get nat_eq table.new) transfer held }
    ensures len { result ≡ true → hash_map_len table.new ≡ hash_map_len table.old + 1 }
    ensures kept { result ≡ false → (t : ℕ) → get nat_eq table.new t ≡ get nat_eq table.old t }
    ensures kept_len { result ≡ false → hash_map_len table.new ≡ hash_map_len table.old }
{
    match table.insert(transfer, held) {
        Ok(None) => true,
        Ok(Some(earlier)) => {
            let again: Result<_, _> = table.insert(transfer, earlier);
            let _ = again.unwrap();
            false
        }
        Err(_) => false,
    }
}

/// Takes out what a transfer holds.
#[inline(always)]
pub(crate) fn take_out(table: &mut HashMap<u64, Held>, transfer: u64)
    requires { IsSome (get nat_eq table.old transfer) }
    ensures taken { TakesHeld (get nat_eq table.old) (get nat_eq table.new) transfer }
    ensures len { hash_map_len table.new + 1 ≡ hash_map_len table.old }
    ensures room { spare table.old ≤ spare table.new }
{
    let _ = table.remove(&transfer);
}

/// Takes out what a transfer holds, where it is the connection of that number. The table keeps room
/// for so many more; where that is none, it is searched once.
#[inline(always)]
pub(crate) fn take_out_number(
    table: &mut HashMap<u64, Held>,
    transfer: u64,
    number: u32,
    more: usize,
) -> Option<Held>
    ensures strange { IfNone result (is_that number (get nat_eq table.old transfer) ≡ false) }
    ensures kept { IfNone result ((t : ℕ) → get nat_eq table.new t ≡ get nat_eq table.old t) }
    ensures kept_len { IfNone result (hash_map_len table.new ≡ hash_map_len table.old) }
    ensures there { IfSome result (λ held. get nat_eq table.old transfer ≡ Some held) }
    ensures number { IfSome result (λ held. held.number ≡ number) }
    ensures taken { OnSome result
        (TakesHeld (get nat_eq table.old) (get nat_eq table.new) transfer) }
    ensures len { OnSome result (hash_map_len table.new + 1 ≡ hash_map_len table.old) }
    ensures room { more ≤ spare table.old → more ≤ spare table.new }
{
    if more == 0 {
        return take_out_at_once(table, transfer, number);
    }
    let held = *table.get(&transfer)?;
    if held.number != number {
        return None;
    }
    take_out(table, transfer);
    Some(held)
}

// The same in one search. std does not say what room a removal through an entry leaves.
#[inline(always)]
fn take_out_at_once(table: &mut HashMap<u64, Held>, transfer: u64, number: u32) -> Option<Held>
    ensures strange { IfNone result (is_that number (get nat_eq table.old transfer) ≡ false) }
    ensures kept { IfNone result ((t : ℕ) → get nat_eq table.new t ≡ get nat_eq table.old t) }
    ensures kept_len { IfNone result (hash_map_len table.new ≡ hash_map_len table.old) }
    ensures there { IfSome result (λ held. get nat_eq table.old transfer ≡ Some held) }
    ensures number { IfSome result (λ held. held.number ≡ number) }
    ensures taken { OnSome result
        (TakesHeld (get nat_eq table.old) (get nat_eq table.new) transfer) }
    ensures len { OnSome result (hash_map_len table.new + 1 ≡ hash_map_len table.old) }
{
    match table.entry(transfer) {
        Ok(Entry::Occupied(entry)) => {
            if entry.get().number != number {
                return None;
            }
            Some(entry.remove())
        }
        Ok(Entry::Vacant(entry)) => {
            let _ = entry.into_key();
            None
        }
        Err(_) => None,
    }
}
