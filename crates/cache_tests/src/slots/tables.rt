//! Slots of a table, and tokens that were dropped.

use crate::checks::check_eq;
use held_pool::{ClosedTokens, Slot, SlotTable};
use std::alloc::AllocError;

/// Puts a value into a new slot, for which room is made before.
fn put(table: &mut SlotTable<u64>, value: u64) -> Result<Slot, AllocError> {
    table.reserve()?;
    Ok(table.put(value))
}

/// Empties a table, and lets go of it.
fn end(table: SlotTable<u64>) {
    let mut table = table;
    while let Some(_value) = table.pop() {}
    table.destroy_empty();
}

#[test]
fn a_slot_names_its_value_until_that_is_taken_out(rt: HostRuntime) {
    let mut table = SlotTable::new(rt.alloc());
    let first = put(&mut table, 7).expect(&rt, "memory");
    let second = put(&mut table, 8).expect(&rt, "memory");
    check_eq(&rt, table.get(first), Some(&7));
    check_eq(&rt, table.take(first), Some(7));
    check_eq(&rt, table.take(first), None);
    check_eq(&rt, table.get(second), Some(&8));
    // The place is used again, under another slot.
    let third = put(&mut table, 9).expect(&rt, "memory");
    check_eq(&rt, third.index, first.index);
    check_eq(&rt, third.generation, 2);
    check_eq(&rt, table.get(first), None);
    check_eq(&rt, table.get(third), Some(&9));
    end(table);
}

#[test]
fn tokens_are_told_once_each(rt: HostRuntime) {
    let mut closed = ClosedTokens::new(rt.alloc()).expect(&rt, "memory");
    let first = closed.token(rt.alloc(), 1).expect(&rt, "memory");
    let second = closed.token(rt.alloc(), 2).expect(&rt, "memory");
    let third = closed.token(rt.alloc(), 3).expect(&rt, "memory");
    check_eq(&rt, closed.next(), None);
    drop(second);
    drop(first);
    check_eq(&rt, closed.next(), Some(1));
    drop(third);
    check_eq(&rt, closed.next(), Some(2));
    check_eq(&rt, closed.next(), Some(3));
    check_eq(&rt, closed.next(), None);
}
