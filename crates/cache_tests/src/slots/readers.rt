//! Readers of responses by slot.

use crate::checks::check_eq;
use held_pool::{FeedError, Slot, SlotReaders};
use persistence::{Fed, Method, ReadFault};

const RESPONSE: &[u8] = b"HTTP/1.1 200 OK\r\nContent-Length: 3\r\n\r\nabc";

#[test]
fn each_slot_has_its_own_reader(rt: HostRuntime) {
    let one = Slot {
        index: 0,
        generation: 1,
    };
    let other = Slot {
        index: 3,
        generation: 1,
    };
    let later = Slot {
        index: 0,
        generation: 2,
    };
    let mut readers = SlotReaders::new(rt.alloc());
    check_eq(&rt, readers.feed(one, RESPONSE), Err(FeedError::NoReader));
    readers
        .begin(rt.alloc(), one, Method::Get, false)
        .expect(&rt, "memory");
    readers
        .begin(rt.alloc(), other, Method::Get, false)
        .expect(&rt, "memory");
    check_eq(&rt, readers.feed(one, RESPONSE), Ok(Fed::Whole));
    check_eq(&rt, readers.feed(other, b"HTTP/1.1 2"), Ok(Fed::More));
    check_eq(
        &rt,
        readers.response(one).map(|told| told.persists),
        Some(true),
    );
    check_eq(
        &rt,
        readers.response(other).map(|told| told.persists),
        Some(false),
    );
    assert!(rt; readers.end(other));
    check_eq(&rt, readers.feed(other, b"0"), Err(FeedError::Ended));
    // The reader is used again for another slot of its index.
    readers
        .begin(rt.alloc(), later, Method::Get, true)
        .expect(&rt, "memory");
    check_eq(&rt, readers.response(one), None);
    check_eq(
        &rt,
        readers.feed(later, b"FTP"),
        Err(FeedError::Fault(ReadFault::BadHead)),
    );
    assert!(rt; !readers.end(one));
}
