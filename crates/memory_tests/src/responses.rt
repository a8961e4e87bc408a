//! A reader of responses that is out of memory.

use crate::checks::check_eq;
use persistence::{Fed, Method, ReadFault, ResponseReader};

/// A response of two body bytes, with a trailer section.
const CHUNKED: &str =
    "HTTP/1.1 200 OK\r\nTransfer-Encoding: chunked\r\n\r\n2\r\nok\r\n0\r\nT: v\r\n\r\n";

/// Passes whichever allocation fails: `new` says so, and what follows asks for none.
#[test]
fn want_of_memory_refuses_a_reader(rt: HostRuntime) {
    match ResponseReader::new(rt.alloc(), Method::Get, false) {
        Ok(mut reader) => {
            for piece in CHUNKED.as_bytes().chunks(1) {
                assert!(rt; !reader.ended());
                let found = reader.feed(piece).expect(&rt, "a response");
                check_eq(&rt, matches!(found, Fed::Whole), reader.facts().whole);
            }
            assert!(rt; reader.facts().whole);
            check_eq(&rt, reader.body_len(), 2);
        }
        Err(fault) => check_eq(&rt, fault, ReadFault::Memory),
    }
}
