//! Connections in memory, and what a desk's cache has to show, as tests of desks ask for it.

ghost use Rattle.std.specs.Prelude.{◌<◌, length};
ghost use Rattle.shared_cache.specs.Passes.{IsPassOf};

use crate::making::{KEEP, WANT, gathered_with};
use budget::Pass;
use bundle::{Bundle, Did};
use conn_log::{Entry, Event};
use exchange_memory::{MemoryDial, MemoryWire};
use shared_cache::{Gathered, Names, SharedCache};
use std::alloc::AllocGlobal;
use std::process::Abort;
use std::sync::Wait;

/// A response with a body of two bytes, whose facts are those.
pub(crate) const OK: &[u8] = b"HTTP/1.1 200 OK\r\nContent-Length: 2\r\n\r\nok";

/// The room of a wire for what is sent.
const ROOM: usize = 200;

/// The moment at which exchanges are polled, in seconds.
pub(crate) const NOW: u64 = 7;

/// A wire whose peer answers that.
pub(crate) fn wire_of<R: Abort + AllocGlobal>(rt: &R, response: &[u8]) -> MemoryWire {
    MemoryWire::new(rt.alloc(), response, ROOM).expect(rt, "memory")
}

/// A dial that will give that wire.
pub(crate) fn dial_of<R: Abort + AllocGlobal>(rt: &R, wire: MemoryWire) -> MemoryDial {
    let mut dial = MemoryDial::new(rt.alloc());
    dial.add(wire).expect(rt, "memory");
    dial
}

/// The connection that the exchange's transfer opens as it is polled.
pub(crate) const OPENED: Entry = Entry {
    moment: NOW,
    event: Event::Opened {
        connection: 1,
        want: WANT,
    },
};

/// Its return then, after a response that lets it persist.
pub(crate) const RETURNED: Entry = Entry {
    moment: NOW,
    event: Event::Returned {
        connection: 1,
        facts: KEEP,
    },
};

/// The host's log has to have these entries, and no other.
pub(crate) fn check_log<N: Names, R: Wait + Abort>(
    rt: &R,
    cache: &SharedCache<MemoryWire, N>,
    site: u32,
    entries: &[Entry],
    name: &str,
) {
    for place in 0..entries.len() {
        let found = cache.inspect(
            rt,
            site,
            |bundle: &Bundle<MemoryWire>| bundle.log().get(place),
        );
        let found = found.expect(rt, "a host");
        assert_eq!(rt; found, Some(entries[place]), "{name}: entry {place}");
    }
    let found = cache.inspect(rt, site, |bundle: &Bundle<MemoryWire>| bundle.log().len());
    assert_eq!(rt;
        found.expect(rt, "a host"),
        entries.len(),
        "{name}: entries"
    );
}

/// What the pass was told last at the first host, which there has to be.
pub(crate) fn last_at_first<R: Abort>(rt: &R, pass: &Pass<Did>) -> Option<Did>
    ensures { 0 < length pass.now }
{
    assert!(rt; pass.hosts() > 0, "no host");
    pass.last(0)
}

/// The account of the cache with the passes of two desks, which has to be whole.
pub(crate) fn gathered<S: Drop, N: Names, R: Abort + AllocGlobal>(
    rt: &R,
    cache: SharedCache<S, N>,
    first: Pass<Did>,
    second: Pass<Did>,
) -> Gathered<S>
    requires first { IsPassOf N.names first }
    requires second { IsPassOf N.names second }
{
    let mut passes = Vec::with_capacity(rt.alloc(), 2).expect(rt, "memory");
    passes.push_reserved(first);
    passes.push_reserved(second);
    gathered_with(rt, cache, passes)
}
