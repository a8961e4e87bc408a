//! Hosts that are given places, step by step.

ghost use Rattle.std.specs.Prelude.{not, slice_get, true, unwrap_or};

use crate::checks::check_eq;
use conn_key::{PlaceError, PlaceTable, Places};
use std::alloc::AllocError;

/// A cache of which contracts know which places are in use: those that it names, and none past
/// them.
#[derive(Drop)]
struct InUse<'a> {
    places: &'a [bool],
}

impl Places for InUse<'_> {
    ghost unused = { λ cache place. not (unwrap_or (slice_get cache.places.now place) true) };

    fn is_unused(&self, place: u32) -> bool {
        !self.places.get(place as usize).copied().unwrap_or(true)
    }
}

/// A host that asks for a place, the places that are in use, and the answer.
type Step = (&'static str, [bool; 3], Result<u32, PlaceError>);

/// Three places. Worked by hand from the rules.
static STEPS: [Step; 10] = [
    ("a:80", [false, false, false], Ok(0)),
    ("b:80", [true, false, false], Ok(1)),
    ("a:80", [true, true, false], Ok(0)),
    // Another port is another host.
    ("a:81", [true, true, false], Ok(2)),
    ("d:80", [true, true, true], Err(PlaceError::Full)),
    // The host at place 1 has no open connection any more, and no waiter.
    ("d:80", [true, false, true], Ok(1)),
    ("b:80", [true, true, true], Err(PlaceError::Full)),
    // The search goes on behind the last place that changed its host, and around.
    ("b:80", [false, false, true], Ok(0)),
    ("d:80", [false, false, true], Ok(1)),
    ("e:80", [false, false, true], Ok(1)),
];

#[test]
fn a_place_changes_its_host_only_while_unused(rt: HostRuntime) {
    let mut table = PlaceTable::new(rt.alloc(), 3);
    for (number, step) in STEPS.iter().enumerate() {
        let (key, places, expected) = step;
        let cache = InUse { places };
        assert_eq!(rt; table.place(key, &cache), *expected, "step {number}");
    }
    check_eq(&rt, table.host(0), Some("b:80"));
    check_eq(&rt, table.host(1), Some("e:80"));
    check_eq(&rt, table.host(3), None);
    check_eq(&rt, table.find("a:81"), Some(2));
    check_eq(&rt, table.find("d:80"), None);
    check_eq(&rt, table.len(), 3);
    assert!(rt; !table.is_empty());
    check_eq(&rt, table.places(), 3);
}

#[test]
fn a_cache_without_places_gives_none(rt: HostRuntime) {
    let mut table = PlaceTable::new(rt.alloc(), 0);
    let cache = InUse { places: &[] };
    check_eq(&rt, table.place("a:80", &cache), Err(PlaceError::Full));
}

#[test]
fn errors_say_why(rt: HostRuntime) {
    let full = format!(in rt.alloc(); "{}", PlaceError::Full).expect(&rt, "memory");
    check_eq(&rt, full.as_str(), "each place is in use");
    let memory = format!(in rt.alloc(); "{}", PlaceError::from(AllocError)).expect(&rt, "memory");
    check_eq(&rt, memory.as_str(), "out of memory");
}

/// Passes whichever allocation fails: the host is refused, the table is as it was, and the host is
/// given its place as it asks again.
#[test]
fn an_allocation_failure_changes_no_place(rt: HostRuntime) {
    let mut table = PlaceTable::new(rt.alloc(), 2);
    let places = [false, false];
    let cache = InUse { places: &places };
    let keys = [("a:80", 0), ("b:80", 1), ("c:80", 0)];
    for (key, place) in &keys {
        if let Err(error) = table.place(key, &cache) {
            check_eq(&rt, error, PlaceError::Memory);
            check_eq(&rt, table.find(key), None);
            check_eq(&rt, table.place(key, &cache), Ok(*place));
        }
        check_eq(&rt, table.find(key), Some(*place));
    }
}
