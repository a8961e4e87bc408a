//! A log takes entries in room that was made for them.
use crate::checks::check_eq;
use crate::logs::entries::{add, opened};
use conn_log::{Log, LogFault};

#[test]
fn a_reserved_place_takes_an_append(rt: HostRuntime) {
    let mut log = Log::new(rt.alloc()).expect(&rt, "memory");
    assert!(rt; log.is_empty());
    check_eq(&rt, log.last_moment(), 0);
    log.reserve(1).expect(&rt, "memory");
    let room = log.room();
    log.append(opened(1, 1, 7));
    assert!(rt; !log.is_empty());
    check_eq(&rt, log.len(), 1);
    check_eq(&rt, log.room() + 1, room);
    check_eq(&rt, log.last_moment(), 7);
    check_eq(&rt, log.get(0), Some(opened(1, 1, 7)));
    check_eq(&rt, log.get(1), None);
    check_eq(&rt, log.since(0), [opened(1, 1, 7)].as_slice());
}

#[test]
fn room_grows_geometrically(rt: HostRuntime) {
    let mut log = Log::new(rt.alloc()).expect(&rt, "memory");
    let mut growths = 0_u64;
    for moment in 0..10_000 {
        let room = log.room();
        add(&rt, &mut log, opened(1, 1, moment)).expect(&rt, "memory");
        // an entry takes one place, so where room is not less it has grown
        growths = growths.saturating_add(u64::from(room <= log.room()));
    }
    check_eq(&rt, log.len(), 10_000);
    assert!(rt; growths <= 20, "{growths} growths");
}

#[test]
fn faults_are_printed(rt: HostRuntime) {
    check_eq(
        &rt,
        LogFault::Memory
            .to_string(rt.alloc())
            .expect(&rt, "memory")
            .as_str(),
        "out of memory",
    );
    check_eq(
        &rt,
        LogFault::Exhausted
            .to_string(rt.alloc())
            .expect(&rt, "memory")
            .as_str(),
        "log exhausted",
    );
}
