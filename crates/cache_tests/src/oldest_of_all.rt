//! What no clause says: worked rows of the oldest of many.

use crate::checks::check_eq;
use cache::oldest_of;
use conn_log::Stamp;

fn stamp(since: u64, host: u32, number: u32) -> Option<Stamp> {
    Some(Stamp {
        since,
        host,
        number,
    })
}

#[test]
fn the_oldest_is_the_first_place_of_the_earliest(rt: HostRuntime) {
    check_eq(&rt, oldest_of(&[]), None);
    check_eq(&rt, oldest_of(&[None, None]), None);
    let later = [None, stamp(5, 1, 9), None, stamp(4, 3, 1), stamp(7, 4, 1)];
    check_eq(&rt, oldest_of(&later), Some(3));
    // At one moment the lower host goes first, and at one host the lower number.
    let hosts = [stamp(4, 2, 1), stamp(4, 1, 7), None];
    check_eq(&rt, oldest_of(&hosts), Some(1));
    let numbers = [stamp(4, 1, 7), stamp(4, 1, 6), stamp(4, 1, 8)];
    check_eq(&rt, oldest_of(&numbers), Some(1));
    // One stamp twice: the lower place.
    let twice = [None, stamp(4, 1, 6), stamp(4, 1, 6)];
    check_eq(&rt, oldest_of(&twice), Some(1));
}
