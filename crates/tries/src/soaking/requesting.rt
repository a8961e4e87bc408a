//! Requests one after another, and cuts of logs.

use crate::soaking::course::Course;
use crate::soaking::requester::{Requester, bytes_of};
use cache_trait::Cache;
use shared_cache::{Names, SharedCache};
use socket::WaitingWire;
use std::sync::Wait;

/// Number of request numbers of a thread.
const NUMBERS: u64 = 0x1_0000_0000;

/// A thread cuts a log after its first request, and again after each further number of requests.
const REQUESTS_FOR_A_CUT: u64 = 10;

/// Makes requests one after another, at least one, until the course is over, for the thread of that
/// index. Its requests use `lent`, its handle to the cache.
pub(crate) fn request_all<N: Names, C: Cache<WaitingWire>, R: Wait>(
    requester: &mut Requester<'_>,
    rt: &R,
    cache: &SharedCache<WaitingWire, N>,
    course: &Course<'_>,
    index: u64,
    lent: &mut C,
) {
    let mut told = 0;
    for turn in 0..NUMBERS {
        let number = index.saturating_mul(NUMBERS).saturating_add(turn);
        let done = requester.request(course, lent, number);
        course.counts.note(done, bytes_of(number));
        if turn % REQUESTS_FOR_A_CUT == 0 {
            let (site, _port) = course.host(turn / REQUESTS_FOR_A_CUT);
            cut(rt, cache, course, site);
        }
        if index == 0 && course.minutes() > told {
            told = course.minutes();
            let _printed = course.counts.print(course.system, told);
        }
        if course.is_over() {
            break;
        }
    }
}

// Cuts the log of that host, and drops the entries that were cut off.
fn cut<N: Names, R: Wait>(
    rt: &R,
    cache: &SharedCache<WaitingWire, N>,
    course: &Course<'_>,
    site: u32,
) {
    match cache.cut(rt, site) {
        Ok(entries) => {
            course.counts.cuts.add(1);
            course.counts.entries.add(entries.len() as u64);
        }
        Err(_) => course.counts.uncut.add(1),
    }
}
