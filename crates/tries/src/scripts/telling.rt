//! Lines of the entries that the logs of all hosts have gained.

use crate::scripts::site_leases::NoStream;
use bundle::Bundle;
use script_text::{FaultKind, lines_since};
use shared_cache::{Names, SharedCache};
use std::alloc::Global;
use std::sync::Wait;

/// Returns the lines of all entries that are not in the transcript yet, by host, and counts them as
/// told. A connection that came back since was that transfer's.
pub(super) fn lines<N: Names, R: Wait>(
    rt: &R,
    alloc: Global,
    cache: &SharedCache<NoStream, N>,
    told: &mut [usize],
    by: u64,
) -> Result<String, FaultKind> {
    let mut text = String::new(alloc);
    for site in 0..cache.hosts() {
        if let Some(place) = told.get_mut(site as usize) {
            add_lines(rt, alloc, cache, site, place, by, &mut text)?;
        }
    }
    Ok(text)
}

/// Adds the lines of one host.
fn add_lines<N: Names, R: Wait>(
    rt: &R,
    alloc: Global,
    cache: &SharedCache<NoStream, N>,
    site: u32,
    place: &mut usize,
    by: u64,
    text: &mut String,
) -> Result<(), FaultKind> {
    let from = *place;
    let found = cache.inspect(
        rt,
        site,
        |bundle: &Bundle<NoStream>| lines_from(alloc, bundle, from, by),
    );
    let Ok((lines, count)) = found else {
        // The host is there.
        return Err(FaultKind::Memory);
    };
    *place = count;
    match text.push_str(&lines?) {
        Ok(()) => Ok(()),
        Err(_) => Err(FaultKind::Memory),
    }
}

/// Returns the lines of a log's entries from that index on, and the number of its entries.
fn lines_from(
    alloc: Global,
    bundle: &Bundle<NoStream>,
    place: usize,
    by: u64,
) -> (Result<String, FaultKind>, usize) {
    let log = bundle.log();
    let count = log.len();
    let lines = lines_since(alloc, bundle.host(), log, place.min(count), by);
    (lines, count)
}
