//! The lines that tell of what the logs of all hosts have more than before.

ghost use Rattle.std.specs.Prelude.{◌≡◌, ◌<◌, ◌≤◌, map, flat_map, drop, reverse, length};
ghost use Rattle.std.specs.Prelude.{string_bytes};
ghost use Rattle.script_text.specs.Printing.{GivesText, entry_line};
ghost use Rattle.script_engine.specs.Telling.{WereTold, lines_told, AddsText};
ghost use Rattle.cache.specs.Pools.{logs_of, host_at};
ghost use Rattle.script_engine.specs.Hosted.{NoneIsCut};

use cache::Pool;
use script_text::{FaultKind, lines_since};
use std::alloc::Global;
use std::mem;

/// The lines of all entries that were not told yet, by host; they count as told then, also where
/// memory fails. A connection that came back since was that transfer's.
pub fn lines(
    alloc: Global,
    pool: &Pool<()>,
    told: &mut Vec<usize>,
    by: u64,
) -> Result<String, FaultKind>
    requires told { WereTold told.old.items (logs_of pool.now.hosts) }
    requires uncut { NoneIsCut pool.now }
    ensures text { GivesText string_bytes
        (lines_told by 0 told.old.items (logs_of pool.now.hosts)) result }
    ensures told { told.new.items ≡ map length (logs_of pool.now.hosts) }
{
    let mut text = Ok(String::new(alloc));
    for site in 0..pool.hosts() {
        text = with_lines(alloc, pool, site, &mut told[site as usize], by, text);
    }
    text
}

/// The text with those of one host after it.
fn with_lines(
    alloc: Global,
    pool: &Pool<()>,
    site: u32,
    told: &mut usize,
    by: u64,
    text: Result<String, FaultKind>,
) -> Result<String, FaultKind>
    requires there { site < length pool.now.hosts }
    requires before { told.old ≤ length (host_at pool.now site).log }
    requires uncut { (host_at pool.now site).cut_away ≡ 0 }
    ensures text { AddsText string_bytes text (flat_map (entry_line site by)
        (drop told.old (reverse (host_at pool.now site).log))) result }
    ensures told { told.new ≡ length (host_at pool.now site).log }
{
    let Some(log) = pool.log(site) else {
        unreachable!()
    };
    let place = mem::replace(told, log.len());
    let mut text = text?;
    if log.len() == place {
        return Ok(text);
    }
    let lines = lines_since(alloc, site, log, place, by)?;
    match text.push_str(&lines) {
        Ok(()) => Ok(text),
        Err(_) => Err(FaultKind::Memory),
    }
}
