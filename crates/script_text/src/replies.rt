//! The replies of a transcript, and its lines of events, as texts.

ghost use Rattle.std.specs.Prelude.{◌+◌, ◌≤◌, flat_map, string_bytes, length, reverse, drop};
ghost use Rattle.script_text.specs.Printing.{entry_line, refused, claimed_line, still_line};
ghost use Rattle.script_text.specs.Printing.{GivesText, upkeep_line, too_many_leased_line};

use crate::fault::FaultKind;
use crate::printing::EntryLine;
use conn_log::Log;
use std::alloc::Global;

/// The reply to what is refused.
pub fn reply(alloc: Global, word: &str) -> Result<String, FaultKind>
    ensures { GivesText string_bytes (refused word.now) result }
{
    match format!(in alloc; "refused {word}\n") {
        Ok(text) => Ok(text),
        Err(_) => Err(FaultKind::Memory),
    }
}

/// The reply to a claim of what was granted.
pub fn claimed(alloc: Global, host: u32, number: u32) -> Result<String, FaultKind>
    ensures { GivesText string_bytes (claimed_line host number) result }
{
    match format!(in alloc; "claimed {host}.{number}\n") {
        Ok(text) => Ok(text),
        Err(_) => Err(FaultKind::Memory),
    }
}

/// The reply to a claim where the transfer still waits.
pub fn still_waiting(alloc: Global) -> Result<String, FaultKind>
    ensures { GivesText string_bytes still_line result }
{
    match format!(in alloc; "still waiting\n") {
        Ok(text) => Ok(text),
        Err(_) => Err(FaultKind::Memory),
    }
}

/// The reply to an upkeep.
pub fn upkeep(alloc: Global, kept: u32) -> Result<String, FaultKind>
    ensures { GivesText string_bytes (upkeep_line kept) result }
{
    match format!(in alloc; "upkeep {kept}\n") {
        Ok(text) => Ok(text),
        Err(_) => Err(FaultKind::Memory),
    }
}

/// The reply to a new limit where so many connections are held, more than it allows.
pub fn too_many_leased(alloc: Global, held: u64) -> Result<String, FaultKind>
    ensures { GivesText string_bytes (too_many_leased_line held) result }
{
    match format!(in alloc; "refused leased {held}\n") {
        Ok(text) => Ok(text),
        Err(_) => Err(FaultKind::Memory),
    }
}

/// The lines of a log's entries from that place of its rest on. Connections come back from that
/// transfer.
pub fn lines_since(
    alloc: Global,
    host: u32,
    log: &Log,
    place: usize,
    by: u64,
) -> Result<String, FaultKind>
    requires { log.now.cut_away + place ≤ length log.now.entries }
    ensures { GivesText string_bytes (flat_map (entry_line host by)
        (drop (log.now.cut_away + place) (reverse log.now.entries))) result }
{
    let mut text = String::new(alloc);
    for entry in log.since(place) {
        let line = EntryLine {
            host,
            by,
            entry: *entry,
        };
        if write!(text, "{line}").is_err() {
            return Err(FaultKind::Memory);
        }
    }
    Ok(text)
}
