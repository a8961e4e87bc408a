ghost use Rattle.std.specs.Prelude.{◌≡◌};
ghost use Rattle.std.specs.Option.{option_map};
ghost use Rattle.streams.specs.Words.{words};
ghost use Rattle.trace_text.specs.Lines.{connection_of, connection_first, cause_of, cause_first};
ghost use Rattle.trace_text.specs.Lines.{moment_first, if_blank, order_form, rest_form, start_of};
ghost use Rattle.trace_text.specs.Lines.{start_form, closed_form, wait_form, line_of_command};
ghost use Rattle.trace_text.specs.Lines.{is_reply, line_named, trace_reading};

use crate::line::{Line, Traced, TracedEvent};
use conn_log::Cause;
use script_text::{Action, Command, FaultKind, HostCommand, LINE_LIMIT, command_of};
use streams::{
    first_word, is_blank, is_word, number_of, place_of, small_number_of, text_first, u32_first,
    u64_first,
};

/// Reads a word `H.C`: the host and the number of a connection.
#[tactic(auto, unfolding(crate::specs::Lines::connection_of))]
fn connection_of(word: &[u8]) -> Option<(u32, u64)>
    ensures { result ≡ connection_of word.now }
{
    let (host, rest) = word.split_at(place_of(b'.', word));
    match rest {
        [_, number @ ..] => {
            let host = small_number_of(host)?;
            let connection = number_of(number)?;
            Some((host, connection))
        }
        [] => None,
    }
}

/// Reads a connection's host and number, and gives the rest of the line.
fn connection_first(line: &[u8]) -> Option<((u32, u64), &[u8])>
    ensures { option_map (λ found. (found.0, words found.1.now)) result
        ≡ connection_first (words line.now) }
{
    let (word, others) = first_word(line)?;
    let named = connection_of(word)?;
    Some((named, others))
}

/// The cause that the word names.
#[tactic(auto, unfolding(crate::specs::Lines::cause_of))]
fn cause_of(word: &[u8]) -> Option<Cause>
    ensures { result ≡ cause_of word.now }
{
    if is_word(word, "not-persistent") {
        Some(Cause::NotPersistent)
    } else if is_word(word, "cut") {
        Some(Cause::Cut)
    } else if is_word(word, "forbidden") {
        Some(Cause::Forbidden)
    } else if is_word(word, "too-old") {
        Some(Cause::TooOld)
    } else if is_word(word, "host-room") {
        Some(Cause::HostRoom)
    } else if is_word(word, "total-room") {
        Some(Cause::TotalRoom)
    } else if is_word(word, "cache-full") {
        Some(Cause::CacheFull)
    } else if is_word(word, "dropped") {
        Some(Cause::Dropped)
    } else if is_word(word, "withdrawn") {
        Some(Cause::Withdrawn)
    } else if is_word(word, "pruned") {
        Some(Cause::Pruned)
    } else {
        None
    }
}

/// Reads a cause, unless the moment follows at once, and gives the rest of the line.
fn cause_first(line: &[u8]) -> Option<(Option<Cause>, &[u8])>
    ensures { option_map (λ found. (found.0, words found.1.now)) result
        ≡ cause_first (words line.now) }
{
    let (word, others) = first_word(line)?;
    if is_word(word, "at") {
        return Some((None, line));
    }
    let cause = cause_of(word)?;
    Some((Some(cause), others))
}

/// Reads `at M`, a moment, and gives the rest of the line.
fn moment_first(line: &[u8]) -> Option<(u64, &[u8])>
    ensures { option_map (λ found. (found.0, words found.1.now)) result
        ≡ moment_first (words line.now) }
{
    let line = text_first("at", line)?;
    u64_first(line)
}

/// The event, if no word is left.
fn if_blank<'a>(line: &[u8], host: u32, moment: u64, event: TracedEvent) -> Option<Line<'a>>
    ensures { result ≡ if_blank (words line.now) host moment event }
{
    if is_blank(line) {
        Some(Line::Event(Traced {
            host,
            moment,
            event,
        }))
    } else {
        None
    }
}

/// `order host`.
#[tactic(auto, unfolding(crate::specs::Lines::order_form))]
fn order_form<'a>(line: &[u8]) -> Option<Line<'a>>
    ensures { result ≡ order_form (words line.now) }
{
    let line = text_first("host", line)?;
    if is_blank(line) {
        Some(Line::OrderHost)
    } else {
        None
    }
}

/// `rest`.
#[tactic(auto, unfolding(crate::specs::Lines::rest_form))]
fn rest_form<'a>(line: &[u8]) -> Option<Line<'a>>
    ensures { result ≡ rest_form (words line.now) }
{
    if is_blank(line) {
        Some(Line::Rest)
    } else {
        None
    }
}

/// The event with that name, of a connection and a transfer.
#[tactic(auto, unfolding(crate::specs::Lines::start_of))]
fn start_of(name: &str, connection: u64, transfer: u64) -> TracedEvent
    ensures { result ≡ start_of name.now connection transfer }
{
    if name == "opened" {
        TracedEvent::Opened {
            connection,
            transfer,
        }
    } else if name == "leased" {
        TracedEvent::Leased {
            connection,
            transfer,
        }
    } else {
        TracedEvent::Returned {
            connection,
            transfer,
        }
    }
}

/// `H.C for T at M`, with the word `to` in the place of `for`.
#[tactic(auto, unfolding(crate::specs::Lines::start_form))]
fn start_form<'a>(name: &str, to: &str, line: &[u8]) -> Option<Line<'a>>
    ensures { result ≡ start_form name.now to.now (words line.now) }
{
    let ((host, connection), line) = connection_first(line)?;
    let line = text_first(to, line)?;
    let (transfer, line) = u64_first(line)?;
    let (moment, line) = moment_first(line)?;
    let event = start_of(name, connection, transfer);
    if_blank(line, host, moment, event)
}

/// `closed H.C CAUSE at M`. The cause may be left out.
#[tactic(auto, unfolding(crate::specs::Lines::closed_form))]
fn closed_form<'a>(line: &[u8]) -> Option<Line<'a>>
    ensures { result ≡ closed_form (words line.now) }
{
    let ((host, connection), line) = connection_first(line)?;
    let (cause, line) = cause_first(line)?;
    let (moment, line) = moment_first(line)?;
    let event = TracedEvent::Closed { connection, cause };
    if_blank(line, host, moment, event)
}

/// `waits T host H at M`, or `left` in the place of `waits`.
#[tactic(auto, unfolding(crate::specs::Lines::wait_form))]
fn wait_form<'a>(has_left: bool, line: &[u8]) -> Option<Line<'a>>
    ensures { result ≡ wait_form has_left (words line.now) }
{
    let (transfer, line) = u64_first(line)?;
    let line = text_first("host", line)?;
    let (host, line) = u32_first(line)?;
    let (moment, line) = moment_first(line)?;
    let event = if has_left {
        TracedEvent::Left { transfer }
    } else {
        TracedEvent::Waited { transfer }
    };
    if_blank(line, host, moment, event)
}

/// The line of a command in a trace. A `limit` is the event of a new limit.
fn line_of_command(command: Command<'_>) -> Line<'_>
    ensures { result ≡ line_of_command command.entry }
{
    match command {
        Command::Ask(
            HostCommand::At {
                site,
                action: Action::Limit { limit, moment },
            },
        ) => Line::Event(Traced {
            host: site,
            moment,
            event: TracedEvent::Limit { limit },
        }),
        other => Line::Command(other),
    }
}

/// Whether the words are those of a reply of a transcript.
fn is_reply(name: &[u8], line: &[u8]) -> bool
    ensures { result ≡ is_reply name.now (words line.now) }
{
    if is_word(name, "upkeep") {
        return match first_word(line) {
            Some((word, others)) => is_word(word, "0") && is_blank(others),
            None => false,
        };
    }
    is_word(name, "claimed")
        || is_word(name, "still")
        || is_word(name, "host")
        || is_word(name, "refused")
}

/// Reads the line with that first word and the words after it.
#[tactic(auto, unfolding(crate::specs::Lines::line_named))]
fn line_named<'a>(name: &[u8], line: &'a [u8]) -> Result<Line<'a>, FaultKind>
    ensures { result ≡ line_named name.now (words line.now) }
{
    if is_word(name, "order") {
        order_form(line).ok_or(FaultKind::Form)
    } else if is_word(name, "rest") {
        rest_form(line).ok_or(FaultKind::Form)
    } else if is_word(name, "opened") {
        start_form("opened", "for", line).ok_or(FaultKind::Form)
    } else if is_word(name, "leased") {
        start_form("leased", "to", line).ok_or(FaultKind::Form)
    } else if is_word(name, "returned") {
        start_form("returned", "by", line).ok_or(FaultKind::Form)
    } else if is_word(name, "closed") {
        closed_form(line).ok_or(FaultKind::Form)
    } else if is_word(name, "waits") {
        wait_form(false, line).ok_or(FaultKind::Form)
    } else if is_word(name, "left") {
        wait_form(true, line).ok_or(FaultKind::Form)
    } else {
        Ok(line_of_command(command_of(name, line)?))
    }
}

/// Reads a line of a trace, without its line end; `None` if the line is skipped.
///
/// Errors: `LineTooLong` if the line has more than 2,304 bytes, `Unknown` if no line of a trace
/// begins with its first word, and `Form` if the words after that have not the line's form.
#[tactic(auto, unfolding(crate::specs::Lines::trace_reading))]
pub fn read_line(line: &[u8]) -> Result<Option<Line<'_>>, FaultKind>
    ensures { result ≡ trace_reading line.now }
{
    if line.len() > LINE_LIMIT {
        return Err(FaultKind::LineTooLong);
    }
    if line.first() == Some(&b'#') {
        return Ok(None);
    }
    match first_word(line) {
        Some((name, others)) if !is_reply(name, others) => Ok(Some(line_named(name, others)?)),
        _ => Ok(None),
    }
}
