ghost use Rattle.std.specs.Prelude.{◌≡◌};
ghost use Rattle.streams.specs.Words.{words};
ghost use Rattle.script_text.specs.Grammar.{ending_of, ending_first, if_none_left, limits_form};
ghost use Rattle.script_text.specs.Grammar.{site_form, get_form, claim_form, back_form, drop_form};
ghost use Rattle.script_text.specs.Grammar.{leave_form, look_form, command_of, reading};
ghost use Rattle.script_text.specs.Grammar.{limit_form, prune_form, upkeep_form};
ghost use Rattle.std.specs.Option.{option_map};

use crate::command::{Action, Command, Ending, HostCommand, Limits};
use crate::fault::FaultKind;
use crate::options::{read_options, want_of};
use crate::site::SiteWord;
use streams::{first_word, is_blank, is_word, text_first, u32_first, u64_first};

/// Reads how a response ended, and gives the rest of the line.
fn ending_first(line: &[u8]) -> Option<(Ending, &[u8])>
    ensures { option_map (λ found. (found.0, words found.1.now)) result
        ≡ ending_first (words line.now) }
{
    let (word, others) = first_word(line)?;
    let ending = ending_of(word)?;
    Some((ending, others))
}

/// The ending that the word names.
#[tactic(auto, unfolding(crate::specs::Grammar::ending_of))]
fn ending_of(word: &[u8]) -> Option<Ending>
    ensures { result ≡ ending_of word.now }
{
    if is_word(word, "keep") {
        Some(Ending::Keep)
    } else if is_word(word, "close") {
        Some(Ending::Close)
    } else if is_word(word, "old") {
        Some(Ending::Old)
    } else if is_word(word, "old-keep") {
        Some(Ending::OldKeep)
    } else if is_word(word, "eof") {
        Some(Ending::Eof)
    } else if is_word(word, "cut") {
        Some(Ending::Cut)
    } else if is_word(word, "surplus") {
        Some(Ending::Surplus)
    } else {
        None
    }
}

/// `limits H T C`.
#[tactic(auto, unfolding(crate::specs::Grammar::limits_form))]
fn limits_form(line: &[u8]) -> Option<Command<'_>>
    ensures { result ≡ limits_form (words line.now) }
{
    let (host, line) = u32_first(line)?;
    let (total, line) = u32_first(line)?;
    let (kept, line) = u32_first(line)?;
    if_none_left(line, Command::Limits(Limits { host, total, kept }))
}

/// `site URL`.
#[tactic(auto, unfolding(crate::specs::Grammar::site_form))]
fn site_form(line: &[u8]) -> Option<Command<'_>>
    ensures { result ≡ site_form (words line.now) }
{
    let (word, line) = first_word(line)?;
    if_none_left(line, Command::Site(SiteWord::new(word)))
}

/// `get T S L at M`, and options.
#[tactic(auto, unfolding(crate::specs::Grammar::get_form))]
fn get_form(line: &[u8]) -> Option<Command<'_>>
    ensures { result ≡ get_form (words line.now) }
{
    let (transfer, line) = u64_first(line)?;
    let (site, line) = u32_first(line)?;
    let (lane, line) = u32_first(line)?;
    let line = text_first("at", line)?;
    let (moment, line) = u64_first(line)?;
    let options = read_options(line)?;
    let want = want_of(transfer, lane, options);
    let action = Action::Get { want, moment };
    Some(Command::Ask(HostCommand::At { site, action }))
}

/// `claim T S`.
#[tactic(auto, unfolding(crate::specs::Grammar::claim_form))]
fn claim_form(line: &[u8]) -> Option<Command<'_>>
    ensures { result ≡ claim_form (words line.now) }
{
    let (transfer, line) = u64_first(line)?;
    let (site, line) = u32_first(line)?;
    let action = Action::Claim { transfer };
    if_none_left(line, Command::Ask(HostCommand::At { site, action }))
}

/// `back T S KIND at M`.
#[tactic(auto, unfolding(crate::specs::Grammar::back_form))]
fn back_form(line: &[u8]) -> Option<Command<'_>>
    ensures { result ≡ back_form (words line.now) }
{
    let (transfer, line) = u64_first(line)?;
    let (site, line) = u32_first(line)?;
    let (ending, line) = ending_first(line)?;
    let line = text_first("at", line)?;
    let (moment, line) = u64_first(line)?;
    let action = Action::Back {
        transfer,
        ending,
        moment,
    };
    if_none_left(line, Command::Ask(HostCommand::At { site, action }))
}

/// `drop T S at M`.
#[tactic(auto, unfolding(crate::specs::Grammar::drop_form))]
fn drop_form(line: &[u8]) -> Option<Command<'_>>
    ensures { result ≡ drop_form (words line.now) }
{
    let (transfer, line) = u64_first(line)?;
    let (site, line) = u32_first(line)?;
    let line = text_first("at", line)?;
    let (moment, line) = u64_first(line)?;
    let action = Action::Drop { transfer, moment };
    if_none_left(line, Command::Ask(HostCommand::At { site, action }))
}

/// `leave T S at M`.
#[tactic(auto, unfolding(crate::specs::Grammar::leave_form))]
fn leave_form(line: &[u8]) -> Option<Command<'_>>
    ensures { result ≡ leave_form (words line.now) }
{
    let (transfer, line) = u64_first(line)?;
    let (site, line) = u32_first(line)?;
    let line = text_first("at", line)?;
    let (moment, line) = u64_first(line)?;
    let action = Action::Leave { transfer, moment };
    if_none_left(line, Command::Ask(HostCommand::At { site, action }))
}

/// `limit S N at M`.
#[tactic(auto, unfolding(crate::specs::Grammar::limit_form))]
fn limit_form(line: &[u8]) -> Option<Command<'_>>
    ensures { result ≡ limit_form (words line.now) }
{
    let (site, line) = u32_first(line)?;
    let (limit, line) = u32_first(line)?;
    let line = text_first("at", line)?;
    let (moment, line) = u64_first(line)?;
    let action = Action::Limit { limit, moment };
    if_none_left(line, Command::Ask(HostCommand::At { site, action }))
}

/// `prune A F at M`.
#[tactic(auto, unfolding(crate::specs::Grammar::prune_form))]
fn prune_form(line: &[u8]) -> Option<Command<'_>>
    ensures { result ≡ prune_form (words line.now) }
{
    let (max_age, line) = u64_first(line)?;
    let (max_life, line) = u64_first(line)?;
    let line = text_first("at", line)?;
    let (moment, line) = u64_first(line)?;
    let command = HostCommand::Prune {
        max_age,
        max_life,
        moment,
    };
    if_none_left(line, Command::Ask(command))
}

/// `upkeep`.
#[tactic(auto, unfolding(crate::specs::Grammar::upkeep_form))]
fn upkeep_form(line: &[u8]) -> Option<Command<'_>>
    ensures { result ≡ upkeep_form (words line.now) }
{
    if_none_left(line, Command::Ask(HostCommand::Upkeep))
}

/// `look S`.
#[tactic(auto, unfolding(crate::specs::Grammar::look_form))]
fn look_form(line: &[u8]) -> Option<Command<'_>>
    ensures { result ≡ look_form (words line.now) }
{
    let (site, line) = u32_first(line)?;
    let action = Action::Look;
    if_none_left(line, Command::Ask(HostCommand::At { site, action }))
}

/// The command, if no word is left.
fn if_none_left<'a>(line: &[u8], command: Command<'a>) -> Option<Command<'a>>
    ensures { result ≡ if_none_left (words line.now) command.entry }
{
    if is_blank(line) { Some(command) } else { None }
}

/// Reads the command with that name and the words after it.
///
/// Errors: `Unknown` if no command has that name, and `Form` if the words after the name have not
/// the command's form.
#[tactic(auto, unfolding(crate::specs::Grammar::command_of))]
pub fn command_of<'a>(name: &[u8], line: &'a [u8]) -> Result<Command<'a>, FaultKind>
    ensures { result ≡ command_of name.now (words line.now) }
{
    if is_word(name, "limits") {
        limits_form(line).ok_or(FaultKind::Form)
    } else if is_word(name, "site") {
        site_form(line).ok_or(FaultKind::Form)
    } else if is_word(name, "get") {
        get_form(line).ok_or(FaultKind::Form)
    } else if is_word(name, "claim") {
        claim_form(line).ok_or(FaultKind::Form)
    } else if is_word(name, "back") {
        back_form(line).ok_or(FaultKind::Form)
    } else if is_word(name, "drop") {
        drop_form(line).ok_or(FaultKind::Form)
    } else if is_word(name, "leave") {
        leave_form(line).ok_or(FaultKind::Form)
    } else if is_word(name, "limit") {
        limit_form(line).ok_or(FaultKind::Form)
    } else if is_word(name, "prune") {
        prune_form(line).ok_or(FaultKind::Form)
    } else if is_word(name, "upkeep") {
        upkeep_form(line).ok_or(FaultKind::Form)
    } else if is_word(name, "look") {
        look_form(line).ok_or(FaultKind::Form)
    } else {
        Err(FaultKind::Unknown)
    }
}

/// The most bytes of a line, without its line end.
pub const LINE_LIMIT: usize = 2304;

/// Reads a line: its command, `None` if the line is skipped, or why the line is wrong.
#[tactic(auto, unfolding(crate::specs::Grammar::reading))]
pub fn read_line(line: &[u8]) -> Result<Option<Command<'_>>, FaultKind>
    ensures { result ≡ reading line.now }
{
    if line.len() > LINE_LIMIT {
        return Err(FaultKind::LineTooLong);
    }
    if line.first() == Some(&b'#') {
        return Ok(None);
    }
    match first_word(line) {
        Some((name, others)) => Ok(Some(command_of(name, others)?)),
        None => Ok(None),
    }
}
