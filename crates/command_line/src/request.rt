//! Requests that the words make.

ghost use Rattle.std.specs.Prelude.{◌≡◌, IfErr, IfOk, map};
ghost use Rattle.clap.specs.Words.{found_of, kind_of, rows_of};
ghost use Rattle.clap.specs.Words.{subcommand_rows_of};
ghost use Rattle.command_line.specs.CommandLine.{AnswersError, AnswersSaid, IsRefusal};
ghost use Rattle.command_line.specs.CommandLine.{IsSaidRefused, MayAsk, Plans, class_of};
ghost use Rattle.command_line.specs.CommandLine.{faults_in, rows_in};
ghost use Rattle.command_line.specs.CommandLine.{said, said_as, said_in, word_faults};
ghost use Rattle.command_line.specs.Refusals.{IsWhy};

use crate::audit_words::{AuditWords, audit_words};
use crate::get_plan::get_plan;
use crate::input::Input;
use crate::load_planning::load_plan;
use crate::options::{get_options, load_options};
use crate::refusal::{Refusal, error_text, usage_error};
use crate::script_words::{ScriptWords, script_words};
use crate::words::{Words, not_text, parse, read_words};
use clap::error::ErrorKind;
use clap::{ArgMatches, Error};
use commands::{CrawlPlan, LoadPlan};
use std::alloc::Global;

/// Request that the words make.
#[derive(Drop)]
pub enum Request {
    /// To run a script.
    Script(ScriptWords),
    /// To fetch URLs.
    Get(CrawlPlan),
    /// To run a load.
    Load(LoadPlan),
    /// To check a trace.
    Audit(AuditWords),
    /// To print this on standard output: help, or the version.
    Tell(String),
    /// Nothing that the program does. The text says why.
    Refuse(String),
    /// Nothing, since memory ran out.
    NoMemory,
}

/// Class of an error in the words.
#[derive(Clone, Copy)]
pub enum ErrorClass {
    /// Memory ran out.
    Memory,
    /// Help or the version was asked for.
    Asked,
    /// The words are wrong.
    Mistake,
}

/// Returns the request that the words make.
pub(crate) fn request_of(alloc: Global, words: Words) -> Request
    ensures { MayAsk (word_faults words) (said words) result }
{
    match words {
        Words::Given(words) => match read_words(alloc, words.as_slice()) {
            Ok(read) => parsed(alloc, read.as_slice()),
            Err(_) => Request::NoMemory,
        },
        Words::NotText => match not_text(alloc) {
            Ok(error) => answer_to(alloc, &error),
            Err(_) => Request::NoMemory,
        },
        Words::NoMemory => Request::NoMemory,
    }
}

// Returns the request of words in the form that `clap` reads.
fn parsed(alloc: Global, words: &[&str]) -> Request
    ensures { MayAsk (faults_in (map (λ word. word.now) words.now))
        (said_in (rows_in (map (λ word. word.now) words.now))) result }
{
    match parse(alloc, words) {
        Ok(matches) => request_in(alloc, &matches),
        Err(error) => answer_to(alloc, &error),
    }
}

// Returns the request of all words.
fn request_in(alloc: Global, matches: &ArgMatches<'_>) -> Request
    ensures { AnswersSaid (said_in (subcommand_rows_of matches.now)) result }
{
    match matches.subcommand() {
        Some((name, given)) => match request_for(alloc, name, given) {
            Ok(request) => request,
            Err(Refusal::Memory) => Request::NoMemory,
            Err(Refusal::Wrong(text)) => usage_refusal(alloc, name, text.as_str()),
        },
        None => Request::Script(ScriptWords {
            is_traced: false,
            picture: None,
            input: Input::Standard,
        }),
    }
}

// Returns the request of the words after the command of that name.
fn request_for(alloc: Global, name: &str, given: &ArgMatches<'_>) -> Result<Request, Refusal>
    ensures planned { IfOk result (Plans (said_as name.now (rows_of (found_of given.now)))) }
    ensures refused { IfErr result (IsWhy
        (IsSaidRefused (said_as name.now (rows_of (found_of given.now))))) }
{
    if name == "get" {
        return Ok(Request::Get(get_plan(alloc, given)?));
    }
    if name == "load" {
        return Ok(Request::Load(load_plan(alloc, given)?));
    }
    if name == "audit" {
        return Ok(Request::Audit(audit_words(alloc, given)?));
    }
    Ok(Request::Script(script_words(alloc, given)?))
}

// Returns the refusal of the words after the command of that name, with its usage.
fn usage_refusal(alloc: Global, name: &str, text: &str) -> Request
    ensures { IsRefusal result }
{
    let error = if name == "load" {
        usage_error(alloc, "curlpool load", load_options(), text)
    } else {
        usage_error(alloc, "curlpool get", get_options(), text)
    };
    match error {
        Ok(error) => answer_to(alloc, &error),
        Err(_) => Request::NoMemory,
    }
}

// Returns the answer to an error of `clap`.
fn answer_to(alloc: Global, error: &Error) -> Request
    ensures { AnswersError (class_of (kind_of error.now)) result }
{
    let class = class_of(error.kind());
    let Ok(text) = error_text(alloc, error) else {
        return Request::NoMemory;
    };
    match class {
        ErrorClass::Memory => Request::NoMemory,
        ErrorClass::Asked => Request::Tell(text),
        ErrorClass::Mistake => Request::Refuse(text),
    }
}

// Returns the class of an error of that kind.
fn class_of(kind: ErrorKind) -> ErrorClass
    ensures { result ≡ class_of kind }
{
    match kind {
        ErrorKind::OutOfMemory => ErrorClass::Memory,
        ErrorKind::DisplayHelp => ErrorClass::Asked,
        ErrorKind::DisplayVersion => ErrorClass::Asked,
        _ => ErrorClass::Mistake,
    }
}
