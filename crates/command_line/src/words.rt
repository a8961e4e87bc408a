//! The program's command line as `clap` reads it.

ghost use Rattle.std.specs.Prelude.{◌≡◌, false, IfOk, codes, map, string_bytes};
ghost use Rattle.clap.specs.Words.{FailsBy, app_of, kind_of, new_app, new_rule, rule_of};
ghost use Rattle.clap.specs.Words.{subcommand_rows_of, with_subcommand};
ghost use Rattle.clap.specs.declared.builder.command.Command.TheViews.{out-Command};
ghost use Rattle.command_line.specs.OptionTable.{facts_of};
ghost use Rattle.command_line.specs.Options.{command_app, named_rule, option_rule};
ghost use Rattle.command_line.specs.CommandLine.{curlpool, faults_in, first_word};
ghost use Rattle.command_line.specs.CommandLine.{needing_a_subcommand, options_if};
ghost use Rattle.command_line.specs.CommandLine.{read_words, rows_in};

use crate::help::{AUDITS, COMMANDS, EXAMPLES, LINES, REPORT};
use crate::options::{OptionRow, Takes, audit_options, get_options, load_options, script_options};
use clap::error::ErrorKind;
use clap::{Arg, ArgAction, ArgMatches, Command, Error};
use commands::{BUILD, version};
use std::alloc::{AllocError, Global};

/// The words with which the program was started, its name first, or why they could not be had.
#[derive(Drop)]
pub enum Words {
    /// These.
    Given(Vec<String>),
    /// One is not UTF-8.
    NotText,
    /// Memory ran out.
    NoMemory,
}

/// Parses the words.
///
/// # Errors
///
/// An error of `clap`: the words are wrong, or ask for help or the version, or memory ran out.
pub(crate) fn parse<'a>(alloc: Global, words: &'a [&'a str]) -> Result<ArgMatches<'a>, Error>
    ensures fails { FailsBy (faults_in (map (λ word. word.now) words.now)) result }
    ensures rows { IfOk result (λ matches.
        subcommand_rows_of matches ≡ rows_in (map (λ word. word.now) words.now)) }
{
    let command = command(alloc, first_of(words))?;
    let matches = command.try_get_matches_from(words)?;
    Ok(matches)
}

/// Returns the error for a word that is not UTF-8.
pub(crate) fn not_text(alloc: Global) -> Result<Error, AllocError>
    ensures { IfOk result (λ error. kind_of error ≡ ErrorKind.ValueValidation) }
{
    let mut command = command(alloc, "")?;
    command.error(
        ErrorKind::ValueValidation,
        "invalid UTF-8 was detected in one or more arguments",
    )
}

/// Returns the words as they are read: `help COMMAND` is `COMMAND --help`, and `help` alone is
/// `--help`.
///
/// # Errors
///
/// Memory ran out.
pub(crate) fn read_words<'a>(alloc: Global, words: &'a [String]) -> Result<Vec<&'a str>, AllocError>
    ensures { IfOk result (λ read.
        map (λ word. word.now) read.items ≡ read_words (map string_bytes words.now)) }
{
    let mut read = texts_of(alloc, words)?;
    if read.len() >= 2 && read[1] == "help" {
        let _ = read.remove(1);
        read.push("--help")?;
    }
    Ok(read)
}

// Returns the texts of the words.
fn texts_of<'a>(alloc: Global, words: &'a [String]) -> Result<Vec<&'a str>, AllocError>
    ensures { IfOk result (λ texts.
        map (λ text. text.now) texts.items ≡ map string_bytes words.now) }
{
    let mut texts = Vec::new(alloc);
    for word in words {
        texts.push(word.as_str())?;
    }
    Ok(texts)
}

// Returns the word after the program's name, or no text.
fn first_of<'a>(words: &[&'a str]) -> &'a str
    ensures { result.now ≡ first_word (map (λ word. word.now) words.now) }
{
    match words {
        [_, first, ..] => first,
        _ => "",
    }
}

// Returns the program's command line for words that begin with `first`. Only the command of that
// name has its options: no others can be met.
fn command<'a>(alloc: Global, first: &str) -> Result<Command<'a>, AllocError>
    ensures { IfOk result (λ command. app_of command ≡ curlpool first.now) }
{
    let program = bare_program(alloc)?;
    let script = subcommand(
        alloc,
        "script",
        options_if(first == "script", script_options()),
    )?;
    let program = with_command(program, script, SCRIPT_ABOUT, COMMANDS)?;
    let get = subcommand(alloc, "get", options_if(first == "get", get_options()))?;
    let program = with_command(program, get, GET_ABOUT, LINES)?;
    let load = subcommand(alloc, "load", options_if(first == "load", load_options()))?;
    let program = with_command(program, load, LOAD_ABOUT, REPORT)?;
    let audit = subcommand(
        alloc,
        "audit",
        options_if(first == "audit", audit_options()),
    )?;
    let program = with_command(program, audit, AUDIT_ABOUT, AUDITS)?;
    Ok(program)
}

// Returns the program's command line without its commands.
fn bare_program<'a>(alloc: Global) -> Result<Command<'a>, AllocError>
    ensures { IfOk result (λ program.
        app_of program ≡ needing_a_subcommand (new_app (codes "curlpool"))) }
{
    let program = Command::new(alloc, "curlpool")
        .bin_name("curlpool")?
        .version(version(BUILD))
        .about("HTTP/1.1 connection pool: fetches URLs, load-tests servers, audits pools")
        .after_help(EXAMPLES)
        .subcommand_required(true)
        .disable_help_subcommand(true);
    Ok(program)
}

// Returns these options of a command if it is named.
fn options_if(is_named: bool, options: &'static [OptionRow]) -> &'static [OptionRow]
    ensures { map facts_of result.now ≡ options_if is_named (map facts_of options.now) }
{
    if is_named { options } else { &[] }
}

/// The start of the commands' help.
const SCRIPT_ABOUT: &str = "Runs a script of pool events, and prints its transcript";

const GET_ABOUT: &str = "Fetches URLs over reused connections, and prints a line for each";

const LOAD_ABOUT: &str = "Load-tests a server, or the cache against a built-in server";

const AUDIT_ABOUT: &str = "Checks a connection-pool trace against the rules";

// Returns the program's command line with one more command, which has these texts of help before
// and after its options.
fn with_command<'a>(
    program: Command<'a>,
    command: Command<'a>,
    about: &'a str,
    after_help: &'a str,
) -> Result<Command<'a>, AllocError>
    requires { (out-Command command).has_globals ≡ false }
    ensures { IfOk result (λ whole.
        app_of whole ≡ with_subcommand (app_of program.entry) (app_of command.entry).top) }
{
    let described = command.about(about).after_help(after_help);
    let whole = program.subcommand(described)?;
    Ok(whole)
}

/// Returns a command with these options and operands.
///
/// # Errors
///
/// Memory ran out.
pub(crate) fn subcommand<'a>(
    alloc: Global,
    name: &'a str,
    options: &'static [OptionRow],
) -> Result<Command<'a>, AllocError>
    ensures app { IfOk result (λ command.
        app_of command ≡ command_app name.entry.now (map facts_of options.now)) }
    ensures local { IfOk result (λ command. (out-Command command).has_globals ≡ false) }
{
    let mut command = Command::new(alloc, name);
    for option in options {
        command = command.arg(arg_of(alloc, option))?;
    }
    Ok(command)
}

// Returns an option or operand as `clap` has it.
fn arg_of<'a>(alloc: Global, option: &'static OptionRow) -> Arg<'a>
    ensures rule { rule_of result ≡ option_rule (facts_of option.now) }
    ensures local { result.global ≡ false }
{
    match option.takes {
        Takes::Operand => operand(alloc, option),
        Takes::Operands => operand(alloc, option).num_args(1..),
        Takes::Nothing => named(alloc, option).action(ArgAction::SetTrue),
        Takes::Texts => named(alloc, option)
            .value_name(option.value)
            .action(ArgAction::Append),
        _ => named(alloc, option).value_name(option.value),
    }
}

// Returns an operand with its help.
fn operand<'a>(alloc: Global, option: &'static OptionRow) -> Arg<'a>
    ensures rule { rule_of result ≡ new_rule option.now.name.now }
    ensures local { result.global ≡ false }
{
    Arg::new(alloc, option.name).help(option.help)
}

// Returns an option with its names and its help.
fn named<'a>(alloc: Global, option: &'static OptionRow) -> Arg<'a>
    ensures rule { rule_of result ≡ named_rule (facts_of option.now) }
    ensures local { result.global ≡ false }
{
    let arg = operand(alloc, option).long(option.name);
    match option.short {
        Some(short) => arg.short(short),
        None => arg,
    }
}
