//! The options of `get`.

ghost use Rattle.std.specs.Prelude.{◌≡◌, ◌≤◌, ◌∷◌, length, MatchOption, None};
ghost use Rattle.conn_log.specs.declared.entry.Want.{Want};
ghost use Rattle.streams.specs.Words.{words};
ghost use Rattle.script_text.specs.Grammar.{no_options, options_of, takes_number, with_age};
ghost use Rattle.script_text.specs.Grammar.{with_life, with_number, with_fresh, with_forbid};
ghost use Rattle.script_text.specs.Grammar.{with_word, want_of};

use conn_log::{DEFAULT_MAX_AGE, Want};
use streams::{first_word, is_word, u64_first};

/// The default maximum lifetime of a reused connection, in seconds: no limit.
const DEFAULT_LIFE: u64 = 0;

/// The options of a `get`.
#[derive(Clone, Copy, Debug, PartialEq, Eq)]
pub struct Options {
    /// `age N`: the maximum idle age, in seconds.
    pub age: Option<u64>,
    /// `life N`: the maximum lifetime, in seconds; 0 for no limit.
    pub life: Option<u64>,
    /// `fresh`: the connection must be new.
    pub fresh: bool,
    /// `forbid`: the connection is closed after this use.
    pub forbid: bool,
}

/// The options if none is given.
const NO_OPTIONS: Options = Options {
    age: None,
    life: None,
    fresh: false,
    forbid: false,
};

/// Reads the options of a line, which stand in any order, each at most once.
pub fn read_options(line: &[u8]) -> Option<Options>
    ensures { result ≡ options_of no_options (words line.now) }
{
    let mut options = NO_OPTIONS;
    let mut rest = line;
    while let Some((name, others)) = first_word(rest) {
        let (more, left) = with_option(options, name, others)?;
        options = more;
        rest = left;
    }
    Some(options)
}

/// Adds the option with that name, and gives the rest of the line.
fn with_option<'a>(options: Options, name: &[u8], line: &'a [u8]) -> Option<(Options, &'a [u8])>
    ensures { MatchOption result (options_of options (name.now ∷ words line.now)
        ≡ None) (λ found. (options_of options (name.now ∷ words line.now)
        ≡ options_of found.0 (words found.1.now)) ×
        (length (words found.1.now) ≤ length (words line.now))) }
{
    if takes_number(name) {
        let (number, others) = u64_first(line)?;
        let options = with_number(name, options, number)?;
        Some((options, others))
    } else {
        let options = with_word(name, options)?;
        Some((options, line))
    }
}

/// Whether the option with that name takes a number.
fn takes_number(name: &[u8]) -> bool
    ensures { result ≡ takes_number name.now }
{
    is_word(name, "age") || is_word(name, "life")
}

/// Adds the option with that name and that number.
#[tactic(auto, unfolding(crate::specs::Grammar::with_number))]
fn with_number(name: &[u8], options: Options, number: u64) -> Option<Options>
    ensures { result ≡ with_number name.now options number }
{
    if is_word(name, "age") {
        with_age(options, number)
    } else if is_word(name, "life") {
        with_life(options, number)
    } else {
        None
    }
}

/// Adds `age`, unless it is given already.
fn with_age(options: Options, number: u64) -> Option<Options>
    ensures { result ≡ with_age options number }
{
    if options.age.is_some() {
        return None;
    }
    Some(Options {
        age: Some(number),
        ..options
    })
}

/// Adds `life`, unless it is given already.
fn with_life(options: Options, number: u64) -> Option<Options>
    ensures { result ≡ with_life options number }
{
    if options.life.is_some() {
        return None;
    }
    Some(Options {
        life: Some(number),
        ..options
    })
}

/// Adds the option with that name, which takes no number.
#[tactic(auto, unfolding(crate::specs::Grammar::with_word))]
fn with_word(name: &[u8], options: Options) -> Option<Options>
    ensures { result ≡ with_word name.now options }
{
    if is_word(name, "fresh") {
        with_fresh(options)
    } else if is_word(name, "forbid") {
        with_forbid(options)
    } else {
        None
    }
}

/// Adds `fresh`, unless it is given already.
fn with_fresh(options: Options) -> Option<Options>
    ensures { result ≡ with_fresh options }
{
    if options.fresh {
        return None;
    }
    Some(Options {
        fresh: true,
        ..options
    })
}

/// Adds `forbid`, unless it is given already.
fn with_forbid(options: Options) -> Option<Options>
    ensures { result ≡ with_forbid options }
{
    if options.forbid {
        return None;
    }
    Some(Options {
        forbid: true,
        ..options
    })
}

/// The want of a transfer in that lane, with these options.
pub fn want_of(transfer: u64, lane: u32, options: Options) -> Want
    ensures { result ≡ want_of transfer lane options }
{
    Want {
        transfer,
        lane,
        max_age: options.age.unwrap_or(DEFAULT_MAX_AGE),
        max_life: options.life.unwrap_or(DEFAULT_LIFE),
        fresh: options.fresh,
        forbid_reuse: options.forbid,
    }
}
