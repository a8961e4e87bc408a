//! The lines that ask: what a transfer asked for before it started or waited, and what it handed in
//! with its connection.

ghost use Rattle.std.specs.Prelude.{◌≡◌, Some};
ghost use Rattle.trace_text.specs.Asking.{get_line, back_line, kind_word};
ghost use Rattle.trace_text.specs.Asking.{fresh_word, forbid_word, lasts_until_close, is_old};

use conn_log::Want;
use persistence::{Facts, Framing, Version, persists};
use std::fmt;

/// The line of a transfer that asks for a connection.
#[derive(Drop)]
pub(crate) struct GetLine {
    pub(crate) host: u32,
    pub(crate) moment: u64,
    pub(crate) want: Want,
}

impl fmt::Display for GetLine {
    ghost output = { λ line. Some (get_line line.host line.moment line.want) };

    fn fmt<W: fmt::Write>(&self, f: &mut fmt::Formatter<W>) -> fmt::Result {
        let GetLine { host, moment, want } = *self;
        let Want {
            transfer,
            max_age,
            max_life,
            lane,
            fresh,
            forbid_reuse,
        } = want;
        let fresh = fresh_word(fresh);
        let forbid = forbid_word(forbid_reuse);
        write!(
            f,
            "get {transfer} {host} {lane} at {moment} age {max_age} \
            life {max_life}{fresh}{forbid}\n"
        )
    }
}

/// The line of a transfer that gives its connection back.
#[derive(Drop)]
pub(crate) struct BackLine {
    pub(crate) host: u32,
    pub(crate) moment: u64,
    pub(crate) transfer: u64,
    pub(crate) facts: Facts,
}

impl fmt::Display for BackLine {
    ghost output = { λ line. Some (back_line line.host line.moment line.transfer line.facts) };

    fn fmt<W: fmt::Write>(&self, f: &mut fmt::Formatter<W>) -> fmt::Result {
        let BackLine {
            host,
            moment,
            transfer,
            facts,
        } = *self;
        let kind = kind_word(&facts);
        write!(f, "back {transfer} {host} {kind} at {moment}\n")
    }
}

/// What says that only a new connection will do.
fn fresh_word(fresh: bool) -> &'static str
    ensures { result.now ≡ fresh_word fresh }
{
    if fresh { " fresh" } else { "" }
}

/// What says that the connection is to be closed after this use.
fn forbid_word(forbid: bool) -> &'static str
    ensures { result.now ≡ forbid_word forbid }
{
    if forbid { " forbid" } else { "" }
}

/// The word of how a response with these facts ended.
fn kind_word(facts: &Facts) -> &'static str
    ensures { result.now ≡ kind_word facts.now }
{
    if !facts.whole {
        "cut"
    } else if persists(facts) {
        "keep"
    } else if facts.surplus {
        "surplus"
    } else if lasts_until_close(facts.framing) {
        "eof"
    } else if is_old(facts) {
        "old"
    } else {
        "close"
    }
}

/// Whether a body of that framing lasts until the connection ends.
fn lasts_until_close(framing: Framing) -> bool
    ensures { result ≡ lasts_until_close framing }
{
    matches!(framing, Framing::UntilClose)
}

/// Whether the response is of HTTP/1.0, and does not ask to be kept alive.
fn is_old(facts: &Facts) -> bool
    ensures { result ≡ is_old facts.now }
{
    matches!(facts.version, Version::V10) && !facts.keep_alive
}
