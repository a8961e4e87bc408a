//! Why a connection that came back has to be closed.

ghost use Rattle.std.specs.Prelude.{◌≡◌};
ghost use Rattle.audit.specs.Endings.{forbidden_or, ended_by, cause_of_end, is_closed_for};
ghost use Rattle.audit.specs.Endings.{facts_of_end};

use conn_log::Cause;
use persistence::{Facts, Framing, Version};
use script_text::Ending;
use std::fmt;

/// The facts of a response that lets its connection persist.
pub(crate) const PERSISTENT: Facts = Facts {
    version: Version::V11,
    close: false,
    keep_alive: false,
    request_close: false,
    framing: Framing::Counted,
    both_lengths: false,
    upgraded: false,
    whole: true,
    surplus: false,
};

/// Why the use of a connection ended, so that it has to be closed once it came back.
#[derive(Clone, Copy, Debug, PartialEq, Eq)]
pub enum Ended {
    /// The response was truncated.
    Cut,
    /// The transfer forbids reuse.
    Forbidden,
    /// The response has the connection option `close`.
    Close,
    /// The response is of HTTP/1.0.
    Old,
    /// The response's body lasted until the connection ended.
    Eof,
    /// Bytes came after the response's end.
    Surplus,
}

/// The end of a use that forbids reuse, or else the other one.
fn forbidden_or(forbids_reuse: bool, other: Option<Ended>) -> Option<Ended>
    ensures { result ≡ forbidden_or forbids_reuse other }
{
    if forbids_reuse {
        Some(Ended::Forbidden)
    } else {
        other
    }
}

impl Ended {
    /// Why a use ends with a response that ended so, if it does.
    pub fn of(ending: Ending, forbids_reuse: bool) -> Option<Ended>
        ensures { result ≡ ended_by ending forbids_reuse }
    {
        match ending {
            Ending::Cut => Some(Ended::Cut),
            Ending::Keep => forbidden_or(forbids_reuse, None),
            Ending::OldKeep => forbidden_or(forbids_reuse, None),
            Ending::Close => forbidden_or(forbids_reuse, Some(Ended::Close)),
            Ending::Old => forbidden_or(forbids_reuse, Some(Ended::Old)),
            Ending::Eof => forbidden_or(forbids_reuse, Some(Ended::Eof)),
            Ending::Surplus => forbidden_or(forbids_reuse, Some(Ended::Surplus)),
        }
    }

    /// The cause that the connection is closed for.
    pub fn cause(self) -> Cause
        ensures { result ≡ cause_of_end self }
    {
        match self {
            Ended::Cut => Cause::Cut,
            Ended::Forbidden => Cause::Forbidden,
            Ended::Close | Ended::Old | Ended::Eof | Ended::Surplus => Cause::NotPersistent,
        }
    }

    /// Whether that is the cause that the connection is closed for.
    pub(crate) fn is_closed_for(self, cause: Cause) -> bool
        ensures { result ≡ is_closed_for self cause }
    {
        match self {
            Ended::Cut => matches!(cause, Cause::Cut),
            Ended::Forbidden => matches!(cause, Cause::Forbidden),
            Ended::Close | Ended::Old | Ended::Eof | Ended::Surplus => {
                matches!(cause, Cause::NotPersistent)
            }
        }
    }

    /// The word of that cause.
    pub(crate) fn cause_word(self) -> &'static str {
        match self {
            Ended::Cut => "cut",
            Ended::Forbidden => "forbidden",
            _ => "not-persistent",
        }
    }

    /// Facts of a response that ends a use so.
    pub(crate) fn facts(self) -> Facts
        ensures { result ≡ facts_of_end self }
    {
        let mut facts = PERSISTENT;
        match self {
            Ended::Cut => facts.whole = false,
            Ended::Forbidden => {}
            Ended::Close => facts.close = true,
            Ended::Old => facts.version = Version::V10,
            Ended::Eof => facts.framing = Framing::UntilClose,
            Ended::Surplus => facts.surplus = true,
        }
        facts
    }
}

impl fmt::Display for Ended {
    fn fmt<W: fmt::Write>(&self, f: &mut fmt::Formatter<W>) -> fmt::Result {
        match self {
            Ended::Cut => write!(f, "a truncated response"),
            Ended::Forbidden => write!(f, "a use that forbids reuse"),
            Ended::Close => write!(f, "a response with close"),
            Ended::Old => write!(f, "a response of HTTP/1.0"),
            Ended::Eof => write!(f, "a response that lasted until the connection ended"),
            Ended::Surplus => write!(f, "a response with surplus bytes"),
        }
    }
}
