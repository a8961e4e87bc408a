//! Lines of a head or a trailer section, counted by their ends.
ghost use Rattle.std.specs.Prelude.{◌≡◌, ◌+◌};
ghost use Rattle.persistence.specs.ReadingHeads.{is_too_many, skip_newlines};
ghost use Rattle.persistence.specs.ReadingHeads.{line_ends as line_ends_of};

use httparse::Error;
use memchr::memchr_iter;

/// How many lines end in the text.
pub(crate) fn line_ends(text: &[u8]) -> usize
    ensures { result ≡ line_ends_of text.now }
{
    memchr_iter(b'\n', text).count()
}

/// How many of the lines that end in the text are blank ones that it begins with.
#[tactic(auto, using(crate::proofs::HeadLines::skip_newlines_within))]
pub(crate) fn blank_line_ends(text: &[u8]) -> usize
    ensures { result + line_ends_of (skip_newlines text.now) ≡ line_ends_of text.now }
{
    let rest = past_newlines(text);
    let blank = text.len() - rest.len();
    line_ends(&text[..blank])
}

// The text from the first byte that is no CR or LF.
fn past_newlines(text: &[u8]) -> &[u8]
    ensures { result.now ≡ skip_newlines text.now }
{
    let mut rest = text;
    while let [b'\r' | b'\n', others @ ..] = rest {
        rest = others;
    }
    rest
}

/// Whether the parser found more fields than a head or a trailer section may have.
pub(crate) fn is_too_many_fields(error: Error) -> bool
    ensures { result ≡ is_too_many error }
{
    matches!(error, Error::TooManyHeaders)
}
