//! What the bytes that a peer has sent begin with.

ghost use Rattle.std.specs.Prelude.{◌≡◌, length, All};
ghost use Rattle.std.specs.List.{list_any};
ghost use Rattle.httparse.specs.Grammar.{skip_ows, trim_ows};
ghost use Rattle.httparse.specs.Spans.{IsHeaderWithin};
ghost use Rattle.loopback_server.specs.Requests.{BeginsWith, has_close_at};
ghost use Rattle.loopback_server.specs.Requests.{lists_close as lists_close_of};

use httparse::spans::{HeaderSpan, parse_request};
use httparse::{Status, is_space_or_tab};

/// The most fields of a head.
pub(crate) const MOST_FIELDS: usize = 100;

/// What bytes begin with.
#[derive(Clone, Copy, Debug, PartialEq, Eq)]
pub(crate) enum Front {
    /// The head of a request: its length, and whether it asks to close the connection.
    Request { len: usize, is_last: bool },
    /// What may become one.
    Part,
    /// What is none, whatever follows, or has more fields than there are spans.
    Other,
}

/// What the bytes begin with. The spans are where the fields of a head are written.
pub(crate) fn front_of(bytes: &[u8], spans: &mut [HeaderSpan]) -> Front
    ensures { BeginsWith bytes.now (length spans.old) result }
{
    match parse_request(bytes, spans) {
        Ok(Status::Complete(head)) => Front::Request {
            len: head.len,
            is_last: have_close(bytes, &spans[..head.headers]),
        },
        Ok(Status::Partial) => Front::Part,
        Err(_) => Front::Other,
    }
}

/// Whether the fields at these places have the connection option `close`.
#[tactic(auto, using(std::proofs::lemmas::List::Folds::list_any_more))]
fn have_close(bytes: &[u8], spans: &[HeaderSpan]) -> bool
    requires { All (IsHeaderWithin (length bytes.now)) spans.now }
    ensures { result ≡ list_any (has_close_at bytes.now) spans.now }
{
    for span in spans {
        if has_close(bytes, *span) {
            return true;
        }
    }
    false
}

/// Whether the field at this place has the connection option `close`.
fn has_close(bytes: &[u8], span: HeaderSpan) -> bool
    requires { IsHeaderWithin (length bytes.now) span }
    ensures { result ≡ has_close_at bytes.now span }
{
    span.name.of(bytes).eq_ignore_ascii_case(b"connection") && lists_close(span.value.of(bytes))
}

/// Whether the elements of the list have `close`, without case.
fn lists_close(value: &[u8]) -> bool
    ensures { result ≡ lists_close_of value.now }
{
    value
        .split(|byte| *byte == b',')
        .any(|element| trim(element).eq_ignore_ascii_case(b"close"))
}

/// The bytes without the spaces and tabs at both ends.
#[tactic(auto, unfolding(httparse::specs::Grammar::trim_ows))]
fn trim(bytes: &[u8]) -> &[u8]
    ensures { result.now ≡ trim_ows bytes.now }
{
    let mut rest = trim_start(bytes);
    while let [others @ .., last] = rest
        && is_space_or_tab(*last)
    {
        rest = others;
    }
    rest
}

/// The bytes from the first that is no space or tab.
fn trim_start(bytes: &[u8]) -> &[u8]
    ensures { result.now ≡ skip_ows bytes.now }
{
    let mut rest = bytes;
    while let [first, others @ ..] = rest
        && is_space_or_tab(*first)
    {
        rest = others;
    }
    rest
}
