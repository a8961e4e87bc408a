//! What the fields of a head say of its body and its connection, in one pass over the places of
//! their names and values.
ghost use Rattle.std.specs.Prelude.{◌≡◌, [], length};
ghost use Rattle.std.specs.Str.{str_eq_ignore_ascii_case};
ghost use Rattle.persistence.specs.ReadingHeads.{AreWithin, fields_at};
ghost use Rattle.persistence.specs.ReadingFields.{TellsFields, AddsField, adds_option};

use crate::head::elements::{is_chunked, one_number_with, trim};
use httparse::spans::HeaderSpan;

/// The length of the name `Connection`.
const CONNECTION_LEN: usize = 10;

/// The length of the name `Content-Length`.
const CONTENT_LENGTH_LEN: usize = 14;

/// The length of the name `Transfer-Encoding`.
const TRANSFER_ENCODING_LEN: usize = 17;

/// What fields say of a response's body and of its connection.
#[derive(Clone, Copy, Debug)]
pub(crate) struct ControlFields {
    /// There is the connection option `close`.
    pub close: bool,
    /// There is the connection option `keep-alive`.
    pub keep_alive: bool,
    /// There is a Transfer-Encoding field.
    pub transfer_encoding: bool,
    /// The final transfer coding is chunked.
    pub chunked: bool,
    /// There is a Content-Length field.
    pub content_length: bool,
    /// The one number that the Content-Length fields give.
    pub counted: Option<u64>,
}

/// What the fields at these places of the text say.
pub(crate) fn control_fields(text: &[u8], spans: &[HeaderSpan]) -> ControlFields
    requires { AreWithin text.now spans.now }
    ensures { TellsFields (fields_at text.now spans.now) result }
{
    let mut told = ControlFields::none();
    for span in spans {
        told = told.with(span.name.of(text), span.value.of(text));
    }
    told
}

impl ControlFields {
    // What no fields say.
    fn none() -> ControlFields
        ensures { TellsFields [] result }
    {
        ControlFields {
            close: false,
            keep_alive: false,
            transfer_encoding: false,
            chunked: false,
            content_length: false,
            counted: None,
        }
    }

    // What the fields say with one more. Names are told apart by their lengths first.
    #[inline(always)]
    fn with(self, name: &[u8], value: &[u8]) -> ControlFields
        ensures { AddsField self (name.now, value.now) result }
    {
        let len = name.len();
        if len == CONNECTION_LEN {
            return self.with_connection(name, value);
        }
        if len == CONTENT_LENGTH_LEN {
            return self.with_content_length(name, value);
        }
        if len == TRANSFER_ENCODING_LEN {
            return self.with_transfer_encoding(name, value);
        }
        self
    }

    // The same for a field whose name may be `Connection` (RFC 9110, section 7.6.1).
    fn with_connection(self, name: &[u8], value: &[u8]) -> ControlFields
        requires { length name.now ≡ 10 }
        ensures { AddsField self (name.now, value.now) result }
    {
        if !is_name(name, b"connection") {
            return self;
        }
        value
            .split(|b| *b == b',')
            .fold(self, |told, element| told.with_option(trim(element)))
    }

    // What the fields say with that connection option.
    fn with_option(self, option: &[u8]) -> ControlFields
        ensures { result ≡ adds_option self option.now }
    {
        ControlFields {
            close: self.close | option.eq_ignore_ascii_case(b"close"),
            keep_alive: self.keep_alive | option.eq_ignore_ascii_case(b"keep-alive"),
            ..self
        }
    }

    // The same for a field whose name may be `Content-Length` (RFC 9112, section 6.3, item 5).
    fn with_content_length(self, name: &[u8], value: &[u8]) -> ControlFields
        requires { length name.now ≡ 14 }
        ensures { AddsField self (name.now, value.now) result }
    {
        if !is_name(name, b"content-length") {
            return self;
        }
        let counted = one_number_with(self.content_length, self.counted, value);
        ControlFields {
            content_length: true,
            counted,
            ..self
        }
    }

    // The same for a field whose name may be `Transfer-Encoding` (RFC 9112, section 6.1).
    fn with_transfer_encoding(self, name: &[u8], value: &[u8]) -> ControlFields
        requires { length name.now ≡ 17 }
        ensures { AddsField self (name.now, value.now) result }
    {
        if !is_name(name, b"transfer-encoding") {
            return self;
        }
        let chunked = is_chunked(value).unwrap_or(self.chunked);
        ControlFields {
            transfer_encoding: true,
            chunked,
            ..self
        }
    }
}

// Whether it is that name, without case (RFC 9110, section 5.1).
#[inline(always)]
fn is_name(name: &[u8], expected: &[u8]) -> bool
    ensures { result ≡ str_eq_ignore_ascii_case name.now expected.now }
{
    name.eq_ignore_ascii_case(expected)
}
