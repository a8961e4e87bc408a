ghost use Rattle.std.specs.Prelude.{◌≡◌};
ghost use Rattle.persistence.specs.Persistent.{is_persistent};

/// The version in a response's status line.
#[derive(Clone, Copy, Debug, PartialEq, Eq)]
pub enum Version {
    /// HTTP/1.0.
    V10,
    /// HTTP/1.1.
    V11,
}

/// How the end of a response's body is found (RFC 9112, section 6.3).
#[derive(Clone, Copy, Debug, PartialEq, Eq)]
pub enum Framing {
    /// There is no body.
    NoBody,
    /// Content-Length counts its bytes.
    Counted,
    /// It comes in chunks.
    Chunked,
    /// It lasts until the connection ends.
    UntilClose,
    /// No framing can be relied on, or none is known yet.
    Faulty,
}

/// What decides whether a connection persists after a response.
#[derive(Clone, Copy, Debug, PartialEq, Eq)]
pub struct Facts {
    pub version: Version,
    /// The response has the connection option `close`.
    pub close: bool,
    /// The response has the connection option `keep-alive`.
    pub keep_alive: bool,
    /// The request had the connection option `close`.
    pub request_close: bool,
    pub framing: Framing,
    /// The response has both a Transfer-Encoding and a Content-Length field.
    pub both_lengths: bool,
    /// The response's status is 101.
    pub upgraded: bool,
    /// All of the response was read.
    pub whole: bool,
    /// Bytes came after the response's end.
    pub surplus: bool,
}

/// Whether the connection persists after the response: it was read whole, with nothing after it,
/// it said itself where it ends, neither side asked for a close, its status is not 101, it does not
/// give both lengths, and it is of HTTP/1.1 or asked to be kept alive (RFC 9112, sections 9.3 and
/// 9.6; what is said of 101 and of both lengths is this project's own choice).
pub fn persists(facts: &Facts) -> bool
    ensures { result ≡ is_persistent facts.now }
{
    let defines_its_length = matches!(
        facts.framing,
        Framing::NoBody | Framing::Counted | Framing::Chunked
    );
    let ends_its_connection = facts.close
        || facts.request_close
        || facts.upgraded
        || facts.both_lengths;
    let is_current = matches!(facts.version, Version::V11);
    facts.whole
        && !facts.surplus
        && defines_its_length
        && !ends_its_connection
        && (is_current || facts.keep_alive)
}
