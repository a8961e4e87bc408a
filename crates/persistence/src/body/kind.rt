//! How a body is read.
ghost use Rattle.std.specs.Prelude.{◌≡◌};
ghost use Rattle.persistence.specs.Framing.{framing_by};

use crate::Framing;

/// How a response's body is read (RFC 9112, section 6.3).
#[derive(Clone, Copy, Debug)]
pub(crate) enum BodyKind {
    /// There is none.
    NoBody,
    /// Content-Length counts its bytes.
    Counted,
    /// It comes in chunks.
    Chunked,
    /// It lasts until the connection ends.
    UntilClose,
}

impl BodyKind {
    /// The framing of such a body.
    pub fn framing(self) -> Framing
        ensures { result ≡ framing_by self }
    {
        match self {
            BodyKind::NoBody => Framing::NoBody,
            BodyKind::Counted => Framing::Counted,
            BodyKind::Chunked => Framing::Chunked,
            BodyKind::UntilClose => Framing::UntilClose,
        }
    }
}
