//! Where the reading of a body stands.
ghost use Rattle.std.specs.Prelude.{◌≡◌};
ghost use Rattle.persistence.specs.ReadingBody.{len_of, surplus_of, whole_of};

use crate::body::count::Came;

/// A part of a body in chunks.
#[derive(Clone, Copy, Debug)]
pub(crate) enum ChunkPart {
    /// The line before a chunk.
    Line,
    /// A chunk's data.
    Data {
        /// How many bytes of it are still to come.
        left: u64,
    },
    /// The CR LF after a chunk's data.
    LineEnd {
        /// Whether the CR came.
        has_cr: bool,
    },
    /// The trailer section.
    Trailer,
}

/// A body in chunks, so far.
#[derive(Clone, Copy, Debug)]
pub(crate) struct ChunkedBody {
    /// The part that is due; nothing once the body has ended.
    pub part: Option<ChunkPart>,
    /// How many bytes of data have come.
    pub len: u64,
    /// Whether bytes came after the body.
    pub surplus: bool,
}

/// A body, so far.
#[derive(Clone, Copy, Debug)]
pub(crate) enum BodyState {
    /// A body of so many bytes; of none where there is no body.
    Counted {
        /// How many bytes the body has.
        count: u64,
        /// What came of them.
        came: Came,
    },
    /// A body in chunks.
    Chunked {
        /// The chunks, so far.
        chunks: ChunkedBody,
    },
    /// A body that lasts until the connection ends.
    UntilClose {
        /// How many bytes have come.
        len: u64,
    },
}

impl BodyState {
    /// How many bytes of the body have come, of chunks the data alone.
    pub fn len(&self) -> u64
        ensures { result ≡ len_of self.now }
    {
        match *self {
            BodyState::Counted { came, .. } => came.len,
            BodyState::Chunked { chunks } => chunks.len,
            BodyState::UntilClose { len } => len,
        }
    }

    /// Whether the body is whole, where the connection has ended or not.
    pub fn is_whole(&self, ended: bool) -> bool
        ensures { result ≡ whole_of ended self.now }
    {
        match *self {
            BodyState::Counted { came, .. } => came.whole,
            BodyState::Chunked { chunks } => chunks.part.is_none(),
            BodyState::UntilClose { .. } => ended,
        }
    }

    /// Whether bytes came after it.
    pub fn has_surplus(&self) -> bool
        ensures { result ≡ surplus_of self.now }
    {
        match *self {
            BodyState::Counted { came, .. } => came.surplus,
            BodyState::Chunked { chunks } => chunks.surplus,
            BodyState::UntilClose { .. } => false,
        }
    }
}
