//! How a transfer ends.

ghost use Rattle.std.specs.Prelude.{◌≡◌, ◌<◌};
ghost use Rattle.exchange.specs.Faults.{fault_index, fault_name};

use budget::Refusal;
use persistence::Facts;

/// Why a transfer has no good response.
#[derive(Clone, Copy, Debug, PartialEq, Eq)]
pub enum Fault {
    /// There is no memory. A poll never gives it, since it takes none itself: what its cache lacks
    /// is a refusal.
    Memory,
    /// The connection could not be opened. Its lease was abandoned, or let go if the cache took it
    /// for a stranger.
    Dial,
    /// A read failed. The connection's lease was abandoned, or let go if the cache took it for a
    /// stranger.
    Read,
    /// A write failed. The connection's lease was abandoned, or let go if the cache took it for a
    /// stranger.
    Write,
    /// The bytes that came are no response that can be read. The connection's lease was given back
    /// with the facts of these bytes, or let go if the cache took it for a stranger.
    BadResponse,
    /// The connection ended before the response was whole. Its lease was given back with the facts
    /// of the bytes that came, or let go if the cache took it for a stranger.
    Cut,
    /// The cache refused to give a connection, or took a lease or a ticket for a stranger, which
    /// was let go.
    Refused(Refusal),
    /// It was cancelled before it had ended. A poll never gives it.
    Cancelled,
}

/// Names of the faults, by [`Fault::index`].
pub const FAULT_NAMES: [&str; 8] = [
    "Dial",
    "Read",
    "Write",
    "BadResponse",
    "Cut",
    "Cancelled",
    "Refused",
    "Memory",
];

impl Fault {
    /// Returns its index in [`FAULT_NAMES`].
    pub fn index(self) -> usize
        ensures index { result ≡ fault_index self }
        ensures within { result < 8 }
    {
        match self {
            Fault::Dial => 0,
            Fault::Read => 1,
            Fault::Write => 2,
            Fault::BadResponse => 3,
            Fault::Cut => 4,
            Fault::Cancelled => 5,
            Fault::Refused(_) => 6,
            Fault::Memory => 7,
        }
    }

    /// Returns the name of its variant.
    pub fn name(self) -> &'static str
        ensures { result.now ≡ fault_name self }
    {
        FAULT_NAMES[self.index()]
    }
}

/// A whole response. Its connection was given back with its facts.
#[derive(Clone, Copy, Debug, PartialEq, Eq)]
pub struct Answer {
    /// The status of the final head.
    pub status: u16,
    /// How many bytes its body has.
    pub body_len: u64,
    /// What decides whether its connection persists.
    pub facts: Facts,
    /// Its connection was used before.
    pub reused: bool,
    /// The request was sent once more, on a new connection, since the first failed or was ended
    /// before any byte of a response.
    pub retried: bool,
}

/// How a transfer ended.
#[derive(Clone, Copy, Debug, PartialEq, Eq)]
pub enum Done {
    /// With a whole response.
    Good(Answer),
    /// Without one.
    Bad(Fault),
}
