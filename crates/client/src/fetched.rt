//! How a fetch ended.

use exchange::Done;

/// How a fetch ended.
#[derive(Clone, Copy, Debug, PartialEq, Eq)]
pub struct Fetched {
    /// How its transfer ended.
    pub done: Done,
    /// A new connection was asked for, to try the request once more: the first was reused, and
    /// failed or was ended before any byte of a response. A good answer says the same.
    pub retried: bool,
}
