//! Answers to a request for the place of a host.

/// The answer to a request for the place of a host.
#[derive(Clone, Copy, Debug, PartialEq, Eq)]
pub(crate) enum Placed {
    At(u32),
    /// Not yet: its addresses are not known.
    Unresolved,
    /// Not yet: each place is in use.
    Full,
}
