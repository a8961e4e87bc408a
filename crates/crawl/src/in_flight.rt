//! Transfers of a crawl that are in flight.

/// A URL whose transfer is in flight.
#[derive(Drop)]
pub(crate) struct InFlight {
    /// The number of the transfer.
    pub(crate) number: u64,
    /// The URL as it was given.
    pub(crate) url: String,
    /// The place of its host.
    pub(crate) place: u32,
    /// True if the system does not know its host.
    pub(crate) is_unknown: bool,
}

/// Numbers of URLs that have their lines, and of those among them that failed; each stays at the
/// greatest `u64`.
#[derive(Clone, Copy, Debug, PartialEq, Eq)]
pub struct Tally {
    pub lines: u64,
    pub failed: u64,
}
