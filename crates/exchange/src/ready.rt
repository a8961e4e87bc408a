//! What a turn of a dial's event loop found ready.

/// A place of a slab, and which of the transfers that joined there is meant.
#[derive(Clone, Copy, Debug, PartialEq, Eq)]
pub struct Place {
    /// The index of the place, from 0.
    pub index: u32,
    /// How many transfers had joined at the place once this one had: the count wraps.
    pub joined: u32,
}

/// What a dial tells of the turn that it took last. It is a hint: a wrong one costs a poll that
/// finds nothing.
#[derive(Clone, Copy, Debug, PartialEq, Eq)]
pub enum Ready {
    /// The transfer at that place may go on; there may be more to tell.
    At(Place),
    /// It can't tell: each transfer may go on. This ends the list.
    All,
    /// No other transfer may go on. This ends the list.
    Nothing,
}
