use persistence::Facts;

/// A connection that was given back: where, and with which facts.
#[derive(Clone, Copy, Debug, PartialEq, Eq)]
pub struct Returned {
    /// The index of its host.
    pub site: u32,
    pub facts: Facts,
}
