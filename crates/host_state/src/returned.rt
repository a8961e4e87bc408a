use crate::held::Held;

/// What a return comes to.
pub enum Returned<S> {
    /// The connection came back and is idle from then on; what was kept of it while it was held.
    Idle(Held),
    /// It came back and was closed, since its use ends with that response.
    Ended,
    /// It would be idle, but may not be kept; nothing has changed.
    Unkept(S),
    /// The transfer does not hold it; nothing has changed.
    Strange(S),
}
