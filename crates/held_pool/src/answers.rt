use thiserror::Error;

/// What a transfer got.
#[derive(Clone, Copy, Debug, PartialEq, Eq)]
pub enum SlotAnswer {
    /// A new connection, which the caller dials, and whose token it attaches then.
    New,
    /// A connection that was idle, with this token.
    Reused(u64),
    /// A wait.
    Wait,
}

/// Why a call by slot changed nothing.
#[derive(Clone, Copy, Debug, PartialEq, Eq, Error)]
pub enum SlotError {
    /// The slot has no lease or ticket of that kind, or has it no more.
    #[error("stranger")]
    Stranger,
    /// The connection has no token yet.
    #[error("no token attached")]
    Unattached,
    /// The connection has its token.
    #[error("token attached already")]
    Attached,
    /// No response was begun for it.
    #[error("no response begun")]
    Unread,
    /// There is no memory.
    #[error("out of memory")]
    Memory,
}
