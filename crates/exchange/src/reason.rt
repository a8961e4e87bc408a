//! Why a dial, a read or a write failed.

use std::fmt;

/// Why a dial, a read or a write failed, as the system said.
#[derive(Clone, Copy, Debug, PartialEq, Eq)]
pub enum Reason {
    /// The host refused the connection.
    Refused,
    /// No way leads to the host.
    Unreachable,
    /// The host did not answer in the system's time.
    TimedOut,
    /// The peer reset the connection.
    Reset,
}

impl fmt::Display for Reason {
    fn fmt<W: fmt::Write>(&self, f: &mut fmt::Formatter<W>) -> fmt::Result {
        match self {
            Reason::Refused => f.write_str("refused"),
            Reason::Unreachable => f.write_str("unreachable"),
            Reason::TimedOut => f.write_str("timed out"),
            Reason::Reset => f.write_str("reset"),
        }
    }
}
