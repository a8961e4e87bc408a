//! Why the system refused a call.

use exchange::Reason;
use std::io::ErrorKind;

/// The reason that an error of the system tells, if it is one of those that are told.
pub(crate) fn reason_of(kind: ErrorKind) -> Option<Reason> {
    match kind {
        ErrorKind::ConnectionRefused => Some(Reason::Refused),
        ErrorKind::HostUnreachable | ErrorKind::NetworkUnreachable | ErrorKind::NetworkDown => {
            Some(Reason::Unreachable)
        }
        ErrorKind::TimedOut => Some(Reason::TimedOut),
        ErrorKind::ConnectionReset | ErrorKind::ConnectionAborted | ErrorKind::BrokenPipe => {
            Some(Reason::Reset)
        }
        _ => None,
    }
}

/// The reason that is told of a host of which an address failed after others did. An address that
/// cannot be reached tells less than another one's answer, and so does an error of no reason.
pub(crate) fn told_of(former: Option<Reason>, last: Option<Reason>) -> Option<Reason> {
    match last {
        None | Some(Reason::Unreachable) => former.or(last),
        Some(_) => last,
    }
}
