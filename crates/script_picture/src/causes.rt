//! The marks of closed connections, by cause.

use conn_log::Cause;

/// All causes, in the order of the legend.
pub(crate) static CAUSES: [Cause; 10] = [
    Cause::Cut,
    Cause::Forbidden,
    Cause::NotPersistent,
    Cause::TooOld,
    Cause::HostRoom,
    Cause::TotalRoom,
    Cause::CacheFull,
    Cause::Dropped,
    Cause::Withdrawn,
    Cause::Pruned,
];

/// The word of a cause, as transcripts have it.
pub(crate) fn word_of(cause: Cause) -> &'static str {
    match cause {
        Cause::Cut => "cut",
        Cause::Forbidden => "forbidden",
        Cause::NotPersistent => "not-persistent",
        Cause::TooOld => "too-old",
        Cause::HostRoom => "host-room",
        Cause::TotalRoom => "total-room",
        Cause::CacheFull => "cache-full",
        Cause::Dropped => "dropped",
        Cause::Withdrawn => "withdrawn",
        Cause::Pruned => "pruned",
    }
}

/// The letter that stands in the mark.
pub(crate) fn letter_of(cause: Cause) -> &'static str {
    match cause {
        Cause::Cut => "C",
        Cause::Forbidden => "F",
        Cause::NotPersistent => "N",
        Cause::TooOld => "O",
        Cause::HostRoom => "H",
        Cause::TotalRoom => "T",
        Cause::CacheFull => "K",
        Cause::Dropped => "D",
        Cause::Withdrawn => "W",
        Cause::Pruned => "P",
    }
}
