ghost use Rattle.std.specs.Prelude.{◌≡◌};
ghost use Rattle.conn_log.specs.Wants.{want_of};

use persistence::Facts;

/// The most seconds that a connection may have been idle if a transfer does not say another number:
/// the default of libcurl's CURLOPT_MAXAGE_CONN.
pub const DEFAULT_MAX_AGE: u64 = 118;

/// What a transfer wants of a connection.
#[derive(Clone, Copy, Debug, PartialEq, Eq)]
pub struct Want {
    /// The transfer's number.
    pub transfer: u64,
    /// The most seconds that a connection may have been idle (CURLOPT_MAXAGE_CONN).
    pub max_age: u64,
    /// The most seconds since a connection was opened; 0 for no limit (CURLOPT_MAXLIFETIME_CONN).
    pub max_life: u64,
    /// All that has to match beside host and port.
    pub lane: u32,
    /// Only a new connection will do (CURLOPT_FRESH_CONNECT).
    pub fresh: bool,
    /// The connection is closed after this use (CURLOPT_FORBID_REUSE).
    pub forbid_reuse: bool,
}

impl Want {
    /// Returns a transfer's want with libcurl's defaults: lane 0, an idle time of at most
    /// [`DEFAULT_MAX_AGE`] seconds, no maximum lifetime, and reuse allowed.
    pub fn of(transfer: u64) -> Want
        ensures { result ≡ want_of transfer }
    {
        Want {
            transfer,
            max_age: DEFAULT_MAX_AGE,
            max_life: 0,
            lane: 0,
            fresh: false,
            forbid_reuse: false,
        }
    }
}

/// Why a connection was closed.
#[derive(Clone, Copy, Debug, PartialEq, Eq)]
pub enum Cause {
    /// The response does not let the connection persist.
    NotPersistent,
    /// The response was not read whole.
    Cut,
    /// The transfer forbids reuse.
    Forbidden,
    /// It was idle or open for longer than a transfer that wanted one allows.
    TooOld,
    /// It made room at the limit of its host.
    HostRoom,
    /// It made room at the limit of all hosts.
    TotalRoom,
    /// It made room among the connections kept after use.
    CacheFull,
    /// Its transfer was abandoned.
    Dropped,
    /// Its transfer was withdrawn before it claimed the connection.
    Withdrawn,
    /// It was idle or open for longer than a prune allows.
    Pruned,
}

/// What happened to a connection or to a waiting transfer.
#[derive(Clone, Copy, Debug, PartialEq, Eq)]
pub enum Event {
    /// A new connection was opened for a transfer.
    Opened {
        /// The connection's number.
        connection: u32,
        want: Want,
    },
    /// An idle connection was leased to a transfer.
    Leased {
        /// The connection's number.
        connection: u32,
        want: Want,
    },
    /// The holder gave the connection back, with the facts of its response.
    Returned {
        /// The connection's number.
        connection: u32,
        facts: Facts,
    },
    /// The connection was closed.
    Closed {
        /// The connection's number.
        connection: u32,
        cause: Cause,
    },
    /// A transfer began to wait.
    Waited {
        want: Want,
    },
    /// A waiting transfer was withdrawn.
    Left {
        /// The transfer's number.
        transfer: u64,
    },
    /// The most connections that may be open at the host was changed.
    Limit {
        /// The limit from then on.
        limit: u32,
    },
}

/// An event with its moment.
#[derive(Clone, Copy, Debug, PartialEq, Eq)]
pub struct Entry {
    /// In seconds.
    pub moment: u64,
    pub event: Event,
}
