/// What must not be so while a pool is at rest, with the numbers that show it.
#[derive(Clone, Copy, Debug, PartialEq, Eq)]
pub enum Unrest {
    /// More connections are open than the total limit allows.
    PastTotal {
        /// How many are open.
        count: u64,
        /// How many may be.
        limit: u32,
    },
    /// More connections are idle than may be kept.
    PastKept {
        /// How many are idle.
        count: u64,
        /// How many may be kept.
        limit: u32,
    },
    /// A transfer waits at a host where a connection is idle.
    WaiterBesideIdle {
        /// The host's index.
        site: u32,
        /// The first waiter.
        first: u64,
    },
    /// A transfer waits though its host has room, and the total has room or could make it.
    WaiterBesideRoom {
        /// The host's index.
        site: u32,
        /// The first waiter.
        first: u64,
        /// How many connections are open at the host.
        count: u64,
        /// How many may be.
        limit: u32,
    },
}
