/// The counts of one host at a moment.
#[derive(Clone, Copy, Debug, PartialEq, Eq)]
pub struct Snapshot {
    /// How many connections are open.
    pub alive: u32,
    /// How many of them are idle.
    pub idle: u32,
    /// How many of them a transfer holds.
    pub leased: u32,
    /// How many transfers wait.
    pub waiting: u32,
    /// Whether the host is queued for room among all hosts.
    pub queued: bool,
}
