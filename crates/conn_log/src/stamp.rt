ghost use Rattle.std.specs.Prelude.{◌≡◌};
ghost use Rattle.conn_log.specs.Fit.{is_earlier};

/// Where an idle connection stands in the order in which connections are closed to make room.
#[derive(Clone, Copy, Debug, PartialEq, Eq, Hash)]
pub struct Stamp {
    /// The moment since which it is idle, in seconds.
    pub since: u64,
    /// The index of its host.
    pub host: u32,
    /// Its connection number.
    pub number: u32,
}

impl Stamp {
    /// Whether its connection is closed before the other's: by the moment since which they are
    /// idle, then by their hosts, then by their numbers.
    pub fn is_earlier(&self, other: &Stamp) -> bool
        ensures { result ≡ is_earlier self.now other.now }
    {
        if self.since != other.since {
            return self.since < other.since;
        }
        if self.host != other.host {
            return self.host < other.host;
        }
        self.number < other.number
    }
}
