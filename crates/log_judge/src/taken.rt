ghost use Rattle.std.specs.Prelude.{◌≡◌, [], ◌∷◌};
ghost use Rattle.conn_log.specs.Connections.{last_moment};

use conn_log::{Entry, Past};
use std::marker::Model;

/// The entries that were taken: contracts see them all, the code keeps the moment of the last one.
#[derive(Drop)]
pub(crate) struct Taken {
    last: u64,
    log: Past,
}

impl Model for Taken {
    ghost use Rattle.std.specs.Prelude.{◌≡◌, List};
    ghost use Rattle.conn_log.specs.declared.entry.Entry.{Entry};
    ghost use Rattle.conn_log.specs.Connections.{last_moment};

    ghost Value = { List Entry };

    ghost view = { λ taken. taken.log.entries };

    ghost invariant = { λ taken. taken.last ≡ last_moment taken.log.entries };
}

impl Taken {
    /// None was taken yet.
    pub(crate) fn new() -> Taken
        ensures { result ≡ [] }
    {
        Taken {
            last: 0,
            log: Past::new(),
        }
    }

    /// The moment of the last entry, in seconds; 0 before any.
    pub(crate) fn last_moment(&self) -> u64
        ensures { result ≡ last_moment self.now }
    {
        self.last
    }

    /// One more is taken.
    pub(crate) fn add(&mut self, entry: Entry)
        ensures { self.new ≡ entry ∷ self.old }
    {
        self.last = entry.moment;
        self.log.append(&[entry]);
    }
}
