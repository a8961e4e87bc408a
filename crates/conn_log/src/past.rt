//! The entries that were cut away from a log, or that a monitor took: a history that contracts
//! alone see, and no code holds.
ghost use Rattle.std.specs.Prelude.{◌≡◌, List, [], ◌++◌, reverse};
ghost use Rattle.std.specs.Borrow.{ftrue};
ghost use Rattle.conn_log.specs.declared.entry.Entry.{Entry};

use crate::entry::Entry;
use std::fmt::{self, Debug, Formatter, Write};
use std::marker::{Model, PhantomData};

/// Entries of the past, newest first: those that were cut away from a log, or those that a monitor
/// took. It takes no memory, and its methods do nothing at run time.
#[derive(Drop)]
pub struct Past {
    marker: PhantomData<u8>,
    pub ghost entries: { List Entry },
}

impl Model for Past {
    ghost also_owns = { λ _. ftrue };
}

// It owns nothing, so any thread may have it.
unsafe impl Send for Past {}

// And so may several at once.
unsafe impl Sync for Past {}

impl Past {
    /// No entry yet.
    pub fn new() -> Past
        ensures { result.entries ≡ [] }
    {
        Past {
            marker: PhantomData,
        }
    }

    /// These entries come after the others, oldest first.
    pub fn append(&mut self, _part: &[Entry])
        ensures { self.new.entries ≡ reverse _part.now ++ self.old.entries }
    {}
}

impl Debug for Past {
    fn fmt<W: Write>(&self, f: &mut Formatter<W>) -> fmt::Result {
        f.write_str("Past")
    }
}
