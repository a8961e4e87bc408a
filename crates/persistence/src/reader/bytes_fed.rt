//! The bytes that a reader was fed: a history that contracts alone see, and no code holds.
ghost use Rattle.std.specs.Prelude.{◌≡◌, ℕ, List, [], ◌++◌};
ghost use Rattle.std.specs.Borrow.{ftrue};

use std::marker::{Model, PhantomData};

/// The bytes fed so far. It takes no memory, and its methods do nothing at run time.
#[derive(Drop)]
pub(crate) struct BytesFed {
    marker: PhantomData<u8>,
    pub ghost bytes: { List ℕ },
}

impl Model for BytesFed {
    ghost also_owns = { λ _. ftrue };
}

// It owns nothing, so any thread may have it.
unsafe impl Send for BytesFed {}

// And so may several at once.
unsafe impl Sync for BytesFed {}

impl BytesFed {
    /// No bytes yet.
    pub fn new() -> BytesFed
        ensures { result.bytes ≡ [] }
    {
        BytesFed {
            marker: PhantomData,
        }
    }

    /// A piece more.
    pub fn append(&mut self, _piece: &[u8])
        ensures { self.new.bytes ≡ self.old.bytes ++ _piece.now }
    {}
}
