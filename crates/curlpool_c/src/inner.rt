//! What lies behind a handle.

ghost use Rattle.std.specs.Prelude.{◌≡◌, None, Some, IfOk, replicate};

use budget::Limits;
use held_pool::{ClosedTokens, HeldPool};
use std::alloc::{AllocError, Global};

/// What lies behind a handle: the pool while it is open, and once all was ended the tokens that are
/// still to be told; and how many entries of each site's log were told since it was cut.
pub struct Inner {
    pub held: Option<HeldPool>,
    pub closing: Option<ClosedTokens>,
    pub told: Vec<usize>,
}

impl Drop for Inner {
    fn drop(self) {
        let Inner {
            held,
            closing,
            told: _,
        } = self;
        drop(closing);
        if let Some(held) = held {
            let _ = held.close(0);
        }
    }
}

impl Inner {
    /// An open pool, of whose sites nothing was told.
    pub(crate) fn open(held: HeldPool, told: Vec<usize>) -> Inner
        ensures held { result.held ≡ Some held }
        ensures closing { result.closing ≡ None }
        ensures told { result.told ≡ told }
    {
        Inner {
            held: Some(held),
            closing: None,
            told,
        }
    }
}

/// Of so many sites nothing was told.
pub(crate) fn nothing_told(alloc: Global, sites: u32) -> Result<Vec<usize>, AllocError>
    ensures { IfOk result (λ told. told.items ≡ replicate sites 0) }
{
    Vec::from_elem(alloc, 0, sites as usize)
}
