//! The passes with which threads call a shared cache.

ghost use Rattle.std.specs.Prelude.{◌≡◌, IfOk, IfErr};
ghost use Rattle.shared_cache.specs.Passes.{IsPassOf, IsNewPass};

use crate::cache::SharedCache;
use crate::names::Names;
use budget::{Pass, Refusal};
use bundle::Did;
use std::alloc::Global;
use std::sync::Wait;

impl<S: Drop, N: Names> SharedCache<S, N> {
    /// A pass of this cache, with which nothing was spent yet, and which was told nothing.
    ///
    /// The only refusal is [`Refusal::Memory`].
    pub fn pass<R: Wait>(&self, rt: &R, alloc: Global) -> Result<Pass<Did>, Refusal>
        ensures ok { IfOk result (IsPassOf N.names) }
        ensures new { IfOk result IsNewPass }
        ensures err { IfErr result (λ refusal. refusal ≡ Refusal.Memory) }
    {
        let mut pass = Pass::new(alloc, self.hosts.len())?;
        for site in 0..self.hosts() {
            let mut host = self.at(rt, site);
            host.enrol(&mut pass);
        }
        Ok(pass)
    }

    /// Gives a pass up. If leases were spent with it, what is left can't add up to the starts:
    /// once nothing is in use, [`SharedCache::gather`] answers that passes are missing.
    pub fn discard(&self, pass: Pass<Did>) {
        pass.discard();
    }
}
