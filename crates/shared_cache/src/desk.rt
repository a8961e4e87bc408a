//! A shared cache that is borrowed with the runtime and one pass.

ghost use Rattle.std.specs.Prelude.{◌≡◌, None};
ghost use Rattle.shared_cache.specs.Passes.{IsPassOf};

use crate::cache::SharedCache;
use crate::desk_returns::LastReturned;
use crate::names::Names;
use budget::Pass;
use bundle::Did;
use std::marker::Model;
use std::sync::Wait;

/// A shared cache, borrowed with the runtime and one pass: the cache that one thread's transfers
/// use. Any number of threads may have one of the same cache, each with a pass of its own.
///
/// Contracts see the accounts of its pass, and the stream of the connection that went back last, as
/// it then was: no code holds that. What a desk did follows from what its pass was told last. It
/// has to be spent: [`Desk::into_pass`] gives the pass back.
///
/// Each call may wait for a lock of the cache.
pub struct Desk<'a, S: Drop, N: Names, R: Wait> {
    pub(crate) cache: &'a SharedCache<S, N>,
    pub(crate) rt: &'a R,
    pub(crate) pass: Pass<Did>,
    pub(crate) returned: LastReturned<S>,
}

impl<'a, S: Drop, N: Names, R: Wait> Model for Desk<'a, S, N, R> {
    ghost use Rattle.shared_cache.specs.Passes.{IsPassOf};
    ghost use Rattle.shared_cache.specs.Desks.{DeskShown};

    ghost Value = { DeskShown S };

    ghost view = { λ desk. record { pass = desk.pass; wire = desk.returned } };

    ghost invariant = { λ desk. IsPassOf N.names desk.pass };
}

impl<'a, S: Drop, N: Names, R: Wait> Desk<'a, S, N, R> {
    /// That cache, used with that pass. Nothing went back yet.
    ///
    /// Asked of the caller: the pass is this cache's.
    pub fn new(cache: &'a SharedCache<S, N>, rt: &'a R, pass: Pass<Did>) -> Self
        requires { IsPassOf N.names pass }
        ensures pass { result.pass ≡ pass }
        ensures wire { result.wire ≡ None }
    {
        Desk {
            cache,
            rt,
            pass,
            returned: LastReturned::none(),
        }
    }

    /// Its pass, and so what that was told last at each site.
    pub fn pass(&self) -> &Pass<Did>
        ensures pass { result.now ≡ self.now.pass }
        ensures of_cache { IsPassOf N.names result.now }
    {
        &self.pass
    }

    /// Ends it, and gives its pass back, which the cache's [`gather`] wants.
    ///
    /// [`gather`]: SharedCache::gather
    pub fn into_pass(self) -> Pass<Did>
        ensures pass { result ≡ self.entry.pass }
        ensures of_cache { IsPassOf N.names result }
    {
        let Desk {
            cache: _,
            rt: _,
            pass,
            returned: _,
        } = self;
        pass
    }
}
