//! How connections that are idle for too long are closed.

ghost use Rattle.std.specs.Prelude.{◌≡◌, List, ℕ, sum};
ghost use Rattle.shared_cache.specs.Passes.{IsPassOf, IsPruned};

use crate::cache::SharedCache;
use crate::names::Names;
use budget::Pass;
use bundle::Did;
use std::sync::Wait;

impl<S: Drop, N: Names> SharedCache<S, N> {
    /// Closes, host after host, every idle connection that has been idle for longer than `max_age`,
    /// or open for longer than `max_life` where that is not 0, in seconds; it answers how many it
    /// closed. Then hosts that are queued take turns. `now` is in seconds. It takes no memory.
    ///
    /// At each host the pass is told the numbers handed in, and how many were closed there.
    ///
    /// Asked of the caller: the pass is this cache's.
    pub fn prune<R: Wait>(
        &self,
        rt: &R,
        now: u64,
        max_age: u64,
        max_life: u64,
        pass: &mut Pass<Did>,
    ) -> u32
        requires { IsPassOf N.names pass.old }
        ensures pruned { (closings : List ℕ) × (sum closings ≡ result)
            × IsPruned N.names now max_age max_life closings pass.old pass.new }
        ensures pass { IsPassOf N.names pass.new }
    {
        let mut closed = 0;
        for site in 0..self.hosts() {
            let mut host = self.at(rt, site);
            closed += host.prune(&self.budget, now, max_age, max_life, pass);
            self.unlock(host);
        }
        self.serve(rt, now);
        closed
    }

    /// Keeps connections alive where their protocol has a way to. HTTP/1.1 has none, so it changes
    /// nothing and answers 0 (`curl_easy_upkeep`).
    pub fn upkeep(&self) -> u32
        ensures { result ≡ 0 }
    {
        0
    }
}
