//! How the most connections that a host may have open are changed while others work.

ghost use Rattle.std.specs.Prelude.{◌≡◌, ◌<◌, ◌≤◌, length, Err, IfErr, OnOk};
ghost use Rattle.bundle.specs.Replies.{IfChanged, OnChangeAgain};
ghost use Rattle.bundle.specs.Passes.{tells, held_did};
ghost use Rattle.shared_cache.specs.Calls.{IsAgainstLimit};
ghost use Rattle.shared_cache.specs.Passes.{IsPassOf, LimitsAs};

use crate::cache::SharedCache;
use crate::names::Names;
use budget::{Pass, Refusal};
use bundle::{Changed, Did};
use std::sync::Wait;

impl<S: Drop, N: Names> SharedCache<S, N> {
    /// Changes the most connections that the host may have open; 0 is kept as 65,535. Where more
    /// are open, so many of those idle for the longest are closed first. Then, unless the host is
    /// queued, one is opened for each transfer that waits there, as long as the host has room and
    /// the total too; where the total has none for one of them, the host is queued. Then hosts that
    /// are queued take turns. `now` is in seconds.
    ///
    /// If another thread changed the total meanwhile, it tries again, and hosts that are queued
    /// take turns before that too. A call that serves ends after 4,096 turns; the next one goes on.
    /// The search for the least recently returned connection takes the last two moments,
    /// 2^64 - 2 and 2^64 - 1, as one; below them there is no such exception.
    ///
    /// Refused, in this order, with [`Refusal::BadSite`] where there is no such site, with
    /// [`Refusal::BadLimit`] above 65,535, with [`Refusal::Busy`] where more connections than that
    /// are held there, and with [`Refusal::Memory`] where memory runs out.
    ///
    /// The pass is told the entry of the new limit, or how many connections are held where that is
    /// why it is refused; else nothing.
    ///
    /// Asked of the caller: the pass is this cache's.
    pub fn set_host_limit<R: Wait>(
        &self,
        rt: &R,
        site: u32,
        limit: u32,
        now: u64,
        pass: &mut Pass<Did>,
    ) -> Result<(), Refusal>
        requires { IsPassOf N.names pass.old }
        ensures done { OnOk result (LimitsAs site now limit pass.old pass.new) }
        ensures there { OnOk result (site < length N.names.hosts) }
        ensures bad_site { length N.names.hosts ≤ site → result ≡ Err Refusal.BadSite }
        ensures bad_limit { site < length N.names.hosts → 65535 < limit →
            result ≡ Err Refusal.BadLimit }
        ensures err { site < length N.names.hosts → IfErr result (IsAgainstLimit limit) }
        ensures tells { IfErr result (λ refusal. pass.new
            ≡ tells site (held_did refusal) pass.old) }
        ensures pass { IsPassOf N.names pass.new }
    {
        if !self.has(site) {
            return Err(Refusal::BadSite);
        }
        self.change_limit(rt, site, limit, now, pass)?;
        self.serve(rt, now);
        Ok(())
    }

    // The same, before hosts that are queued take turns: tried again as long as another thread
    // changed the total meanwhile.
    fn change_limit<R: Wait>(
        &self,
        rt: &R,
        site: u32,
        limit: u32,
        now: u64,
        pass: &mut Pass<Did>,
    ) -> Result<(), Refusal>
        requires there { site < length N.names.hosts }
        requires pass { IsPassOf N.names pass.old }
        ensures done { OnOk result (LimitsAs site now limit pass.old pass.new) }
        ensures bad_limit { 65535 < limit → result ≡ Err Refusal.BadLimit }
        ensures err { IfErr result (IsAgainstLimit limit) }
        ensures tells { IfErr result (λ refusal. pass.new
            ≡ tells site (held_did refusal) pass.old) }
        ensures pass { IsPassOf N.names pass.new }
    {
        for _ in rt.forever() {
            let changed = self.try_limit(rt, site, limit, now, pass);
            match changed {
                Ok(Changed::Done { freed: _ }) => return Ok(()),
                // Permits were held meanwhile, so that others may have found no room.
                Ok(Changed::Again) => self.serve(rt, now),
                Err(refusal) => return Err(refusal),
            }
        }
        unreachable!()
    }

    // One try.
    fn try_limit<R: Wait>(
        &self,
        rt: &R,
        site: u32,
        limit: u32,
        now: u64,
        pass: &mut Pass<Did>,
    ) -> Result<Changed, Refusal>
        requires there { site < length N.names.hosts }
        requires pass { IsPassOf N.names pass.old }
        ensures done { IfChanged result (λ freed. LimitsAs site now limit pass.old pass.new) }
        ensures again { OnChangeAgain result (pass.new ≡ pass.old) }
        ensures err { IfErr result (IsAgainstLimit limit) }
        ensures bad_limit { 65535 < limit → result ≡ Err Refusal.BadLimit }
        ensures tells { IfErr result (λ refusal. pass.new
            ≡ tells site (held_did refusal) pass.old) }
        ensures pass { IsPassOf N.names pass.new }
    {
        let mut host = self.at(rt, site);
        let mut queue = self.queue.lock(rt);
        let changed = host.set_limit(&self.budget, &self.link, &mut queue, limit, now, pass);
        self.note_queue(&queue);
        self.unlock(host);
        changed
    }
}
