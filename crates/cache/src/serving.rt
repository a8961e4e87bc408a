//! How hosts that are queued get room in total, and how room is made.

ghost use Rattle.std.specs.Prelude.{◌≡◌, ◌+◌, ◌<◌, ◌||◌, true, false, nat_lt, length, is_some};
ghost use Rattle.std.specs.Prelude.{slice_get, Some};
ghost use Rattle.host_state.specs.Calls.{makes_room_for_others};
ghost use Rattle.cache.specs.AllHosts.{without_oldest, oldest_of_all, has_room, with_room};
ghost use Rattle.cache.specs.AllHosts.{may_turn, after_turn_of, turn_of_first, total, kept};
ghost use Rattle.cache.specs.AllHosts.{served, total_waiting, IsServed};
ghost use Rattle.cache.specs.Pools.{all_hosts};
ghost use Rattle.cache.specs.PoolCalls.{IsCallAtAll};
ghost use Rattle.cache.specs.Turns.{IsOneFewer, KeepsSpent, KeepStreams};

use crate::hosts::Hosts;
use bundle::{Shortage, short_of_total};
use conn_log::Stamp;

impl<S: Drop> Hosts<S> {
    /// Evicts the oldest idle connection of all for that shortage; whether there was one. `now` is
    /// in seconds.
    pub fn close_oldest(&mut self, short: Shortage, now: u64) -> bool
        requires cause { makes_room_for_others short ≡ true }
        ensures done { let end = without_oldest short now (all_hosts self.old) in
            IsCallAtAll end self.old self.new }
        ensures closed { result ≡ is_some (oldest_of_all (all_hosts self.old)) }
        ensures can_make_room { result ≡ nat_lt 0 (kept (all_hosts self.old)) }
        ensures fewer { result ≡ true → IsOneFewer (all_hosts self.old) (all_hosts self.new) }
        ensures unchanged { result ≡ false → self.new ≡ self.old }
        ensures spent { KeepsSpent self.old self.new }
        ensures streams { KeepStreams self.old self.new }
    {
        let Some(stamp) = self.oldest() else {
            return false;
        };
        self.close_at(stamp, short, now);
        true
    }

    // Evicts the connection of that stamp, which is the oldest of all.
    fn close_at(&mut self, stamp: Stamp, short: Shortage, now: u64)
        requires cause { makes_room_for_others short ≡ true }
        requires there { stamp.host < length self.old.hosts }
        requires oldest { oldest_of_all (all_hosts self.old) ≡ Some stamp }
        ensures done { let end = without_oldest short now (all_hosts self.old) in
            IsCallAtAll end self.old self.new }
        ensures fewer { IsOneFewer (all_hosts self.old) (all_hosts self.new) }
        ensures spent { KeepsSpent self.old self.new }
        ensures streams { KeepStreams self.old self.new }
    {
        let bundle = &mut self.bundles[stamp.host as usize];
        let mut permits = self.budget.at(stamp.host);
        let _closed = bundle.evict_oldest(stamp, short, now, &mut permits);
        let _log = bundle.log();
        let oldest = bundle.oldest();
        self.noted.set(stamp.host as usize, oldest);
    }

    /// Takes turns until none is possible. `now` is in seconds.
    #[inline(always)]
    pub fn serve(&mut self, now: u64)
        ensures done { let end = served self.old.limits now (all_hosts self.old) in
            IsCallAtAll end self.old self.new }
        ensures served { IsServed self.new.limits (all_hosts self.new) }
        ensures spent { KeepsSpent self.old self.new }
    {
        if self.lobby.first().is_some() {
            self.take_turns(now);
        }
    }

    // Takes turns while a host is queued.
    #[cold]
    #[inline(never)]
    fn take_turns(&mut self, now: u64)
        ensures done { let end = served self.old.limits now (all_hosts self.old) in
            IsCallAtAll end self.old self.new }
        ensures served { IsServed self.new.limits (all_hosts self.new) }
        ensures spent { KeepsSpent self.old self.new }
    {
        while self.take_turn(now) {}
    }

    // Takes a turn of the first host that is queued, if one is possible; whether it is.
    fn take_turn(&mut self, now: u64) -> bool
        ensures possible { result ≡ may_turn self.old.limits (all_hosts self.old) }
        ensures done { let all = all_hosts self.old in
            let end = turn_of_first all.queue self.old.limits now all in
            result ≡ true → IsCallAtAll end self.old self.new }
        ensures one_waits_less { result ≡ true →
            total_waiting (all_hosts self.new) + 1 ≡ total_waiting (all_hosts self.old) }
        ensures unchanged { result ≡ false → self.new ≡ self.old }
        ensures none_served { result ≡ false → IsServed self.new.limits (all_hosts self.new) }
        ensures spent { KeepsSpent self.old self.new }
    {
        let Some(host) = self.lobby.first() else {
            return false;
        };
        if !self.make_room(now) {
            return false;
        }
        self.open_at(host, now);
        true
    }

    // Evicts the oldest connection of all if the total has no room; whether there is room then.
    fn make_room(&mut self, now: u64) -> bool
        ensures can_make_room { let all = all_hosts self.old in
            result ≡ (has_room self.old.limits all || nat_lt 0 (kept all)) }
        ensures done { let end = with_room self.old.limits now (all_hosts self.old) in
            result ≡ true → IsCallAtAll end self.old self.new }
        ensures room { result ≡ true → has_room self.new.limits (all_hosts self.new) ≡ true }
        ensures same_wait { let all = all_hosts self.old in
            total_waiting (all_hosts self.new) ≡ total_waiting all }
        ensures unchanged { result ≡ false → self.new ≡ self.old }
        ensures full { result ≡ false → total (all_hosts self.old) ≡ self.old.limits.total }
        ensures none_kept { result ≡ false → kept (all_hosts self.old) ≡ 0 }
        ensures spent { KeepsSpent self.old self.new }
    {
        if !self.budget.is_full() {
            return true;
        }
        let short = short_of_total(&self.budget);
        self.close_oldest(short, now)
    }

    // Takes the turn of that host: opens a connection for the first transfer that waits there.
    fn open_at(&mut self, host: u32, now: u64)
        requires there { host < length self.old.hosts }
        requires first { slice_get self.old.queue 0 ≡ Some host }
        requires room { has_room self.old.limits (all_hosts self.old) ≡ true }
        ensures done { let end = after_turn_of host self.old.limits now (all_hosts self.old) in
            IsCallAtAll end self.old self.new }
        ensures one_waits_less { let all = all_hosts self.old in
            total_waiting (all_hosts self.new) + 1 ≡ total_waiting all }
        ensures spent { KeepsSpent self.old self.new }
    {
        let bundle = &mut self.bundles[host as usize];
        let mut permits = self.budget.at(host);
        let _given = bundle.serve_queued(now, &mut permits, &mut self.lobby);
        let _log = bundle.log();
    }
}
