//! How a host gets room among all hosts, and makes room for others.

ghost use Rattle.std.specs.Prelude.{◌≡◌, ◌≤◌, length, slice_get, Some, true, false};
ghost use Rattle.budget.specs.declared.permits.Try.{Try};
ghost use Rattle.conn_log.specs.declared.entry.Event.TheVariants.{Closed};
ghost use Rattle.conn_log.specs.Fit.{oldest_stamp};
ghost use Rattle.host_state.specs.Steps.{moment_at, add, picked, without_picked};
ghost use Rattle.host_state.specs.declared.closing.Closing.TheVariants.{Pruned};
ghost use Rattle.host_state.specs.Calls.{after_turn, is_queued};
ghost use Rattle.host_state.specs.Counts.{held_by};
ghost use Rattle.host_state.specs.Laws.{IsSoundAndQuiet};
ghost use Rattle.host_state.specs.Orders.{HadTurn};
ghost use Rattle.bundle.specs.Around.{HoldsPart, MovesPart, KeepsUses, KeepsPass};
ghost use Rattle.bundle.specs.Lobbies.{IsServed};
ghost use Rattle.bundle.specs.Passes.{tells};
ghost use Rattle.bundle.specs.Replies.{answer_of};
ghost use Rattle.bundle.specs.Seats.{gone};
ghost use Rattle.budget.specs.Accounts.{IsEnrolledAt};
ghost use Rattle.bundle.specs.declared.did.Did.TheVariants.{Pruned as WasPruned};

use crate::answers::Served;
use crate::asker::Asker;
use crate::did::Did;
use crate::host::Bundle;
use crate::serving::{close_idle, open_for_head};
use crate::shortage::Shortage;
use budget::{Lobby, Pass, Permits, Try};
use conn_log::Stamp;
use host_state::Closing;

impl<S: Drop> Bundle<S> {
    /// Takes the turn of a host that is queued and the lobby's first: if the budget has room, one
    /// connection is opened for the first waiter. Then the host leaves the lobby if nobody waits
    /// any more or it is at its limit; else it goes to the end. `now` is in seconds. It takes no
    /// memory.
    ///
    /// Asked of the caller: the host is queued, and the first that the lobby lists.
    pub fn serve_queued<P: Permits<Asker>>(
        &mut self,
        now: u64,
        permits: &mut P,
        lobby: &mut Lobby,
    ) -> Served
        requires queued { is_queued self.old.settings self.old.log ≡ true }
        requires first { slice_get lobby.old.order 0 ≡ Some self.old.host }
        requires permits { HoldsPart P.stands P.held (held_by self.old.log) permits.old }
        ensures told { (told : Try) × P.opening permits.old permits.new told
            × (result ≡ answer_of told)
            × (self.new.log ≡ after_turn told self.old.settings self.old.log now) }
        ensures unchanged { (result ≡ Served.Given → ⊥) → self.new ≡ self.old }
        ensures same_gone { gone self.new.log ≡ gone self.old.log }
        ensures host { KeepsUses self.old self.new }
        ensures settled { IsSoundAndQuiet self.new.settings self.new.log }
        ensures asked { P.asked permits.old permits.new 1 0 }
        ensures permits { let much = held_by self.new.log in
            MovesPart P.stands P.stays P.held much permits.old permits.new }
        ensures lobby { let is = is_queued self.new.settings self.new.log in
            IsServed self.old.host result is lobby.old lobby.new }
    {
        // The log is sound and quiet.
        let _log = self.log();
        match permits.reserve_open(&Asker::of_bundle()) {
            Try::Got => {}
            Try::Full => return Served::Full(Shortage::of_total()),
            Try::Contended => return Served::Contended,
        }
        let moment = self.state.moment(now);
        open_for_head(&mut self.state, &mut self.seats, &mut self.grants, moment);
        self.end_turn(lobby);
        Served::Given
    }

    // Ends the host's turn: it goes to the lobby's end if it is still queued, else it leaves.
    fn end_turn(&self, lobby: &mut Lobby)
        requires { slice_get lobby.old.order 0 ≡ Some self.now.host }
        ensures { let is = is_queued self.now.settings self.now.log in
            HadTurn self.now.host is lobby.old lobby.new }
    {
        // A host that is listed is one that there is.
        let _first = lobby.first();
        if self.queued() {
            lobby.rotate();
            return;
        }
        lobby.delist(self.state.host());
    }

    /// Closes the oldest idle connection, if it has that stamp, for the shortage's cause, and frees
    /// its permits; it answers whether it did. The shortage is spent either way. `now` is in
    /// seconds. It takes no memory.
    pub fn evict_oldest<P: Permits<Asker>>(
        &mut self,
        stamp: Stamp,
        short: Shortage,
        now: u64,
        permits: &mut P,
    ) -> bool
        requires permits { HoldsPart P.stands P.held (held_by self.old.log) permits.old }
        ensures oldest { result ≡ true → oldest_stamp self.old.log self.old.host ≡ Some stamp }
        ensures not_oldest { result ≡ false →
            oldest_stamp self.old.log self.old.host ≡ Some stamp → ⊥ }
        ensures log { let moment = moment_at self.old.log now in
            result ≡ true → self.new.log ≡ add moment (Closed stamp.number short) self.old.log }
        ensures unchanged { result ≡ false → (self.new ≡ self.old) × (permits.new ≡ permits.old) }
        ensures same_gone { gone self.new.log ≡ gone self.old.log }
        ensures host { KeepsUses self.old self.new }
        ensures settled { IsSoundAndQuiet self.new.settings self.new.log }
        ensures mark { is_queued self.new.settings self.new.log
            ≡ is_queued self.old.settings self.old.log }
        ensures unasked { P.asked permits.old permits.new 0 0 }
        ensures permits { let much = held_by self.new.log in
            MovesPart P.stands P.stays P.held much permits.old permits.new }
    {
        // The log is sound and quiet.
        let _log = self.log();
        let Some(oldest) = self.oldest() else {
            return false;
        };
        if oldest != stamp {
            return false;
        }
        let moment = self.state.moment(now);
        let cause = short.spend();
        self.state.close_oldest(cause, moment);
        permits.release_kept();
        permits.release_open();
        true
    }

    /// Closes every idle connection that has been idle for longer than `max_age`, or, unless
    /// `max_life` is 0, open for longer than `max_life`, in seconds, and frees its permits. It
    /// answers how many it closed, no more than its part of the budget kept, and tells the pass.
    /// `now` is in seconds. It takes no memory.
    ///
    /// Asked of the caller: the pass is enrolled here.
    pub fn prune<P: Permits<Asker>>(
        &mut self,
        now: u64,
        max_age: u64,
        max_life: u64,
        permits: &mut P,
        pass: &mut Pass<Did>,
    ) -> u32
        requires enrolled { IsEnrolledAt pass.old self.old.host self.old.tables.starts }
        requires permits { HoldsPart P.stands P.held (held_by self.old.log) permits.old }
        ensures log { let moment = moment_at self.old.log now in
            self.new.log ≡ without_picked (Pruned max_age max_life) moment self.old.log }
        ensures count { let moment = moment_at self.old.log now in
            result ≡ length (picked (Pruned max_age max_life) moment self.old.log) }
        ensures within_kept { result ≤ (P.held permits.old).kept }
        ensures tells { let did = WasPruned now max_age max_life result in
            pass.new ≡ tells self.old.host (Some did) pass.old }
        ensures host { KeepsUses self.old self.new }
        ensures settled { IsSoundAndQuiet self.new.settings self.new.log }
        ensures mark { is_queued self.new.settings self.new.log
            ≡ is_queued self.old.settings self.old.log }
        ensures unasked { P.asked permits.old permits.new 0 0 }
        ensures permits { let much = held_by self.new.log in
            MovesPart P.stands P.stays P.held much permits.old permits.new }
        ensures pass { KeepsPass self.old self.new pass.old pass.new }
    {
        let moment = self.state.moment(now);
        let closing = Closing::Pruned { max_age, max_life };
        let closed = close_idle(&mut self.state, &closing, moment, permits);
        let pruned = Did::Pruned {
            now,
            max_age,
            max_life,
            closed,
        };
        pass.tell(self.state.host() as usize, self.seats.tally(), pruned);
        closed
    }
}
