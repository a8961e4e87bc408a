//! How the most connections that a host may have open are changed.

ghost use Rattle.std.specs.Prelude.{◌≡◌, ℕ, ◌+◌, ◌-◌, ◌<◌, ◌≤◌, ◌⊎◌, length, Some, None};
ghost use Rattle.std.specs.Prelude.{true, false, IfSome, IfNone, IfErr, OnErr};
ghost use Rattle.std.specs.Prelude.{vec_len, vec_capacity};
ghost use Rattle.budget.specs.declared.permits.Try.TheVariants.{Full, Contended};
ghost use Rattle.budget.specs.Permits.{held};
ghost use Rattle.conn_log.specs.Connections.{open_connections, idle_connections};
ghost use Rattle.host_state.specs.State.{KeepsOpen};
ghost use Rattle.host_state.specs.Calls.{after_limit, kept_limit, limit_refusal, starts_due};
ghost use Rattle.host_state.specs.Calls.{leased_len, is_queued, is_freed};
ghost use Rattle.bundle.specs.Grants.{with_limit};
ghost use Rattle.bundle.specs.Inside.{IsInside, OnlyGrants};
ghost use Rattle.bundle.specs.Passes.{tells, limit_did};
ghost use Rattle.budget.specs.Accounts.{IsEnrolledAt};
ghost use Rattle.host_state.specs.Steps.{moment_at};
ghost use Rattle.bundle.specs.Around.{HoldsPart, MovesPart, KeepsUses, KeepsPass};
ghost use Rattle.bundle.specs.Limits.{ChangesLimit, HasToAskAgain};
ghost use Rattle.host_state.specs.Counts.{held_by};
ghost use Rattle.host_state.specs.Asks.{limit_asks};
ghost use Rattle.host_state.specs.Laws.{IsSoundAndQuiet};
ghost use Rattle.host_state.specs.Orders.{Lists, IsMarked};
ghost use Rattle.bundle.specs.Replies.{IfChanged, OnChangeAgain};

use crate::answers::Changed;
use crate::asker::Asker;
use crate::did::{Did, tell_held};
use crate::grant::Grant;
use crate::host::Bundle;
use crate::seats::Seats;
use crate::serving::open_for_first;
use budget::{GREATEST_LIMIT, Lobby, Pass, Permits, Refusal, Try};
use conn_log::{Entry, Event};
use host_state::State;

impl<S: Drop> Bundle<S> {
    /// Changes the most connections that the host may have open; 0 is kept as 65,535. If more are
    /// open, as many of those idle for the longest time are closed first. Then, unless the host is
    /// queued, one is opened for each waiter, as long as the host and the budget have room. If the
    /// budget has no room for one of them, the host is queued. `now` is in seconds.
    ///
    /// Refused, in this order, with [`Refusal::BadLimit`] above 65,535, with [`Refusal::Busy`] if
    /// more connections than that are held, and with [`Refusal::Memory`] if memory runs out.
    /// [`Changed::Again`] comes if the budget has to be asked again; nothing changed then.
    ///
    /// The pass is told the entry of the new limit, or how many connections are held if the limit
    /// is refused for that; else nothing.
    ///
    /// Asked of the caller: the pass is enrolled here; the lobby lists this host exactly if it is
    /// queued.
    pub fn set_host_limit<P: Permits<Asker>>(
        &mut self,
        limit: u32,
        now: u64,
        permits: &mut P,
        lobby: &mut Lobby,
        pass: &mut Pass<Did>,
    ) -> Result<Changed, Refusal>
        requires enrolled { IsEnrolledAt pass.old self.old.host self.old.tables.starts }
        requires permits { HoldsPart P.stands P.held (held_by self.old.log) permits.old }
        requires lobby { let mark = is_queued self.old.settings self.old.log in
            Lists self.old.host mark lobby.old }
        ensures refused { let due = limit_refusal limit self.old.log in
            IfSome due (λ reason. result ≡ Err reason) }
        ensures else_memory { let due = limit_refusal limit self.old.log in
            IfErr result (λ reason. (due ≡ Some reason) ⊎ (reason ≡ Refusal.Memory)) }
        ensures changed { let opening = P.opening permits.old permits.new in
            let asked = P.asked permits.old permits.new in
            IfChanged result
            (ChangesLimit opening asked (kept_limit limit) self.old self.new now) }
        ensures again { let opening = P.opening permits.old permits.new in
            let asked = P.asked permits.old permits.new in
            OnChangeAgain result ((lobby.new ≡ lobby.old)
            × HasToAskAgain opening asked (kept_limit limit) self.old self.new) }
        ensures err { OnErr result ((self.new ≡ self.old) × (permits.new ≡ permits.old)
            × (lobby.new ≡ lobby.old)) }
        ensures tells { let did = limit_did (kept_limit limit) (moment_at self.old.log now) result
            in pass.new ≡ tells self.old.host did pass.old }
        ensures host { KeepsUses self.old self.new }
        ensures settled { IsSoundAndQuiet self.new.settings self.new.log }
        ensures permits { let much = held_by self.new.log in
            MovesPart P.stands P.stays P.held much permits.old permits.new }
        ensures lobby { let was = is_queued self.old.settings self.old.log in
            let is = is_queued self.new.settings self.new.log in
            IsMarked self.old.host was is lobby.old lobby.new }
        ensures pass { KeepsPass self.old self.new pass.old pass.new }
    {
        if let Some(reason) = reason_against(&self.state, limit) {
            tell_held(pass, self.state.host(), self.seats.tally(), reason);
            return Err(reason);
        }
        let most = kept_limit(limit);
        let was_queued = self.queued();
        let count = starts_due(&self.state, was_queued, most);
        let Ok(()) = self.state.reserve_for_limit() else {
            return Err(Refusal::Memory);
        };
        let Some(given) = reserve_up_to(count, permits) else {
            return Ok(Changed::Again);
        };
        let moment = self.state.moment(now);
        let (state, seats) = (&mut self.state, &mut self.seats);
        let freed = change_limit(state, seats, &mut self.grants, most, given, now, permits);
        self.mark(was_queued, lobby);
        let limited = Entry {
            moment,
            event: Event::Limit { limit: most },
        };
        pass.tell(
            self.state.host() as usize,
            self.seats.tally(),
            Did::Wrote(limited),
        );
        Ok(Changed::Done { freed })
    }
}

// The limit as it is kept: 0 stands for the greatest.
fn kept_limit(limit: u32) -> u32
    ensures { result ≡ kept_limit limit }
{
    if limit == 0 { GREATEST_LIMIT } else { limit }
}

// The refusal that a new limit is due, if any.
fn reason_against<S: Drop>(state: &State<S>, limit: u32) -> Option<Refusal>
    ensures { result ≡ limit_refusal limit state.now.log }
{
    if limit > GREATEST_LIMIT {
        return Some(Refusal::BadLimit);
    }
    let held = state.held_len();
    if held > kept_limit(limit) {
        return Some(Refusal::Busy(held as u64));
    }
    None
}

// How many waiters a new limit lets start.
fn starts_due<S: Drop>(state: &State<S>, is_queued: bool, most: u32) -> u32
    ensures { result ≡ starts_due is_queued most state.now.log }
{
    if is_queued {
        return 0;
    }
    let room = most.saturating_sub(state.open_len());
    state.waiting_len().min(room)
}

// Changes the limit, and opens a connection for each of as many waiters as permits were got for. It
// answers whether fewer are open than before.
fn change_limit<S: Drop, P: Permits<Asker>>(
    state: &mut State<S>,
    seats: &mut Seats,
    grants: &mut Vec<Grant<S>>,
    most: u32,
    given: u32,
    now: u64,
    permits: &mut P,
) -> bool
    requires inside { IsInside state.old seats.old grants.old.items (vec_len grants.old)
        (vec_capacity grants.old) }
    requires reserved { state.old.has_limit_room ≡ true }
    requires leased_fit { leased_len state.old.log ≤ most }
    requires within_due { given ≤ starts_due false most state.old.log }
    requires permits { let open_before = length (open_connections state.old.log) in
        let much = held (open_before + given) (length (idle_connections state.old.log)) in
        HoldsPart P.stands P.held much permits.old }
    ensures log { state.new.log ≡ after_limit most given state.old.settings state.old.log now }
    ensures grants { let granted = grants.old.items in
        grants.new.items ≡ with_limit most given state.old.settings state.old.log now granted }
    ensures inside { IsInside state.new seats.new grants.new.items (vec_len grants.new)
        (vec_capacity grants.new) }
    ensures freed { result ≡ is_freed state.old.log state.new.log }
    ensures none_closed { length (open_connections state.old.log) < most →
        permits.new ≡ permits.old }
    ensures streams { KeepsOpen state.old state.new }
    ensures only { OnlyGrants state.old state.new seats.old seats.new }
    ensures unasked { P.asked permits.old permits.new 0 0 }
    ensures permits { let much = held_by state.new.log in
        MovesPart P.stands P.stays P.held much permits.old permits.new }
{
    // The log is sound, and tells which streams there are.
    let _log = state.log();
    let moment = state.moment(now);
    let closed = state.set_limit(most, moment);
    release_closed(closed, permits);
    let _changed = state.log();
    open_for_first(state, seats, grants, moment, given);
    closed > 0
}

// Asks the budget for as many connections as `count` says, one after the other, until it has no
// room; answers how many it got. If the budget has to be asked again, all are given back.
fn reserve_up_to<P: Permits<Asker>>(count: u32, permits: &mut P) -> Option<u32>
    requires stands { P.stands permits.old }
    ensures most { IfSome result (λ got. got ≤ count) }
    ensures full { IfSome result (λ got. got < count → P.opening permits.old permits.new Full) }
    ensures nonzero { IfNone result (0 < count) }
    ensures contended { IfNone result (P.opening permits.old permits.new Contended) }
    ensures held { IfSome result (λ got. let before = P.held permits.old in
        P.held permits.new ≡ held (before.alive + got) before.kept) }
    ensures same_held { IfNone result (P.held permits.new ≡ P.held permits.old) }
    ensures asks { IfSome result (λ got. P.asked permits.old permits.new (limit_asks got count) 0) }
    ensures asks_again { IfNone result ((asks : ℕ) × (0 < asks) × (asks ≤ count)
        × P.asked permits.old permits.new asks 0) }
    ensures stands { P.stands permits.new }
    ensures stays { P.stays permits.old permits.new }
{
    let mut got = 0;
    while got < count {
        match permits.reserve_open(&Asker::of_bundle()) {
            Try::Got => got += 1,
            Try::Full => return Some(got),
            Try::Contended => {
                release_opens(got, permits);
                return None;
            }
        }
    }
    Some(got)
}

// Gives back the permits of as many open connections.
fn release_opens<P: Permits<Asker>>(count: u32, permits: &mut P)
    requires stands { P.stands permits.old }
    requires open { count ≤ (P.held permits.old).alive }
    ensures held { let before = P.held permits.old in
        P.held permits.new ≡ held (before.alive - count) before.kept }
    ensures none_released { count ≡ 0 → permits.new ≡ permits.old }
    ensures unasked { P.asked permits.old permits.new 0 0 }
    ensures stands { P.stands permits.new }
    ensures stays { P.stays permits.old permits.new }
{
    let mut left = count;
    while left > 0 {
        permits.release_open();
        left -= 1;
    }
}

// Gives back both permits of as many closed connections.
fn release_closed<P: Permits<Asker>>(count: u32, permits: &mut P)
    requires stands { P.stands permits.old }
    requires open { count ≤ (P.held permits.old).alive }
    requires kept { count ≤ (P.held permits.old).kept }
    ensures held { let before = P.held permits.old in
        P.held permits.new ≡ held (before.alive - count) (before.kept - count) }
    ensures none_released { count ≡ 0 → permits.new ≡ permits.old }
    ensures unasked { P.asked permits.old permits.new 0 0 }
    ensures stands { P.stands permits.new }
    ensures stays { P.stays permits.old permits.new }
{
    let mut left = count;
    while left > 0 {
        permits.release_kept();
        permits.release_open();
        left -= 1;
    }
}
