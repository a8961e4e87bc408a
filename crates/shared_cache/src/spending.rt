//! How a lease or a ticket ends.

ghost use Rattle.std.specs.Prelude.{◌≡◌, ◌<◌, length, Some, IfErr, OnOk, OnErr, IsSome};
ghost use Rattle.conn_log.specs.declared.entry.Cause.TheVariants.{Dropped};
ghost use Rattle.conn_log.specs.declared.entry.Event.TheVariants.{Returned, Closed};
ghost use Rattle.bundle.specs.Replies.{IfClaimed, IfStill, IsBackAs, OnSpent, UnlessSpent};
ghost use Rattle.bundle.specs.Passes.{tells, claim_did};
ghost use Rattle.bundle.specs.declared.did.Did.TheVariants.{Stranger};
ghost use Rattle.shared_cache.specs.Calls.{IsMadeBy, IsTicketOf, IsClaimedFor};
ghost use Rattle.shared_cache.specs.Passes.{IsPassOf, SpendsAs, WithdrawsAs};

use crate::cache::SharedCache;
use crate::names::Names;
use crate::serving::TRIES;
use budget::Pass;
use bundle::{Back, Claimed, Did, Lease, NoKeep, Shortage, Stray, Ticket};
use persistence::Facts;
use std::sync::Wait;

impl<S: Drop, N: Names> SharedCache<S, N> {
    /// Gives the transfer the connection that it was granted; where it still waits, its ticket. No
    /// event is logged, and no memory is taken.
    ///
    /// A ticket comes back in a [`Stray`] where its transfer neither waits with its want nor has
    /// yet to claim what it was granted for that want. The pass is told which of the three it is.
    ///
    /// Asked of the caller: the ticket was made by this cache; the pass is this cache's.
    pub fn claim<R: Wait>(
        &self,
        rt: &R,
        ticket: Ticket,
        pass: &mut Pass<Did>,
    ) -> Result<Claimed<S>, Stray<Ticket>>
        requires made { IsTicketOf N.names ticket }
        requires pass { IsPassOf N.names pass.old }
        ensures lease { IfClaimed result (IsClaimedFor N.names ticket) }
        ensures still { IfStill result (λ same. same ≡ ticket) }
        ensures strange { IfErr result (λ stray. stray ≡ ticket) }
        ensures tells { pass.new
            ≡ tells ticket.site (claim_did ticket.wait.want.transfer result) pass.old }
        ensures pass { IsPassOf N.names pass.new }
    {
        let mut host = self.at(rt, ticket.site());
        host.claim(ticket, pass)
    }

    /// Takes a connection back with the facts of its response. Where it persists and its want
    /// allows reuse, it goes to the first transfer that waits at its host, or is idle from then on,
    /// with its stream; where it does not fit that transfer's want, or may not be reused, it is
    /// closed, and one is opened for the first that waits. Where as many are kept idle as may be,
    /// the oldest of all is closed, which is looked for three times at most; then the one that came
    /// back. Then hosts that are queued take turns. `now` is in seconds. It takes no memory.
    ///
    /// The lease is spent with the pass, which is told the entry of its return.
    ///
    /// Asked of the caller: the lease was made by this cache, so that it is no stranger, and has
    /// its stream; the pass is this cache's.
    #[inline(always)]
    pub fn give_back<R: Wait>(
        &self,
        rt: &R,
        lease: Lease<S>,
        facts: Facts,
        now: u64,
        pass: &mut Pass<Did>,
    )
        requires made { IsMadeBy N.names lease }
        requires stream { IsSome lease.stream }
        requires pass { IsPassOf N.names pass.old }
        ensures spent { let returned = Returned lease.start.number facts in
            SpendsAs lease.site now returned pass.old pass.new }
        ensures pass { IsPassOf N.names pass.new }
    {
        let mut host = self.at(rt, lease.site());
        if host.bundle.queued() {
            drop(host);
            return self.give_back_again(rt, lease, facts, now, pass);
        }
        let back = host.give_back(&self.budget, lease, facts, now, pass, false);
        // Each way lets the host's lock go first, and takes others only then.
        match back {
            Back::Spent { freed: _ } => {
                self.unlock(host);
                self.serve(rt, now);
            }
            Back::NoKeep(no_keep) => {
                self.unlock(host);
                self.give_back_with_room(rt, no_keep, facts, now, pass);
            }
            Back::Again(lease) => {
                self.unlock(host);
                self.give_back_again(rt, lease, facts, now, pass);
            }
            Back::Strange(_stray) => unreachable!(),
        }
    }

    // Where as many are kept idle as may be. Inlined, so that the room for what it moves is cleared
    // here, and not before each give back; what it does is not, so that a give back stays small.
    #[inline(always)]
    fn give_back_with_room<R: Wait>(
        &self,
        rt: &R,
        no_keep: NoKeep<S>,
        facts: Facts,
        now: u64,
        pass: &mut Pass<Did>,
    )
        requires made { IsMadeBy N.names no_keep }
        requires stream { IsSome no_keep.stream }
        requires pass { IsPassOf N.names pass.old }
        ensures spent { let returned = Returned no_keep.start.number facts in
            SpendsAs no_keep.site now returned pass.old pass.new }
        ensures pass { IsPassOf N.names pass.new }
    {
        let (lease, short) = no_keep.part();
        let tries = self.tries_left(rt, short, now, TRIES);
        self.take_back_again(rt, lease, facts, now, pass, tries);
        self.serve(rt, now);
    }

    // Where the host is queued, or another thread had changed how many are kept idle. Inlined, as
    // above.
    #[inline(always)]
    fn give_back_again<R: Wait>(
        &self,
        rt: &R,
        lease: Lease<S>,
        facts: Facts,
        now: u64,
        pass: &mut Pass<Did>,
    )
        requires made { IsMadeBy N.names lease }
        requires stream { IsSome lease.stream }
        requires pass { IsPassOf N.names pass.old }
        ensures spent { let returned = Returned lease.start.number facts in
            SpendsAs lease.site now returned pass.old pass.new }
        ensures pass { IsPassOf N.names pass.new }
    {
        self.take_back_again(rt, lease, facts, now, pass, TRIES);
        self.serve(rt, now);
    }

    // Tries until the lease is spent: so many times at most the oldest idle connection of all is
    // closed, and then the one that came back.
    #[cold]
    #[inline(never)]
    fn take_back_again<R: Wait>(
        &self,
        rt: &R,
        lease: Lease<S>,
        facts: Facts,
        now: u64,
        pass: &mut Pass<Did>,
        most_tries: u32,
    )
        requires made { IsMadeBy N.names lease }
        requires stream { IsSome lease.stream }
        requires pass { IsPassOf N.names pass.old }
        ensures spent { let returned = Returned lease.start.number facts in
            SpendsAs lease.site now returned pass.old pass.new }
        ensures pass { IsPassOf N.names pass.new }
    {
        let mut unspent = lease;
        let mut tries = most_tries;
        for _ in rt.forever() {
            let back = self.try_to_keep(rt, unspent, facts, now, pass, tries == 0);
            match back {
                Back::Spent { freed: _ } => return,
                Back::NoKeep(no_keep) => {
                    let (lease, short) = no_keep.part();
                    tries = self.tries_left(rt, short, now, tries);
                    unspent = lease;
                }
                Back::Again(lease) => unspent = lease,
                Back::Strange(_stray) => unreachable!(),
            }
        }
        unreachable!()
    }

    // Closes the oldest idle connection of all, where as many are kept as may be; it answers how
    // often that may be tried again.
    #[cold]
    #[inline(never)]
    fn tries_left<R: Wait>(&self, rt: &R, short: Shortage, now: u64, tries: u32) -> u32 {
        if !self.make_room(rt, short, now) {
            return 0;
        }
        tries.saturating_sub(1)
    }

    // One try.
    fn try_to_keep<R: Wait>(
        &self,
        rt: &R,
        lease: Lease<S>,
        facts: Facts,
        now: u64,
        pass: &mut Pass<Did>,
        close_if_full: bool,
    ) -> Back<S>
        requires made { IsMadeBy N.names lease }
        requires stream { IsSome lease.stream }
        requires pass { IsPassOf N.names pass.old }
        ensures back { IsBackAs close_if_full lease result }
        ensures spent { let returned = Returned lease.start.number facts in
            OnSpent result (SpendsAs lease.site now returned pass.old pass.new) }
        ensures unspent { UnlessSpent result (pass.new ≡ pass.old) }
        ensures pass { IsPassOf N.names pass.new }
    {
        let mut host = self.at(rt, lease.site());
        let budget = &self.budget;
        if !host.bundle.queued() {
            let back = host.give_back(budget, lease, facts, now, pass, close_if_full);
            self.unlock(host);
            return back;
        }
        let link = &self.link;
        let mut queue = self.queue.lock(rt);
        let back = host.give_back_queued(
            budget,
            link,
            &mut queue,
            lease,
            facts,
            now,
            pass,
            close_if_full,
        );
        self.note_queue(&queue);
        self.unlock(host);
        back
    }

    /// Closes a leased connection without a response, and opens one for the first transfer that
    /// waits at its host. Then hosts that are queued take turns. `now` is in seconds. It takes no
    /// memory.
    ///
    /// The lease is spent with the pass, which is told the entry of the closing.
    ///
    /// Asked of the caller: the lease was made by this cache, so that it is no stranger; the pass
    /// is this cache's.
    pub fn abandon<R: Wait>(&self, rt: &R, lease: Lease<S>, now: u64, pass: &mut Pass<Did>)
        requires made { IsMadeBy N.names lease }
        requires pass { IsPassOf N.names pass.old }
        ensures spent { let closed = Closed lease.start.number Dropped in
            SpendsAs lease.site now closed pass.old pass.new }
        ensures pass { IsPassOf N.names pass.new }
    {
        self.close_leased(rt, lease, now, pass);
        self.serve(rt, now);
    }

    // The same, before hosts that are queued take turns.
    fn close_leased<R: Wait>(&self, rt: &R, lease: Lease<S>, now: u64, pass: &mut Pass<Did>)
        requires made { IsMadeBy N.names lease }
        requires pass { IsPassOf N.names pass.old }
        ensures spent { let closed = Closed lease.start.number Dropped in
            SpendsAs lease.site now closed pass.old pass.new }
        ensures pass { IsPassOf N.names pass.new }
    {
        let mut host = self.at(rt, lease.site());
        if !host.bundle.queued() {
            host.abandon(&self.budget, lease, now, pass);
            self.unlock(host);
            return;
        }
        let mut queue = self.queue.lock(rt);
        host.abandon_queued(&self.budget, &self.link, &mut queue, lease, now, pass);
        self.note_queue(&queue);
        self.unlock(host);
    }

    /// Takes a ticket back: its transfer waits no more, or the connection that it was granted is
    /// closed, and one is opened for the first transfer that waits at its host. Then hosts that are
    /// queued take turns. `now` is in seconds. It takes no memory.
    ///
    /// A ticket comes back in a [`Stray`] where its transfer neither waits with its want nor has
    /// yet to claim what it was granted for that want; nothing changed then.
    ///
    /// The pass is told the entry with which the transfer leaves; or what was granted is spent with
    /// it, and it is told the entry of the closing; or that the ticket is a stranger.
    ///
    /// Asked of the caller: the ticket was made by this cache; the pass is this cache's.
    pub fn withdraw<R: Wait>(
        &self,
        rt: &R,
        ticket: Ticket,
        now: u64,
        pass: &mut Pass<Did>,
    ) -> Result<(), Stray<Ticket>>
        requires made { IsTicketOf N.names ticket }
        requires pass { IsPassOf N.names pass.old }
        ensures ok { let transfer = ticket.wait.want.transfer in
            OnOk result (WithdrawsAs ticket.site now transfer pass.old pass.new) }
        ensures strange { IfErr result (λ stray. stray ≡ ticket) }
        ensures err { let stranger = Stranger ticket.wait.want.transfer in
            OnErr result (pass.new ≡ tells ticket.site (Some stranger) pass.old) }
        ensures pass { IsPassOf N.names pass.new }
    {
        let withdrawn = self.end_wait(rt, ticket, now, pass);
        match withdrawn {
            Ok(_freed) => {
                self.serve(rt, now);
                Ok(())
            }
            Err(stray) => Err(stray),
        }
    }

    // The same, before hosts that are queued take turns.
    fn end_wait<R: Wait>(
        &self,
        rt: &R,
        ticket: Ticket,
        now: u64,
        pass: &mut Pass<Did>,
    ) -> Result<bool, Stray<Ticket>>
        requires there { ticket.site < length N.names.hosts }
        requires pass { IsPassOf N.names pass.old }
        ensures ok { let transfer = ticket.wait.want.transfer in
            OnOk result (WithdrawsAs ticket.site now transfer pass.old pass.new) }
        ensures strange { IfErr result (λ stray. stray ≡ ticket) }
        ensures err { let stranger = Stranger ticket.wait.want.transfer in
            OnErr result (pass.new ≡ tells ticket.site (Some stranger) pass.old) }
        ensures pass { IsPassOf N.names pass.new }
    {
        let mut host = self.at(rt, ticket.site());
        if !host.bundle.queued() {
            let withdrawn = host.withdraw(&self.budget, ticket, now, pass);
            self.unlock(host);
            return withdrawn;
        }
        let mut queue = self.queue.lock(rt);
        let withdrawn = host.withdraw_queued(
            &self.budget,
            &self.link,
            &mut queue,
            ticket,
            now,
            pass,
        );
        self.note_queue(&queue);
        self.unlock(host);
        withdrawn
    }
}
