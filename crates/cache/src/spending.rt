//! How a lease or a ticket ends.

ghost use Rattle.std.specs.Prelude.{◌≡◌, ◌<◌, true, [], length};
ghost use Rattle.std.specs.Prelude.{IsSome, IfSome, IfNone, IfOk, IfErr, OnOk};
ghost use Rattle.persistence.specs.declared.facts.Facts.{Facts};
ghost use Rattle.conn_log.specs.Connections.{is_open};
ghost use Rattle.host_state.specs.Calls.{becomes_idle, after_give_back};
ghost use Rattle.bundle.specs.Lease.{is_held_lease};
ghost use Rattle.cache.specs.AllHosts.{log_at, with_log, terms, kept, can_keep, marked};
ghost use Rattle.cache.specs.Calls.{given_back, abandoned, withdrawn};
ghost use Rattle.cache.specs.Pools.{host_at, all_hosts, IsMadeHere};
ghost use Rattle.cache.specs.PoolCalls.{TakesBack, AbandonsLease, WithdrawsTicket, GrantsBy};
ghost use Rattle.cache.specs.PoolCalls.{IsStrangeTicket};

use crate::hosts::Hosts;
use crate::notes::{note_after_return, note_oldest};
use bundle::{Back, Claimed, Lease, NoKeep, Stray, Ticket};
use persistence::Facts;

impl<S: Drop> Hosts<S> {
    /// Gives the transfer the connection that it was granted, or its ticket while it still waits. A
    /// ticket comes back in a [`Stray`] if its transfer neither waits with its want nor has yet to
    /// claim a connection that it was granted for that want.
    pub fn claim(&mut self, ticket: Ticket) -> Result<Claimed<S>, Stray<Ticket>>
        requires there { ticket.site < length self.old.hosts }
        ensures done { IfOk result (GrantsBy ticket self.old self.new) }
        ensures strange { IfErr result (λ stray. (self.new ≡ self.old)
            × IsStrangeTicket self.old ticket × (stray ≡ ticket)) }
    {
        let site = ticket.site();
        self.bundles[site as usize].claim(ticket, &mut self.pass)
    }

    /// Takes a connection back with the facts of its response. If it is to be idle and the cache
    /// keeps as many as it may, the oldest of all is evicted first. `now` is in seconds.
    #[inline(always)]
    pub fn give_back(&mut self, lease: Lease<S>, facts: Facts, now: u64)
        requires here { IsMadeHere self.old lease }
        requires stream { IsSome lease.stream }
        ensures { let number = lease.start.number in
            let end = given_back self.old.limits lease.site number facts now (all_hosts self.old) in
            TakesBack end self.old self.new lease }
    {
        if self.lobby.first().is_some() {
            self.give_back_otherwise(lease, facts, now);
        } else if let Some(no_keep) = self.keep_at_once(lease, facts, now) {
            let (lease, _short) = no_keep.part();
            self.give_back_otherwise(lease, facts, now);
        }
    }

    // Takes a connection back. Inlined, so that the memory for the lease that it moves is cleared
    // here, and not before each give back.
    #[inline(always)]
    fn give_back_otherwise(&mut self, lease: Lease<S>, facts: Facts, now: u64)
        requires here { IsMadeHere self.old lease }
        requires stream { IsSome lease.stream }
        ensures { let number = lease.start.number in
            let end = given_back self.old.limits lease.site number facts now (all_hosts self.old) in
            TakesBack end self.old self.new lease }
    {
        self.give_back_in_any_case(lease, facts, now);
    }

    // Takes a connection back, also if a host is queued or the cache keeps as many as it may. Out
    // of line, so that the common give back stays small enough to be inlined.
    #[cold]
    #[inline(never)]
    fn give_back_in_any_case(&mut self, lease: Lease<S>, facts: Facts, now: u64)
        requires here { IsMadeHere self.old lease }
        requires stream { IsSome lease.stream }
        ensures { let number = lease.start.number in
            let end = given_back self.old.limits lease.site number facts now (all_hosts self.old) in
            TakesBack end self.old self.new lease }
    {
        if let Some(no_keep) = self.try_to_keep(lease, facts, now) {
            self.keep_in_place_of_oldest(no_keep, facts, now);
        }
    }

    // Takes a connection back in place of the oldest of all, which is evicted, since the cache
    // keeps as many as it may.
    fn keep_in_place_of_oldest(&mut self, no_keep: NoKeep<S>, facts: Facts, now: u64)
        requires here { IsMadeHere self.old no_keep }
        requires stream { IsSome no_keep.stream }
        requires known { is_held_lease (host_at self.old no_keep.site) no_keep ≡ true }
        requires was_open { let log = (host_at self.old no_keep.site).log in
            is_open log no_keep.start.number ≡ true }
        requires idle { let log = log_at (all_hosts self.old) no_keep.site in
            becomes_idle log no_keep.start.number facts now ≡ true }
        requires kept_full { let kept = kept (all_hosts self.old) in
            (kept ≡ self.old.limits.connects) × (0 < kept) }
        ensures { let number = no_keep.start.number in
            let all = all_hosts self.old in
            let end = given_back self.old.limits no_keep.site number facts now all in
            TakesBack end self.old self.new no_keep }
    {
        let (lease, short) = no_keep.part();
        self.close_oldest(short, now);
        match self.try_to_keep(lease, facts, now) {
            None => {}
            // One fewer is kept than may be.
            Some(_no_keep) => unreachable!(),
        }
    }

    // Takes a connection back while no host is queued. The lease comes back if the cache keeps as
    // many as it may.
    #[inline(always)]
    fn keep_at_once(&mut self, lease: Lease<S>, facts: Facts, now: u64) -> Option<NoKeep<S>>
        requires here { IsMadeHere self.old lease }
        requires stream { IsSome lease.stream }
        requires none_queued { self.old.queue ≡ [] }
        ensures back { IfSome result (λ same. (same ≡ lease) × (self.new ≡ self.old)) }
        ensures can_keep { let log = log_at (all_hosts self.old) lease.site in
            IfNone result (becomes_idle log lease.start.number facts now ≡ true →
            can_keep self.old.limits (all_hosts self.old) ≡ true) }
        ensures done { let limits = self.old.limits in
            let all = all_hosts self.old in
            let log = log_at all lease.site in
            let back = after_give_back (terms limits) log lease.start.number facts now in
            let end = marked limits lease.site (with_log lease.site back all) in
            IfNone result (TakesBack end self.old self.new lease) }
    {
        let site = lease.site();
        let bundle = &mut self.bundles[site as usize];
        let mut permits = self.budget.at(site);
        let pass = &mut self.pass;
        let back = bundle.give_back(lease, facts, now, pass, &mut permits, None, false);
        match back {
            Back::Spent { freed: _ } => {
                note_after_return(&mut self.noted, bundle, now);
                None
            }
            Back::NoKeep(no_keep) => Some(no_keep),
            // The budget of one thread need not be asked again, and the lease was made here.
            Back::Again(_lease) => unreachable!(),
            Back::Strange(_stray) => unreachable!(),
        }
    }

    // Takes a connection back. The lease comes back if its connection is to be idle and the cache
    // keeps as many as it may.
    fn try_to_keep(&mut self, lease: Lease<S>, facts: Facts, now: u64) -> Option<NoKeep<S>>
        requires here { IsMadeHere self.old lease }
        requires stream { IsSome lease.stream }
        ensures known { IfSome result (λ same.
            is_held_lease (host_at self.old lease.site) lease ≡ true) }
        ensures was_open { let log = (host_at self.old lease.site).log in
            IfSome result (λ same. is_open log lease.start.number ≡ true) }
        ensures back { IfSome result (λ same. (same ≡ lease) × (self.new ≡ self.old)) }
        ensures idle { let log = log_at (all_hosts self.old) lease.site in
            IfSome result (λ same. becomes_idle log lease.start.number facts now ≡ true) }
        ensures kept_full { let kept = kept (all_hosts self.old) in
            IfSome result (λ same. (kept ≡ self.old.limits.connects) × (0 < kept)) }
        ensures can_keep { let log = log_at (all_hosts self.old) lease.site in
            IfNone result (becomes_idle log lease.start.number facts now ≡ true →
            can_keep self.old.limits (all_hosts self.old) ≡ true) }
        ensures done { let limits = self.old.limits in
            let all = all_hosts self.old in
            let log = log_at all lease.site in
            let back = after_give_back (terms limits) log lease.start.number facts now in
            let end = marked limits lease.site (with_log lease.site back all) in
            IfNone result (TakesBack end self.old self.new lease) }
    {
        let site = lease.site();
        let bundle = &mut self.bundles[site as usize];
        let mut permits = self.budget.at(site);
        let (pass, lobby) = (&mut self.pass, Some(&mut self.lobby));
        let back = bundle.give_back(lease, facts, now, pass, &mut permits, lobby, false);
        note_oldest(&mut self.noted, bundle);
        match back {
            Back::Spent { freed: _ } => None,
            Back::NoKeep(no_keep) => Some(no_keep),
            // The budget of one thread need not be asked again, and the lease was made here.
            Back::Again(_lease) => unreachable!(),
            Back::Strange(_stray) => unreachable!(),
        }
    }

    /// Closes a leased connection without a response. `now` is in seconds.
    pub fn abandon(&mut self, lease: Lease<S>, now: u64)
        requires here { IsMadeHere self.old lease }
        ensures { let number = lease.start.number in
            let end = abandoned self.old.limits lease.site number now (all_hosts self.old) in
            AbandonsLease end self.old self.new lease }
    {
        let site = lease.site();
        let bundle = &mut self.bundles[site as usize];
        let mut permits = self.budget.at(site);
        let (pass, lobby) = (&mut self.pass, Some(&mut self.lobby));
        let abandoned = bundle.abandon(lease, now, pass, &mut permits, lobby);
        note_oldest(&mut self.noted, bundle);
        match abandoned {
            Ok(_freed) => {}
            // The lease was made here.
            Err(_stray) => unreachable!(),
        }
    }

    /// Takes a ticket back. `now` is in seconds. A ticket comes back in a [`Stray`] if its transfer
    /// neither waits with its want nor has yet to claim a connection that it was granted for that
    /// want; nothing changed then.
    pub fn withdraw(&mut self, ticket: Ticket, now: u64) -> Result<(), Stray<Ticket>>
        requires there { ticket.site < length self.old.hosts }
        ensures ok { let transfer = ticket.wait.want.transfer in
            let end = withdrawn self.old.limits ticket.site transfer now (all_hosts self.old) in
            OnOk result (WithdrawsTicket end self.old self.new ticket) }
        ensures strange { IfErr result (λ stray. (self.new ≡ self.old)
            × IsStrangeTicket self.old ticket × (stray ≡ ticket)) }
    {
        let site = ticket.site();
        let bundle = &mut self.bundles[site as usize];
        let mut permits = self.budget.at(site);
        let (pass, lobby) = (&mut self.pass, Some(&mut self.lobby));
        let withdrawn = bundle.withdraw(ticket, now, pass, &mut permits, lobby);
        note_oldest(&mut self.noted, bundle);
        match withdrawn {
            Ok(_freed) => Ok(()),
            Err(stray) => Err(stray),
        }
    }
}
