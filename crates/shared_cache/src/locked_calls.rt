//! The calls of a host whose lock is taken. Each keeps what holds whenever the lock is free.

ghost use Rattle.std.specs.Prelude.{◌≡◌, ◌<◌, ◌≤◌, length, false, true, Some, None, Err, IsSome};
ghost use Rattle.std.specs.Prelude.{IfErr, OnOk, OnErr};
ghost use Rattle.budget.specs.Accounts.{account_at};
ghost use Rattle.conn_log.specs.declared.entry.Cause.TheVariants.{Dropped};
ghost use Rattle.conn_log.specs.declared.entry.Event.TheVariants.{Returned, Closed};
ghost use Rattle.host_state.specs.Calls.{is_queued};
ghost use Rattle.bundle.specs.Lease.{IsBookedHere};
ghost use Rattle.bundle.specs.Replies.{IfGot, IfClaimed, IfStill, IsBackAs, OnSpent, UnlessSpent};
ghost use Rattle.bundle.specs.Replies.{IfChanged, OnChangeAgain};
ghost use Rattle.bundle.specs.Passes.{tells, acquire_did, got_did, claim_did, held_did};
ghost use Rattle.bundle.specs.declared.did.Did.TheVariants.{Stranger, Pruned};
ghost use Rattle.shared_cache.specs.Calls.{IsMadeBy, IsGotFor, IsClaimedFor};
ghost use Rattle.shared_cache.specs.Calls.{IsAgainstAcquire, IsAgainstLimit};
ghost use Rattle.shared_cache.specs.Passes.{IsPassOf, SpendsAs, WithdrawsAs, LimitsAs};
ghost use Rattle.shared_cache.specs.Passes.{EnrolsAt};

use crate::hints::word_of;
use crate::locked::{LockedHost, LockedQueue, mark_as};
use crate::names::Names;
use budget::{Link, Pass, Refusal, SeatPermits, WordBudget};
use bundle::{
    Asker, Back, Booking, Changed, Claimed, Did, Got, Lease, Served, Shortage, Stray, Ticket,
};
use conn_log::Want;
use persistence::Facts;

impl<S: Drop, N: Names> LockedHost<S, N> {
    /// A transfer's first try, as [`bundle::Bundle::acquire`]. It changes no mark.
    #[inline(always)]
    pub fn acquire(
        &mut self,
        budget: &WordBudget<Asker>,
        want: Want,
        now: u64,
        pass: &mut Pass<Did>,
    ) -> Result<Got<S>, Refusal>
        requires budget { budget.now.table ≡ N.names.budget }
        requires pass { IsPassOf N.names pass.old }
        ensures got { IfGot result (IsGotFor N.names self.old.host.host want now) }
        ensures err { IfErr result IsAgainstAcquire }
        ensures tells { pass.new
            ≡ tells self.old.host.host (acquire_did want.transfer result) pass.old }
        ensures pass { IsPassOf N.names pass.new }
        ensures place { self.new.host.host ≡ self.old.host.host }
    {
        let mut permits = SeatPermits::new(budget, &mut self.seat);
        self.bundle.acquire(want, now, &mut permits, pass)
    }

    /// Another try of an acquire that is halfway. It changes no mark.
    pub fn retry(
        &mut self,
        budget: &WordBudget<Asker>,
        booking: Booking,
        now: u64,
        pass: &mut Pass<Did>,
    ) -> Got<S>
        requires budget { budget.now.table ≡ N.names.budget }
        requires pass { IsPassOf N.names pass.old }
        requires here { IsBookedHere self.old.host booking }
        ensures got { IsGotFor N.names booking.site booking.want now result }
        ensures tells { pass.new ≡ tells booking.site (got_did result) pass.old }
        ensures pass { IsPassOf N.names pass.new }
        ensures place { self.new.host.host ≡ self.old.host.host }
    {
        let mut permits = SeatPermits::new(budget, &mut self.seat);
        self.bundle.retry(booking, now, &mut permits, None, pass)
    }

    /// The last try, with the queue's lock taken too: where the total has no room the host's own
    /// oldest idle connection makes room, or the transfer waits, and the host is queued.
    pub fn retry_at_last(
        &mut self,
        budget: &WordBudget<Asker>,
        link: &Link,
        queue: &mut LockedQueue<N>,
        booking: Booking,
        now: u64,
        pass: &mut Pass<Did>,
    ) -> Got<S>
        requires budget { budget.now.table ≡ N.names.budget }
        requires link { link.now ≡ N.names.link }
        requires pass { IsPassOf N.names pass.old }
        requires here { IsBookedHere self.old.host booking }
        ensures got { IsGotFor N.names booking.site booking.want now result }
        ensures tells { pass.new ≡ tells booking.site (got_did result) pass.old }
        ensures pass { IsPassOf N.names pass.new }
        ensures place { self.new.host.host ≡ self.old.host.host }
    {
        let was_queued = self.bundle.queued();
        link.load(&mut queue.listed, &mut self.mark);
        let mut permits = SeatPermits::new(budget, &mut self.seat);
        let lobby = Some(&mut queue.lobby);
        let got = self.bundle.retry(booking, now, &mut permits, lobby, pass);
        let is_queued = self.bundle.queued();
        mark_as(
            link,
            &mut queue.listed,
            &mut self.mark,
            was_queued,
            is_queued,
        );
        got
    }

    /// The transfer's lease, or its ticket where it still waits, as [`bundle::Bundle::claim`].
    pub fn claim(
        &mut self,
        ticket: Ticket,
        pass: &mut Pass<Did>,
    ) -> Result<Claimed<S>, Stray<Ticket>>
        requires pass { IsPassOf N.names pass.old }
        requires here { self.old.host.host ≡ ticket.site }
        ensures lease { IfClaimed result (IsClaimedFor N.names ticket) }
        ensures still { IfStill result (λ same. same ≡ ticket) }
        ensures strange { IfErr result (λ stray. stray ≡ ticket) }
        ensures tells { pass.new
            ≡ tells ticket.site (claim_did ticket.wait.want.transfer result) pass.old }
        ensures pass { IsPassOf N.names pass.new }
        ensures place { self.new.host.host ≡ self.old.host.host }
    {
        self.bundle.claim(ticket, pass)
    }

    /// A connection comes back to a host that is not queued, as [`bundle::Bundle::give_back`].
    #[inline(always)]
    pub fn give_back(
        &mut self,
        budget: &WordBudget<Asker>,
        lease: Lease<S>,
        facts: Facts,
        now: u64,
        pass: &mut Pass<Did>,
        close_if_full: bool,
    ) -> Back<S>
        requires not_queued { is_queued self.old.host.settings self.old.host.log ≡ false }
        requires budget { budget.now.table ≡ N.names.budget }
        requires pass { IsPassOf N.names pass.old }
        requires made { IsMadeBy N.names lease }
        requires here { self.old.host.host ≡ lease.site }
        requires stream { IsSome lease.stream }
        ensures back { IsBackAs close_if_full lease result }
        ensures spent { let returned = Returned lease.start.number facts in
            OnSpent result (SpendsAs lease.site now returned pass.old pass.new) }
        ensures unspent { UnlessSpent result (pass.new ≡ pass.old) }
        ensures pass { IsPassOf N.names pass.new }
        ensures place { self.new.host.host ≡ self.old.host.host }
    {
        let mut permits = SeatPermits::new(budget, &mut self.seat);
        self.bundle
            .give_back(lease, facts, now, pass, &mut permits, None, close_if_full)
    }

    /// The same with the queue's lock taken too.
    pub fn give_back_queued(
        &mut self,
        budget: &WordBudget<Asker>,
        link: &Link,
        queue: &mut LockedQueue<N>,
        lease: Lease<S>,
        facts: Facts,
        now: u64,
        pass: &mut Pass<Did>,
        close_if_full: bool,
    ) -> Back<S>
        requires budget { budget.now.table ≡ N.names.budget }
        requires link { link.now ≡ N.names.link }
        requires pass { IsPassOf N.names pass.old }
        requires made { IsMadeBy N.names lease }
        requires here { self.old.host.host ≡ lease.site }
        requires stream { IsSome lease.stream }
        ensures back { IsBackAs close_if_full lease result }
        ensures spent { let returned = Returned lease.start.number facts in
            OnSpent result (SpendsAs lease.site now returned pass.old pass.new) }
        ensures unspent { UnlessSpent result (pass.new ≡ pass.old) }
        ensures pass { IsPassOf N.names pass.new }
        ensures place { self.new.host.host ≡ self.old.host.host }
    {
        let was_queued = self.bundle.queued();
        link.load(&mut queue.listed, &mut self.mark);
        let mut permits = SeatPermits::new(budget, &mut self.seat);
        let lobby = Some(&mut queue.lobby);
        let back = self.bundle.give_back(
            lease,
            facts,
            now,
            pass,
            &mut permits,
            lobby,
            close_if_full,
        );
        let is_queued = self.bundle.queued();
        mark_as(
            link,
            &mut queue.listed,
            &mut self.mark,
            was_queued,
            is_queued,
        );
        back
    }

    /// A connection of a host that is not queued is closed, as [`bundle::Bundle::abandon`].
    pub fn abandon(
        &mut self,
        budget: &WordBudget<Asker>,
        lease: Lease<S>,
        now: u64,
        pass: &mut Pass<Did>,
    )
        requires not_queued { is_queued self.old.host.settings self.old.host.log ≡ false }
        requires budget { budget.now.table ≡ N.names.budget }
        requires pass { IsPassOf N.names pass.old }
        requires made { IsMadeBy N.names lease }
        requires here { self.old.host.host ≡ lease.site }
        ensures spent { let closed = Closed lease.start.number Dropped in
            SpendsAs lease.site now closed pass.old pass.new }
        ensures pass { IsPassOf N.names pass.new }
        ensures place { self.new.host.host ≡ self.old.host.host }
    {
        let mut permits = SeatPermits::new(budget, &mut self.seat);
        match self.bundle.abandon(lease, now, pass, &mut permits, None) {
            Ok(_freed) => {}
            Err(_stray) => unreachable!(),
        }
    }

    /// The same with the queue's lock taken too.
    pub fn abandon_queued(
        &mut self,
        budget: &WordBudget<Asker>,
        link: &Link,
        queue: &mut LockedQueue<N>,
        lease: Lease<S>,
        now: u64,
        pass: &mut Pass<Did>,
    )
        requires budget { budget.now.table ≡ N.names.budget }
        requires link { link.now ≡ N.names.link }
        requires pass { IsPassOf N.names pass.old }
        requires made { IsMadeBy N.names lease }
        requires here { self.old.host.host ≡ lease.site }
        ensures spent { let closed = Closed lease.start.number Dropped in
            SpendsAs lease.site now closed pass.old pass.new }
        ensures pass { IsPassOf N.names pass.new }
        ensures place { self.new.host.host ≡ self.old.host.host }
    {
        let was_queued = self.bundle.queued();
        link.load(&mut queue.listed, &mut self.mark);
        let mut permits = SeatPermits::new(budget, &mut self.seat);
        let lobby = Some(&mut queue.lobby);
        match self.bundle.abandon(lease, now, pass, &mut permits, lobby) {
            Ok(_freed) => {}
            Err(_stray) => unreachable!(),
        }
        let is_queued = self.bundle.queued();
        mark_as(
            link,
            &mut queue.listed,
            &mut self.mark,
            was_queued,
            is_queued,
        );
    }

    /// A ticket of a host that is not queued comes back, as [`bundle::Bundle::withdraw`].
    pub fn withdraw(
        &mut self,
        budget: &WordBudget<Asker>,
        ticket: Ticket,
        now: u64,
        pass: &mut Pass<Did>,
    ) -> Result<bool, Stray<Ticket>>
        requires not_queued { is_queued self.old.host.settings self.old.host.log ≡ false }
        requires budget { budget.now.table ≡ N.names.budget }
        requires pass { IsPassOf N.names pass.old }
        requires here { self.old.host.host ≡ ticket.site }
        ensures ok { let transfer = ticket.wait.want.transfer in
            OnOk result (WithdrawsAs ticket.site now transfer pass.old pass.new) }
        ensures strange { IfErr result (λ stray. stray ≡ ticket) }
        ensures err { let stranger = Stranger ticket.wait.want.transfer in
            OnErr result (pass.new ≡ tells ticket.site (Some stranger) pass.old) }
        ensures pass { IsPassOf N.names pass.new }
        ensures place { self.new.host.host ≡ self.old.host.host }
    {
        let mut permits = SeatPermits::new(budget, &mut self.seat);
        self.bundle.withdraw(ticket, now, pass, &mut permits, None)
    }

    /// The same with the queue's lock taken too.
    pub fn withdraw_queued(
        &mut self,
        budget: &WordBudget<Asker>,
        link: &Link,
        queue: &mut LockedQueue<N>,
        ticket: Ticket,
        now: u64,
        pass: &mut Pass<Did>,
    ) -> Result<bool, Stray<Ticket>>
        requires budget { budget.now.table ≡ N.names.budget }
        requires link { link.now ≡ N.names.link }
        requires pass { IsPassOf N.names pass.old }
        requires here { self.old.host.host ≡ ticket.site }
        ensures ok { let transfer = ticket.wait.want.transfer in
            OnOk result (WithdrawsAs ticket.site now transfer pass.old pass.new) }
        ensures strange { IfErr result (λ stray. stray ≡ ticket) }
        ensures err { let stranger = Stranger ticket.wait.want.transfer in
            OnErr result (pass.new ≡ tells ticket.site (Some stranger) pass.old) }
        ensures pass { IsPassOf N.names pass.new }
        ensures place { self.new.host.host ≡ self.old.host.host }
    {
        let was_queued = self.bundle.queued();
        link.load(&mut queue.listed, &mut self.mark);
        let mut permits = SeatPermits::new(budget, &mut self.seat);
        let lobby = Some(&mut queue.lobby);
        let withdrawn = self.bundle.withdraw(ticket, now, pass, &mut permits, lobby);
        let is_queued = self.bundle.queued();
        mark_as(
            link,
            &mut queue.listed,
            &mut self.mark,
            was_queued,
            is_queued,
        );
        withdrawn
    }

    /// Closes the host's oldest idle connection for want of that room, if it is the one that the
    /// hint tells of.
    pub fn close_oldest(&mut self, budget: &WordBudget<Asker>, hint: u64, short: Shortage, now: u64)
        requires budget { budget.now.table ≡ N.names.budget }
        ensures place { self.new.host.host ≡ self.old.host.host }
    {
        let oldest = self.bundle.oldest();
        let Some(stamp) = oldest else {
            return;
        };
        if word_of(oldest) != hint {
            return;
        }
        let mut permits = SeatPermits::new(budget, &mut self.seat);
        self.bundle.evict_oldest(stamp, short, now, &mut permits);
    }

    /// A turn of the host, where it is the queue's first; `None` where it is not.
    pub fn take_turn(
        &mut self,
        budget: &WordBudget<Asker>,
        link: &Link,
        queue: &mut LockedQueue<N>,
        now: u64,
    ) -> Option<Served>
        requires budget { budget.now.table ≡ N.names.budget }
        requires link { link.now ≡ N.names.link }
        ensures place { self.new.host.host ≡ self.old.host.host }
    {
        if queue.lobby.first() != Some(self.bundle.host()) {
            return None;
        }
        link.load(&mut queue.listed, &mut self.mark);
        let mut permits = SeatPermits::new(budget, &mut self.seat);
        let served = self
            .bundle
            .serve_queued(now, &mut permits, &mut queue.lobby);
        if let Served::Given = served {
            if self.bundle.queued() {
                link.rotate(&mut queue.listed);
            } else {
                link.delist(&mut queue.listed, &mut self.mark);
            }
        }
        Some(served)
    }

    /// Closes what is too old by these two numbers, as [`bundle::Bundle::prune`].
    pub fn prune(
        &mut self,
        budget: &WordBudget<Asker>,
        now: u64,
        max_age: u64,
        max_life: u64,
        pass: &mut Pass<Did>,
    ) -> u32
        requires budget { budget.now.table ≡ N.names.budget }
        requires pass { IsPassOf N.names pass.old }
        ensures few { result ≤ 65535 }
        ensures tells { let did = Pruned now max_age max_life result in
            pass.new ≡ tells self.old.host.host (Some did) pass.old }
        ensures pass { IsPassOf N.names pass.new }
        ensures place { self.new.host.host ≡ self.old.host.host }
    {
        let _held = self.seat.held();
        let mut permits = SeatPermits::new(budget, &mut self.seat);
        self.bundle
            .prune(now, max_age, max_life, &mut permits, pass)
    }

    /// Changes the host's limit, as [`bundle::Bundle::set_host_limit`].
    pub fn set_limit(
        &mut self,
        budget: &WordBudget<Asker>,
        link: &Link,
        queue: &mut LockedQueue<N>,
        limit: u32,
        now: u64,
        pass: &mut Pass<Did>,
    ) -> Result<Changed, Refusal>
        requires budget { budget.now.table ≡ N.names.budget }
        requires link { link.now ≡ N.names.link }
        requires pass { IsPassOf N.names pass.old }
        ensures done { let site = self.old.host.host in
            IfChanged result (λ freed. LimitsAs site now limit pass.old pass.new) }
        ensures again { OnChangeAgain result (pass.new ≡ pass.old) }
        ensures err { IfErr result (IsAgainstLimit limit) }
        ensures bad_limit { 65535 < limit → result ≡ Err Refusal.BadLimit }
        ensures tells { IfErr result (λ refusal. pass.new
            ≡ tells self.old.host.host (held_did refusal) pass.old) }
        ensures pass { IsPassOf N.names pass.new }
        ensures place { self.new.host.host ≡ self.old.host.host }
    {
        let was_queued = self.bundle.queued();
        link.load(&mut queue.listed, &mut self.mark);
        let mut permits = SeatPermits::new(budget, &mut self.seat);
        let changed = self
            .bundle
            .set_host_limit(limit, now, &mut permits, &mut queue.lobby, pass);
        let is_queued = self.bundle.queued();
        mark_as(
            link,
            &mut queue.listed,
            &mut self.mark,
            was_queued,
            is_queued,
        );
        changed
    }

    /// Gives the pass a seat at the host's tally, as [`bundle::Bundle::enrol`].
    pub fn enrol(&mut self, pass: &mut Pass<Did>)
        requires there { self.old.host.host < length pass.old }
        requires apart { (account_at pass.old self.old.host.host).seat ≡ None }
        ensures enrols { EnrolsAt N.names self.old.host.host pass.old pass.new }
        ensures place { self.new.host.host ≡ self.old.host.host }
    {
        self.bundle.enrol(pass);
    }
}
