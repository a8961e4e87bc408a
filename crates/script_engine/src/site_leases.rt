//! The leases and tickets that are kept of a site for its transfers, until they are spent.

ghost use Rattle.std.specs.Prelude.{◌≡◌, ◌<◌, ◌+◌, ◌⊎◌, ℕ, true, false, length, string_bytes};
ghost use Rattle.std.specs.Prelude.{OnOk, OnErr, IfOk, IfErr, IfSome, IfNone, Some, None, is_some};
ghost use Rattle.std.specs.Prelude.{[], ◌∷◌, if◌then◌else◌};
ghost use Rattle.std.specs.Ordering.{nat_cmp};
ghost use Rattle.std.specs.BTreeMap.{get, keys, btree_map_len, IsEmpty, IsOrdered};
ghost use Rattle.persistence.specs.declared.facts.Facts.{Facts};
ghost use Rattle.host_state.specs.Calls.{refusal};
ghost use Rattle.bundle.specs.Lease.{lease_number, ticket_want, is_valid_ticket, Spends};
ghost use Rattle.cache.specs.AllHosts.{terms, log_at};
ghost use Rattle.cache.specs.Calls.{after_abandoning, after_withdrawing};
ghost use Rattle.cache.specs.Pools.{all_hosts, host_at, StaysHost, StaysPool, KeepsOtherHosts};
ghost use Rattle.cache.specs.Pools.{IsMadeHere, IsTicketHere};
ghost use Rattle.script_text.specs.declared.command.Action.TheVariants as actions;
ghost use Rattle.script_engine.specs.Meaning.{facts_of_ending, with_ticket, get_at, back_at};
ghost use Rattle.script_engine.specs.Meaning.{drop_at, leave_at, grown, stranger};
ghost use Rattle.script_engine.specs.Ending.{after_giving_up, after_all_at, AreThoseLeft};
ghost use Rattle.script_engine.specs.Hosted.{Gives, IsUntold, kept_at, KeepsDue, merged};
ghost use Rattle.script_engine.specs.Hosted.{KeepsLeases, KeepsTickets, leases_of, tickets_of};
ghost use Rattle.script_engine.specs.Hosted.{due_others, lease_facts, whereabouts, is_ticket_first};
ghost use Rattle.script_engine.specs.Telling.{AllGrowAfter};

use crate::facts::facts_of_ending;
use budget::Refusal;
use bundle::{Acquired, Claimed, Lease, Ticket};
use cache::Pool;
use conn_log::Want;
use script_text::{Ending, FaultKind, claimed, reply, still_waiting};
use std::alloc::Global;
use std::collections::BTreeMap;

/// The lease or ticket of each transfer of a site that has one. It has to be empty in the end.
pub struct SiteLeases {
    pub leases: BTreeMap<u64, Lease<()>>,
    pub tickets: BTreeMap<u64, Ticket>,
}

impl SiteLeases {
    /// Nobody has anything.
    pub fn new(alloc: Global) -> SiteLeases
        ensures leases { IsEmpty result.leases }
        ensures tickets { IsEmpty result.tickets }
    {
        SiteLeases {
            leases: BTreeMap::new(alloc),
            tickets: BTreeMap::new(alloc),
        }
    }

    /// Gives it up, where nobody has anything.
    pub fn destroy(self)
        requires leases { IsEmpty self.leases }
        requires tickets { IsEmpty self.tickets }
    {
        let SiteLeases { leases, tickets } = self;
        leases.destroy_empty();
        tickets.destroy_empty();
    }

    /// The transfer acquires a connection of the site, or begins to wait for one; what it gets is
    /// kept. Where memory is short for that, it is given up at moment 0.
    pub fn acquire(
        &mut self,
        pool: &mut Pool<()>,
        site: u32,
        want: Want,
        moment: u64,
    ) -> Result<(), Refusal>
        requires there { site < length pool.old.hosts }
        requires keeps { KeepsDue (host_at pool.old site) self.old }
        ensures ok { let old = kept_at pool.old self.old in
            let new = kept_at pool.new self.new in
            OnOk result (get_at pool.old.limits site want moment old ≡ grown old new) }
        ensures untold { let old = kept_at pool.old self.old in
            let new = kept_at pool.new self.new in
            OnErr result (IsUntold pool.old.limits site old (actions.Get want moment) new) }
        ensures refused { let due = refusal (terms pool.old.limits) (host_at pool.old site).log
            [] want in
            IfErr result (λ reason. ((due ≡ Some reason)
            × (kept_at pool.new self.new ≡ kept_at pool.old self.old))
            ⊎ (reason ≡ Refusal.Memory)) }
        ensures grow { AllGrowAfter want.transfer (all_hosts pool.old) (all_hosts pool.new) }
        ensures keeps { KeepsDue (host_at pool.new site) self.new }
        ensures others { KeepsOtherHosts site pool.old pool.new }
        ensures stays { StaysPool pool.old pool.new }
    {
        // For the proof.
        pool.is_at_rest();
        match pool.acquire(site, want, moment)? {
            Acquired::Lease(lease) => keep_lease(pool, &mut self.leases, lease),
            Acquired::Wait(ticket) => keep_ticket(pool, &mut self.tickets, ticket),
        }
    }

    /// The transfer claims the connection that it waits for. Where memory is short to keep what it
    /// gets, that is given up at moment 0.
    pub fn claim(
        &mut self,
        alloc: Global,
        pool: &mut Pool<()>,
        site: u32,
        transfer: u64,
    ) -> Result<String, FaultKind>
        requires there { site < length pool.old.hosts }
        requires keeps { KeepsDue (host_at pool.old site) self.old }
        ensures answer { Gives string_bytes pool.old.limits site (kept_at pool.old self.old)
            (actions.Claim transfer) result (kept_at pool.new self.new) }
        ensures site { StaysHost (host_at pool.old site) (host_at pool.new site) }
        ensures keeps { KeepsDue (host_at pool.new site) self.new }
        ensures others { KeepsOtherHosts site pool.old pool.new }
        ensures stays { StaysPool pool.old pool.new }
    {
        // For the proof.
        pool.is_at_rest();
        let Some(ticket) = self.tickets.remove(&transfer) else {
            return reply(alloc, "stranger");
        };
        match pool.claim(ticket) {
            Ok(Claimed::Lease(lease)) => {
                let number = lease.number();
                match keep_lease(pool, &mut self.leases, lease) {
                    Ok(()) => claimed(alloc, site, number),
                    Err(_) => Err(FaultKind::Memory),
                }
            }
            Ok(Claimed::Still(ticket)) => match keep_ticket(pool, &mut self.tickets, ticket) {
                Ok(()) => still_waiting(alloc),
                Err(_) => Err(FaultKind::Memory),
            },
            Err(stray) => {
                // Each ticket that is kept is the pool's own.
                stray.scrap();
                reply(alloc, "stranger")
            }
        }
    }

    /// The transfer gives its connection back after a response that ended so; whether it has one.
    pub fn give_back(
        &mut self,
        pool: &mut Pool<()>,
        site: u32,
        transfer: u64,
        ending: Ending,
        moment: u64,
    ) -> bool
        requires there { site < length pool.old.hosts }
        requires keeps { KeepsDue (host_at pool.old site) self.old }
        ensures answer { let old = kept_at pool.old self.old in
            let new = kept_at pool.new self.new in
            back_at pool.old.limits site transfer ending moment old
            ≡ (if result then grown old new else stranger new) }
        ensures none { result ≡ false → kept_at pool.new self.new ≡ kept_at pool.old self.old }
        ensures grow { AllGrowAfter transfer (all_hosts pool.old) (all_hosts pool.new) }
        ensures keeps { KeepsDue (host_at pool.new site) self.new }
        ensures others { KeepsOtherHosts site pool.old pool.new }
        ensures stays { StaysPool pool.old pool.new }
    {
        // For the proof.
        pool.is_at_rest();
        match self.leases.remove(&transfer) {
            Some(lease) => {
                pool.give_back(lease, facts_of_ending(ending), moment);
                true
            }
            None => false,
        }
    }

    /// The transfer abandons its connection; whether it has one.
    pub fn abandon(&mut self, pool: &mut Pool<()>, site: u32, transfer: u64, moment: u64) -> bool
        requires there { site < length pool.old.hosts }
        requires keeps { KeepsDue (host_at pool.old site) self.old }
        ensures answer { let old = kept_at pool.old self.old in
            let new = kept_at pool.new self.new in
            drop_at pool.old.limits site transfer moment old
            ≡ (if result then grown old new else stranger new) }
        ensures none { result ≡ false → kept_at pool.new self.new ≡ kept_at pool.old self.old }
        ensures grow { AllGrowAfter transfer (all_hosts pool.old) (all_hosts pool.new) }
        ensures keeps { KeepsDue (host_at pool.new site) self.new }
        ensures others { KeepsOtherHosts site pool.old pool.new }
        ensures stays { StaysPool pool.old pool.new }
    {
        // For the proof.
        pool.is_at_rest();
        match self.leases.remove(&transfer) {
            Some(lease) => {
                pool.abandon(lease, moment);
                true
            }
            None => false,
        }
    }

    /// The transfer withdraws its ticket; whether it has one.
    pub fn withdraw(&mut self, pool: &mut Pool<()>, site: u32, transfer: u64, moment: u64) -> bool
        requires there { site < length pool.old.hosts }
        requires keeps { KeepsDue (host_at pool.old site) self.old }
        ensures answer { let old = kept_at pool.old self.old in
            let new = kept_at pool.new self.new in
            leave_at pool.old.limits site transfer moment old
            ≡ (if result then grown old new else stranger new) }
        ensures none { result ≡ false → kept_at pool.new self.new ≡ kept_at pool.old self.old }
        ensures grow { AllGrowAfter transfer (all_hosts pool.old) (all_hosts pool.new) }
        ensures keeps { KeepsDue (host_at pool.new site) self.new }
        ensures others { KeepsOtherHosts site pool.old pool.new }
        ensures stays { StaysPool pool.old pool.new }
    {
        // For the proof.
        pool.is_at_rest();
        match self.tickets.remove(&transfer) {
            Some(ticket) => {
                withdraw_ticket(pool, ticket, moment);
                true
            }
            None => false,
        }
    }

    /// Abandons the leases and withdraws the tickets, by transfer, at moment 0.
    pub fn spend_all(&mut self, pool: &mut Pool<()>, site: u32)
        requires there { site < length pool.old.hosts }
        requires keeps { KeepsDue (host_at pool.old site) self.old }
        ensures those { AreThoseLeft site (kept_at pool.old self.old)
            (merged (keys self.old.leases) (keys self.old.tickets)) }
        ensures all { kept_at pool.new self.new
            ≡ after_all_at pool.old.limits site (kept_at pool.old self.old)
            (merged (keys self.old.leases) (keys self.old.tickets)) }
        ensures leases { IsEmpty self.new.leases }
        ensures tickets { IsEmpty self.new.tickets }
        ensures keeps { KeepsDue (host_at pool.new site) self.new }
        ensures others { KeepsOtherHosts site pool.old pool.new }
        ensures stays { StaysPool pool.old pool.new }
    {
        // For the proof.
        pool.is_at_rest();
        while let Some(_) = self.spend_first(pool, site) {}
    }

    /// Spends the lease or the ticket of the first transfer that has one, at moment 0. Tells which
    /// transfer that is; `None` where none has one.
    fn spend_first(&mut self, pool: &mut Pool<()>, site: u32) -> Option<u64>
        requires there { site < length pool.old.hosts }
        requires keeps { KeepsDue (host_at pool.old site) self.old }
        ensures none { IfNone result ((IsEmpty self.old.leases) × (IsEmpty self.old.tickets)
            × (pool.new ≡ pool.old)) }
        ensures first { IfSome result (λ transfer.
            merged (keys self.old.leases) (keys self.old.tickets)
            ≡ transfer ∷ merged (keys self.new.leases) (keys self.new.tickets)) }
        ensures less { btree_map_len self.new.leases + btree_map_len self.new.tickets
            + (if is_some result then 1 else 0)
            ≡ btree_map_len self.old.leases + btree_map_len self.old.tickets }
        ensures all { IfSome result (λ transfer. kept_at pool.new self.new
            ≡ after_giving_up pool.old.limits site (kept_at pool.old self.old) transfer) }
        ensures keeps { KeepsDue (host_at pool.new site) self.new }
        ensures others { KeepsOtherHosts site pool.old pool.new }
        ensures stays { StaysPool pool.old pool.new }
    {
        // For the proof.
        pool.is_at_rest();
        if self.is_ticket_first() {
            let (transfer, first) = self.tickets.pop_first()?;
            withdraw_ticket(pool, first, 0);
            Some(transfer)
        } else {
            let (transfer, first) = self.leases.pop_first()?;
            pool.abandon(first, 0);
            Some(transfer)
        }
    }

    /// Whether the first transfer that has a lease or a ticket has a ticket.
    fn is_ticket_first(&self) -> bool
        ensures { result ≡ is_ticket_first (keys self.now.leases) (keys self.now.tickets) }
    {
        let Some((waiter, _)) = self.tickets.first_key_value() else {
            return false;
        };
        match self.leases.first_key_value() {
            Some((holder, _)) => waiter < holder,
            None => true,
        }
    }
}

/// Withdraws a ticket of the pool's own.
fn withdraw_ticket(pool: &mut Pool<()>, ticket: Ticket, moment: u64)
    requires here { IsTicketHere pool.old ticket }
    requires own { is_valid_ticket (host_at pool.old ticket.site) ticket.wait.want ≡ true }
    ensures all { all_hosts pool.new ≡ after_withdrawing pool.old.limits ticket.site
        ticket.wait.want.transfer moment (all_hosts pool.old) }
    ensures spends { Spends (host_at pool.old ticket.site) (host_at pool.new ticket.site)
        ticket.wait.want.transfer }
    ensures site { StaysHost (host_at pool.old ticket.site) (host_at pool.new ticket.site) }
    ensures others { KeepsOtherHosts ticket.site pool.old pool.new }
    ensures stays { StaysPool pool.old pool.new }
{
    if let Err(stray) = pool.withdraw(ticket, moment) {
        // It is the pool's own.
        stray.scrap();
    }
}

/// The lease with a stream; where it has none, an empty one.
fn with_stream(lease: Lease<()>) -> Lease<()>
    ensures same { lease_facts result ≡ (
      lease.start.number,
      lease.start.want.transfer,
      true,
      (lease.site, lease.tables),
    ) }
{
    let mut lease = lease;
    if !lease.has_stream() {
        lease.attach(());
    }
    lease
}

/// Keeps a lease for its transfer, with an empty stream. Where memory is short, it is abandoned at
/// moment 0.
fn keep_lease(
    pool: &mut Pool<()>,
    leases: &mut BTreeMap<u64, Lease<()>>,
    lease: Lease<()>,
) -> Result<(), Refusal>
    requires here { IsMadeHere pool.old lease }
    requires place { (host_at pool.old lease.site).host ≡ lease.site }
    requires own { lease_number (host_at pool.old lease.site) lease.start.want.transfer
        ≡ Some lease.start.number }
    requires spent { ticket_want (host_at pool.old lease.site) lease.start.want.transfer ≡ None }
    requires others { KeepsLeases (due_others lease.start.want.transfer
        (leases_of (host_at pool.old lease.site))) (get nat_cmp leases.old) }
    ensures ok { OnOk result (pool.new ≡ pool.old) }
    ensures err { IfErr result (λ refusal. refusal ≡ Refusal.Memory) }
    ensures abandoned { OnErr result (all_hosts pool.new ≡ after_abandoning pool.old.limits
        lease.site lease.start.number 0 (all_hosts pool.old)) }
    ensures leases { let held = leases_of (host_at pool.new lease.site) in
        KeepsLeases held (get nat_cmp leases.new) }
    ensures tickets { (t : ℕ) → ticket_want (host_at pool.new lease.site) t
        ≡ ticket_want (host_at pool.old lease.site) t }
    ensures ordered { IsOrdered nat_cmp leases.new }
    ensures site { StaysHost (host_at pool.old lease.site) (host_at pool.new lease.site) }
    ensures others { KeepsOtherHosts lease.site pool.old pool.new }
    ensures stays { StaysPool pool.old pool.new }
{
    let transfer = lease.transfer();
    match leases.insert(transfer, with_stream(lease)) {
        Ok(None) => Ok(()),
        Ok(Some(other)) => {
            // The transfer had no lease here.
            pool.abandon(other, 0);
            Err(Refusal::Memory)
        }
        Err(failed) => {
            let (_, lease) = failed.value;
            pool.abandon(lease, 0);
            Err(Refusal::Memory)
        }
    }
}

/// Keeps a ticket for its transfer. Where memory is short, it is withdrawn at moment 0.
fn keep_ticket(
    pool: &mut Pool<()>,
    tickets: &mut BTreeMap<u64, Ticket>,
    ticket: Ticket,
) -> Result<(), Refusal>
    requires here { IsTicketHere pool.old ticket }
    requires place { (host_at pool.old ticket.site).host ≡ ticket.site }
    requires own { ticket_want (host_at pool.old ticket.site) ticket.wait.want.transfer
        ≡ Some ticket.wait.want }
    requires unleased { lease_number (host_at pool.old ticket.site) ticket.wait.want.transfer
        ≡ None }
    requires others { KeepsTickets (due_others ticket.wait.want.transfer
        (tickets_of (host_at pool.old ticket.site))) (get nat_cmp tickets.old) }
    ensures ok { OnOk result (pool.new ≡ pool.old) }
    ensures transfers { OnOk result (keys tickets.new
        ≡ with_ticket ticket.wait.want.transfer (keys tickets.old)) }
    ensures put_back { OnErr result (keys tickets.new ≡ keys tickets.old) }
    ensures err { IfErr result (λ refusal. refusal ≡ Refusal.Memory) }
    ensures withdrawn { OnErr result (all_hosts pool.new ≡ after_withdrawing pool.old.limits
        ticket.site ticket.wait.want.transfer 0 (all_hosts pool.old)) }
    ensures leases { (t : ℕ) → lease_number (host_at pool.new ticket.site) t
        ≡ lease_number (host_at pool.old ticket.site) t }
    ensures tickets { KeepsTickets (tickets_of (host_at pool.new ticket.site))
        (get nat_cmp tickets.new) }
    ensures ordered { IsOrdered nat_cmp tickets.new }
    ensures site { StaysHost (host_at pool.old ticket.site) (host_at pool.new ticket.site) }
    ensures others { KeepsOtherHosts ticket.site pool.old pool.new }
    ensures stays { StaysPool pool.old pool.new }
{
    let transfer = ticket.transfer();
    match tickets.insert(transfer, ticket) {
        Ok(None) => Ok(()),
        Ok(Some(other)) => {
            // The transfer had no ticket here.
            withdraw_ticket(pool, other, 0);
            Err(Refusal::Memory)
        }
        Err(failed) => {
            let (_, ticket) = failed.value;
            withdraw_ticket(pool, ticket, 0);
            Err(Refusal::Memory)
        }
    }
}
