//! A pool with slots.

ghost use Rattle.std.specs.Prelude.{◌≡◌, ◌⊎◌, [], None, Some, IfErr, IfOk, IfNone, IfSome, OnErr};
ghost use Rattle.std.specs.Prelude.{nat_lt, if◌then◌else◌, OnOk, ◌<◌, length, ◌≤◌, true, false};
ghost use Rattle.host_state.specs.Calls.{is_queued};
ghost use Rattle.host_state.specs.Counts.{snapshot_of};
ghost use Rattle.cache.specs.Calls.{after_limit_of, after_prune, prune_count};
ghost use Rattle.cache_trait.specs.CacheCalls.{AllDone};
ghost use Rattle.cache.specs.Pools.{IsNewPool, all_hosts, host_at};
ghost use Rattle.conn_log.specs.Counts.{counts as counts_of};
ghost use Rattle.conn_log.specs.Legal.{IsLegal};
ghost use Rattle.cache.specs.PoolCalls.{CutsHost, DidToPool, IsCallAtAll, IsReason};
ghost use Rattle.cache.specs.PoolCalls.{cut_refusal_at, limit_refusal_at};
ghost use Rattle.held_pool.specs.Slots.{value_in};
ghost use Rattle.held_pool.specs.TokenNumbers.{IsNext};
ghost use Rattle.held_pool.specs.Calls.{AbandonsSlot, AcquiresSlot, Attaches, ClaimsHeld};
ghost use Rattle.held_pool.specs.Calls.{GivesBackSlot, HasSameRest, RefusesSlot, WithdrawsSlot};
ghost use Rattle.held_pool.specs.Calls.{attach_fault, back_fault, endings_in, lease_fault};
ghost use Rattle.held_pool.specs.Calls.{BeginsResponse, FeedsHeld, GivesBackRead, GrantsSlot};
ghost use Rattle.held_pool.specs.Calls.{HoldsSame, is_unused_site, read_fault, reading_for};
ghost use Rattle.held_pool.specs.Calls.{ticket_fault};
ghost use Rattle.persistence.specs.Reader.{new_reader};
ghost use Rattle.held_pool.specs.Readers.{EndsSlot, SameReaders, TellsSome, reading_in};
ghost use Rattle.conn_key.specs.Giving.{Gives, Refuses};
ghost use Rattle.held_pool.specs.declared.answers.SlotError.TheVariants as faults;

use crate::acquiring::{acquire_from, got_of};
use crate::answers::{SlotAnswer, SlotError};
use crate::claiming::claim_from;
use crate::closed_tokens::ClosedTokens;
use crate::closing::end_all;
use crate::response::{FeedError, Response};
use crate::slot::Slot;
use crate::slot_readers::SlotReaders;
use crate::slot_table::SlotTable;
use crate::spending::{
    abandon_from, attach_fault, give_back_to, has_lease, has_ticket, lift_lease, take_attached,
    take_lease, take_ticket, withdraw_from,
};
use crate::token::Token;
use crate::used_sites::UsedSites;
use crate::waiters::Waiters;
use budget::{Limits, Refusal};
use bundle::{Acquired, Snapshot};
use cache::Pool;
use conn_key::{PlaceError, PlaceTable};
use conn_log::{Counts, Entry, Log, Want};
use persistence::{Facts, Fed, Method};
use std::alloc::{AllocError, Global};
use std::marker::Model;

/// A pool of several hosts whose leases and tickets lie in slots. A transfer's slot is given out
/// when it acquires, names what the transfer has until that is spent, and nothing after it: a
/// second or wrong use of a slot changes nothing. Waiters are told by [`HeldPool::granted`] once
/// they have their connections.
///
/// The stream of a connection is a token, a 64-bit number of the caller's. Once the pool has closed
/// a connection, [`HeldPool::next_closed`] tells its token. It has to be closed in the end.
pub struct HeldPool {
    pool: Pool<Token>,
    slots: SlotTable<Acquired<Token>>,
    closed: ClosedTokens,
    readers: SlotReaders,
    sites: PlaceTable,
    waiters: Waiters,
}

impl Model for HeldPool {
    ghost use Rattle.held_pool.specs.Due.{AreDue};
    ghost use Rattle.held_pool.specs.Calls.{HeldShown};

    ghost Value = { HeldShown };

    ghost view = { λ held. record {
      pool = held.pool;
      places = held.slots.places.items;
      closed = held.closed;
      readers = held.readers.readers.items;
      hosts = held.sites;
    } };

    ghost invariant = { λ held. AreDue held.pool held.slots.places.items };
}

impl HeldPool {
    /// A pool of so many hosts, without connections, under these limits.
    ///
    /// Refused, in this order, with [`Refusal::BadSite`] above 1,024 hosts, and with
    /// [`Refusal::Memory`] if memory runs out.
    pub fn new(alloc: Global, limits: Limits, hosts: u32) -> Result<HeldPool, Refusal>
        ensures pool { IfOk result (λ held. IsNewPool limits hosts held.pool) }
        ensures empty { IfOk result (λ held. (held.places ≡ []) × (held.closed ≡ [])
            × (held.readers ≡ [])) }
        ensures sites { IfOk result (λ held. held.hosts ≡ record { keys = []; places = hosts }) }
        ensures err { IfErr result (λ refusal. refusal
            ≡ (if nat_lt 1024 hosts then Refusal.BadSite else Refusal.Memory)) }
    {
        let pool = Pool::new(alloc, limits, hosts)?;
        let closed = ClosedTokens::new(alloc)?;
        let waiters = Waiters::new(alloc, hosts)?;
        Ok(HeldPool {
            pool,
            slots: SlotTable::new(alloc),
            closed,
            readers: SlotReaders::new(alloc),
            sites: PlaceTable::new(alloc, hosts),
            waiters,
        })
    }

    /// Leases a connection of the site's host to the transfer, or begins its wait, as
    /// [`Pool::acquire`] does, and tells the slot that holds it from then on. `now` is in seconds.
    ///
    /// Refused as [`Pool::acquire`] is, and with [`Refusal::Memory`] if there is no memory for a
    /// slot; then nothing changes.
    #[inline(always)]
    pub fn acquire(
        &mut self,
        site: u32,
        want: Want,
        now: u64,
    ) -> Result<(Slot, SlotAnswer), Refusal>
        ensures ok { IfOk result (AcquiresSlot self.old self.new site want now) }
        ensures refused { IfErr result (RefusesSlot self.old site want) }
        ensures err { OnErr result (self.new ≡ self.old) }
        ensures rest { HasSameRest self.old self.new }
    {
        self.slots.reserve()?;
        self.waiters.reserve(site)?;
        let mut acquired = acquire_from(&mut self.pool, site, want, now)?;
        let got = got_of(&mut acquired);
        let slot = self.slots.put(acquired);
        self.waiters.note_acquire(site, slot, got);
        Ok((slot, got))
    }

    /// Gives the new connection of the slot's lease its token.
    ///
    /// # Errors
    ///
    /// `Stranger` if the slot has no lease, `Attached` if its connection has a token, `Memory` if
    /// memory runs out; then nothing changes, and the token stays the caller's.
    pub fn attach(&mut self, alloc: Global, slot: Slot, token: u64) -> Result<(), SlotError>
        ensures ok { OnOk result (Attaches self.old self.new slot token) }
        ensures err { let due = attach_fault (value_in self.old.places slot) in
            IfErr result (λ fault. (due ≡ Some fault)
            ⊎ ((due ≡ None) × (fault ≡ faults.Memory))) }
        ensures same { OnErr result (self.new ≡ self.old) }
        ensures rest { HasSameRest self.old self.new }
    {
        if let Some(fault) = attach_fault(&self.slots, slot) {
            return Err(fault);
        }
        let Ok(token) = self.closed.token(alloc, token) else {
            return Err(SlotError::Memory);
        };
        let mut lease = lift_lease(&mut self.slots, slot);
        lease.attach(token);
        self.slots.put_back(slot, Acquired::Lease(lease));
        Ok(())
    }

    /// Claims the connection that the slot's transfer waits for, as [`Pool::claim`] does; the slot
    /// holds its lease from then on. For a slot with a lease it tells the same again.
    ///
    /// # Errors
    ///
    /// `Stranger` if the slot has neither a lease nor a ticket; then nothing changes.
    pub fn claim(&mut self, slot: Slot) -> Result<SlotAnswer, SlotError>
        ensures ok { IfOk result (λ got.
            ClaimsHeld self.old self.new slot got (value_in self.old.places slot)) }
        ensures err { IfErr result (λ fault. (fault ≡ faults.Stranger)
            × (value_in self.old.places slot ≡ None)) }
        ensures same { OnErr result (self.new ≡ self.old) }
        ensures rest { HasSameRest self.old self.new }
    {
        match self.slots.lift(slot) {
            None => Err(SlotError::Stranger),
            Some(Acquired::Lease(lease)) => {
                let mut lease = Acquired::Lease(lease);
                let got = got_of(&mut lease);
                self.slots.put_back(slot, lease);
                Ok(got)
            }
            Some(Acquired::Wait(ticket)) => {
                let site = ticket.site();
                let mut claimed = claim_from(&mut self.pool, ticket);
                let got = got_of(&mut claimed);
                self.slots.put_back(slot, claimed);
                self.waiters.note_claim(site, slot, got);
                Ok(got)
            }
        }
    }

    /// The slot of the next waiter that has its connection since the last call: its connection is
    /// claimed, and [`HeldPool::claim`] tells which. `None` once no other one has; until something
    /// is spent, or a limit is changed, none can have it then. A slot whose connection was claimed
    /// by [`HeldPool::claim`] itself is not told.
    ///
    /// It asks the first waiter of each site at which somebody waits, once something was spent: a
    /// freed connection goes to the first waiter of a site.
    pub fn granted(&mut self) -> Option<Slot>
        ensures some { IfSome result (GrantsSlot self.old self.new) }
        ensures none { IfNone result (HoldsSame self.old self.new) }
        ensures rest { HasSameRest self.old self.new }
    {
        for _ in 0..self.waiters.left() {
            let slot = self.waiters.next()?;
            if self.grants(slot) {
                return Some(slot);
            }
            self.waiters.pass();
        }
        None
    }

    // Whether the slot's waiter has its connection, which is claimed then.
    fn grants(&mut self, slot: Slot) -> bool
        ensures yes { result ≡ true → GrantsSlot self.old self.new slot }
        ensures no { result ≡ false → HoldsSame self.old self.new }
        ensures rest { HasSameRest self.old self.new }
    {
        if !has_ticket(&self.slots, slot) {
            return false;
        }
        match self.claim(slot) {
            Ok(SlotAnswer::New | SlotAnswer::Reused(_)) => true,
            Ok(SlotAnswer::Wait) | Err(_) => false,
        }
    }

    /// Takes the slot's lease back with the facts of its response, as [`Pool::give_back`] does.
    /// `now` is in seconds. It takes no memory.
    ///
    /// # Errors
    ///
    /// `Stranger` if the slot has no lease, `Unattached` if its connection has no token; then
    /// nothing changes.
    #[inline(always)]
    pub fn give_back_as(&mut self, slot: Slot, facts: Facts, now: u64) -> Result<(), SlotError>
        ensures ok { OnOk result (GivesBackSlot self.old self.new slot facts now) }
        ensures err { IfErr result (λ fault.
            back_fault (value_in self.old.places slot) ≡ Some fault) }
        ensures same { OnErr result (self.new ≡ self.old) }
        ensures rest { HasSameRest self.old self.new }
    {
        let lease = take_attached(&mut self.slots, slot)?;
        give_back_to(&mut self.pool, lease, facts, now);
        self.waiters.ask();
        Ok(())
    }

    /// Closes the connection of the slot's lease, as [`Pool::abandon`] does. `now` is in seconds.
    /// It takes no memory.
    ///
    /// # Errors
    ///
    /// `Stranger` if the slot has no lease; then nothing changes.
    pub fn abandon(&mut self, slot: Slot, now: u64) -> Result<(), SlotError>
        ensures ok { OnOk result (AbandonsSlot self.old self.new slot now) }
        ensures err { IfErr result (λ fault.
            lease_fault (value_in self.old.places slot) ≡ Some fault) }
        ensures same { OnErr result (self.new ≡ self.old) }
        ensures rest { HasSameRest self.old self.new }
    {
        let lease = take_lease(&mut self.slots, slot)?;
        abandon_from(&mut self.pool, lease, now);
        self.waiters.ask();
        Ok(())
    }

    /// Ends the wait of the slot's ticket, as [`Pool::withdraw`] does. `now` is in seconds. It
    /// takes no memory.
    ///
    /// # Errors
    ///
    /// `Stranger` if the slot has no ticket; then nothing changes.
    pub fn withdraw(&mut self, slot: Slot, now: u64) -> Result<(), SlotError>
        ensures ok { OnOk result (WithdrawsSlot self.old self.new slot now) }
        ensures err { IfErr result (λ fault.
            ticket_fault (value_in self.old.places slot) ≡ Some fault) }
        ensures same { OnErr result (self.new ≡ self.old) }
        ensures rest { HasSameRest self.old self.new }
    {
        let ticket = take_ticket(&mut self.slots, slot)?;
        let site = ticket.site();
        withdraw_from(&mut self.pool, ticket, now);
        self.waiters.leave(site, slot);
        self.waiters.ask();
        Ok(())
    }

    /// Closes each idle connection that is too old, as [`Pool::prune`] does: how many. `now`,
    /// `max_age` and `max_life` are in seconds.
    pub fn prune(&mut self, now: u64, max_age: u64, max_life: u64) -> u32
        ensures done { let all = all_hosts self.old.pool in
            let end = after_prune self.old.pool.limits now max_age max_life all in
            IsCallAtAll end self.old.pool self.new.pool }
        ensures count { result ≡ prune_count now max_age max_life (all_hosts self.old.pool) }
        ensures rest { self.new ≡ record self.old { pool = self.new.pool } }
    {
        self.waiters.ask();
        self.pool.prune(now, max_age, max_life)
    }

    /// Changes the most connections that the site's host may have open, as
    /// [`Pool::set_host_limit`] does, and refused as that is. `now` is in seconds.
    pub fn set_host_limit(&mut self, site: u32, limit: u32, now: u64) -> Result<(), Refusal>
        ensures done { let all = all_hosts self.old.pool in
            let end = after_limit_of self.old.pool.limits site limit now all in
            OnOk result (IsCallAtAll end self.old.pool self.new.pool) }
        ensures refused { let due = limit_refusal_at self.old.pool site limit in
            IfErr result (λ reason. (self.new.pool ≡ self.old.pool) × IsReason due reason) }
        ensures due { let due = limit_refusal_at self.old.pool site limit in
            IfSome due (λ reason. result ≡ Err reason) }
        ensures rest { self.new ≡ record self.old { pool = self.new.pool } }
    {
        self.waiters.ask();
        self.pool.set_host_limit(site, limit, now)
    }

    /// The counts of a site's host, and whether it is queued. [`Refusal::BadSite`] exactly if there
    /// is no such site.
    pub fn look(&self, site: u32) -> Result<Snapshot, Refusal>
        ensures ok { IfOk result (λ counts. (site < length self.now.pool.hosts)
            × (let host = host_at self.now.pool site in
            counts ≡ snapshot_of host.log (is_queued host.settings host.log))) }
        ensures err { IfErr result (λ refusal. (length self.now.pool.hosts ≤ site)
            × (refusal ≡ Refusal.BadSite)) }
    {
        self.pool.look(site)
    }

    /// The counts of a site since the pool was made. [`Refusal::BadSite`] exactly if there is no
    /// such site. It scans the entries of the site's log since the last cut.
    pub fn counts(&self, site: u32) -> Result<Counts, Refusal>
        ensures ok { IfOk result (λ told. (site < length self.now.pool.hosts)
            × (told ≡ counts_of (host_at self.now.pool site).log)) }
        ensures err { IfErr result (λ refusal. (length self.now.pool.hosts ≤ site)
            × (refusal ≡ Refusal.BadSite)) }
    {
        match self.pool.log(site) {
            Some(log) => Ok(log.counts()),
            None => Err(Refusal::BadSite),
        }
    }

    /// A site's log; `None` exactly if there is no such site.
    pub fn log(&self, site: u32) -> Option<&Log>
        ensures some { IfSome result (λ log. (site < length self.now.pool.hosts)
            × (log.now.entries ≡ (host_at self.now.pool site).log)) }
        ensures cut { IfSome result (λ log.
            log.now.cut_away ≡ (host_at self.now.pool site).cut_away) }
        ensures legal { let host = host_at self.now.pool site in
            site < length self.now.pool.hosts → IsLegal host.settings host.log }
        ensures none { IfNone result (length self.now.pool.hosts ≤ site) }
    {
        self.pool.log(site)
    }

    /// Cuts a site's log, as [`Pool::cut`] does, and is refused as that is.
    pub fn cut(&mut self, site: u32) -> Result<Vec<Entry>, Refusal>
        ensures done { let old = self.old.pool in
            IfOk result (λ part. CutsHost site old self.new.pool part.items) }
        ensures refused { IfErr result (λ reason. (self.new.pool ≡ self.old.pool)
            × (reason ≡ cut_refusal_at self.old.pool site)) }
        ensures rest { self.new ≡ record self.old { pool = self.new.pool } }
    {
        self.pool.cut(site)
    }

    /// The token of the next connection that the pool has closed, whose socket the caller closes
    /// then; `None` if there is none. It takes no memory.
    pub fn next_closed(&mut self) -> Option<u64>
        ensures some { IfSome result (λ token. IsNext self.old.closed token self.new.closed) }
        ensures none { IfNone result (self.old.closed ≡ []) }
        ensures none_left { IfNone result (self.new.closed ≡ []) }
        ensures rest { self.new ≡ record self.old { closed = self.new.closed } }
    {
        self.closed.next()
    }

    /// How many hosts there are.
    pub fn hosts(&self) -> u32
        ensures { result ≡ length self.now.pool.hosts }
    {
        self.pool.hosts()
    }

    /// Keeps connections alive, as [`Pool::upkeep`] does: for HTTP/1.1 it changes nothing and
    /// answers 0.
    pub fn upkeep(&mut self) -> u32
        ensures none { result ≡ 0 }
        ensures same { self.new ≡ self.old }
    {
        self.pool.upkeep()
    }

    /// Ends all that the slots hold: abandons the leases and withdraws the tickets, the last place
    /// first. What is left is the pool, and the list of its tokens, which tells those of the idle
    /// connections once the pool is dropped. `now` is in seconds.
    pub fn close(self, now: u64) -> (Pool<Token>, ClosedTokens)
        ensures done { AllDone DidToPool self.pool result.0 (endings_in now self.places) }
        ensures closed { result.1 ≡ self.closed }
    {
        let HeldPool {
            mut pool,
            mut slots,
            closed,
            readers: _,
            sites: _,
            waiters: _,
        } = self;
        end_all(&mut pool, &mut slots, now);
        slots.destroy_empty();
        (pool, closed)
    }

    /// The site of the host with this key, any text, as `HOST:PORT`: its own, or else the next one
    /// that no host has, or else one where no connection is open and nobody waits.
    ///
    /// The errors come only for a host without a site: `Full` exactly if each site has a host and
    /// is in use, else `Memory`. After an error nothing has changed.
    pub fn site(&mut self, key: &str) -> Result<u32, PlaceError>
        ensures gives { IfOk result (λ site.
            Gives (is_unused_site self.old.pool) self.old.hosts key.now site self.new.hosts) }
        ensures refuses { IfErr result
            (Refuses (is_unused_site self.old.pool) self.old.hosts key.now) }
        ensures unchanged { OnErr result (self.new ≡ self.old) }
        ensures rest { self.new ≡ record self.old { hosts = self.new.hosts } }
    {
        let cache = UsedSites { pool: &self.pool };
        self.sites.place(key, &cache)
    }

    /// Begins the response that is read for the slot's lease: to a request of that method, which
    /// had the connection option `close` or not. One that was begun before is forgotten.
    ///
    /// # Errors
    ///
    /// `Stranger` if the slot has no lease, `Memory` if there is no memory for a reader; then
    /// nothing changes.
    pub fn begin_response(
        &mut self,
        alloc: Global,
        slot: Slot,
        method: Method,
        request_close: bool,
    ) -> Result<(), SlotError>
        ensures ok { OnOk result (BeginsResponse self.old self.new slot
            (new_reader method request_close)) }
        ensures err { let due = lease_fault (value_in self.old.places slot) in
            IfErr result (λ fault. (due ≡ Some fault)
            ⊎ ((due ≡ None) × (fault ≡ faults.Memory))) }
        ensures same { OnErr result (SameReaders self.old.readers self.new.readers) }
        ensures rest { self.new ≡ record self.old { readers = self.new.readers } }
    {
        if !has_lease(&self.slots, slot) {
            return Err(SlotError::Stranger);
        }
        match self.readers.begin(alloc, slot, method, request_close) {
            Ok(()) => Ok(()),
            Err(_) => Err(SlotError::Memory),
        }
    }

    /// Reads one piece more of the response of the slot's lease, as [`SlotReaders::feed`] does.
    ///
    /// # Errors
    ///
    /// `NoReader` if the slot has no lease, or no response was begun for it, `Ended` if its
    /// connection has ended; then nothing changes. `Fault` with the response's fault.
    #[inline(always)]
    pub fn feed(&mut self, slot: Slot, piece: &[u8]) -> Result<Fed, FeedError>
        ensures feeds { FeedsHeld self.old self.new slot piece.now result
            (value_in self.old.places slot) }
        ensures rest { self.new ≡ record self.old { readers = self.new.readers } }
    {
        if !has_lease(&self.slots, slot) {
            return Err(FeedError::NoReader);
        }
        self.readers.feed(slot, piece)
    }

    /// Tells that the connection of the response that is read for the slot's lease has ended;
    /// whether one is read.
    pub fn end(&mut self, slot: Slot) -> bool
        ensures ended { result ≡ true → EndsSlot self.old.readers self.new.readers slot }
        ensures leased { result ≡ true → lease_fault (value_in self.old.places slot) ≡ None }
        ensures none { result ≡ false → reading_for self.old slot ≡ None }
        ensures same { result ≡ false → SameReaders self.old.readers self.new.readers }
        ensures rest { self.new ≡ record self.old { readers = self.new.readers } }
    {
        if !has_lease(&self.slots, slot) {
            return false;
        }
        self.readers.end(slot)
    }

    /// What the response tells so far that is read for the slot's lease; `None` if none is.
    pub fn response(&self, slot: Slot) -> Option<Response>
        ensures some { IfSome result (TellsSome (reading_for self.now slot)) }
        ensures none { IfNone result (reading_for self.now slot ≡ None) }
    {
        if !has_lease(&self.slots, slot) {
            return None;
        }
        self.readers.response(slot)
    }

    /// Takes the slot's lease back with the facts of the response that was read, as
    /// [`Pool::give_back`] does. `now` is in seconds. It takes no memory.
    ///
    /// # Errors
    ///
    /// `Unread` if no response was begun for the slot, whatever it has, and else those of
    /// [`HeldPool::give_back_as`]; then nothing changes.
    #[inline(always)]
    pub fn give_back(&mut self, slot: Slot, now: u64) -> Result<(), SlotError>
        ensures ok { OnOk result (GivesBackRead self.old self.new slot now) }
        ensures err { IfErr result (λ fault. read_fault self.old slot ≡ Some fault) }
        ensures same { OnErr result (self.new ≡ self.old) }
        ensures rest { HasSameRest self.old self.new }
    {
        let Some(facts) = self.readers.facts(slot) else {
            return Err(SlotError::Unread);
        };
        self.give_back_as(slot, facts, now)
    }
}
