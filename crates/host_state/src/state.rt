ghost use Rattle.std.specs.Prelude.{◌≡◌, ℕ, ◌+◌, ◌-◌, ◌*◌, ◌<◌, ◌≤◌, [], true, false, ◌&&◌, ◌==◌};
ghost use Rattle.std.specs.Prelude.{length, Some, None, IfOk, IfErr, OnOk, OnErr, IfSome, IfNone};
ghost use Rattle.std.specs.Prelude.{OnSome, is_some, if◌then◌else◌, take, drop, reverse};
ghost use Rattle.std.specs.VecDeque.{deque_capacity};
ghost use Rattle.persistence.specs.declared.facts.Facts.{Facts};
ghost use Rattle.persistence.specs.Persistent.{is_persistent};
ghost use Rattle.conn_log.specs.declared.entry.Entry.{Entry};
ghost use Rattle.conn_log.specs.declared.log.LogFault.TheVariants.{Memory, Exhausted};
ghost use Rattle.conn_log.specs.declared.entry.Event.TheVariants.{Opened, Closed, Waited, Left};
ghost use Rattle.conn_log.specs.declared.entry.Event.TheVariants.{Returned as CameBack};
ghost use Rattle.conn_log.specs.Connections.{last_moment, held_number, is_idle};
ghost use Rattle.conn_log.specs.Connections.{open_connections, idle_connections, holds, is_held_by};
ghost use Rattle.conn_log.specs.Waiting.{waiting, waits};
ghost use Rattle.conn_log.specs.Fit.{newest_fit, oldest_too_old, oldest_stamp};
ghost use Rattle.conn_log.specs.Sound.{IsSound, IsNext, is_of_holder, is_of_idle};
ghost use Rattle.host_state.specs.Steps.{add, next_number, picked};
ghost use Rattle.host_state.specs.Steps.{is_full, is_exhausted, moment_at, close_each};
ghost use Rattle.conn_log.specs.Bases.{is_too_long_to_cut};
ghost use Rattle.host_state.specs.Idle.{stream_of, numbers};
ghost use Rattle.host_state.specs.Queue.{waiting_want};
ghost use Rattle.host_state.specs.State.{HostState, IsSameHost, ClosesNext, SetsLimit};
ghost use Rattle.host_state.specs.State.{open_len, idle_len, limit_of};
ghost use Rattle.host_state.specs.State.{ClosesFirst, LeasesNewest, WaitsFirst, IsHeldAs};
ghost use Rattle.host_state.specs.State.{IsFreeOf, OpensOnly, IsNewState, HasRoomToSpend};
ghost use Rattle.host_state.specs.State.{ComesBack, ComesBackToClose, idle_since, stays_open};
ghost use Rattle.host_state.specs.State.{WouldStay, ComesBackUnkept};
ghost use Rattle.host_state.specs.Returning.{OnHeld, IfIdle, OnEnded, IfUnkept, IfStrange};
ghost use Rattle.host_state.specs.State.{booked_after_start};
ghost use Rattle.conn_log.specs.Legal.{IsAnyone, limit_in_force, ending_cause};
ghost use Rattle.conn_log.specs.declared.entry.Want.{Want};
ghost use Rattle.conn_log.specs.declared.entry.Cause.TheVariants.{HostRoom};

use crate::closing::{Closing, cause_of, first_picked};
use crate::held::{Held, enter, enter_if_free, take_out, take_out_number};
use crate::idle::{
    Idle, first_too_old, is_any_too_old, newest_if_suiting, newest_suiting, place_for, put_in,
    take_from, take_last,
};
use crate::queue::{Queue, start_next};
use crate::returned::Returned;
use conn_log::{Cause, Entry, Event, Log, LogFault, Stamp, Want};
use persistence::{Facts, persists};
use std::alloc::Global;
use std::collections::{HashMap, VecDeque};
use std::marker::Model;

/// How many entries a lease and its end may add.
const ENTRIES_OF_A_LEASE: usize = 2;

/// How many entries an acquire may add, with those of the end of its wait and of its lease.
const ENTRIES_OF_AN_ACQUIRE: usize = 4;

/// How many entries the end of a wait may add, with those of the end of its lease.
const ENTRIES_OF_A_WAIT: usize = 3;

/// How many entries a changed limit adds beside those of its closings.
const ENTRIES_OF_A_LIMIT: usize = 1;

/// The state of one host, which replays its log. Each step adds the entries that it is named for.
#[derive(Drop)]
pub struct State<S: Drop> {
    host_limit: u32,
    limit: u32,
    host: u32,
    first: u32,
    greatest: u32,
    booked: u32,
    has_limit_room: bool,
    log: Log,
    idle: VecDeque<Idle<S>>,
    held: HashMap<u64, Held>,
    queue: Queue,
}

impl<S: Drop> Model for State<S> {
    ghost use Rattle.std.specs.Prelude.{◌≡◌, ℕ, ◌+◌, ◌≤◌, nat_eq, length};
    ghost use Rattle.std.specs.HashMap.{get, hash_map_len, spare};
    ghost use Rattle.std.specs.VecDeque.{deque_len, deque_capacity};
    ghost use Rattle.conn_log.specs.Waiting.{waiting};
    ghost use Rattle.conn_log.specs.Legal.{limit_in_force};
    ghost use Rattle.host_state.specs.Steps.{last_number};
    ghost use Rattle.host_state.specs.State.{HostState, Replays, HasRoom};
    ghost use Rattle.host_state.specs.Idle.{streams_of};

    ghost Value = { HostState S };

    ghost view = { λ state. record {
      log = state.log.entries;
      cut_away = state.log.cut_away;
      settings = record { limit = state.host_limit; first = state.first };
      host = state.host;
      streams = streams_of state.idle.items;
      booked = state.booked;
      has_limit_room = state.has_limit_room;
    } };

    ghost invariant = { λ state. record {
      replays :
          Replays (record { limit = state.host_limit; first = state.first })
          state.log.entries state.greatest
          state.idle.items (get nat_eq state.held) (hash_map_len state.held);
      limit :
          state.limit ≡ limit_in_force (record { limit = state.host_limit; first = state.first })
          state.log.entries;
      queue : state.queue.wants ≡ waiting state.log.entries;
      numbers : state.greatest + (length state.queue.wants + state.booked) ≤ last_number;
      room :
          let held_len = hash_map_len state.held in
          let waiting_len = length state.queue.wants in
          let idle_capacity = deque_capacity state.idle in
          HasRoom state.has_limit_room state.booked (deque_len state.idle) held_len waiting_len
          state.log.room idle_capacity (spare state.held) state.queue.room;
    } };
}

impl<S: Drop> State<S> {
    /// A host without connections.
    pub fn new(alloc: Global, host_limit: u32, host: u32, first: u32) -> Result<Self, LogFault>
        ensures { IfOk result (IsNewState host_limit host first) }
    {
        Ok(State {
            host_limit,
            limit: host_limit,
            host,
            first,
            greatest: first.saturating_sub(1),
            booked: 0,
            has_limit_room: false,
            log: Log::new(alloc)?,
            idle: VecDeque::new(alloc),
            held: HashMap::new(alloc),
            queue: Queue::new(alloc),
        })
    }

    /// The host's index.
    pub fn host(&self) -> u32
        ensures { result ≡ self.now.host }
    {
        self.host
    }

    /// The host's log, which is sound.
    pub fn log(&self) -> &Log
        ensures entries { result.now.entries ≡ self.now.log }
        ensures cut_away { result.now.cut_away ≡ self.now.cut_away }
        ensures sound { IsSound self.now.settings self.now.log }
        ensures room { HasRoomToSpend self.now.booked self.now.log result.now.room }
        ensures streams { (c : ℕ) →
            is_some (stream_of self.now.streams c) ≡ is_idle self.now.log c }
    {
        &self.log
    }

    /// How many connections are idle.
    pub fn idle_len(&self) -> u32
        ensures { result ≡ length (idle_connections self.now.log) }
    {
        let _limit = self.limit;
        self.idle.len() as u32
    }

    /// How many connections are open.
    pub fn open_len(&self) -> u32
        ensures { result ≡ length (open_connections self.now.log) }
    {
        let _limit = self.limit;
        (self.idle.len() + self.held.len()) as u32
    }

    /// How many connections a transfer holds.
    pub fn held_len(&self) -> u32
        ensures { let log = self.now.log in
            result ≡ length (open_connections log) - length (idle_connections log) }
    {
        let _limit = self.limit;
        self.held.len() as u32
    }

    /// The most connections that may be open.
    pub fn limit(&self) -> u32
        ensures { result ≡ limit_of self.now }
    {
        self.limit
    }

    /// Whether as many connections are open as the host may have.
    pub fn is_full(&self) -> bool
        ensures { result ≡ is_full self.now.settings self.now.log }
    {
        self.open_len() == self.limit
    }

    /// Whether the connection numbers that are left are those that the waiting transfers and the
    /// acquires halfway may need.
    pub fn is_exhausted(&self) -> bool
        ensures { result ≡ is_exhausted self.now.settings self.now.log self.now.booked }
    {
        u32::MAX - self.greatest <= self.queue.len() as u32 + self.booked
    }

    /// How many transfers wait.
    pub fn waiting_len(&self) -> u32
        ensures { result ≡ length (waiting self.now.log) }
    {
        self.queue.len() as u32
    }

    /// Whether a transfer waits.
    pub fn anyone_waits(&self) -> bool
        ensures yes { result ≡ true → IsAnyone (waiting self.now.log) }
        ensures no { result ≡ false → waiting self.now.log ≡ [] }
    {
        !self.queue.is_empty()
    }

    /// What the first transfer that waits wants.
    pub fn first_waiting(&self) -> Option<Want>
        ensures none { IfNone result (waiting self.now.log ≡ []) }
        ensures some { IfSome result (λ want. WaitsFirst self.now.log want) }
    {
        self.queue.first()
    }

    /// What that transfer wants, if it waits.
    pub fn waiting_want(&self, transfer: u64) -> Option<Want>
        ensures { result ≡ waiting_want (waiting self.now.log) transfer }
    {
        self.queue.want_of(transfer)
    }

    /// Whether that transfer waits.
    #[inline(always)]
    pub fn waits(&self, transfer: u64) -> bool
        ensures { result ≡ waits self.now.log transfer }
    {
        self.queue.want_of(transfer).is_some()
    }

    /// Whether the transfer holds a connection.
    #[inline(always)]
    pub fn holds(&self, transfer: u64) -> bool
        ensures holds { result ≡ holds self.now.log transfer }
        ensures number { result ≡ is_some (held_number self.now.log transfer) }
    {
        self.held.contains_key(&transfer)
    }

    /// What is kept of that connection, where that transfer holds it.
    #[inline(always)]
    pub fn held(&self, transfer: u64, number: u32) -> Option<Held>
        ensures none { IfNone result (is_held_by self.now.log transfer number ≡ false) }
        ensures number { IfSome result (λ held. held.number ≡ number) }
        ensures some { IfSome result (λ held. IsHeldAs self.now transfer held) }
        ensures known { OnSome result (is_held_by self.now.log transfer number ≡ true) }
    {
        match self.held.get(&transfer) {
            Some(held) if held.number == number => Some(*held),
            _ => None,
        }
    }

    /// The moment of an event that is to be added: the greater of `now` and the last one.
    #[inline(always)]
    pub fn moment(&self, now: u64) -> u64
        ensures { result ≡ moment_at self.now.log now }
    {
        now.max(self.log.last_moment())
    }

    /// The stamp of the connection that is idle for the longest.
    pub fn oldest(&self) -> Option<Stamp>
        ensures { result ≡ oldest_stamp self.now.log self.now.host }
    {
        let oldest = self.idle.front()?;
        Some(Stamp {
            since: oldest.since,
            host: self.host,
            number: oldest.number,
        })
    }

    /// Makes room for all that one more acquire, the end of its wait and the end of its lease will
    /// add.
    #[inline(always)]
    pub fn book(&mut self) -> Result<(), LogFault>
        requires { is_exhausted self.old.settings self.old.log self.old.booked ≡ false }
        ensures ok { OnOk result (self.new ≡ record self.old { booked = self.old.booked + 1 }) }
        ensures err { OnErr result (self.new ≡ self.old) }
    {
        let held = self.held.len();
        let waiting = self.queue.len();
        let open = self.idle.len() + held;
        let booked = self.booked as usize + 1;
        let entries = ENTRIES_OF_AN_ACQUIRE * booked + ENTRIES_OF_A_WAIT * waiting + open + held;
        self.log.reserve(ENTRIES_OF_A_LIMIT + entries)?;
        self.idle.reserve(held + waiting + booked)?;
        self.queue.reserve(booked)?;
        self.held.reserve(waiting + booked)?;
        self.booked += 1;
        Ok(())
    }

    /// Leases the connection that came back last to the transfer, where nothing else has to be
    /// done: the transfer holds nothing, nobody waits, numbers are left, nothing that is idle is
    /// too old, and that connection fits. It may always decline, as where memory runs out; then
    /// nothing has changed.
    #[inline(always)]
    pub fn lease_last(&mut self, want: &Want, moment: u64) -> Option<(u32, S)>
        requires none { self.old.booked ≡ 0 }
        requires later { last_moment self.old.log ≤ moment }
        ensures none { IfNone result (self.new ≡ self.old) }
        ensures free { OnSome result (held_number self.old.log want.now.transfer ≡ None) }
        ensures alone { OnSome result (waiting self.old.log ≡ []) }
        ensures number { let booked = self.old.booked in
            OnSome result (is_exhausted self.old.settings self.old.log booked ≡ false) }
        ensures none_too_old { OnSome result (oldest_too_old self.old.log want.now moment ≡ None) }
        ensures some { IfSome result
            (λ leased. LeasesNewest self.old self.new want.now moment leased.0 leased.1) }
    {
        if !self.queue.is_empty() || self.is_exhausted() {
            return None;
        }
        let last = newest_if_suiting(&self.idle, want, moment)?;
        if is_any_too_old(&self.idle, want, moment) {
            return None;
        }
        let held = Held {
            number: last.number,
            lane: last.lane,
            born: last.born,
            forbids_reuse: want.forbid_reuse,
        };
        let entries = ENTRIES_OF_A_LIMIT
            + ENTRIES_OF_A_LEASE
            + self.idle.len()
            + 2 * self.held.len();
        let Ok(()) = self.log.reserve(entries) else {
            return None;
        };
        if !enter_if_free(&mut self.held, want.transfer, held) {
            return None;
        }
        let Idle { number, stream, .. } = take_last(&mut self.idle);
        self.log.append(Entry {
            moment,
            event: Event::Leased {
                connection: number,
                want: *want,
            },
        });
        Some((number, stream))
    }

    /// Leases the newest fit connection to the transfer, if there is one. The transfer is the first
    /// that waits; where nobody waits, any that holds nothing, for which room was made.
    #[inline(always)]
    pub fn lease_newest_fit(&mut self, want: &Want, moment: u64) -> Option<(u32, S)>
        requires next { IsNext self.old.log want.now }
        requires booked { waiting self.old.log ≡ [] → 0 < self.old.booked }
        requires later { last_moment self.old.log ≤ moment }
        ensures none { let fit = newest_fit self.old.log want.now moment in
            IfNone result ((fit ≡ None) × (self.new ≡ self.old)) }
        ensures some { IfSome result
            (λ leased. LeasesNewest self.old self.new want.now moment leased.0 leased.1) }
    {
        let place = newest_suiting(&self.idle, want, moment)?;
        let Idle {
            number,
            lane,
            born,
            since: _,
            stream,
        } = take_from(&mut self.idle, place);
        start_next(&mut self.queue, &mut self.booked);
        self.log.append(Entry {
            moment,
            event: Event::Leased {
                connection: number,
                want: *want,
            },
        });
        let held = Held {
            number,
            lane,
            born,
            forbids_reuse: want.forbid_reuse,
        };
        enter(&mut self.held, want.transfer, held);
        Some((number, stream))
    }

    /// Closes the first of the connections that the closing picks, if it picks one.
    #[inline(always)]
    pub fn close_next(&mut self, closing: &Closing, moment: u64) -> bool
        requires { last_moment self.old.log ≤ moment }
        ensures none { result ≡ false →
            (picked closing.now moment self.old.log ≡ []) × (self.new ≡ self.old) }
        ensures some { result ≡ true → ClosesNext closing.now moment self.old self.new }
    {
        let open_len = self.open_len();
        let Some(place) = first_picked(&self.idle, closing, open_len, moment) else {
            return false;
        };
        let picked = take_from(&mut self.idle, place);
        self.log.append(Entry {
            moment,
            event: Event::Closed {
                connection: picked.number,
                cause: cause_of(closing),
            },
        });
        true
    }

    /// Cuts the log: hands out the entries since the last cut, oldest first. All else stays, as does
    /// the room for what is to come.
    ///
    /// The fault is [`LogFault::Exhausted`] if more than 9,223,372,036,854,775,807 entries would be
    /// cut away, else [`LogFault::Memory`]; then nothing has changed.
    pub fn cut(&mut self) -> Result<Vec<Entry>, LogFault>
        ensures part { IfOk result (λ part.
            part.items ≡ drop self.old.cut_away (reverse self.old.log)) }
        ensures ok { OnOk result (self.new ≡ record self.old { cut_away = length self.old.log }) }
        ensures not_exhausted { OnOk result (is_too_long_to_cut self.old.log ≡ false) }
        ensures fault { IfErr result (λ fault.
            fault ≡ (if is_too_long_to_cut self.old.log then Exhausted else Memory)) }
        ensures err { OnErr result (self.new ≡ self.old) }
    {
        self.log.cut()
    }

    /// Makes room for the entry of a changed limit. Where memory runs out nothing has changed.
    pub fn reserve_for_limit(&mut self) -> Result<(), LogFault>
        ensures ok { OnOk result (self.new ≡ record self.old { has_limit_room = true }) }
        ensures err { OnErr result (self.new ≡ self.old) }
    {
        let acquires = ENTRIES_OF_AN_ACQUIRE * self.booked as usize;
        let waits = ENTRIES_OF_A_WAIT * self.queue.len();
        let entries = acquires + waits + self.idle.len() + 2 * self.held.len();
        self.log.reserve(ENTRIES_OF_A_LIMIT + entries)?;
        self.has_limit_room = true;
        Ok(())
    }

    /// Changes the most connections that may be open, for which room was made. Where more are, it
    /// first closes so many of those that are idle for the longest; it answers how many.
    pub fn set_limit(&mut self, limit: u32, moment: u64) -> u32
        requires room { self.old.has_limit_room ≡ true }
        requires held { open_len self.old ≤ idle_len self.old + limit }
        requires later { last_moment self.old.log ≤ moment }
        ensures { SetsLimit limit moment result self.old self.new }
    {
        let open_len = self.open_len();
        let above = open_len.saturating_sub(limit);
        close_oldest_of(&mut self.idle, &mut self.log, above, moment);
        self.limit = limit;
        self.has_limit_room = false;
        self.log.append(Entry {
            moment,
            event: Event::Limit { limit },
        });
        above
    }

    /// Closes the connection that is idle for the longest.
    pub fn close_oldest(&mut self, cause: Cause, moment: u64)
        requires some { 0 < length (idle_connections self.old.log) }
        requires cause { is_of_idle cause ≡ true }
        requires later { last_moment self.old.log ≤ moment }
        ensures { ClosesFirst cause moment self.old self.new }
    {
        let oldest = take_from(&mut self.idle, 0);
        self.log.append(Entry {
            moment,
            event: Event::Closed {
                connection: oldest.number,
                cause,
            },
        });
    }

    /// Opens a connection for the transfer, and answers its number. The transfer is the first that
    /// waits; where nobody waits, any that holds nothing, for which room was made.
    pub fn open(&mut self, want: &Want, moment: u64) -> u32
        requires next { IsNext self.old.log want.now }
        requires booked { waiting self.old.log ≡ [] → 0 < self.old.booked }
        requires later { last_moment self.old.log ≤ moment }
        requires room { is_full self.old.settings self.old.log ≡ false }
        ensures number { result ≡ next_number self.old.settings self.old.log }
        ensures log { self.new.log ≡ add moment (Opened result want.now) self.old.log }
        ensures opened { OpensOnly result self.old.log self.new.log }
        ensures streams { self.new.streams ≡ self.old.streams }
        ensures more_open { open_len self.new ≡ open_len self.old + 1 }
        ensures as_many_idle { idle_len self.new ≡ idle_len self.old }
        ensures limit { limit_of self.new ≡ limit_of self.old }
        ensures booked { let wants = waiting self.old.log in
            self.new.booked ≡ booked_after_start wants self.old.booked }
        ensures same { IsSameHost self.old self.new }
    {
        start_next(&mut self.queue, &mut self.booked);
        self.greatest += 1;
        let number = self.greatest;
        self.log.append(Entry {
            moment,
            event: Event::Opened {
                connection: number,
                want: *want,
            },
        });
        let held = Held {
            number,
            lane: want.lane,
            born: moment,
            forbids_reuse: want.forbid_reuse,
        };
        enter(&mut self.held, want.transfer, held);
        number
    }

    /// The transfer waits after all others, for which room was made.
    pub fn wait(&mut self, want: Want, moment: u64)
        requires booked { 0 < self.old.booked }
        requires later { last_moment self.old.log ≤ moment }
        requires free { held_number self.old.log want.transfer ≡ None }
        requires once { waits self.old.log want.transfer ≡ false }
        requires none_idle { idle_connections self.old.log ≡ [] }
        ensures log { self.new.log ≡ add moment (Waited want) self.old.log }
        ensures streams { self.new.streams ≡ self.old.streams }
        ensures as_many_open { open_len self.new ≡ open_len self.old }
        ensures as_many_idle { idle_len self.new ≡ idle_len self.old }
        ensures limit { limit_of self.new ≡ limit_of self.old }
        ensures booked { self.new.booked + 1 ≡ self.old.booked }
        ensures same { IsSameHost self.old self.new }
    {
        self.booked -= 1;
        self.queue.push(want);
        self.log.append(Entry {
            moment,
            event: Event::Waited { want },
        });
    }

    /// A transfer that waits is withdrawn.
    pub fn leave(&mut self, transfer: u64, moment: u64)
        requires waits { waits self.old.log transfer ≡ true }
        requires later { last_moment self.old.log ≤ moment }
        ensures log { self.new.log ≡ add moment (Left transfer) self.old.log }
        ensures streams { self.new.streams ≡ self.old.streams }
        ensures as_many_open { open_len self.new ≡ open_len self.old }
        ensures as_many_idle { idle_len self.new ≡ idle_len self.old }
        ensures limit { limit_of self.new ≡ limit_of self.old }
        ensures booked { self.new.booked ≡ self.old.booked }
        ensures same { IsSameHost self.old self.new }
    {
        self.queue.take_out(transfer);
        self.log.append(Entry {
            moment,
            event: Event::Left { transfer },
        });
    }

    /// The transfer gives a connection back after a response. Where it stays open and may be kept
    /// it is idle from then on, with its stream, and what was kept of it is answered; where its use
    /// ends it is closed, and its stream dropped. Where it would stay open but may not be kept, and
    /// where the transfer does not hold it, the stream comes back, and nothing has changed.
    #[inline(always)]
    pub fn give_back(
        &mut self,
        transfer: u64,
        number: u32,
        facts: Facts,
        stream: S,
        moment: u64,
        may_keep: bool,
    ) -> Returned<S>
        requires { last_moment self.old.log ≤ moment }
        ensures known { OnHeld result (is_held_by self.old.log transfer number ≡ true) }
        ensures number { IfIdle result (λ held. held.number ≡ number) }
        ensures kept { IfIdle result (λ held. may_keep ≡ true) }
        ensures idle { IfIdle result (λ held.
            ComesBack self.old self.new transfer held facts stream moment) }
        ensures closed { OnEnded result
            (ComesBackToClose self.old self.new transfer number facts moment) }
        ensures unkept { IfUnkept result (λ back. (may_keep ≡ false) ×
            WouldStay self.old transfer number facts) }
        ensures unkept_same { IfUnkept result (λ back.
            (back ≡ stream) × (self.new ≡ self.old)) }
        ensures strange { IfStrange result (λ back.
            is_held_by self.old.log transfer number ≡ false) }
        ensures strange_same { IfStrange result (λ back.
            (back ≡ stream) × (self.new ≡ self.old)) }
    {
        let persists = persists(&facts);
        if !may_keep && self.would_stay(transfer, number, persists) {
            return Returned::Unkept(stream);
        }
        let more = self.booked as usize + self.queue.len();
        let Some(held) = take_out_number(&mut self.held, transfer, number, more) else {
            return Returned::Strange(stream);
        };
        append_return(&mut self.log, moment, held.number, facts);
        if !stays_open(persists, &held) {
            self.log.append(Entry {
                moment,
                event: Event::Closed {
                    connection: held.number,
                    cause: ending_cause(&facts, held.forbids_reuse),
                },
            });
            return Returned::Ended;
        }
        let place = place_for(&self.idle, moment, held.number);
        put_in(&mut self.idle, place, idle_since(&held, moment, stream));
        Returned::Idle(held)
    }

    // Whether the transfer holds that connection, and it would stay open after that response. It is
    // told whether the response persists: facts that were lent would have to stand in memory.
    fn would_stay(&self, transfer: u64, number: u32, persists: bool) -> bool
        ensures yes { (facts : Facts) → is_persistent facts ≡ persists →
            result ≡ true → WouldStay self.now transfer number facts }
        ensures no { (facts : Facts) → is_persistent facts ≡ persists →
            result ≡ false → WouldStay self.now transfer number facts → ⊥ }
    {
        let _limit = self.limit;
        match self.held(transfer, number) {
            Some(held) => stays_open(persists, &held),
            None => false,
        }
    }

    /// The transfer gives a connection back after a response that would let it stay open, and it is
    /// closed at once, since the cache is full. Its stream is dropped.
    pub fn give_back_to_close(
        &mut self,
        transfer: u64,
        number: u32,
        facts: Facts,
        stream: S,
        moment: u64,
    )
        requires stays { WouldStay self.old transfer number facts }
        requires later { last_moment self.old.log ≤ moment }
        ensures { ComesBackUnkept self.old self.new transfer number facts moment }
    {
        drop(stream);
        take_out(&mut self.held, transfer);
        append_return(&mut self.log, moment, number, facts);
        self.log.append(Entry {
            moment,
            event: Event::Closed {
                connection: number,
                cause: Cause::CacheFull,
            },
        });
    }

    /// The connection is closed without a response.
    pub fn close_held(&mut self, transfer: u64, held: Held, cause: Cause, moment: u64)
        requires held { IsHeldAs self.old transfer held }
        requires cause { is_of_holder cause ≡ true }
        requires later { last_moment self.old.log ≤ moment }
        ensures log { self.new.log ≡ add moment (Closed held.number cause) self.old.log }
        ensures holders { IsFreeOf self.old.log self.new.log transfer }
        ensures streams { self.new.streams ≡ self.old.streams }
        ensures fewer_open { open_len self.old ≡ open_len self.new + 1 }
        ensures as_many_idle { idle_len self.new ≡ idle_len self.old }
        ensures limit { limit_of self.new ≡ limit_of self.old }
        ensures booked { self.new.booked ≡ self.old.booked }
        ensures same { IsSameHost self.old self.new }
    {
        take_out(&mut self.held, transfer);
        self.log.append(Entry {
            moment,
            event: Event::Closed {
                connection: held.number,
                cause,
            },
        });
    }
}

// Closes so many of the connections that are idle for the longest, to make room at their host.
fn close_oldest_of<S: Drop>(idle: &mut VecDeque<Idle<S>>, log: &mut Log, count: u32, moment: u64)
    requires later { last_moment log.old.entries ≤ moment }
    requires idle { count ≤ length idle.old.items }
    requires room { count ≤ log.old.room }
    ensures items { idle.new.items ≡ drop count idle.old.items }
    ensures capacity { deque_capacity idle.new ≡ deque_capacity idle.old }
    ensures entries { let closed = take count (numbers idle.old.items) in
        log.new.entries ≡ close_each HostRoom moment closed log.old.entries }
    ensures cut_away { log.new.cut_away ≡ log.old.cut_away }
    ensures room { log.old.room ≤ log.new.room + count }
{
    let mut left = count;
    while left > 0 {
        left -= 1;
        let oldest = take_from(idle, 0);
        log.append(Entry {
            moment,
            event: Event::Closed {
                connection: oldest.number,
                cause: Cause::HostRoom,
            },
        });
    }
}

// Why a connection is closed after a response that ends its use.
fn ending_cause(facts: &Facts, forbids_reuse: bool) -> Cause
    ensures { (want : Want) →
        want.forbid_reuse ≡ forbids_reuse → result ≡ ending_cause facts.now want }
{
    if !facts.whole {
        Cause::Cut
    } else if forbids_reuse {
        Cause::Forbidden
    } else {
        Cause::NotPersistent
    }
}

// Adds the entry of a connection that came back. It is made right where it is added: made earlier
// it would be moved with its padding.
#[inline(always)]
fn append_return(log: &mut Log, moment: u64, connection: u32, facts: Facts)
    requires room { 0 < log.old.room }
    requires moment { last_moment log.old.entries ≤ moment }
    ensures entries { log.new.entries ≡ add moment (CameBack connection facts) log.old.entries }
    ensures cut_away { log.new.cut_away ≡ log.old.cut_away }
    ensures room { log.new.room + 1 ≡ log.old.room }
{
    let event = Event::Returned { connection, facts };
    log.append(Entry { moment, event });
}

// Whether a connection stays open after a response, by whether that persists.
#[inline(always)]
fn stays_open(persists: bool, held: &Held) -> bool
    ensures { (facts : Facts) → is_persistent facts ≡ persists →
        result ≡ stays_open facts held.now }
{
    persists && !held.forbids_reuse
}

// What is kept of a connection that came back at that moment.
#[inline(always)]
fn idle_since<S>(held: &Held, moment: u64, stream: S) -> Idle<S>
    ensures { result ≡ idle_since held.now moment stream }
{
    Idle {
        number: held.number,
        lane: held.lane,
        born: held.born,
        since: moment,
        stream,
    }
}
