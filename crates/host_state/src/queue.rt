ghost use Rattle.std.specs.Prelude.{◌≡◌, ℕ, ◌+◌, ◌<◌, ◌≤◌, ◌++◌, ◌==◌, List, [], ◌∷◌, length, drop};
ghost use Rattle.std.specs.Prelude.{None, Some, IfNone, IfSome, OnOk};
ghost use Rattle.conn_log.specs.declared.entry.Want.{Want};
ghost use Rattle.conn_log.specs.Waiting.{without};
ghost use Rattle.host_state.specs.Queue.{waiting_want};
ghost use Rattle.host_state.specs.State.{booked_after_start};

use conn_log::Want;
use std::alloc::{AllocError, Global};
use std::collections::{HashMap, VecDeque};
use std::marker::Model;

/// The transfers that wait, first come first, and a table of what each of them wants. A transfer
/// waits once. Beside that, for how many more there is room.
#[derive(Drop)]
pub(crate) struct Queue {
    order: VecDeque<Want>,
    table: HashMap<u64, Want>,
    free: usize,
}

impl Model for Queue {
    ghost use Rattle.std.specs.Prelude.{◌≡◌, ℕ, ◌+◌, ◌≤◌, nat_eq};
    ghost use Rattle.std.specs.HashMap.{get, spare};
    ghost use Rattle.std.specs.VecDeque.{deque_len, deque_capacity};
    ghost use Rattle.conn_log.specs.Sound.{WaitOnce};
    ghost use Rattle.host_state.specs.Queue.{waiting_want, Waiters};

    ghost Value = { Waiters };

    ghost view = { λ queue. record { wants = queue.order.items; room = queue.free } };

    ghost invariant = { λ queue. record {
      once : WaitOnce queue.order.items;
      table : (t : ℕ) → get nat_eq queue.table t ≡ waiting_want queue.order.items t;
      order_room : queue.free + deque_len queue.order ≤ deque_capacity queue.order;
      table_room : queue.free ≤ spare queue.table;
    } };
}

impl Queue {
    /// Nobody waits.
    pub(crate) fn new(alloc: Global) -> Self
        ensures { result.wants ≡ [] }
    {
        Queue {
            order: VecDeque::new(alloc),
            table: HashMap::new(alloc),
            free: 0,
        }
    }

    /// How many transfers wait.
    pub(crate) fn len(&self) -> usize
        ensures { result ≡ length self.now.wants }
    {
        self.order.len()
    }

    /// Whether nobody waits.
    pub(crate) fn is_empty(&self) -> bool
        ensures { result ≡ (length self.now.wants == 0) }
    {
        self.order.is_empty()
    }

    /// What the first one wants.
    pub(crate) fn first(&self) -> Option<Want>
        ensures none { IfNone result (self.now.wants ≡ []) }
        ensures some { IfSome result
            (λ want. (others : List Want) × (self.now.wants ≡ want ∷ others)) }
    {
        self.order.front().copied()
    }

    /// What that transfer wants, if it waits.
    pub(crate) fn want_of(&self, transfer: u64) -> Option<Want>
        ensures { result ≡ waiting_want self.now.wants transfer }
    {
        if self.order.is_empty() {
            return None;
        }
        self.table.get(&transfer).copied()
    }

    /// Makes room for that many more.
    pub(crate) fn reserve(&mut self, additional: usize) -> Result<(), AllocError>
        ensures wants { self.new.wants ≡ self.old.wants }
        ensures ok { OnOk result (additional ≤ self.new.room) }
        ensures never_less { self.old.room ≤ self.new.room }
    {
        if additional > self.free {
            self.order.reserve(additional)?;
            self.table.reserve(additional)?;
            self.free = additional;
        }
        Ok(())
    }

    /// A transfer that does not wait yet comes last, in room made before.
    pub(crate) fn push(&mut self, want: Want)
        requires room { 0 < self.old.room }
        requires new { waiting_want self.old.wants want.transfer ≡ None }
        ensures wants { self.new.wants ≡ self.old.wants ++ want ∷ [] }
        ensures room { self.old.room ≤ self.new.room + 1 }
    {
        self.free -= 1;
        self.order.push_back_reserved(want);
        let earlier: Result<_, _> = self.table.insert(want.transfer, want);
        let _ = earlier.unwrap();
    }

    /// The first one, if one waits, waits no more.
    pub(crate) fn pop(&mut self)
        ensures wants { self.new.wants ≡ drop 1 self.old.wants }
        ensures room { self.old.room ≤ self.new.room }
    {
        if let Some(want) = self.order.pop_front() {
            let _ = self.table.remove(&want.transfer);
        }
    }

    /// That transfer, if it waits, waits no more.
    pub(crate) fn take_out(&mut self, transfer: u64)
        ensures wants { self.new.wants ≡ without transfer self.old.wants }
        ensures room { self.old.room ≤ self.new.room }
    {
        let _ = self.table.remove(&transfer);
        self.order.retain(|want| want.transfer != transfer);
    }
}

/// A transfer that starts is the first one that waits, or where nobody waits one of those that
/// are booked.
#[inline(always)]
pub(crate) fn start_next(queue: &mut Queue, booked: &mut u32)
    requires { queue.old.wants ≡ [] → 0 < booked.old }
    ensures wants { queue.new.wants ≡ drop 1 queue.old.wants }
    ensures room { queue.old.room ≤ queue.new.room }
    ensures booked { booked.new ≡ booked_after_start queue.old.wants booked.old }
{
    if queue.is_empty() {
        *booked -= 1;
        return;
    }
    queue.pop();
}
