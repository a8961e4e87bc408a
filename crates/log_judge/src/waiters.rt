ghost use Rattle.std.specs.Prelude.{◌≡◌, ◌++◌, ◌==◌, [], ◌∷◌, length, slice_get, false};
ghost use Rattle.std.specs.Prelude.{IfOk, OnOk, OnErr};
ghost use Rattle.std.specs.List.{list_any};
ghost use Rattle.conn_log.specs.declared.entry.Want.{Want};
ghost use Rattle.conn_log.specs.Waiting.{without};
ghost use Rattle.log_judge.specs.Waiters.{is_among_waiters};

use conn_log::Want;
use lru::LruCache;
use std::alloc::{AllocError, Global};
use std::marker::Model;

/// The transfers that wait, first come first. Each step takes expected constant time, whoever
/// leaves.
#[derive(Drop)]
pub(crate) struct Waiters {
    // No entry is ever used again, so that the least recently used one is the first waiter.
    by_transfer: LruCache<u64, Want>,
}

impl Model for Waiters {
    ghost use Rattle.std.specs.Prelude.{◌≡◌, ◌^◌, ◌-◌, reverse, List};
    ghost use Rattle.std.specs.Map.{values_of};
    ghost use Rattle.conn_log.specs.declared.entry.Want.{Want};
    ghost use Rattle.conn_log.specs.Sound.{WaitOnce};
    ghost use Rattle.log_judge.specs.Waiters.{AreKeyed};

    ghost Value = { List Want };

    ghost view = { λ waiters. reverse (values_of waiters.by_transfer.entries) };

    ghost invariant = { λ waiters. record {
      keyed : AreKeyed waiters.by_transfer.entries;
      once : WaitOnce (values_of waiters.by_transfer.entries);
      cap : waiters.by_transfer.cap ≡ 2 ^ 64 - 1;
    } };
}

impl Waiters {
    /// Nobody waits.
    pub(crate) fn new(alloc: Global) -> Result<Waiters, AllocError>
        ensures { IfOk result (λ waiters. waiters ≡ []) }
    {
        let by_transfer = LruCache::unbounded(alloc)?;
        Ok(Waiters { by_transfer })
    }

    /// How many transfers wait.
    pub(crate) fn len(&self) -> usize
        ensures { result ≡ length self.now }
    {
        self.by_transfer.len()
    }

    /// What the first one wants.
    pub(crate) fn first(&self) -> Option<Want>
        ensures { result ≡ slice_get self.now 0 }
    {
        match self.by_transfer.peek_lru() {
            Some((_, want)) => Some(*want),
            None => None,
        }
    }

    /// Whether that transfer waits.
    pub(crate) fn contains(&self, transfer: u64) -> bool
        ensures { result ≡ is_among_waiters self.now transfer }
    {
        self.by_transfer.contains(&transfer)
    }

    /// A transfer that does not wait yet comes last.
    pub(crate) fn push(&mut self, want: Want) -> Result<(), AllocError>
        requires { is_among_waiters self.old want.transfer ≡ false }
        ensures ok { OnOk result (self.new ≡ self.old ++ want ∷ []) }
        ensures err { OnErr result (self.new ≡ self.old) }
    {
        let _few = self.by_transfer.len();
        let _ = self.by_transfer.put(want.transfer, want)?;
        Ok(())
    }

    /// That transfer, if it waits, waits no more.
    pub(crate) fn take_out(&mut self, transfer: u64)
        ensures { self.new ≡ without transfer self.old }
    {
        let _ = self.by_transfer.pop(&transfer);
    }
}
