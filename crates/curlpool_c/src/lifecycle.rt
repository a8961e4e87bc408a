//! Opens and closes a pool.

ghost use Rattle.std.specs.Prelude.{◌≡◌, [], true, false, None, IfErr, IfOk, IfSome};
ghost use Rattle.curlpool_c.specs.Lifecycle.{EndsAll, IsNewInner, IsOpenFault, KeepsTokens};

use crate::inner::{Inner, nothing_told};
use crate::status::{BAD_LIMIT, CLOSED, NO_MEMORY, OK};
use budget::{Limits, Refusal};
use bundle::MOST_HOSTS;
use held_pool::HeldPool;
use std::alloc::Global;

// Opens a pool, or gives the status that says why not.
pub(crate) fn opened(
    alloc: Global,
    hosts: u32,
    host_limit: u32,
    total: u32,
    connects: u32,
) -> Result<Box<Inner>, u32>
    ensures ok { IfOk result (λ inner.
        IsNewInner hosts host_limit total connects inner.value) }
    ensures err { IfErr result (IsOpenFault hosts host_limit total connects) }
{
    let Ok(limits) = Limits::new(host_limit, total, connects) else {
        return Err(BAD_LIMIT);
    };
    if hosts > MOST_HOSTS {
        return Err(BAD_LIMIT);
    }
    let Ok(told) = nothing_told(alloc, hosts) else {
        return Err(NO_MEMORY);
    };
    let held = match HeldPool::new(alloc, limits, hosts) {
        Ok(held) => held,
        Err(_) => return Err(NO_MEMORY),
    };
    match Box::new(alloc, Inner::open(held, told)) {
        Ok(inner) => Ok(inner),
        Err(_) => Err(NO_MEMORY),
    }
}

impl Inner {
    // Abandons all leases, withdraws all waiters and closes all idle connections. Only the tokens
    // are left then.
    pub(crate) fn close_all(&mut self, now: u64) -> u32
        ensures { EndsAll self.old self.new now result }
    {
        let Some(held) = self.held.take() else {
            return CLOSED;
        };
        let (pool, tokens) = held.close(now);
        drop(pool);
        self.closing = Some(tokens);
        OK
    }

    // Whether the pool was closed, and all its tokens were told.
    pub(crate) fn is_told(&mut self) -> bool
        ensures ended { result ≡ true → self.old.held ≡ None }
        ensures told { result ≡ true → IfSome self.old.closing (λ tokens. tokens ≡ []) }
        ensures tokens { result ≡ false → KeepsTokens self.old.closing self.new.closing }
        ensures kept { self.new.held ≡ self.old.held }
        ensures rest { self.new.told ≡ self.old.told }
    {
        if self.held.is_some() {
            return false;
        }
        match &mut self.closing {
            Some(tokens) => tokens.is_empty(),
            None => true,
        }
    }
}
