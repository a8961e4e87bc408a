//! The connections that a dial has begun, by the transfer for which it did.

ghost use Rattle.std.specs.Prelude.{◌≡◌, ◌≢◌, ℕ, true, false};
ghost use Rattle.socket.specs.Pending.{IsPending};

use crate::dialled_socket::DialledSocket;
use exchange::Reason;
use std::collections::HashMap;

/// A connection that is not open yet, to one of the addresses of its host.
#[derive(Drop)]
pub(crate) struct Attempt {
    pub(crate) socket: DialledSocket,
    /// The place of the address that is tried after this one.
    pub(crate) next: usize,
    /// Why the addresses before it failed, if any did and the system said why.
    pub(crate) reason: Option<Reason>,
}

/// Takes out the connection that was begun for a transfer, if there is one.
pub(crate) fn take(pending: &mut HashMap<u64, Attempt>, transfer: u64) -> Option<Attempt>
    ensures own { IsPending pending.new transfer → ⊥ }
    ensures others { (other : ℕ) → IsPending pending.new other → IsPending pending.old other }
    ensures kept { (other : ℕ) → other ≢ transfer →
        IsPending pending.old other → IsPending pending.new other }
{
    pending.remove(&transfer)
}

/// Keeps a connection that was begun for a transfer; whether there is memory for it. Else it is
/// closed.
pub(crate) fn keep(pending: &mut HashMap<u64, Attempt>, transfer: u64, attempt: Attempt) -> bool
    ensures others { (other : ℕ) → other ≢ transfer →
        IsPending pending.new other → IsPending pending.old other }
    ensures kept { (other : ℕ) → IsPending pending.old other → IsPending pending.new other }
    ensures own { result ≡ true → IsPending pending.new transfer }
    ensures closed { result ≡ false → (other : ℕ) →
        IsPending pending.new other → IsPending pending.old other }
{
    pending.insert(transfer, attempt).is_ok()
}
