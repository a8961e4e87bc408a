ghost use Rattle.std.specs.Prelude.{◌≡◌, ◌<◌, ◌≤◌, ℕ, true, false, IfNone, IfSome};

/// The places of a cache, of which some are in use: a connection is open there, or a transfer
/// waits.
pub trait Places {
    ghost use Rattle.std.specs.Prelude.{ℕ, Bool};

    /// Whether a place is unused.
    ghost unused: { Self → ℕ → Bool };

    /// Whether no connection is open at this place, and no transfer waits there.
    fn is_unused(&self, place: u32) -> bool
        ensures { result ≡ unused self.now place };
}

/// The first unused place of these.
fn first_unused<P: Places>(cache: &P, from: u32, end: u32) -> Option<u32>
    ensures some { IfSome result (λ place. place < end) }
    ensures unused { IfSome result (λ place. P.unused cache.now place ≡ true) }
    ensures none { IfNone result ((place : ℕ) → from ≤ place → place < end
        → P.unused cache.now place ≡ false) }
{
    for place in from..end {
        if cache.is_unused(place) {
            return Some(place);
        }
    }
    None
}

/// The first unused place from `from` on, or else the first one before it, of so many places.
pub(crate) fn next_unused<P: Places>(cache: &P, from: u32, places: u32) -> Option<u32>
    requires { from ≤ places }
    ensures some { IfSome result (λ place. place < places) }
    ensures unused { IfSome result (λ place. P.unused cache.now place ≡ true) }
    ensures none { IfNone result ((place : ℕ) → place < places → P.unused cache.now place ≡ false) }
{
    if let Some(place) = first_unused(cache, from, places) {
        return Some(place);
    }
    first_unused(cache, 0, from)
}
