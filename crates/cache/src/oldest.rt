ghost use Rattle.std.specs.Prelude.{◌≡◌, IfSome, IfNone};
ghost use Rattle.cache.specs.Oldest.{is_before, IsFirstEarliest, HaveNone};

use conn_log::Stamp;

/// The place of the earliest of these stamps; on a tie the lowest place. `None` exactly where there
/// is no stamp.
pub fn oldest_of(stamps: &[Option<Stamp>]) -> Option<usize>
    ensures some { IfSome result (IsFirstEarliest stamps.now) }
    ensures none { IfNone result (HaveNone stamps.now) }
{
    let mut first = None;
    let mut oldest = None;
    for (place, stamp) in stamps.iter().enumerate() {
        if is_before(*stamp, first) {
            first = *stamp;
            oldest = Some(place);
        }
    }
    oldest
}

// Whether the stamp is earlier than the other, or than none.
#[inline(always)]
pub(crate) fn is_before(stamp: Option<Stamp>, other: Option<Stamp>) -> bool
    ensures { result ≡ is_before stamp other }
{
    match (stamp, other) {
        (None, _) => false,
        (Some(_), None) => true,
        (Some(stamp), Some(other)) => stamp.is_earlier(&other),
    }
}
