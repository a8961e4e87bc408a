//! What is noted of a host once a call may have made another connection its oldest idle one.

ghost use Rattle.std.specs.Prelude.{◌≡◌, ◌<◌, length, slice_set, if◌then◌else◌};
ghost use Rattle.conn_log.specs.Fit.{oldest_stamp};
ghost use Rattle.cache.specs.Oldest.{earlier_of, is_since_before, stamp_at};

use crate::winner_tree::WinnerTree;
use bundle::Bundle;

/// Notes the oldest idle connection of a host at which one came back at that moment or later. Where
/// the one noted is idle since before that, it is no later still.
#[inline(always)]
pub(crate) fn note_after_return<S: Drop>(noted: &mut WinnerTree, bundle: &Bundle<S>, moment: u64)
    requires there { bundle.now.host < length noted.old }
    ensures { let host = bundle.now.host in
        let early = is_since_before (stamp_at noted.old host) moment in
        let oldest = oldest_stamp bundle.now.log host in
        let lowered = earlier_of (stamp_at noted.old host) oldest in
        noted.new ≡ (if early then noted.old else slice_set noted.old host lowered) }
{
    if !noted.is_since_before(bundle.host() as usize, moment) {
        note_oldest(noted, bundle);
    }
}

/// Lowers what is noted for a host to the stamp of its oldest idle connection. Out of line, since
/// few give backs need it.
#[cold]
#[inline(never)]
pub(crate) fn note_oldest<S: Drop>(noted: &mut WinnerTree, bundle: &Bundle<S>)
    requires there { bundle.now.host < length noted.old }
    ensures { let host = bundle.now.host in
        let oldest = oldest_stamp bundle.now.log host in
        noted.new ≡ slice_set noted.old host (earlier_of (stamp_at noted.old host) oldest) }
{
    let oldest = bundle.oldest();
    noted.lower(bundle.host() as usize, oldest);
}
