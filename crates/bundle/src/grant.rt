ghost use Rattle.std.specs.Prelude.{◌≡◌, ◌==◌, ℕ, ◌+◌, ◌<◌, ◌≤◌, length, slice_index_or, vec_len};
ghost use Rattle.std.specs.Prelude.{vec_capacity, false, IfSome, IfNone};
ghost use Rattle.std.specs.Option.{option_map};
ghost use Rattle.bundle.specs.declared.grant.Grant.{Grant};
ghost use Rattle.conn_log.specs.declared.entry.Want.{Want};
ghost use Rattle.bundle.specs.Grants.{grant_of, without_grant, IsPlaceOf, HasNoGrant};

use conn_log::Want;

/// What a transfer that waited was granted, until it claims it.
#[derive(Drop)]
pub(crate) struct Grant<S> {
    /// What the transfer wants.
    pub want: Want,
    /// The number of its connection.
    pub number: u32,
    /// The moment in which it was granted, in seconds.
    pub moment: u64,
    /// The stream of a connection that came back; a connection that was opened has none yet.
    pub stream: Option<S>,
}

/// The want of the transfer's grant, if it has one.
pub(crate) fn granted_want<S>(grants: &[Grant<S>], transfer: u64) -> Option<Want>
    ensures { result ≡ option_map (λ (grant : Grant S). grant.want) (grant_of grants.now transfer) }
{
    let Some(place) = place_of(grants, transfer) else {
        return None;
    };
    Some(grants[place].want)
}

/// Takes the transfer's grant out, if it has one.
#[inline(always)]
pub(crate) fn take_grant<S>(grants: &mut Vec<Grant<S>>, transfer: u64) -> Option<Grant<S>>
    ensures grant { result ≡ grant_of grants.old.items transfer }
    ensures grants { grants.new.items ≡ without_grant transfer grants.old.items }
    ensures unchanged { IfNone result (grants.new.items ≡ grants.old.items) }
    ensures len { vec_len grants.new ≤ vec_len grants.old }
    ensures capacity { vec_capacity grants.new ≡ vec_capacity grants.old }
{
    let Some(place) = place_of(grants, transfer) else {
        return None;
    };
    Some(grants.remove(place))
}

// The index of the transfer's grant.
#[inline(always)]
fn place_of<S>(grants: &[Grant<S>], transfer: u64) -> Option<usize>
    ensures place { IfSome result (λ place. IsPlaceOf transfer grants.now place) }
    ensures no_grant { IfNone result (HasNoGrant transfer grants.now) }
{
    let mut place = 0;
    while place < grants.len() {
        if grants[place].want.transfer == transfer {
            return Some(place);
        }
        place += 1;
    }
    None
}
