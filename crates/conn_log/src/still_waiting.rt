//! Which transfers wait after some entries.

ghost use Rattle.std.specs.Prelude.{◌≡◌, ℕ, [], nat_eq, reverse, IfOk};
ghost use Rattle.std.specs.HashSet.{contains};
ghost use Rattle.conn_log.specs.Waiting.{waiting_since};
ghost use Rattle.conn_log.specs.Scan.{is_any_wait_begun, is_wait_ended};

use crate::entry::{Entry, Event, Want};
use std::alloc::{AllocError, Global};
use std::collections::HashSet;

/// The wants that wait after these entries, oldest first, if those waited before them. Of wants the
/// one that came last is first, in the answer too.
pub(crate) fn waiting_since(waiting: &Vec<Want>, rest: &[Entry]) -> Result<Vec<Want>, AllocError>
    ensures { IfOk result (λ wants.
        reverse wants.items ≡ waiting_since (reverse waiting.now.items) (reverse rest.now)) }
{
    let alloc = *waiting.allocator();
    if waiting.is_empty() && !begins_any_wait(rest) {
        return Ok(Vec::new(alloc));
    }
    let (mut wants, gone) = late_waits(alloc, rest)?;
    for want in waiting {
        if !gone.contains(&want.transfer) {
            wants.push(*want)?;
        }
    }
    Ok(wants)
}

// Whether a transfer began to wait in one of these entries.
fn begins_any_wait(rest: &[Entry]) -> bool
    ensures { result ≡ is_any_wait_begun rest.now }
{
    let mut begun = false;
    for entry in rest {
        begun = begun || matches!(entry.event, Event::Waited { .. });
    }
    begun
}

// The wants that began to wait in these entries and still wait after them, the last one first; and
// the transfers that started or left in them.
fn late_waits(alloc: Global, rest: &[Entry]) -> Result<(Vec<Want>, HashSet<u64>), AllocError>
    ensures wants { IfOk result (λ late. reverse late.0.items ≡ waiting_since [] (reverse rest.now)) }
    ensures gone { IfOk result (λ late. (transfer : ℕ) →
        contains nat_eq late.1 transfer ≡ is_wait_ended rest.now transfer) }
{
    let mut wants: Vec<Want> = Vec::new(alloc);
    let mut gone: HashSet<u64> = HashSet::new(alloc);
    let mut place = rest.len();
    while place > 0 {
        place -= 1;
        match rest[place].event {
            Event::Waited { want } => {
                if !gone.contains(&want.transfer) {
                    wants.push(want)?;
                }
            }
            Event::Opened { want, .. } | Event::Leased { want, .. } => {
                let _ = gone.insert(want.transfer)?;
            }
            Event::Left { transfer } => {
                let _ = gone.insert(transfer)?;
            }
            Event::Returned { .. } | Event::Closed { .. } | Event::Limit { .. } => {}
        }
    }
    Ok((wants, gone))
}
