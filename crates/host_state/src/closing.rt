ghost use Rattle.std.specs.Prelude.{◌≡◌, ◌<◌, [], IfSome, IfNone, length};
ghost use Rattle.host_state.specs.Idle.{item_older, AreInOrder, FirstOlder, NoneOlder};
ghost use Rattle.host_state.specs.Idle.{picked_items, PicksFirst};
ghost use Rattle.host_state.specs.Steps.{cause_of};
ghost use Rattle.host_state.specs.declared.closing.Closing.TheVariants.{Above};

use crate::idle::{Idle, first_too_old};
use conn_log::{Cause, Want};
use std::collections::VecDeque;

/// Which idle connections are to be closed.
#[derive(Clone, Copy)]
pub enum Closing {
    /// Those of the want's lane that are too old for it; none where it is for a new one.
    TooOld(Want),
    /// Those that are idle, or open, for longer than that, whatever their lane.
    Pruned {
        /// The most seconds that a connection may have been idle.
        max_age: u64,
        /// The most seconds since a connection was opened; 0 for no limit.
        max_life: u64,
    },
    /// So many of those that are idle for the longest that no more than that are open.
    Above(u32),
}

/// Why it closes them.
pub(crate) fn cause_of(closing: &Closing) -> Cause
    ensures { result ≡ cause_of closing.now }
{
    match closing {
        Closing::TooOld(_) => Cause::TooOld,
        Closing::Pruned { .. } => Cause::Pruned,
        Closing::Above(_) => Cause::HostRoom,
    }
}

/// The place of the first one that it picks, where so many connections are open.
#[inline(always)]
pub(crate) fn first_picked<S>(
    idle: &VecDeque<Idle<S>>,
    closing: &Closing,
    open_len: u32,
    moment: u64,
) -> Option<usize>
    requires { AreInOrder idle.now.items }
    ensures found { IfSome result (PicksFirst closing.now moment open_len idle.now.items) }
    ensures none { IfNone result (picked_items closing.now moment open_len idle.now.items ≡ []) }
{
    match closing {
        Closing::TooOld(want) => first_too_old(idle, want, moment),
        Closing::Pruned { max_age, max_life } => first_older(idle, *max_age, *max_life, moment),
        Closing::Above(limit) => first_above(idle, *limit, open_len),
    }
}

// The place of the first that is older than the two numbers allow. Where there is no limit on the
// time since a connection was opened, the search ends at the first that is idle for a short enough
// time, since none after it is idle for longer.
fn first_older<S>(
    idle: &VecDeque<Idle<S>>,
    max_age: u64,
    max_life: u64,
    moment: u64,
) -> Option<usize>
    requires { AreInOrder idle.now.items }
    ensures found { IfSome result (FirstOlder max_age max_life moment idle.now.items) }
    ensures none { IfNone result (NoneOlder max_age max_life moment idle.now.items) }
{
    let mut place = 0;
    while place < idle.len() {
        if is_older(&idle[place], max_age, max_life, moment) {
            return Some(place);
        }
        if max_life == 0 {
            return None;
        }
        place += 1;
    }
    None
}

// The first place, where more are open than the limit and any is idle.
fn first_above<S>(idle: &VecDeque<Idle<S>>, limit: u32, open_len: u32) -> Option<usize>
    ensures found { IfSome result (PicksFirst (Above limit) 0 open_len idle.now.items) }
    ensures none { IfNone result (picked_items (Above limit) 0 open_len idle.now.items ≡ []) }
{
    if open_len <= limit || idle.is_empty() {
        return None;
    }
    Some(0)
}

// Whether it is idle, or open, for longer than that.
fn is_older<S>(idle: &Idle<S>, max_age: u64, max_life: u64, moment: u64) -> bool
    ensures { result ≡ item_older max_age max_life moment idle.now }
{
    let idle_for = moment.saturating_sub(idle.since);
    let open_for = moment.saturating_sub(idle.born);
    idle_for > max_age || (max_life != 0 && open_for > max_life)
}
