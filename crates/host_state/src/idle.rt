ghost use Rattle.std.specs.Prelude.{◌≡◌, ℕ, ◌+◌, ◌-◌, ◌<◌, ◌≤◌, true, false, slice_index_or};
ghost use Rattle.std.specs.Prelude.{IfSome, IfNone, OnSome};
ghost use Rattle.std.specs.List.{insert, remove};
ghost use Rattle.std.specs.VecDeque.{deque_len, deque_capacity};
ghost use Rattle.conn_log.specs.Fit.{is_older};
ghost use Rattle.host_state.specs.Idle.{item_suits, item_too_old, ends_search, LastSuits};
ghost use Rattle.host_state.specs.Idle.{NoneSuits, FirstTooOld, NoneTooOld, AreInOrder, IsPlaceFor};
ghost use Rattle.host_state.specs.Idle.{is_before};

use conn_log::Want;
use std::collections::VecDeque;

/// A connection that nobody holds, with its stream.
#[derive(Drop)]
pub(crate) struct Idle<S> {
    pub number: u32,
    pub lane: u32,
    /// The moment in which it was opened, in seconds.
    pub born: u64,
    /// The moment since which it is idle, in seconds.
    pub since: u64,
    pub stream: S,
}

// Whether it is idle, or open, for longer than the want allows at that moment.
fn is_older<S>(idle: &Idle<S>, want: &Want, moment: u64) -> bool
    ensures { let want = want.now in
        result ≡ is_older idle.now.since idle.now.born want.max_age want.max_life moment }
{
    let idle_for = moment.saturating_sub(idle.since);
    let open_for = moment.saturating_sub(idle.born);
    idle_for > want.max_age || (want.max_life != 0 && open_for > want.max_life)
}

// Whether a connection that came back persistent suits the want at that moment.
fn suits<S>(idle: &Idle<S>, want: &Want, moment: u64) -> bool
    ensures { result ≡ item_suits want.now moment idle.now }
{
    idle.lane == want.lane && !want.fresh && !is_older(idle, want, moment)
}

// Whether the want finds it too old in its lane at that moment.
fn is_too_old<S>(idle: &Idle<S>, want: &Want, moment: u64) -> bool
    ensures { result ≡ item_too_old want.now moment idle.now }
{
    idle.lane == want.lane && !want.fresh && is_older(idle, want, moment)
}

// Whether no connection that is idle for a shorter time can be too old for the want.
fn ends_search<S>(idle: &Idle<S>, want: &Want, moment: u64) -> bool
    ensures { result ≡ ends_search want.now moment idle.now }
{
    want.max_life == 0 && !is_older(idle, want, moment)
}

// Whether it goes before one that is idle since that moment and has that number.
fn goes_before<S>(idle: &Idle<S>, since: u64, number: u32) -> bool
    ensures { result ≡ is_before idle.now.since idle.now.number since number }
{
    idle.since < since || (idle.since == since && idle.number < number)
}

/// The place of the newest that suits the want; none does where it is for a new one.
#[inline(never)]
pub(crate) fn newest_suiting<S>(idle: &VecDeque<Idle<S>>, want: &Want, moment: u64) -> Option<usize>
    ensures found { IfSome result (LastSuits want.now moment idle.now.items) }
    ensures none { IfNone result (NoneSuits want.now moment idle.now.items) }
{
    if want.fresh {
        return None;
    }
    let mut place = idle.len();
    while place > 0 {
        place -= 1;
        if suits(&idle[place], want, moment) {
            return Some(place);
        }
    }
    None
}

/// The newest, where it suits the want.
#[inline(always)]
pub(crate) fn newest_if_suiting<'a, S>(
    idle: &'a VecDeque<Idle<S>>,
    want: &Want,
    moment: u64,
) -> Option<&'a Idle<S>>
    ensures suits { OnSome result
        (LastSuits want.now moment idle.now.items (deque_len idle.now - 1)) }
    ensures last { IfSome result (λ last.
        last.now ≡ slice_index_or idle.now.items (deque_len idle.now - 1) last.now) }
{
    let last = idle.back()?;
    if !suits(last, want, moment) {
        return None;
    }
    Some(last)
}

/// Whether any is too old for the want in its lane. The first one tells it where the want sets no
/// limit on the time since a connection was opened, and that one is young enough.
#[inline(always)]
pub(crate) fn is_any_too_old<S>(idle: &VecDeque<Idle<S>>, want: &Want, moment: u64) -> bool
    requires { AreInOrder idle.now.items }
    ensures some { result ≡ true →
        (place : ℕ) × FirstTooOld want.now moment idle.now.items place }
    ensures none { result ≡ false → NoneTooOld want.now moment idle.now.items }
{
    if let Some(first) = idle.front() {
        if ends_search(first, want, moment) {
            return false;
        }
    }
    match first_too_old(idle, want, moment) {
        Some(_) => true,
        None => false,
    }
}

/// The place of the first that is too old for the want in its lane; none is where it is for a new
/// one. Where the want sets no limit on the time since a connection was opened, the search ends at
/// the first that is idle for a short enough time, since none after it is idle for longer.
#[inline(always)]
pub(crate) fn first_too_old<S>(idle: &VecDeque<Idle<S>>, want: &Want, moment: u64) -> Option<usize>
    requires { AreInOrder idle.now.items }
    ensures found { IfSome result (FirstTooOld want.now moment idle.now.items) }
    ensures none { IfNone result (NoneTooOld want.now moment idle.now.items) }
{
    if want.fresh {
        return None;
    }
    let mut place = 0;
    while place < idle.len() && !ends_search(&idle[place], want, moment) {
        if is_too_old(&idle[place], want, moment) {
            return Some(place);
        }
        place += 1;
    }
    None
}

/// The place that one of that moment and number takes in the order.
#[inline(always)]
pub(crate) fn place_for<S>(idle: &VecDeque<Idle<S>>, since: u64, number: u32) -> usize
    requires { AreInOrder idle.now.items }
    ensures { IsPlaceFor since number idle.now.items result }
{
    if let Some(last) = idle.back() {
        if !goes_before(last, since, number) {
            return place_from_end(idle, since, number);
        }
    }
    idle.len()
}

// The same, sought from the end: those that are passed are those that have to be moved.
fn place_from_end<S>(idle: &VecDeque<Idle<S>>, since: u64, number: u32) -> usize
    requires { AreInOrder idle.now.items }
    ensures { IsPlaceFor since number idle.now.items result }
{
    let mut place = idle.len();
    while place > 0 && !goes_before(&idle[place - 1], since, number) {
        place -= 1;
    }
    place
}

/// Takes out the one at that place. None is moved where it is the first or the last.
#[inline(always)]
pub(crate) fn take_from<S: Drop>(idle: &mut VecDeque<Idle<S>>, place: usize) -> Idle<S>
    requires { place < deque_len idle.old }
    ensures value { result ≡ slice_index_or idle.old.items place result }
    ensures items { idle.new.items ≡ remove idle.old.items place }
    ensures len { deque_len idle.new + 1 ≡ deque_len idle.old }
    ensures capacity { deque_capacity idle.new ≡ deque_capacity idle.old }
{
    if place + 1 < idle.len() {
        return idle.remove(place).unwrap();
    }
    idle.pop_back().unwrap()
}

/// Takes out the last one.
#[inline(always)]
pub(crate) fn take_last<S: Drop>(idle: &mut VecDeque<Idle<S>>) -> Idle<S>
    requires { 0 < deque_len idle.old }
    ensures value { result ≡ slice_index_or idle.old.items (deque_len idle.old - 1) result }
    ensures items { idle.new.items ≡ remove idle.old.items (deque_len idle.old - 1) }
    ensures len { deque_len idle.new + 1 ≡ deque_len idle.old }
    ensures capacity { deque_capacity idle.new ≡ deque_capacity idle.old }
{
    idle.pop_back().unwrap()
}

/// Puts one in at that place, in room made before. None is moved where it is the last.
#[inline(always)]
pub(crate) fn put_in<S: Drop>(idle: &mut VecDeque<Idle<S>>, place: usize, new: Idle<S>)
    requires range { place ≤ deque_len idle.old }
    requires room { deque_len idle.old < deque_capacity idle.old }
    ensures items { idle.new.items ≡ insert idle.old.items place new }
    ensures len { deque_len idle.new ≡ deque_len idle.old + 1 }
    ensures capacity { deque_capacity idle.old ≤ deque_capacity idle.new }
{
    if place == idle.len() {
        idle.push_back_reserved(new);
        return;
    }
    put_before(idle, place, new);
}

// Puts one in before others. What an insertion moves about is set up only here.
#[inline(always)]
fn put_before<S: Drop>(idle: &mut VecDeque<Idle<S>>, place: usize, new: Idle<S>)
    requires range { place ≤ deque_len idle.old }
    requires room { deque_len idle.old < deque_capacity idle.old }
    ensures items { idle.new.items ≡ insert idle.old.items place new }
    ensures len { deque_len idle.new ≡ deque_len idle.old + 1 }
    ensures capacity { deque_capacity idle.old ≤ deque_capacity idle.new }
{
    let inserted: Result<_, _> = idle.insert(place, new);
    inserted.unwrap();
}
