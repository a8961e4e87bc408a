//! What no clause of `host_state` says: that the connection that came back last is leased at once,
//! each time that nothing else has to be done.
ghost use Rattle.std.specs.Prelude.{◌≡◌};

use crate::checks::check_eq;
use crate::desk::{KEEP, want_of};
use host_state::{Returned, State};

// How often it comes back.
const ROUNDS: u64 = 8;

// The transfer gives the connection back; whether the next one leases it at once.
fn is_leased_at_once(state: &mut State<u32>, number: u32, transfer: u64, next: u64) -> bool
    requires { state.old.booked ≡ 0 }
    ensures { state.new.booked ≡ 0 }
{
    let moment = state.moment(transfer);
    match state.give_back(transfer, number, KEEP, 7, moment, true) {
        Returned::Idle(_held) => {}
        Returned::Ended | Returned::Unkept(_) | Returned::Strange(_) => return false,
    }
    let moment = state.moment(next);
    state.lease_last(&want_of(next), moment).is_some()
}

#[test]
fn what_came_back_last_is_leased_at_once(rt: HostRuntime) {
    let Ok(mut state) = State::new(rt.alloc(), 4, 0, 1) else {
        panic!(rt; "no memory");
    };
    let Ok(()) = state.book() else {
        panic!(rt; "no memory");
    };
    let number = state.open(&want_of(0), 0);
    let mut leased = 0;
    for transfer in 0..ROUNDS {
        if is_leased_at_once(&mut state, number, transfer, transfer + 1) {
            leased += 1;
        }
    }
    check_eq(&rt, leased, ROUNDS);
}
