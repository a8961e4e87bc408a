//! What a dial in memory counts.

use crate::checks::check_eq;
use crate::driving::{NOW, OK, abandon, dial_of, new_lease_of, pool_of, prepared, wire_of};
use exchange::{Dial, Dialled, Exchange, Turned};
use exchange_memory::{FixedClock, Halt, MemoryDial};

#[test]
fn a_turn_fails(rt: HostRuntime) {
    let mut dial = MemoryDial::new(rt.alloc());
    dial.fail_turn(2);
    let mut pool = pool_of(&rt, 0);
    let clock = FixedClock { now: NOW };
    let mut exchange = Exchange::new(prepared(&rt), &mut pool, &mut dial, &clock);
    let turned = [exchange.turn(), exchange.turn(), exchange.turn()];
    let _ = exchange.cancel(NOW);
    check_eq(&rt, turned, [Turned::Done, Turned::Fault, Turned::Done]);
    check_eq(&rt, dial.turn_failures(), 1);
}

#[test]
fn a_dial_counts_what_it_opens(rt: HostRuntime) {
    // it is dialled twice, and fails at that time
    for &(nth, up, opened, failures) in &[
        (1, [false, true], 1, 1),
        (2, [true, false], 1, 1),
        (3, [true, true], 2, 0),
    ] {
        let mut dial = dial_of(&rt, wire_of(&rt, OK));
        dial.add(wire_of(&rt, OK)).expect(&rt, "memory");
        dial.halt_dial(nth, Halt::Fault);
        let mut pool = pool_of(&rt, 0);
        let one = new_lease_of(&rt, &mut pool, 1, NOW);
        let other = new_lease_of(&rt, &mut pool, 2, NOW);
        let first = dial.dial(&one);
        let second = dial.dial(&other);
        abandon(&mut pool, one);
        abandon(&mut pool, other);
        let came = [
            matches!(first, Dialled::Up(_)),
            matches!(second, Dialled::Up(_)),
        ];
        assert_eq!(rt; came, up, "{nth}");
        assert_eq!(rt;
            (dial.opened(), dial.failures()),
            (opened, failures),
            "{nth}"
        );
    }
}
