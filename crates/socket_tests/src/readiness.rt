//! What a dial of polled sockets tells of them, and when.

ghost use Rattle.cache.specs.PoolCalls.{home_of};
ghost use Rattle.exchange.specs.Answers.{IsUnused};
ghost use Rattle.transfer_slab.specs.Slabs.{AreKept};
ghost use Rattle.exchange.specs.Worlds.{world_of};

use crate::checks::check_eq;
use crate::leases::{abandon, lease_at, pool_of};
use crate::peer::{Behaviour, Peer};
use crate::requests::{peer_of, prepared};
use budget::Limits;
use cache::Pool;
use exchange::{Alarm, Clock, Dial, Dialled, Done, Place, Prepared, Read, Ready, Wire, Written};
use futures::task::{Doorbell, Poll, Solo};
use socket::{PolledDial, PolledWire, SystemClock};
use std::alloc::{AllocGlobal, Global};
use std::process::Abort;
use std::time::Duration;
use transfer_slab::Slab;

/// More polls and turns than a request here takes.
const MOST: u32 = 200;

/// The place whose sockets are looked at.
const PLACE: Place = Place {
    index: 3,
    joined: 7,
};

// Dials until the connection is open.
fn dialled<R: Abort>(
    rt: &R,
    dial: &mut PolledDial<'_, HostRuntime>,
    pool: &mut Pool<PolledWire>,
) -> Option<PolledWire> {
    dial.set_place(PLACE);
    let lease = lease_at(rt, pool, 0, 1);
    let mut wire = None;
    for _ in 0..MOST {
        match dial.dial(&lease) {
            Dialled::Up(up) => wire = Some(up),
            Dialled::NotYet => {}
            Dialled::Fault => break,
        }
        if wire.is_some() {
            break;
        }
        let _ = dial.turn(Duration::MAX);
    }
    abandon(pool, lease);
    wire
}

// What the first turn tells that tells of something.
fn told(dial: &mut PolledDial<'_, HostRuntime>) -> Ready {
    for _ in 0..MOST {
        let _ = dial.turn(Duration::MAX);
        let ready = dial.next_ready();
        if ready != Ready::Nothing {
            return ready;
        }
    }
    Ready::Nothing
}

// Lets turns pass until one tells nothing.
fn pass_turns(dial: &mut PolledDial<'_, HostRuntime>) {
    for _ in 0..MOST {
        let _ = dial.turn(Duration::ZERO);
        if dial.next_ready() == Ready::Nothing {
            return;
        }
    }
}

/// The place that an alarm tells of: no slab has it.
const NOWHERE: Place = Place {
    index: u32::MAX,
    joined: 0,
};

// What the next turn tells first.
fn told_next(dial: &mut PolledDial<'_, HostRuntime>) -> Ready {
    let _ = dial.turn(Duration::ZERO);
    dial.next_ready()
}

#[test]
fn an_alarm_ends_a_turn_of_who_sleeps(rt: HostRuntime) {
    let (_peer, addresses) = peer_of(&rt).expect(&rt, "a server");
    let mut dial = PolledDial::new(&rt, rt.alloc(), addresses).expect(&rt, "a dial");
    let alarm = dial.alarm().expect(&rt, "an alarm");
    alarm.ring();
    let awake = told_next(&mut dial);
    alarm.fall_asleep();
    alarm.ring();
    alarm.ring();
    let (asleep, after) = (told_next(&mut dial), dial.next_ready());
    let once = told_next(&mut dial);
    alarm.fall_asleep();
    let was_rung = alarm.wake_up();
    alarm.ring();
    let woken = told_next(&mut dial);
    alarm.fall_asleep();
    alarm.ring();
    let is_rung = alarm.wake_up();
    check_eq(&rt, (awake, asleep), (Ready::Nothing, Ready::At(NOWHERE)));
    check_eq(&rt, (after, once), (Ready::Nothing, Ready::Nothing));
    check_eq(&rt, woken, Ready::Nothing);
    check_eq(&rt, (was_rung, is_rung), (false, true));
}

#[test]
fn the_first_read_after_a_write_asks_nobody(rt: HostRuntime) {
    let (mut peer, addresses) = peer_of(&rt).expect(&rt, "a server");
    let mut dial = PolledDial::new(&rt, rt.alloc(), addresses).expect(&rt, "a dial");
    let mut pool = pool_of(&rt);
    let mut wire = dialled(&rt, &mut dial, &mut pool).expect(&rt, "a connection");
    peer.accepts().expect(&rt, "a connection");
    let mut buffer = [0u8; 100];
    let written = wire.write(b"a request");
    peer.answers().expect(&rt, "a connection");
    let before = wire.read(&mut buffer);
    let ready = told(&mut dial);
    let after = wire.read(&mut buffer);
    let rest = wire.read(&mut buffer);
    check_eq(&rt, (written, before), (Written::Took(9), Read::NotYet));
    check_eq(&rt, ready, Ready::At(PLACE));
    check_eq(&rt, (after, rest), (Read::Bytes(40), Read::NotYet));
}

// Writes until the send buffer is full; whether it is.
fn fills<W: Wire>(wire: &mut W) -> bool {
    let bytes = [0u8; 4_096];
    for _ in 0..100_000 {
        match wire.write(&bytes) {
            Written::Took(_) => {}
            Written::NotYet => return true,
            Written::Fault => return false,
        }
    }
    false
}

#[test]
fn a_full_send_buffer_is_told_of_once_it_has_room(rt: HostRuntime) {
    let (mut peer, addresses) = peer_of(&rt).expect(&rt, "a server");
    let mut dial = PolledDial::new(&rt, rt.alloc(), addresses).expect(&rt, "a dial");
    let mut pool = pool_of(&rt);
    let mut wire = dialled(&rt, &mut dial, &mut pool).expect(&rt, "a connection");
    peer.accepts().expect(&rt, "a connection");
    assert!(rt; fills(&mut wire));
    pass_turns(&mut dial);
    assert!(rt; peer.drains() > 0);
    check_eq(&rt, told(&mut dial), Ready::At(PLACE));
    assert!(rt; matches!(wire.write(b"more"), Written::Took(4)));
    // and what came before the write that found no room is read
    peer.answers().expect(&rt, "a connection");
    check_eq(&rt, told(&mut dial), Ready::At(PLACE));
    let mut buffer = [0u8; 100];
    check_eq(&rt, wire.read(&mut buffer), Read::Bytes(40));
}

// Polls until none is due; how the one that ended, if it did, has ended.
fn poll_due<W: Wire, D: Dial<W>, K: Clock>(
    task: &Solo,
    slab: &mut Slab<W>,
    pool: &mut Pool<W>,
    dial: &mut D,
    clock: &K,
) -> Option<Done>
    requires kept { AreKept (world_of W.untouched W.happened (K.tells clock.now))
        (home_of pool.old) slab.old.slots }
    ensures kept { AreKept (world_of W.untouched W.happened (K.tells clock.now))
        (home_of pool.new) slab.new.slots }
{
    let mut done = None;
    let mut cx = task.begin();
    for _ in 0..MOST {
        if !slab.has_due() {
            break;
        }
        if let Some(ended) = slab.poll_next(&mut cx, pool, dial, clock) {
            done = Some(ended.done);
        }
    }
    let turn: Poll<()> = cx.yield_now();
    cx.end(&turn);
    done
}

// Waits until a transfer of the slab may go on.
fn take_turn<W: Wire, D: Dial<W>, K: Clock>(
    slab: &mut Slab<W>,
    _pool: &Pool<W>,
    dial: &mut D,
    _clock: &K,
)
    requires kept { AreKept (world_of W.untouched W.happened (K.tells _clock.now))
        (home_of _pool.now) slab.old.slots }
    ensures kept { AreKept (world_of W.untouched W.happened (K.tells _clock.now))
        (home_of _pool.now) slab.new.slots }
{
    let _ = slab.turn(dial, Duration::MAX);
}

// Polls until one has ended, and how it has; the server does that after each round.
fn rounds<W: Wire, D: Dial<W>, K: Clock>(
    task: &Solo,
    peer: &mut Peer,
    behaviour: Behaviour,
    slab: &mut Slab<W>,
    pool: &mut Pool<W>,
    dial: &mut D,
    clock: &K,
) -> (Option<Done>, u32)
    requires kept { AreKept (world_of W.untouched W.happened (K.tells clock.now))
        (home_of pool.old) slab.old.slots }
    ensures kept { AreKept (world_of W.untouched W.happened (K.tells clock.now))
        (home_of pool.new) slab.new.slots }
{
    for turns in 0..MOST {
        let done = poll_due(task, slab, pool, dial, clock);
        if done.is_some() || peer.does(behaviour).is_err() {
            return (done, turns);
        }
        take_turn(slab, pool, dial, clock);
    }
    (None, MOST)
}

// How a transfer of a slab ends, and after how many turns, where the server does that after each
// round.
fn ends<W: Wire, D: Dial<W>, K: Clock>(
    alloc: Global,
    task: &Solo,
    peer: &mut Peer,
    behaviour: Behaviour,
    parts: Prepared,
    pool: &mut Pool<W>,
    dial: &mut D,
    clock: &K,
) -> (Option<Done>, u32)
    requires { IsUnused parts }
{
    let Ok(mut slab) = Slab::new(alloc) else {
        return (None, 0);
    };
    if slab.join(parts, pool, clock).is_err() {
        slab.close(pool, dial, clock);
        return (None, 0);
    }
    let told = rounds(task, peer, behaviour, &mut slab, pool, dial, clock);
    slab.close(pool, dial, clock);
    told
}

#[test]
fn an_answer_and_its_end_are_told_of_once(rt: HostRuntime) {
    let task = Solo::new(&rt, Doorbell::spinning()).expect(&rt, "a task");
    let limits = Limits::new(0, 0, 4).expect(&rt, "limits");
    let clock = SystemClock::new(&rt).expect(&rt, "a clock");
    for &behaviour in &[Behaviour::Answers, Behaviour::EndsItsAnswer] {
        let (mut peer, addresses) = peer_of(&rt).expect(&rt, "a server");
        let port = peer.port().expect(&rt, "a port");
        let mut dial = PolledDial::new(&rt, rt.alloc(), addresses).expect(&rt, "a dial");
        let mut pool = Pool::new(rt.alloc(), limits, 1).expect(&rt, "memory");
        let parts = prepared(&rt, 1, port).expect(&rt, "memory");
        let (done, turns) = ends(
            rt.alloc(),
            &task,
            &mut peer,
            behaviour,
            parts,
            &mut pool,
            &mut dial,
            &clock,
        );
        let Some(Done::Good(answer)) = done else {
            panic!(rt; "no answer: {done:?}");
        };
        check_eq(&rt, (answer.status, answer.body_len), (200, 2));
        assert!(rt; turns < 5, "{turns} turns");
    }
}
