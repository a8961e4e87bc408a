//! How a transfer sends its request and reads the response.

ghost use Rattle.std.specs.Prelude.{◌≡◌, ◌<◌, ◌≤◌, ℕ, length, take, IsSome};
ghost use Rattle.exchange.specs.Wires.{Reads, Writes};
ghost use Rattle.exchange.specs.Answers.{text_of, IsSameJob};
ghost use Rattle.exchange.specs.Worlds.{world_of};
ghost use Rattle.exchange.specs.Standing.{GoesOn};
ghost use Rattle.exchange.specs.Steps.{StepsWire, LeadsOn, HasCome, HasNoDialFault, OpensNoMore};
ghost use Rattle.exchange.specs.Waiting.{AtStep, StepLeaves, OnSource, IsRegistered};
ghost use Rattle.exchange.specs.Stepping.{IsLeft, StepIs};
ghost use Rattle.exchange.specs.Owning.{IsReady, ReaderGoesOn, OwnsWire, OwnsAt};
ghost use Rattle.exchange.specs.declared.state.State.TheVariants as at;

use crate::done::{Done, Fault};
use crate::ending::{end, fail, give_back, settle};
use crate::job::Prepared;
use crate::reason::Reason;
use crate::state::{State, Step};
use crate::wire::{Clock, Read, Wire, Written};
use bundle::Lease;
use cache_trait::Cache;
use futures::task::{Context, Poll, Waker};
use persistence::Fed;

// Writes to its wire; notes why, if that fails.
fn write_to<W: Wire>(lease: &mut Lease<W>, bytes: &[u8], reason: &mut Option<Reason>) -> Written
    requires wire { IsSome lease.old.stream }
    requires some { 0 < length bytes.now }
    ensures { StepsWire lease.old lease.new
        (λ old new. Writes bytes.now (W.happened old new) result) }
{
    let Some(wire) = lease.stream_mut() else {
        unreachable!()
    };
    let written = wire.write(bytes);
    if let Written::Fault = written {
        *reason = wire.reason();
    }
    written
}

// Reads from its wire; notes why, if that fails.
fn read_from<W: Wire>(lease: &mut Lease<W>, buffer: &mut [u8], reason: &mut Option<Reason>) -> Read
    requires wire { IsSome lease.old.stream }
    requires buffer { 0 < length buffer.old }
    ensures { StepsWire lease.old lease.new
        (λ old new. Reads buffer.new (W.happened old new) result) }
{
    let Some(wire) = lease.stream_mut() else {
        unreachable!()
    };
    let read = wire.read(buffer);
    if let Read::Fault = read {
        *reason = wire.reason();
    }
    read
}

// Registers with its wire.
fn wait_for<W: Wire>(lease: &mut Lease<W>, cx: &mut Context<'_>, waker: &mut Option<Waker>)
    requires wire { IsSome lease.old.stream }
    ensures same_lease { lease.new ≡ lease.old }
    ensures registered { OnSource W.source_name lease.old (IsRegistered cx.old cx.new waker.new) }
{
    let Some(wire) = lease.stream_mut() else {
        unreachable!()
    };
    let _pending: Poll<()> = cx.register(wire.source(), waker);
}

// Sends more of its request.
pub(crate) fn send<W: Wire, C: Cache<W>, K: Clock>(
    parts: &mut Prepared,
    cache: &mut C,
    clock: &K,
    now: u64,
    mut lease: Lease<W>,
    sent: usize,
    cx: &mut Context<'_>,
    waker: &mut Option<Waker>,
    reason: &mut Option<Reason>,
) -> Step<W>
    requires told { K.tells clock.now now }
    requires owns { OwnsWire (C.home cache.old) lease }
    requires short { sent < length (text_of parts.old) }
    requires reading { ReaderGoesOn parts.old }
    requires ready { IsReady parts.old }
    ensures stays { C.home cache.new ≡ C.home cache.old }
    ensures owns { AtStep result (OwnsAt (C.home cache.new) parts.new) }
    ensures ready { IsReady parts.new }
    ensures same_job { IsSameJob parts.old parts.new }
    ensures story { AtStep result (GoesOn C.did (world_of W.untouched W.happened (K.tells
        clock.now)) parts.old parts.new cache.old cache.new (at.Sending lease sent)) }
    ensures steps { StepIs C.did (world_of W.untouched W.happened (K.tells clock.now))
        cache.old cache.new (at.Sending lease sent) result }
    ensures dialled { AtStep result HasNoDialFault }
    ensures opens { AtStep result (OpensNoMore parts.old parts.new (at.Sending lease sent)) }
    ensures leaves { (dial : ℕ) → StepLeaves W.source_name dial cx.old cx.new waker.new result }
{
    let text = parts.text.as_bytes();
    match write_to(&mut lease, &text[sent..], reason) {
        Written::Took(taken) => {
            let sent = sent + taken;
            if sent < text.len() {
                Step::Goes(State::Sending(lease, sent))
            } else {
                Step::Goes(State::Reading(lease))
            }
        }
        Written::NotYet => {
            wait_for(&mut lease, cx, waker);
            Step::Waits(State::Sending(lease, sent))
        }
        Written::Fault => Step::Goes(fail(parts, cache, clock, now, lease, Fault::Write)),
    }
}

// Reads more of the response.
pub(crate) fn read<W: Wire, C: Cache<W>, K: Clock>(
    parts: &mut Prepared,
    cache: &mut C,
    clock: &K,
    now: u64,
    mut lease: Lease<W>,
    cx: &mut Context<'_>,
    waker: &mut Option<Waker>,
    reason: &mut Option<Reason>,
) -> Step<W>
    requires told { K.tells clock.now now }
    requires owns { OwnsWire (C.home cache.old) lease }
    requires reading { ReaderGoesOn parts.old }
    requires ready { IsReady parts.old }
    ensures stays { C.home cache.new ≡ C.home cache.old }
    ensures owns { AtStep result (OwnsAt (C.home cache.new) parts.new) }
    ensures ready { IsReady parts.new }
    ensures same_job { IsSameJob parts.old parts.new }
    ensures story { AtStep result (GoesOn C.did (world_of W.untouched W.happened (K.tells
        clock.now)) parts.old parts.new cache.old cache.new (at.Reading lease)) }
    ensures steps { StepIs C.did (world_of W.untouched W.happened (K.tells clock.now))
        cache.old cache.new (at.Reading lease) result }
    ensures dialled { AtStep result HasNoDialFault }
    ensures opens { AtStep result (OpensNoMore parts.old parts.new (at.Reading lease)) }
    ensures leaves { (dial : ℕ) → StepLeaves W.source_name dial cx.old cx.new waker.new result }
{
    match read_from(&mut lease, &mut parts.buffer, reason) {
        Read::Bytes(count) => Step::Goes(feed(parts, cache, clock, now, lease, count)),
        Read::NotYet => {
            wait_for(&mut lease, cx, waker);
            Step::Waits(State::Reading(lease))
        }
        Read::End => Step::Goes(end(parts, cache, clock, now, lease)),
        Read::Fault => Step::Goes(fail(parts, cache, clock, now, lease, Fault::Read)),
    }
}

// Feeds its reader so many bytes of the buffer, which have come.
fn feed<W: Wire, C: Cache<W>, K: Clock>(
    parts: &mut Prepared,
    cache: &mut C,
    clock: &K,
    now: u64,
    lease: Lease<W>,
    count: usize,
) -> State<W>
    requires told { K.tells clock.now now }
    requires owns { OwnsWire (C.home cache.old) lease }
    requires reading { ReaderGoesOn parts.old }
    requires ready { IsReady parts.old }
    requires within_buffer { count ≤ length parts.old.buffer.items }
    ensures stays { C.home cache.new ≡ C.home cache.old }
    ensures owns { OwnsAt (C.home cache.new) parts.new result }
    ensures ready { IsReady parts.new }
    ensures same_job { IsSameJob parts.old parts.new }
    ensures story { LeadsOn C.did (world_of W.untouched W.happened (K.tells clock.now)) parts.old
        parts.new cache.old cache.new lease (HasCome parts.old count) result }
    ensures left { IsLeft C.did cache.old cache.new lease result }
    ensures dialled { HasNoDialFault result }
    ensures opens { OpensNoMore parts.old parts.new (at.Reading lease) result }
{
    match parts.reader.feed(&parts.buffer[..count]) {
        Ok(Fed::More) => State::Reading(lease),
        Ok(Fed::Whole) => settle(parts, cache, clock, now, lease),
        Err(_) => {
            let _known = give_back(cache, lease, parts.reader.facts(), now);
            State::Finished(Done::Bad(Fault::BadResponse))
        }
    }
}
