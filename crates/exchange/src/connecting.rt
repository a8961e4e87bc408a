//! How a transfer gets its connection: it asks the cache, waits, and dials.

ghost use Rattle.std.specs.Prelude.{◌≡◌, ◌<◌, None, length, is_some, false};
ghost use Rattle.exchange.specs.Answers.{text_of};
ghost use Rattle.exchange.specs.Worlds.{world_of};
ghost use Rattle.exchange.specs.Standing.{GoesOn};
ghost use Rattle.exchange.specs.Steps.{Begins};
ghost use Rattle.exchange.specs.Dialling.{KeepsDial};
ghost use Rattle.exchange.specs.Exchanging.{DialsAt};
ghost use Rattle.exchange.specs.Waiting.{AtStep, StepLeaves};
ghost use Rattle.exchange.specs.Stepping.{StepsOn, StepIs};
ghost use Rattle.exchange.specs.Owning.{OwnsLease, OwnsTicket, OwnsAt, ReaderGoesOn};
ghost use Rattle.exchange.specs.declared.state.State.TheVariants as at;

use crate::done::{Done, Fault};
use crate::ending::abandon;
use crate::job::Prepared;
use crate::reason::Reason;
use crate::state::{State, Step};
use crate::wire::{Clock, Dial, Dialled, Wire};
use budget::Refusal;
use bundle::{Acquired, Claimed, Lease, Ticket};
use cache_trait::Cache;
use futures::task::{Context, Poll, Waker};

// Where a lease begins: its connection is dialled, or its wire is used again.
fn begin<W: Wire, D: Dial<W>>(mut lease: Lease<W>, dial: &mut D) -> State<W>
    requires { is_some lease.stream ≡ lease.start.reused }
    ensures begins { Begins W.happened lease result }
    ensures same { KeepsDial (D.shown dial.old) (D.shown dial.new) }
{
    match lease.stream_mut() {
        Some(wire) => dial.adopt(wire),
        None => return State::Dialling(lease),
    }
    State::Sending(lease, 0)
}

// Asks the cache for a connection.
pub(crate) fn ask<W: Wire, C: Cache<W>, D: Dial<W>, K: Clock>(
    parts: &Prepared,
    cache: &mut C,
    dial: &mut D,
    _clock: &K,
    now: u64,
) -> State<W>
    requires told { K.tells _clock.now now }
    requires text { 0 < length (text_of parts.now) }
    requires reading { ReaderGoesOn parts.now }
    ensures stays { C.home cache.new ≡ C.home cache.old }
    ensures owns { OwnsAt (C.home cache.new) parts.now result }
    ensures story { GoesOn C.did (world_of W.untouched W.happened (K.tells _clock.now)) parts.now
        parts.now cache.old cache.new at.Asking result }
    ensures steps { StepsOn C.did (world_of W.untouched W.happened (K.tells _clock.now))
        cache.old cache.new at.Asking result }
    ensures dials { DialsAt parts.now parts.now at.Asking (D.shown dial.old) (D.shown dial.new)
        result }
{
    match cache.acquire(parts.site, parts.wanted(), now) {
        Ok(Acquired::Lease(lease)) => begin(lease, dial),
        Ok(Acquired::Wait(ticket)) => State::Waiting(ticket),
        Err(refusal) => State::Finished(Done::Bad(Fault::Refused(refusal))),
    }
}

// Claims what its transfer waits for.
pub(crate) fn claim<W: Wire, C: Cache<W>, D: Dial<W>, K: Clock>(
    parts: &Prepared,
    cache: &mut C,
    dial: &mut D,
    _clock: &K,
    ticket: Ticket,
    cx: &mut Context<'_>,
) -> Step<W>
    requires here { OwnsTicket (C.home cache.old) ticket }
    requires its { ticket.wait.want.transfer ≡ parts.now.want.transfer }
    requires text { 0 < length (text_of parts.now) }
    requires reading { ReaderGoesOn parts.now }
    ensures stays { C.home cache.new ≡ C.home cache.old }
    ensures owns { AtStep result (OwnsAt (C.home cache.new) parts.now) }
    ensures story { AtStep result (GoesOn C.did (world_of W.untouched W.happened (K.tells
        _clock.now)) parts.now parts.now cache.old cache.new (at.Waiting ticket)) }
    ensures steps { StepIs C.did (world_of W.untouched W.happened (K.tells _clock.now))
        cache.old cache.new (at.Waiting ticket) result }
    ensures dials { AtStep result (DialsAt parts.now parts.now (at.Waiting ticket)
        (D.shown dial.old) (D.shown dial.new)) }
    ensures leaves { StepLeaves W.source_name (D.shown dial.new).source_name cx.old cx.new None
        result }
{
    match cache.claim(ticket) {
        Ok(Claimed::Lease(lease)) => Step::Goes(begin(lease, dial)),
        Ok(Claimed::Still(ticket)) => {
            let _pending: Poll<()> = cx.yield_now();
            Step::Waits(State::Waiting(ticket))
        }
        Err(stray) => {
            stray.scrap();
            let refusal = Refusal::StrangeTicket;
            Step::Goes(State::Finished(Done::Bad(Fault::Refused(refusal))))
        }
    }
}

// Opens its connection.
pub(crate) fn dial_up<W: Wire, C: Cache<W>, D: Dial<W>, K: Clock>(
    _parts: &Prepared,
    cache: &mut C,
    dial: &mut D,
    _clock: &K,
    now: u64,
    mut lease: Lease<W>,
    cx: &mut Context<'_>,
    waker: &mut Option<Waker>,
    reason: &mut Option<Reason>,
) -> Step<W>
    requires told { K.tells _clock.now now }
    requires owns { OwnsLease (C.home cache.old) lease }
    requires no_stream { lease.stream ≡ None }
    requires fresh { lease.start.reused ≡ false }
    requires its { lease.start.want.transfer ≡ _parts.now.want.transfer }
    requires text { 0 < length (text_of _parts.now) }
    requires reading { ReaderGoesOn _parts.now }
    ensures stays { C.home cache.new ≡ C.home cache.old }
    ensures owns { AtStep result (OwnsAt (C.home cache.new) _parts.now) }
    ensures story { AtStep result (GoesOn C.did (world_of W.untouched W.happened (K.tells
        _clock.now)) _parts.now _parts.now cache.old cache.new (at.Dialling lease)) }
    ensures steps { StepIs C.did (world_of W.untouched W.happened (K.tells _clock.now))
        cache.old cache.new (at.Dialling lease) result }
    ensures dials { AtStep result (DialsAt _parts.now _parts.now (at.Dialling lease)
        (D.shown dial.old) (D.shown dial.new)) }
    ensures leaves { StepLeaves W.source_name (D.shown dial.new).source_name cx.old cx.new
        waker.new result }
{
    match dial.dial(&lease) {
        Dialled::Up(wire) => {
            lease.attach(wire);
            Step::Goes(State::Sending(lease, 0))
        }
        Dialled::NotYet => {
            let _pending: Poll<()> = cx.register(dial.source(), waker);
            Step::Waits(State::Dialling(lease))
        }
        Dialled::Fault => {
            *reason = dial.reason();
            abandon(cache, lease, now);
            Step::Goes(State::Finished(Done::Bad(Fault::Dial)))
        }
    }
}
