//! Calls of one host.

ghost use Rattle.std.specs.Prelude.{◌≡◌, ◌<◌, length, IsSome};
ghost use Rattle.budget.specs.Accounts.{IsEnrolledAt};
ghost use Rattle.budget.specs.Plain.{held_at_host};
ghost use Rattle.bundle.specs.Around.{HoldsPart};
ghost use Rattle.host_state.specs.Counts.{held_by};

use crate::checks::check_eq;
use budget::{Limits, Pass, Permits, PlainBudget, Refusal, Tally};
use bundle::{Asker, Back, Bundle, Did, Got, Lease, Ticket};
use conn_key::Key;
use conn_log::Want;
use persistence::{Facts, Framing, Version};
use std::alloc::AllocGlobal;
use std::process::Abort;

/// A response that lets its connection persist.
pub(crate) const KEEP: Facts = Facts {
    version: Version::V11,
    close: false,
    keep_alive: false,
    request_close: false,
    framing: Framing::Counted,
    both_lengths: false,
    upgraded: false,
    whole: true,
    surplus: false,
};

/// Any connection of lane 0 will do for that transfer.
pub(crate) fn want_of(transfer: u64) -> Want {
    Want::of(transfer)
}

// A new host that may have one connection, whose number is `first`; a budget that limits nothing
// else; and a pass that is enrolled there.
fn new_host<R: Abort + AllocGlobal>(rt: &R, first: u32) -> (Bundle<u32>, PlainBudget, Pass<Did>)
    requires { 0 < first }
    ensures host { result.0.host ≡ 0 }
    ensures hosts { length result.1.hosts ≡ 1 }
    ensures part { held_at_host result.1.hosts 0 ≡ held_by result.0.log }
    ensures enrolled { IsEnrolledAt result.2 result.0.host result.0.tables.starts }
{
    let limits = Limits::new(1, 0, 4).expect(rt, "limits");
    let budget = PlainBudget::new(rt.alloc(), limits, 1).expect(rt, "memory");
    let mut bundle = Bundle::new(rt.alloc(), 1, 0, first).expect(rt, "memory");
    let mut pass = Pass::new(rt.alloc(), 1).expect(rt, "memory");
    bundle.enrol(&mut pass);
    (bundle, budget, pass)
}

// A lease of a new connection.
fn leased<P: Permits<Asker>>(
    rt: &impl Abort,
    bundle: &mut Bundle<u32>,
    want: Want,
    permits: &mut P,
    pass: &mut Pass<Did>,
) -> Lease<u32>
    requires enrolled { IsEnrolledAt pass.old bundle.old.host bundle.old.tables.starts }
    requires permits { HoldsPart P.stands P.held (held_by bundle.old.log) permits.old }
    ensures here { result.tables ≡ bundle.new.tables }
    ensures enrolled { IsEnrolledAt pass.new bundle.new.host bundle.new.tables.starts }
    ensures permits { HoldsPart P.stands P.held (held_by bundle.new.log) permits.new }
{
    match bundle.acquire(want, 0, permits, pass) {
        Ok(Got::Lease(lease)) => lease,
        Ok(_got) => panic!(rt; "no lease"),
        Err(refusal) => panic!(rt; "{refusal}"),
    }
}

// A ticket of a transfer that has to wait.
fn waits<P: Permits<Asker>>(
    rt: &impl Abort,
    bundle: &mut Bundle<u32>,
    want: Want,
    permits: &mut P,
    pass: &mut Pass<Did>,
) -> Ticket
    requires enrolled { IsEnrolledAt pass.old bundle.old.host bundle.old.tables.starts }
    requires permits { HoldsPart P.stands P.held (held_by bundle.old.log) permits.old }
    ensures tables { bundle.new.tables ≡ bundle.old.tables }
    ensures enrolled { IsEnrolledAt pass.new bundle.new.host bundle.new.tables.starts }
    ensures permits { HoldsPart P.stands P.held (held_by bundle.new.log) permits.new }
{
    match bundle.acquire(want, 0, permits, pass) {
        Ok(Got::Wait(ticket)) => ticket,
        Ok(_got) => panic!(rt; "no ticket"),
        Err(refusal) => panic!(rt; "{refusal}"),
    }
}

// A connection that is open and leased, with a stream.
fn with_stream(lease: Lease<u32>) -> Lease<u32>
    ensures tables { result.tables ≡ lease.tables }
    ensures stream { IsSome result.stream }
{
    let mut lease = lease;
    if !lease.has_stream() {
        lease.attach(5);
    }
    lease
}

#[test]
fn a_host_counts_what_is_over(rt: HostRuntime) {
    let (mut bundle, mut budget, mut pass) = new_host(&rt, 1);
    let mut permits = budget.at(0);
    let want = Want {
        lane: 3,
        ..want_of(1)
    };
    let lease = leased(&rt, &mut bundle, want, &mut permits, &mut pass);
    check_eq(&rt, lease.key(), Key { site: 0, lane: 3 });
    assert!(rt; !bundle.queued());
    if let Err(_stray) = bundle.abandon(lease, 0, &mut pass, &mut permits, None) {
        panic!(rt; "the lease is a stranger");
    }
    check_eq(&rt, bundle.gone(), 1);
    pass.discard();
}

#[test]
fn a_caller_enrols_its_pass(rt: HostRuntime) {
    let mut bundle = Bundle::<u32>::new(rt.alloc(), 1, 0, 1).expect(&rt, "memory");
    let mut pass = Pass::new(rt.alloc(), 1).expect(&rt, "memory");
    let mut own = Tally::new(rt.alloc()).expect(&rt, "memory");
    bundle_callers::enrol(&mut bundle, &mut pass, &mut own);
    check_eq(&rt, pass.is_enrolled(0), true);
    pass.discard();
}

// The last number is used, so that the acquire leaves no lease.
#[test]
fn a_caller_acquires(rt: HostRuntime) {
    let (mut bundle, mut budget, mut pass) = new_host(&rt, u32::MAX);
    let mut own = Tally::new(rt.alloc()).expect(&rt, "memory");
    let mut permits = budget.at(0);
    let lease = leased(&rt, &mut bundle, want_of(1), &mut permits, &mut pass);
    assert!(rt; !bundle.queued());
    if let Err(_stray) = bundle.abandon(lease, 0, &mut pass, &mut permits, None) {
        panic!(rt; "the lease is a stranger");
    }
    let want = want_of(2);
    match bundle_callers::acquire(&mut bundle, want, 0, &mut permits, &mut pass, &mut own) {
        Ok(_got) => panic!(rt; "a number is left"),
        Err(refusal) => check_eq(&rt, refusal, Refusal::Exhausted),
    }
    pass.discard();
}

#[test]
fn a_caller_gives_back(rt: HostRuntime) {
    let (mut bundle, mut budget, mut pass) = new_host(&rt, 1);
    let mut own = Tally::new(rt.alloc()).expect(&rt, "memory");
    let mut permits = budget.at(0);
    let lease = leased(&rt, &mut bundle, want_of(1), &mut permits, &mut pass);
    assert!(rt; !bundle.queued());
    let lease = with_stream(lease);
    match bundle_callers::give_back(
        &mut bundle,
        lease,
        KEEP,
        0,
        &mut permits,
        &mut pass,
        &mut own,
    ) {
        // a connection that is idle keeps its permit
        Back::Spent { freed } => check_eq(&rt, freed, false),
        _back => panic!(rt; "the lease came back"),
    }
    check_eq(&rt, pass.spent(0), 1);
    pass.discard();
}

// A ticket of another host is a stranger.
#[test]
fn a_caller_claims(rt: HostRuntime) {
    let (mut other, mut budget, mut own_pass) = new_host(&rt, 1);
    let mut permits = budget.at(0);
    let lease = leased(&rt, &mut other, want_of(1), &mut permits, &mut own_pass);
    let ticket = waits(&rt, &mut other, want_of(2), &mut permits, &mut own_pass);
    let (mut bundle, _budget, mut pass) = new_host(&rt, 1);
    let mut own = Tally::new(rt.alloc()).expect(&rt, "memory");
    match bundle_callers::claim(&mut bundle, ticket, &mut pass, &mut own) {
        Ok(_claimed) => panic!(rt; "the ticket is known"),
        Err(stray) => stray.scrap(),
    }
    assert!(rt; !other.queued());
    if let Err(_stray) = other.abandon(lease, 0, &mut own_pass, &mut permits, None) {
        panic!(rt; "the lease is a stranger");
    }
    own_pass.discard();
    pass.discard();
}
