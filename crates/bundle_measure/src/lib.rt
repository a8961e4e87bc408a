//! A static library that only measures: a program that counts instructions calls it. It is not a
//! part of the product.
#![tactic(auto)]

ghost use Rattle.std.specs.Prelude.{◌≡◌, ◌≤◌, true, false, is_some, All, IfSome, OnSome};
ghost use Rattle.host_state.specs.Calls.{is_queued};
ghost use Rattle.bundle.specs.Lease.{IsBookedHere, IsMadeAt};
ghost use Rattle.bundle.specs.Replies.{GivesBooking, GivesLease, IfBack, IfGot, is_halfway};

use budget::{GREATEST_LIMIT, Limits, Lobby, Pass, PlainBudget, Refusal};
use bundle::{Back, Booking, Bundle, Did, Got, Lease, Ticket};
use conn_log::Want;
use persistence::{Facts, Framing, Version};
use std::alloc::Global;
use std::marker::Model;

/// A response that lets its connection persist.
const KEEP: Facts = Facts {
    version: Version::V11,
    close: false,
    keep_alive: false,
    request_close: false,
    framing: Framing::Counted,
    both_lengths: false,
    upgraded: false,
    whole: true,
    surplus: false,
};

/// Host 0 with a plain budget, of which it holds what its log tells, a lobby that lists it where it
/// is queued, and a pass that is enrolled there.
struct Host {
    bundle: Bundle<()>,
    budget: PlainBudget,
    lobby: Lobby,
    pass: Pass<Did>,
}

impl Model for Host {
    ghost use Rattle.std.specs.Prelude.{◌≡◌, ◌<◌, length};
    ghost use Rattle.budget.specs.Accounts.{IsEnrolledAt};
    ghost use Rattle.budget.specs.Plain.{held_at_host};
    ghost use Rattle.host_state.specs.Calls.{is_queued};
    ghost use Rattle.bundle.specs.Lease.{HostShown};
    ghost use Rattle.host_state.specs.Counts.{held_by};
    ghost use Rattle.host_state.specs.Orders.{Lists};

    ghost Value = { HostShown (Unit {0}) };

    ghost view = { λ host. host.bundle };

    ghost invariant = { λ host. record {
      index : host.bundle.host ≡ 0;
      there : 0 < length host.budget.hosts;
      part : held_at_host host.budget.hosts 0 ≡ held_by host.bundle.log;
      lists : Lists 0 (is_queued host.bundle.settings host.bundle.log) host.lobby;
      enrolled : IsEnrolledAt host.pass host.bundle.host host.bundle.tables.starts;
    } };
}

impl Drop for Host {
    fn drop(self) {
        let Host {
            bundle: _,
            budget: _,
            lobby: _,
            pass,
        } = self;
        pass.discard();
    }
}

impl Host {
    /// A host that may have so many open connections, under no other limit that it can reach.
    fn new(alloc: Global, limit: u32) -> Result<Host, Refusal> {
        let Ok(limits) = Limits::new(0, 0, GREATEST_LIMIT) else {
            return Err(Refusal::BadLimit);
        };
        let mut bundle = Bundle::new(alloc, limit, 0, 1)?;
        let budget = PlainBudget::new(alloc, limits, 1)?;
        let lobby = Lobby::new(alloc, 1)?;
        let mut pass = Pass::new(alloc, 1)?;
        bundle.enrol(&mut pass);
        Ok(Host {
            bundle,
            budget,
            lobby,
            pass,
        })
    }
}

/// Leaves so many connections of a host idle, then acquires and gives back one so many times.
/// Answers how many of those acquires reused a connection: all, unless memory ran out.
#[unsafe(no_mangle)]
pub extern "C" fn warm_rounds(alloc: Global, idle: u32, rounds: u64) -> u64
    ensures { result ≤ rounds }
{
    let Ok(mut host) = Host::new(alloc, u32::MAX) else {
        return 0;
    };
    let mut leases = Vec::new(alloc);
    open_all(&mut host, &mut leases, idle, rounds);
    give_back_all(&mut host, leases);
    if host.bundle.queued() {
        return 0;
    }
    use_often(&mut host, rounds)
}

/// Leaves so many connections idle at a host that may have no more, then opens another one and
/// gives it back so many times, for which the oldest is closed each time. What is wanted is a new
/// connection, or else one of a lane that none of them is of, so that they are all searched.
/// Answers how many were opened: all, unless memory ran out.
#[unsafe(no_mangle)]
pub extern "C" fn closing_rounds(alloc: Global, idle: u32, rounds: u32, is_new_wanted: bool) -> u64
    ensures { result ≤ rounds }
{
    let Ok(mut host) = Host::new(alloc, idle) else {
        return 0;
    };
    let mut leases = Vec::new(alloc);
    open_all(&mut host, &mut leases, idle, u64::from(rounds));
    give_back_all(&mut host, leases);
    if host.bundle.queued() {
        return 0;
    }
    open_often(&mut host, rounds, is_new_wanted)
}

/// Opens so many connections, each for a transfer of its own.
fn open_all(host: &mut Host, leases: &mut Vec<Lease<()>>, count: u32, max_age: u64)
    requires made_here { All (IsMadeAt host.old.tables) leases.old.items }
    ensures made_here { All (IsMadeAt host.new.tables) leases.new.items }
{
    for transfer in 0..count {
        open_one(host, leases, want_of(u64::from(transfer), max_age));
    }
}

/// Gives each of them back.
fn give_back_all(host: &mut Host, leases: Vec<Lease<()>>)
    requires made_here { All (IsMadeAt host.old.tables) leases.items }
{
    let mut leases = leases;
    while let Some(lease) = leases.pop() {
        give_back(host, lease, 0);
    }
    leases.destroy_empty();
}

/// Acquires and gives back so many times, until there is no lease, and answers how often an idle
/// connection was reused.
fn use_often(host: &mut Host, rounds: u64) -> u64
    requires { is_queued host.old.settings host.old.log ≡ false }
    ensures { result ≤ rounds }
{
    let mut reused = 0;
    for round in 0..rounds {
        match use_once(host, want_of(round, rounds), round) {
            Some(true) => reused += 1,
            Some(false) => {}
            None => return reused,
        }
    }
    reused
}

/// Acquires a new connection so many times, each of a lane of its own, and gives it back, until
/// there is no lease. Answers how often one was opened.
fn open_often(host: &mut Host, rounds: u32, fresh: bool) -> u64
    requires { is_queued host.old.settings host.old.log ≡ false }
    ensures { result ≤ rounds }
{
    let mut opened = 0;
    for round in 0..rounds {
        let want = Want {
            transfer: u64::from(round),
            lane: round.saturating_add(1),
            max_age: u64::from(rounds),
            max_life: 0,
            fresh,
            forbid_reuse: false,
        };
        match use_once(host, want, u64::from(round)) {
            Some(false) => opened += 1,
            Some(true) => {}
            None => return opened,
        }
    }
    opened
}

/// Opens a connection for the transfer of that want.
fn open_one(host: &mut Host, leases: &mut Vec<Lease<()>>, want: Want)
    requires made_here { All (IsMadeAt host.old.tables) leases.old.items }
    ensures made_here { All (IsMadeAt host.new.tables) leases.new.items }
{
    let Ok(got) = acquire(host, want, 0) else {
        return;
    };
    if let Some(lease) = lease_of(host, got, 0) {
        if let Err(failed) = leases.push(lease) {
            give_back(host, failed.value, 0);
        }
    }
}

/// Acquires a connection at a host that is not queued, and gives it back. Answers whether it was
/// idle before, if there was one.
#[inline(always)]
fn use_once(host: &mut Host, want: Want, moment: u64) -> Option<bool>
    requires { is_queued host.old.settings host.old.log ≡ false }
    ensures { OnSome result (is_queued host.new.settings host.new.log ≡ false) }
{
    match acquire(host, want, moment) {
        Ok(Got::Lease(lease)) => {
            let reused = lease.reused();
            give_back_unqueued(host, lease, moment);
            Some(reused)
        }
        Ok(got) => {
            if let Some(lease) = lease_of(host, got, moment) {
                give_back(host, lease, moment);
            }
            None
        }
        Err(_) => None,
    }
}

#[inline(always)]
fn acquire(host: &mut Host, want: Want, moment: u64) -> Result<Got<()>, Refusal>
    ensures booked { IfGot result (λ got. GivesBooking got (IsBookedHere host.new)) }
    ensures made_here { IfGot result (λ got. GivesLease got (IsMadeAt host.new.tables)) }
    ensures tables { host.new.tables ≡ host.old.tables }
    ensures mark { is_queued host.new.settings host.new.log
        ≡ is_queued host.old.settings host.old.log }
{
    let mut permits = host.budget.at(0);
    host.bundle
        .acquire(want, moment, &mut permits, &mut host.pass)
}

/// The lease that an acquire gave. One that is halfway has its last try; a transfer that waits
/// gives up.
fn lease_of(host: &mut Host, got: Got<()>, moment: u64) -> Option<Lease<()>>
    requires booked { GivesBooking got (IsBookedHere host.old) }
    requires made_here { GivesLease got (IsMadeAt host.old.tables) }
    ensures made_here { IfSome result (IsMadeAt host.new.tables) }
    ensures tables { host.new.tables ≡ host.old.tables }
{
    let got = match got {
        Got::NoRoom(no_room) => {
            let (booking, _short) = no_room.part();
            retry(host, booking, moment)
        }
        Got::Again(booking) => retry(host, booking, moment),
        got => got,
    };
    match got {
        Got::Lease(lease) => Some(lease),
        Got::Wait(ticket) => {
            leave(host, ticket, moment);
            None
        }
        Got::NoRoom(_no_room) => unreachable!(),
        Got::Again(_booking) => unreachable!(),
    }
}

/// The last try of an acquire that is halfway.
fn retry(host: &mut Host, booking: Booking, moment: u64) -> Got<()>
    requires { IsBookedHere host.old booking }
    ensures done { is_halfway result ≡ false }
    ensures made_here { GivesLease result (IsMadeAt host.new.tables) }
    ensures tables { host.new.tables ≡ host.old.tables }
{
    let mut permits = host.budget.at(0);
    let (lobby, pass) = (Some(&mut host.lobby), &mut host.pass);
    host.bundle
        .retry(booking, moment, &mut permits, lobby, pass)
}

/// Gives a lease back at a host that may be queued.
fn give_back(host: &mut Host, lease: Lease<()>, moment: u64)
    requires here { lease.tables ≡ host.old.tables }
    ensures tables { host.new.tables ≡ host.old.tables }
{
    let lease = with_stream(lease);
    let mut permits = host.budget.at(0);
    let (lobby, pass) = (Some(&mut host.lobby), &mut host.pass);
    let back = host
        .bundle
        .give_back(lease, KEEP, moment, pass, &mut permits, lobby, true);
    spend_rest(host, back, moment);
}

/// The same at a host that is not queued, and so needs no lobby.
#[inline(always)]
fn give_back_unqueued(host: &mut Host, lease: Lease<()>, moment: u64)
    requires here { lease.tables ≡ host.old.tables }
    requires mark { is_queued host.old.settings host.old.log ≡ false }
    ensures { is_queued host.new.settings host.new.log ≡ false }
{
    let lease = with_stream(lease);
    let mut permits = host.budget.at(0);
    let pass = &mut host.pass;
    let back = host
        .bundle
        .give_back(lease, KEEP, moment, pass, &mut permits, None, true);
    spend_rest(host, back, moment);
}

/// Spends the lease that a give back may leave.
#[inline(always)]
fn spend_rest(host: &mut Host, back: Back<()>, moment: u64)
    requires made_here { IfBack back (IsMadeAt host.old.tables) }
    ensures mark { is_queued host.old.settings host.old.log ≡ false →
        is_queued host.new.settings host.new.log ≡ false }
    ensures tables { host.new.tables ≡ host.old.tables }
{
    match back {
        Back::Spent { freed: _ } => {}
        Back::Strange(stray) => stray.scrap(),
        Back::NoKeep(no_keep) => {
            let (lease, _short) = no_keep.part();
            abandon(host, lease, moment);
        }
        Back::Again(lease) => abandon(host, lease, moment),
    }
}

fn abandon(host: &mut Host, lease: Lease<()>, moment: u64)
    requires here { lease.tables ≡ host.old.tables }
    ensures mark { is_queued host.old.settings host.old.log ≡ false →
        is_queued host.new.settings host.new.log ≡ false }
    ensures tables { host.new.tables ≡ host.old.tables }
{
    let mut permits = host.budget.at(0);
    let (lobby, pass) = (Some(&mut host.lobby), &mut host.pass);
    let abandoned = host
        .bundle
        .abandon(lease, moment, pass, &mut permits, lobby);
    if let Err(stray) = abandoned {
        stray.scrap();
    }
}

fn leave(host: &mut Host, ticket: Ticket, moment: u64)
    ensures tables { host.new.tables ≡ host.old.tables }
{
    let mut permits = host.budget.at(0);
    let (lobby, pass) = (Some(&mut host.lobby), &mut host.pass);
    let withdrawn = host
        .bundle
        .withdraw(ticket, moment, pass, &mut permits, lobby);
    if let Err(stray) = withdrawn {
        stray.scrap();
    }
}

/// The lease with a stream; where it has none, an empty one.
fn with_stream(lease: Lease<()>) -> Lease<()>
    ensures stream { is_some result.stream ≡ true }
    ensures tables { result.tables ≡ lease.tables }
{
    let mut lease = lease;
    if !lease.has_stream() {
        lease.attach(());
    }
    lease
}

/// A want of lane 0. Its age is known only when it runs, so that its test is a part of the count.
fn want_of(transfer: u64, max_age: u64) -> Want {
    Want {
        transfer,
        lane: 0,
        max_age,
        max_life: 0,
        fresh: false,
        forbid_reuse: false,
    }
}
