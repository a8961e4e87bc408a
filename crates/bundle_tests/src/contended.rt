//! What no clause says of calls where the budget has to be asked again: that they change nothing
//! and succeed when they come again.
ghost use Rattle.std.specs.Prelude.{◌≡◌};
ghost use Rattle.bundle.specs.Lease.{IsMadeAt};
ghost use Rattle.bundle.specs.Replies.{IfBack, IfGot, GivesLease};

use crate::checks::check_eq;
use crate::desk::{
    KEEP, Stream, accept, again_of, attach_new, booked, booking_of, lease_of, spent, ticket_of,
    told_at_turn, want_of, with_stream,
};
use budget::{Held, Lobby, Pass, Permits, Refusal, Try};
use bundle::{Asker, Back, Booking, Bundle, Changed, Did, Got, Lease, Served, Ticket};
use std::alloc::Global;
use std::marker::Model;
use std::process::Abort;

// A part of a budget that answers what it is told to; only where it may is a permit given.
#[derive(Drop)]
struct Told {
    held: Held,
    answer: Try,
}

impl Permits<Asker> for Told {
    ghost use Rattle.std.specs.Prelude.{◌≡◌, refl};

    ghost stands = { λ part. Unit {0} };

    ghost held = { λ part. part.held };

    ghost stays = { λ x y. Unit {0} };

    ghost opening = { λ x y answer. Unit {0} };

    ghost keeping = { λ x y answer. Unit {0} };

    ghost asks_open = { λ x y answer. Unit {0} };

    ghost asks_kept = { λ x y answer. Unit {0} };

    ghost asked = { λ x y opens keeps. Unit {0} };

    ghost same_total = { λ x y. Unit {0} };

    ghost same_kept = { λ x y. Unit {0} };

    fn reserve_open(&mut self, _key: &Asker) -> Try {
        if self.answer != Try::Got || self.held.alive == u32::MAX {
            return if self.answer == Try::Got {
                Try::Full
            } else {
                self.answer
            };
        }
        self.held.alive += 1;
        Try::Got
    }

    fn reserve_kept(&mut self, _key: &Asker) -> Try {
        if self.answer != Try::Got || self.held.kept == u32::MAX {
            return if self.answer == Try::Got {
                Try::Full
            } else {
                self.answer
            };
        }
        self.held.kept += 1;
        Try::Got
    }

    fn release_open(&mut self) {
        self.held.alive -= 1;
    }

    fn release_kept(&mut self) {
        self.held.kept -= 1;
    }

    fn held(&self) -> Held {
        self.held
    }

    ghost stays_from_start = { λ x. tt };

    ghost stays_on = { λ x y z p q. tt };

    ghost asked_from_start = { λ x. tt };

    ghost asked_on = { λ x y z opens keeps more_opens more_keeps first later. tt };

    ghost not_asked_to_open = { λ x y s. tt };

    ghost not_asked_to_keep = { λ x y s. tt };

    ghost opening_since = { λ x y z answer s told. tt };

    ghost keeping_since = { λ x y z answer s told. tt };

    ghost opening_still = { λ x y z answer told s same. tt };

    ghost keeping_still = { λ x y z answer told s same. tt };

    ghost contended_to_open = { λ x y z told s. tt };

    ghost contended_to_keep = { λ x y z told s. tt };

    ghost same_total_on = { λ x y z p q. tt };

    ghost same_kept_on = { λ x y z p q. tt };

    ghost same_total_from_start = { λ x. tt };

    ghost same_kept_from_start = { λ x. tt };
}

// Host 0 under such a budget. What its part holds is what its log tells, the lobby lists it where
// it is queued, and the pass has a seat there. Contracts see at which tables its leases are made.
struct ToldHost {
    bundle: Bundle<Stream>,
    permits: Told,
    lobby: Lobby,
    pass: Pass<Did>,
}

impl Drop for ToldHost {
    fn drop(self) {
        let ToldHost {
            bundle: _,
            permits: _,
            lobby: _,
            pass,
        } = self;
        pass.discard();
    }
}

impl Model for ToldHost {
    ghost use Rattle.std.specs.Prelude.{◌≡◌};
    ghost use Rattle.budget.specs.Accounts.{IsEnrolledAt};
    ghost use Rattle.host_state.specs.Calls.{is_queued};
    ghost use Rattle.bundle.specs.Seats.{Tables};
    ghost use Rattle.host_state.specs.Counts.{held_by};
    ghost use Rattle.host_state.specs.Orders.{Lists};

    ghost Value = { Tables };

    ghost view = { λ told. told.bundle.tables };

    ghost invariant = { λ told. record {
      part : told.permits.held ≡ held_by told.bundle.log;
      lists : let host = told.bundle in
          Lists host.host (is_queued host.settings host.log) told.lobby;
      enrolled : IsEnrolledAt told.pass told.bundle.host told.bundle.tables.starts;
    } };
}

impl ToldHost {
    // The host may have so many open.
    fn new(alloc: Global, limit: u32, answer: Try) -> Result<Self, Refusal> {
        let mut bundle = Bundle::new(alloc, limit, 0, 1)?;
        let lobby = Lobby::new(alloc, 1)?;
        let mut pass = Pass::new(alloc, 1)?;
        bundle.enrol(&mut pass);
        Ok(ToldHost {
            bundle,
            permits: Told {
                held: Held { alive: 0, kept: 0 },
                answer,
            },
            lobby,
            pass,
        })
    }

    // From now on the budget answers that.
    fn answer(&mut self, answer: Try)
        ensures same { self.new ≡ self.old }
    {
        self.permits.answer = answer;
    }

    fn held(&self) -> Held {
        self.permits.held
    }

    // How many calls the pass was told of, and how many leases were spent with it.
    fn told(&self) -> (u64, u64) {
        (self.pass.calls(0), self.pass.spent(0))
    }

    fn acquire(&mut self, transfer: u64, now: u64) -> Result<Got<Stream>, Refusal>
        ensures made_here { IfGot result (λ got. GivesLease got (IsMadeAt self.old)) }
        ensures same { self.new ≡ self.old }
    {
        let want = want_of(transfer);
        self.bundle
            .acquire(want, now, &mut self.permits, &mut self.pass)
    }

    // Another try of an acquire that is halfway here.
    fn retry(&mut self, rt: &impl Abort, booking: Booking, now: u64) -> Got<Stream>
        ensures made_here { GivesLease result (IsMadeAt self.old) }
        ensures same { self.new ≡ self.old }
    {
        let booking = booked(rt, &self.bundle, booking);
        self.bundle
            .retry(booking, now, &mut self.permits, None, &mut self.pass)
    }

    // And the last one.
    fn retry_at_last(&mut self, rt: &impl Abort, booking: Booking, now: u64) -> Got<Stream>
        ensures made_here { GivesLease result (IsMadeAt self.old) }
        ensures same { self.new ≡ self.old }
    {
        let booking = booked(rt, &self.bundle, booking);
        let lobby = Some(&mut self.lobby);
        self.bundle
            .retry(booking, now, &mut self.permits, lobby, &mut self.pass)
    }

    fn give_back(
        &mut self,
        rt: &impl Abort,
        lease: Lease<Stream>,
        now: u64,
        close_if_full: bool,
    ) -> Back<Stream>
        requires here { lease.tables ≡ self.old }
        ensures made_here { IfBack result (IsMadeAt self.old) }
        ensures same { self.new ≡ self.old }
    {
        let lease = with_stream(rt, lease);
        let (permits, lobby) = (&mut self.permits, Some(&mut self.lobby));
        let pass = &mut self.pass;
        self.bundle
            .give_back(lease, KEEP, now, pass, permits, lobby, close_if_full)
    }

    fn abandon(&mut self, rt: &impl Abort, lease: Lease<Stream>, now: u64) -> bool
        requires here { lease.tables ≡ self.old }
        ensures same { self.new ≡ self.old }
    {
        let (permits, lobby) = (&mut self.permits, Some(&mut self.lobby));
        let pass = &mut self.pass;
        accept(rt, self.bundle.abandon(lease, now, pass, permits, lobby))
    }

    fn withdraw(&mut self, rt: &impl Abort, ticket: Ticket, now: u64) -> bool
        ensures same { self.new ≡ self.old }
    {
        let (permits, lobby) = (&mut self.permits, Some(&mut self.lobby));
        let pass = &mut self.pass;
        match self.bundle.withdraw(ticket, now, pass, permits, lobby) {
            Ok(freed) => freed,
            Err(_stray) => panic!(rt; "the ticket is a stranger"),
        }
    }

    // A turn of the host, if it is queued and first.
    fn serve_queued(&mut self, now: u64) -> Option<Served>
        ensures same { self.new ≡ self.old }
    {
        if !self.bundle.queued() || self.lobby.first() != Some(self.bundle.host()) {
            return None;
        }
        let lobby = &mut self.lobby;
        Some(self.bundle.serve_queued(now, &mut self.permits, lobby))
    }

    fn set_host_limit(&mut self, limit: u32, now: u64) -> Result<Changed, Refusal>
        ensures same { self.new ≡ self.old }
    {
        let (lobby, pass) = (&mut self.lobby, &mut self.pass);
        self.bundle
            .set_host_limit(limit, now, &mut self.permits, lobby, pass)
    }
}

#[test]
fn an_acquire_is_tried_again(rt: HostRuntime) {
    let mut host = ToldHost::new(rt.alloc(), 4, Try::Contended).expect(&rt, "memory");
    let got = host.acquire(1, 0).expect(&rt, "memory");
    let booking = again_of(&rt, got);
    let booking = again_of(&rt, host.retry(&rt, booking, 1));
    let booking = again_of(&rt, host.retry_at_last(&rt, booking, 2));
    check_eq(
        &rt,
        (host.bundle.log().len(), host.lobby.first()),
        (0, None),
    );
    check_eq(&rt, host.told(), (0, 0));
    host.answer(Try::Got);
    let lease = lease_of(&rt, host.retry(&rt, booking, 3));
    check_eq(&rt, (lease.moment(), host.held().alive), (3, 1));
    check_eq(&rt, host.abandon(&rt, lease, 4), true);
    check_eq(&rt, host.held(), Held { alive: 0, kept: 0 });
}

#[test]
fn a_give_back_comes_again(rt: HostRuntime) {
    for &close_if_full in &[true, false] {
        let mut host = ToldHost::new(rt.alloc(), 4, Try::Got).expect(&rt, "memory");
        let got = host.acquire(1, 0).expect(&rt, "memory");
        let mut lease = lease_of(&rt, got);
        attach_new(&mut lease);
        host.answer(Try::Contended);
        let back = host.give_back(&rt, lease, 1, close_if_full);
        let lease = match back {
            Back::Again(lease) => lease,
            _back => panic!(rt; "it does not come again"),
        };
        check_eq(
            &rt,
            (host.bundle.log().len(), lease.has_stream()),
            (1, true),
        );
        check_eq(&rt, host.told(), (1, 0));
        host.answer(Try::Got);
        let back = host.give_back(&rt, lease, 2, close_if_full);
        check_eq(&rt, spent(&rt, back), false);
        check_eq(&rt, host.held(), Held { alive: 1, kept: 1 });
        check_eq(&rt, host.told(), (2, 1));
    }
}

#[test]
fn a_turn_and_a_new_limit_come_again(rt: HostRuntime) {
    let mut host = ToldHost::new(rt.alloc(), 1, Try::Full).expect(&rt, "memory");
    let got = host.acquire(1, 0).expect(&rt, "memory");
    let booking = booking_of(&rt, got);
    let first = ticket_of(&rt, host.retry_at_last(&rt, booking, 0));
    host.answer(Try::Contended);
    let turn = told_at_turn(host.serve_queued(1));
    let first_in_lobby = host.lobby.first();
    check_eq(&rt, (turn, first_in_lobby), (Some(Try::Contended), Some(0)));
    host.answer(Try::Got);
    let turn = told_at_turn(host.serve_queued(2));
    check_eq(&rt, (turn, host.lobby.first()), (Some(Try::Got), None));
    let got = host.acquire(2, 3);
    let second = ticket_of(&rt, got.expect(&rt, "an answer"));
    host.answer(Try::Contended);
    let changed = host.set_host_limit(2, 4);
    check_eq(
        &rt,
        (changed, host.bundle.log().len()),
        (Ok(Changed::Again), 3),
    );
    check_eq(&rt, host.told(), (2, 0));
    host.answer(Try::Got);
    check_eq(
        &rt,
        host.set_host_limit(2, 5),
        Ok(Changed::Done { freed: false }),
    );
    check_eq(&rt, host.held(), Held { alive: 2, kept: 0 });
    host.withdraw(&rt, first, 9);
    host.withdraw(&rt, second, 9);
    check_eq(&rt, host.held(), Held { alive: 0, kept: 0 });
}

#[test]
fn a_booking_is_tried_again_at_its_own_host(rt: HostRuntime) {
    let mut host = ToldHost::new(rt.alloc(), 4, Try::Contended).expect(&rt, "memory");
    let other = ToldHost::new(rt.alloc(), 4, Try::Got).expect(&rt, "memory");
    let got = host.acquire(1, 0).expect(&rt, "memory");
    let booking = again_of(&rt, got);
    assert!(rt; host.bundle.has_booked(&booking));
    if other.bundle.has_booked(&booking) {
        panic!(rt; "it is booked where it was not made");
    }
    match host.acquire(1, 1) {
        Ok(_got) => panic!(rt; "its transfer is booked no more"),
        Err(refusal) => check_eq(&rt, refusal, Refusal::TransferBusy),
    }
    host.answer(Try::Got);
    let lease = lease_of(&rt, host.retry(&rt, booking, 2));
    check_eq(&rt, (lease.transfer(), lease.moment()), (1, 2));
    check_eq(&rt, host.abandon(&rt, lease, 3), true);
}
