//! Rows of steps: what is done at a desk, and what each step is answered. The leases, tickets and
//! bookings that a step gives stay at hand, by their transfers, for the later ones.

ghost use Rattle.std.specs.Prelude.{◌≡◌, ◌++◌, ◌∷◌, []};
ghost use Rattle.bundle.specs.Lease.{IsMadeAt};
ghost use Rattle.bundle.specs.Replies.{GivesLease, IfBack};

use crate::checks::check_eq;
use crate::desk::{Desk, KEEP, Stream, attach_new, stream_of, told, told_at_turn, want_of};
use budget::{Refusal, Try};
use bundle::{Back, Booking, Changed, Claimed, Did, Got, Lease, Shortage, Snapshot, Ticket};
use conn_key::Key;
use conn_log::{Cause, Entry, Event, Stamp, Want};
use persistence::Facts;
use std::alloc::Global;
use std::marker::Model;
use std::process::Abort;

/// What is done at the desk, or read there. Transfers come first, and moments after them.
#[derive(Clone, Copy)]
pub(crate) enum Step {
    /// The transfer acquires a connection, and wants nothing else.
    Get(u64, u64),
    /// The same of a transfer that does.
    Ask(Want, u64),
    /// The acquire that is halfway is tried again.
    Retry(u64),
    /// And for the last time.
    LastTry(u64),
    Claim(u64),
    Leave(u64, u64),
    /// The lease comes back after a response that lets its connection persist.
    Back(u64, u64),
    /// The same, with a close where the connection is not kept.
    BackOrClose(u64, u64),
    /// It comes back after a response with which its connection ends.
    BackToClose(u64, u64),
    Drop(u64, u64),
    /// The limit of the host, and the moment.
    Limit(u32, u64),
    /// The moment, the most seconds idle, and the most seconds open.
    Prune(u64, u64, u64),
    /// The connection that is idle since then, of that number, is closed for want of the room that
    /// the last answer told of, if it is the oldest; and the moment.
    Evict(u64, u32, u64),
    /// The host's turn, if it is queued and first.
    Serve(u64),
    /// The other host comes to the desk.
    Other,
    OpenElsewhere,
    CloseElsewhere,
    Look,
    Oldest,
    /// How many entries the log has.
    Length,
    /// The entry of that place.
    Entry(usize),
    /// Whether the host is queued, and which is the first in the lobby.
    Lobby,
    /// Whether the lobby lists that host.
    Listed(u32),
    /// What the pass remembers of that host.
    Told(usize),
    Counts,
}

/// What a step is answered.
#[derive(Clone, Copy, Debug, PartialEq, Eq)]
pub(crate) enum Said {
    /// A lease of a new connection: its number and moment.
    Opened(u32, u64),
    /// A lease of a connection that comes with the stream of its number.
    Reused(u32, u64),
    Waits,
    NoRoom,
    Refused(Refusal),
    Still,
    Stranger,
    /// A lease or a ticket is spent, or a limit changed; whether fewer are open than before.
    Freed(bool),
    /// The lease came back: its connection is not kept.
    NotKept,
    Was(bool),
    Pruned(u32),
    /// What the budget answered at a turn; none if the host has no turn.
    Turn(Option<Try>),
    Elsewhere(Try),
    Done,
    /// How many are open, idle and leased, how many transfers wait, and whether the host is queued.
    Look(u32, u32, u32, u32, bool),
    /// Since when the oldest is idle, and its number.
    Oldest(u64, u32),
    NoneIdle,
    Length(usize),
    /// The moment of a closing, its connection and its cause.
    Closed(u64, u32, Cause),
    /// The moment of a change of the limit, and the limit.
    Limited(u64, u32),
    OtherEntry,
    Lobby(bool, Option<u32>),
    /// The last answer, how many calls answered, and how many leases were spent.
    Told(Option<Did>, u64, u64),
    /// How many starts there were, how many are over, and how many connections are held.
    Counts(u64, u64, u64),
}

/// What happens, with a name, under the limits of a host, of the total, and of those kept, from
/// that connection number on.
pub(crate) type Row = (&'static str, (u32, u32, u32), u32, &'static [(Step, Said)]);

/// A response with which its connection ends.
const CLOSE: Facts = Facts {
    close: true,
    ..KEEP
};

/// A desk, and what the transfers of its two hosts have. Each lease is of the host that it is kept
/// for; contracts see at which tables those are made.
struct Keeper {
    desk: Desk<Stream>,
    leases: Vec<Lease<Stream>>,
    others: Vec<Lease<Stream>>,
    tickets: Vec<Ticket>,
    bookings: Vec<Booking>,
    // One of each answer that told of no room, and was not spent yet.
    shortages: Vec<Shortage>,
}

impl Model for Keeper {
    ghost use Rattle.std.specs.List.{All};
    ghost use Rattle.bundle.specs.Lease.{IsMadeAt};
    ghost use Rattle.bundle_tests.specs.Desks.{TwoHosts};

    ghost Value = { TwoHosts };

    ghost view = { λ keeper. keeper.desk };

    ghost invariant = { λ keeper. record {
      leases : All (IsMadeAt keeper.desk.here) keeper.leases.items;
      others : All (IsMadeAt keeper.desk.there) keeper.others.items;
    } };
}

impl Keeper {
    fn new(alloc: Global, desk: Desk<Stream>) -> Self {
        Keeper {
            desk,
            leases: Vec::new(alloc),
            others: Vec::new(alloc),
            tickets: Vec::new(alloc),
            bookings: Vec::new(alloc),
            shortages: Vec::new(alloc),
        }
    }

    // Ends it; all leases, tickets and bookings have to be spent.
    fn close(self, rt: &impl Abort) {
        let Keeper {
            desk: _,
            leases,
            others,
            tickets,
            bookings,
            shortages: _,
        } = self;
        destroy(rt, leases);
        destroy(rt, others);
        destroy(rt, tickets);
        destroy(rt, bookings);
    }

    fn said(&mut self, rt: &impl Abort, step: Step) -> Said {
        match step {
            Step::Get(transfer, now) => self.acquire(rt, want_of(transfer), now),
            Step::Ask(want, now) => self.acquire(rt, want, now),
            Step::Retry(now) => self.retry(rt, now),
            Step::LastTry(now) => self.retry_at_last(rt, now),
            Step::Claim(transfer) => self.claim(rt, transfer),
            Step::Leave(transfer, now) => self.leave(rt, transfer, now),
            Step::Back(transfer, now) => self.back(rt, transfer, KEEP, now, false),
            Step::BackOrClose(transfer, now) => self.back(rt, transfer, KEEP, now, true),
            Step::BackToClose(transfer, now) => self.back(rt, transfer, CLOSE, now, false),
            Step::Drop(transfer, now) => self.abandon(rt, transfer, now),
            Step::Limit(limit, now) => self.limit(rt, limit, now),
            _other => self.rest(rt, step),
        }
    }

    // What the steps are answered that no single transfer takes.
    fn rest(&mut self, rt: &impl Abort, step: Step) -> Said {
        match step {
            Step::Prune(now, max_age, max_life) => {
                Said::Pruned(self.desk.prune(now, max_age, max_life))
            }
            Step::Evict(since, number, now) => {
                let host = self.desk.bundle.host();
                let stamp = Stamp {
                    since,
                    host,
                    number,
                };
                let short = self
                    .shortages
                    .pop()
                    .expect(rt, "an answer that told of no room");
                Said::Was(self.desk.evict_oldest(stamp, short, now))
            }
            Step::Serve(now) => Said::Turn(told_at_turn(self.desk.serve_queued(now))),
            Step::Other => self.turn_to_other(),
            Step::OpenElsewhere => Said::Elsewhere(self.desk.open_elsewhere()),
            Step::CloseElsewhere => {
                self.desk.close_elsewhere();
                Said::Done
            }
            Step::Counts => {
                let (starts, gone, held) = self.desk.counts();
                Said::Counts(starts, gone, held)
            }
            _other => shown(rt, &self.desk, step),
        }
    }

    fn turn_to_other(&mut self) -> Said {
        self.desk.turn_to_other();
        std::mem::swap(&mut self.leases, &mut self.others);
        Said::Done
    }

    fn acquire(&mut self, rt: &impl Abort, want: Want, now: u64) -> Said {
        match self.desk.acquire(want, now) {
            Ok(got) => self.keep_got(rt, got, want, now),
            Err(refusal) => Said::Refused(refusal),
        }
    }

    fn retry(&mut self, rt: &impl Abort, now: u64) -> Said {
        let booking = self.bookings.pop().expect(rt, "a booking");
        let want = booking.want();
        let got = self.desk.retry(rt, booking, now);
        self.keep_got(rt, got, want, now)
    }

    fn retry_at_last(&mut self, rt: &impl Abort, now: u64) -> Said {
        let booking = self.bookings.pop().expect(rt, "a booking");
        let want = booking.want();
        let got = self.desk.retry_at_last(rt, booking, now);
        self.keep_got(rt, got, want, now)
    }

    // Keeps what an acquire gives, which has to be of the host and for that want.
    fn keep_got(&mut self, rt: &impl Abort, got: Got<Stream>, want: Want, now: u64) -> Said
        requires made_here { GivesLease got (IsMadeAt self.old.here) }
    {
        match got {
            Got::Lease(lease) => self.keep(rt, lease, want),
            Got::Wait(ticket) => {
                let site = self.desk.bundle.host();
                let found = (ticket.site(), ticket.transfer(), ticket.moment());
                check_eq(rt, found, (site, want.transfer, now));
                check_eq(rt, ticket.want(), want);
                keep(rt, &mut self.tickets, ticket);
                Said::Waits
            }
            Got::NoRoom(no_room) => {
                let (booking, short) = no_room.part();
                keep(rt, &mut self.shortages, short);
                let site = self.desk.bundle.host();
                let found = (booking.site(), booking.transfer());
                check_eq(rt, found, (site, want.transfer));
                check_eq(rt, booking.want(), want);
                keep(rt, &mut self.bookings, booking);
                Said::NoRoom
            }
            Got::Again(_booking) => panic!(rt; "the budget has to be asked again"),
        }
    }

    // Keeps a lease, which has to be of the host and for that want.
    fn keep(&mut self, rt: &impl Abort, lease: Lease<Stream>, want: Want) -> Said
        requires here { lease.tables ≡ self.old.here }
    {
        let mut lease = lease;
        let site = self.desk.bundle.host();
        check_lease(rt, &lease, site, want);
        let said = lease_said(rt, &mut lease);
        attach_new(&mut lease);
        self.keep_lease(rt, lease);
        said
    }

    fn keep_lease(&mut self, rt: &impl Abort, lease: Lease<Stream>)
        requires here { lease.tables ≡ self.old.here }
    {
        keep(rt, &mut self.leases, lease);
    }

    // The transfer's lease.
    fn take(&mut self, rt: &impl Abort, transfer: u64) -> Lease<Stream>
        ensures here { result.tables ≡ self.new.here }
        ensures same { self.new ≡ self.old }
    {
        let place = place_of_lease(&self.leases, transfer);
        assert!(rt; place < self.leases.len(), "no lease of {transfer}");
        self.leases.remove(place)
    }

    // The transfer's ticket.
    fn take_ticket(&mut self, rt: &impl Abort, transfer: u64) -> Ticket
        ensures same { self.new ≡ self.old }
    {
        let place = place_of_ticket(&self.tickets, transfer);
        assert!(rt; place < self.tickets.len(), "no ticket of {transfer}");
        self.tickets.remove(place)
    }

    fn claim(&mut self, rt: &impl Abort, transfer: u64) -> Said {
        let ticket = self.take_ticket(rt, transfer);
        let want = ticket.want();
        match self.desk.claim(ticket) {
            Ok(Claimed::Lease(lease)) => self.keep(rt, lease, want),
            Ok(Claimed::Still(ticket)) => {
                keep(rt, &mut self.tickets, ticket);
                Said::Still
            }
            Err(stray) => {
                keep(rt, &mut self.tickets, stray.keep());
                Said::Stranger
            }
        }
    }

    fn leave(&mut self, rt: &impl Abort, transfer: u64, now: u64) -> Said {
        let ticket = self.take_ticket(rt, transfer);
        match self.desk.withdraw(ticket, now) {
            Ok(freed) => Said::Freed(freed),
            Err(stray) => {
                keep(rt, &mut self.tickets, stray.keep());
                Said::Stranger
            }
        }
    }

    fn back(
        &mut self,
        rt: &impl Abort,
        transfer: u64,
        facts: Facts,
        now: u64,
        close_if_full: bool,
    ) -> Said {
        let lease = self.take(rt, transfer);
        let back = self.desk.give_back(rt, lease, facts, now, close_if_full);
        self.keep_back(rt, back)
    }

    // Keeps a lease that comes back, which has to have its stream.
    fn keep_back(&mut self, rt: &impl Abort, back: Back<Stream>) -> Said
        requires made_here { IfBack back (IsMadeAt self.old.here) }
    {
        match back {
            Back::Spent { freed } => Said::Freed(freed),
            Back::NoKeep(no_keep) => {
                let (lease, short) = no_keep.part();
                keep(rt, &mut self.shortages, short);
                assert!(rt; lease.has_stream());
                self.keep_lease(rt, lease);
                Said::NotKept
            }
            Back::Again(_lease) => panic!(rt; "the budget has to be asked again"),
            Back::Strange(_stray) => panic!(rt; "the lease is a stranger"),
        }
    }

    fn abandon(&mut self, rt: &impl Abort, transfer: u64, now: u64) -> Said {
        let lease = self.take(rt, transfer);
        match self.desk.abandon(lease, now) {
            Ok(freed) => Said::Freed(freed),
            Err(_stray) => panic!(rt; "the lease is a stranger"),
        }
    }

    fn limit(&mut self, rt: &impl Abort, limit: u32, now: u64) -> Said {
        match self.desk.set_host_limit(limit, now) {
            Ok(Changed::Done { freed }) => Said::Freed(freed),
            Ok(Changed::Again) => panic!(rt; "the budget has to be asked again"),
            Err(refusal) => Said::Refused(refusal),
        }
    }
}

// Keeps one more.
fn keep<T>(rt: &impl Abort, list: &mut Vec<T>, item: T)
    ensures { list.new.items ≡ list.old.items ++ item ∷ [] }
{
    if let Err(_failed) = list.push(item) {
        panic!(rt; "out of memory");
    }
}

// Ends a list that has to be empty.
fn destroy<T>(rt: &impl Abort, list: Vec<T>) {
    assert!(rt; list.is_empty(), "not all is spent");
    list.destroy_empty();
}

// The place of the transfer's lease; past all where it has none.
fn place_of_lease(leases: &[Lease<Stream>], transfer: u64) -> usize {
    for place in 0..leases.len() {
        if leases[place].transfer() == transfer {
            return place;
        }
    }
    leases.len()
}

// The same of its ticket.
fn place_of_ticket(tickets: &[Ticket], transfer: u64) -> usize {
    for place in 0..tickets.len() {
        if tickets[place].transfer() == transfer {
            return place;
        }
    }
    tickets.len()
}

// A lease has to be of the host, and for that want.
fn check_lease(rt: &impl Abort, lease: &Lease<Stream>, site: u32, want: Want) {
    let lane = want.lane;
    check_eq(rt, lease.key(), Key { site, lane });
    check_eq(rt, (lease.site(), lease.transfer()), (site, want.transfer));
    check_eq(rt, lease.want(), want);
}

// What a lease tells: a new connection has no stream, and another one that of its number.
fn lease_said(rt: &impl Abort, lease: &mut Lease<Stream>) -> Said
    ensures same { lease.new ≡ lease.old }
{
    let (number, moment) = (lease.number(), lease.moment());
    if lease.reused() {
        check_eq(rt, stream_of(lease), Some(Stream(number)));
        return Said::Reused(number, moment);
    }
    check_eq(rt, stream_of(lease), None);
    Said::Opened(number, moment)
}

// What is read at the desk.
fn shown(rt: &impl Abort, desk: &Desk<Stream>, step: Step) -> Said {
    match step {
        Step::Look => look_said(desk.bundle.look()),
        Step::Oldest => oldest_said(rt, desk.bundle.host(), desk.bundle.oldest()),
        Step::Length => Said::Length(desk.bundle.log().len()),
        Step::Entry(place) => entry_said(desk.bundle.log().get(place)),
        Step::Lobby => Said::Lobby(desk.bundle.queued(), desk.lobby.first()),
        Step::Listed(host) => Said::Was(desk.lobby.listed(host)),
        Step::Told(host) => {
            let (last, calls, spent) = told(rt, desk, host);
            Said::Told(last, calls, spent)
        }
        _other => panic!(rt; "nothing to be read"),
    }
}

fn look_said(counts: Snapshot) -> Said {
    let Snapshot {
        alive,
        idle,
        leased,
        waiting,
        queued,
    } = counts;
    Said::Look(alive, idle, leased, waiting, queued)
}

// The oldest has to be the host's.
fn oldest_said(rt: &impl Abort, host: u32, oldest: Option<Stamp>) -> Said {
    match oldest {
        Some(stamp) => {
            check_eq(rt, stamp.host, host);
            Said::Oldest(stamp.since, stamp.number)
        }
        None => Said::NoneIdle,
    }
}

fn entry_said(entry: Option<Entry>) -> Said {
    match entry {
        Some(
            Entry {
                moment,
                event: Event::Closed { connection, cause },
            },
        ) => Said::Closed(moment, connection, cause),
        Some(
            Entry {
                moment,
                event: Event::Limit { limit },
            },
        ) => Said::Limited(moment, limit),
        _other => Said::OtherEntry,
    }
}

/// Does the steps of a row at a new desk; each has to be answered as the row says.
pub(crate) fn run(
    rt: &impl Abort,
    alloc: Global,
    desk: Desk<Stream>,
    name: &str,
    steps: &[(Step, Said)],
) {
    let mut keeper = Keeper::new(alloc, desk);
    for place in 0..steps.len() {
        let (step, expected) = steps[place];
        let said = keeper.said(rt, step);
        assert_eq!(rt; said, expected, "{name}: step {place}");
    }
    keeper.close(rt);
}
