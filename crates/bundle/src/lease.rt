ghost use Rattle.std.specs.Prelude.{◌≡◌, is_some, IsSome, None, Some, true, false};
ghost use Rattle.std.specs.Option.{option_copied_mut};
ghost use Rattle.bundle.specs.Lease.{Leasing, lease_at, new_use, reuse_of};
ghost use Rattle.bundle.specs.Grants.{granted_use};
ghost use Rattle.std.specs.Borrow.{sem};

use crate::grant::Grant;
use crate::seats::LeaseSeat;
use crate::ticket::Ticket;
use conn_key::Key;
use conn_log::Want;
use std::marker::Model;

/// One transfer's use of one connection. It has to be spent at the host that gave it: given back,
/// or abandoned.
pub struct Lease<S> {
    used: Use<S>,
    seat: LeaseSeat,
}

impl<S> Model for Lease<S> {
    ghost use Rattle.std.specs.Prelude.{◌≡◌};
    ghost use Rattle.bundle.specs.Lease.{Leasing, lease_at};

    ghost Value = { Leasing S };

    ghost view = { λ lease. lease_at lease.seat.tables lease.used };

    ghost invariant = { λ lease.
        lease.seat.pair ≡ (lease.used.start.number, lease.used.start.want.transfer) };
}

// What a lease tells, and its connection's stream.
// With the flags at the end six bytes of padding would follow them, which are copied apart.
pub(crate) struct Use<S> {
    host: u32,
    reused: bool,
    stream: Option<S>,
    number: u32,
    moment: u64,
    wanted: Want,
}

impl<S> Model for Use<S> {
    ghost use Rattle.bundle.specs.Lease.{Using};

    ghost Value = { Using S };

    ghost view = { λ used. record {
      site = used.host;
      start = record {
        number = used.number;
        want = used.wanted;
        moment = used.moment;
        reused = used.reused;
      };
      stream = used.stream;
    } };
}

impl<S> Use<S> {
    ghost use Rattle.bundle.specs.Lends.{use_lends_stream};

    // The use of a new connection, which has no stream yet.
    #[inline(always)]
    pub(crate) fn opened(host: u32, number: u32, want: Want, moment: u64) -> Self
        ensures { result ≡ new_use host number want moment }
    {
        Use {
            host,
            number,
            wanted: want,
            moment,
            reused: false,
            stream: None,
        }
    }

    // The use of a connection that was idle, with its stream.
    #[inline(always)]
    pub(crate) fn reusing(host: u32, number: u32, want: Want, moment: u64, stream: S) -> Self
        ensures { result ≡ reuse_of host number want moment stream }
    {
        Use {
            host,
            number,
            wanted: want,
            moment,
            reused: true,
            stream: Some(stream),
        }
    }

    // The use of what a transfer was granted.
    pub(crate) fn granted(host: u32, grant: Grant<S>) -> Self
        ensures { result ≡ granted_use host grant }
    {
        Use {
            host,
            number: grant.number,
            wanted: grant.want,
            moment: grant.moment,
            reused: grant.stream.is_some(),
            stream: grant.stream,
        }
    }

    // Takes its stream out.
    #[inline(always)]
    pub(crate) fn detach(&mut self) -> S
        requires { IsSome self.old.stream }
        ensures detached { self.old.stream ≡ Some result }
        ensures rest { self.new ≡ record self.old { stream = None } }
    {
        self.stream.take().unwrap()
    }

    // Its stream, to be read and written.
    #[inline(always)]
    pub(crate) fn stream_mut(&mut self) -> Option<&mut S>
        ensures* writes_back { sem 𝓛 (use_lends_stream S.row self.entry result) }
        ensures value { option_copied_mut result ≡ self.old.stream }
    {
        self.stream.as_mut()
    }

    // The stream, once the lease is spent.
    #[inline(always)]
    pub(crate) fn into_stream(self) -> Option<S>
        ensures { result ≡ self.stream }
    {
        let Use {
            host: _,
            number: _,
            wanted: _,
            moment: _,
            reused: _,
            stream,
        } = self;
        stream
    }

    #[inline(always)]
    pub(crate) fn number(&self) -> u32
        ensures { result ≡ self.now.start.number }
    {
        self.number
    }

    #[inline(always)]
    pub(crate) fn transfer(&self) -> u64
        ensures { result ≡ self.now.start.want.transfer }
    {
        self.wanted.transfer
    }

    #[inline(always)]
    pub(crate) fn forbids_reuse(&self) -> bool
        ensures { result ≡ self.now.start.want.forbid_reuse }
    {
        self.wanted.forbid_reuse
    }
}

impl<S: Drop> Use<S> {
    // Gives its stream back to it.
    #[inline(always)]
    pub(crate) fn attach(&mut self, stream: S)
        requires { self.old.stream ≡ None }
        ensures { self.new ≡ record self.old { stream = Some stream } }
    {
        self.stream = Some(stream);
    }
}

impl<S> Lease<S> {
    ghost use Rattle.bundle.specs.Lends.{lends_stream};

    // The lease of that use, with the seat of its pair.
    #[inline(always)]
    pub(crate) fn new(used: Use<S>, seat: LeaseSeat) -> Self
        requires { seat.pair ≡ (used.start.number, used.start.want.transfer) }
        ensures { result ≡ lease_at seat.tables used }
    {
        Lease { used, seat }
    }

    // Takes it apart, so that its host can take its seat back.
    #[inline(always)]
    pub(crate) fn take_apart(self) -> (Use<S>, LeaseSeat)
        ensures used { self ≡ lease_at result.1.tables result.0 }
        ensures pair { result.1.pair ≡ (self.start.number, self.start.want.transfer) }
    {
        let Lease { used, seat } = self;
        (used, seat)
    }

    // The stream of a lease that is given up: its pair stays held for good.
    pub(crate) fn into_stream(self) -> Option<S>
        ensures { result ≡ self.stream }
    {
        let (used, seat) = self.take_apart();
        seat.discard();
        used.into_stream()
    }

    /// The index of its host.
    #[inline(always)]
    pub fn site(&self) -> u32
        ensures { result ≡ self.now.site }
    {
        self.used.host
    }

    /// The key of its connection: its host's index, and its lane.
    pub fn key(&self) -> Key
        ensures { result ≡ record { site = self.now.site; lane = self.now.start.want.lane } }
    {
        Key {
            site: self.used.host,
            lane: self.used.wanted.lane,
        }
    }

    /// The number of its connection.
    pub fn number(&self) -> u32
        ensures { result ≡ self.now.start.number }
    {
        self.used.number
    }

    /// The transfer whose lease it is.
    pub fn transfer(&self) -> u64
        ensures { result ≡ self.now.start.want.transfer }
    {
        self.used.wanted.transfer
    }

    /// What the transfer wanted.
    pub fn want(&self) -> Want
        ensures { result ≡ self.now.start.want }
    {
        self.used.wanted
    }

    /// The moment of its start, in seconds.
    pub fn moment(&self) -> u64
        ensures { result ≡ self.now.start.moment }
    {
        self.used.moment
    }

    /// Whether its connection was idle before.
    pub fn reused(&self) -> bool
        ensures { result ≡ self.now.start.reused }
    {
        self.used.reused
    }

    /// Whether it has its connection's stream.
    pub fn has_stream(&self) -> bool
        ensures { result ≡ is_some self.now.stream }
    {
        self.used.stream.is_some()
    }

    /// The stream of its connection that it may have, to be read from and written to. Nothing else
    /// of the lease can change.
    pub fn stream_mut(&mut self) -> Option<&mut S>
        ensures* writes_back { sem 𝓛 (lends_stream S.row self.entry result) }
        ensures value { option_copied_mut result ≡ self.old.stream }
    {
        self.used.stream_mut()
    }
}

impl<S: Drop> Lease<S> {
    /// Gives it the stream of its new connection.
    pub fn attach(&mut self, stream: S)
        requires { self.old.stream ≡ None }
        ensures { self.new ≡ record self.old { stream = Some stream } }
    {
        self.used.attach(stream);
    }
}

/// A lease or a ticket that a bundle refused: it comes back, to be kept or scrapped. Only a
/// bundle's refusal makes one. It does not show which bundle refused: a ticket that another bundle
/// than its own refused may be let go too.
pub struct Stray<T> {
    value: T,
}

impl<T> Model for Stray<T> {
    ghost Value = { T };

    ghost view = { λ stray. stray.value };
}

impl<T> Stray<T> {
    pub(crate) fn new(value: T) -> Self
        ensures { result ≡ value }
    {
        Stray { value }
    }

    /// Gives it back.
    pub fn keep(self) -> T
        ensures { result ≡ self }
    {
        let Stray { value } = self;
        value
    }
}

impl<S: Drop> Stray<Lease<S>> {
    /// Gives the lease up, and drops the stream that it may have. Its host counts the connection as
    /// held for good.
    pub fn scrap(self) {
        let _ = self.keep().into_stream();
    }
}

impl Stray<Ticket> {
    /// Gives the ticket up.
    pub fn scrap(self) {
        self.keep().spend();
    }
}
