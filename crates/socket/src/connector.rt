//! How connections are begun and opened, whatever they are used for then.

ghost use Rattle.std.specs.Prelude.{◌≡◌, ◌≢◌, ℕ, List, Contains, IfOk};
ghost use Rattle.std.specs.declared.net.socket_addr.SocketAddr.{SocketAddr};
ghost use Rattle.exchange.specs.Dialling.{CountsBegun, CountsDial, CountsTurn, IfUp};
ghost use Rattle.socket.specs.Pending.{IsPending, IfNotYet, IfSocket};
ghost use Rattle.socket.specs.Hosts.{addresses_at};
ghost use Rattle.socket.specs.Sockets.{IsDialledTo};

use crate::addresses::Addresses;
use crate::counts::Counts;
use crate::dialled_socket::{DialledSocket, Progress};
use crate::pending::{Attempt, keep, take};
use crate::reasons::{reason_of, told_of};
use exchange::{Dialled, Reason, Turned};
use mio::{Events, Poll, Registry, Token};
use std::alloc::Global;
use std::collections::HashMap;
use std::io;
use std::net::{Net, SocketAddr};
use std::time::Duration;

/// How many milliseconds a call waits at most.
pub(crate) const MOST_WAIT_MILLISECONDS: u64 = 10;

/// How many events one turn takes. What is left is seen by the next turn.
const MOST_EVENTS: usize = 256;

/// What opens connections: those that it has begun, the poller that knows them, and its counts,
/// which rise where the system answers.
#[derive(Drop)]
pub(crate) struct Connector<'n, N: Net> {
    net: &'n N,
    pub(crate) addresses: Addresses,
    poll: Poll,
    events: Events,
    // How many of these were told of.
    seen: usize,
    pub(crate) pending: HashMap<u64, Attempt>,
    pub(crate) counts: Counts,
    /// Why the last connection could not be opened, if it could not and the system said why.
    pub(crate) reason: Option<Reason>,
}

/// How far a connection has come.
pub(crate) enum Opening {
    /// It is open.
    Open(DialledSocket),
    /// It is not open yet.
    Begun(Attempt),
    /// No address of its host is left, for that reason if the system said why.
    Failed(Option<Reason>),
}

impl<'n, N: Net> Connector<'n, N> {
    /// What opens connections to these addresses; nothing is begun or counted.
    ///
    /// # Errors
    ///
    /// There is no memory for it, or the system gives no poller.
    pub(crate) fn new(net: &'n N, alloc: Global, addresses: Addresses) -> io::Result<Self>
        ensures addresses { IfOk result (λ connector. connector.addresses ≡ addresses) }
        ensures counts { IfOk result (λ connector.
            connector.counts ≡ record { opened = 0; failures = 0; turn_failures = 0 }) }
    {
        Ok(Connector {
            net,
            addresses,
            poll: Poll::new(net)?,
            events: Events::with_capacity(alloc, MOST_EVENTS)?,
            seen: 0,
            pending: HashMap::new(alloc),
            counts: Counts::new(),
            reason: None,
        })
    }

    /// Opens a connection to the host of that site for that transfer, or goes on with the one that
    /// was begun for it. The addresses of the host are tried in their order. What is open is
    /// registered nowhere. A failure is counted.
    pub(crate) fn connect(&mut self, site: u32, transfer: u64) -> Dialled<DialledSocket>
        ensures up { IfUp result (λ socket. IsDialledTo
            (addresses_at self.old.addresses.hosts.items site) socket.connection site transfer) }
        ensures addresses { self.new.addresses ≡ self.old.addresses }
        ensures waits { IfNotYet result (IsPending self.new.pending transfer) }
        ensures begun { CountsBegun result transfer (IsPending self.old.pending)
            (IsPending self.new.pending) }
        ensures counted { CountsDial result self.old.counts.failures self.new.counts.failures }
        ensures others { self.new.counts
            ≡ record self.old.counts { failures = self.new.counts.failures } }
    {
        let opening = match take(&mut self.pending, transfer) {
            Some(attempt) => self.go_on(attempt, site, transfer),
            None => self.begin(site, transfer, 0, None),
        };
        self.reason = None;
        match opening {
            Opening::Open(socket) => Dialled::Up(socket),
            Opening::Begun(attempt) => {
                if keep(&mut self.pending, transfer, attempt) {
                    Dialled::NotYet
                } else {
                    self.counts.fail_dial();
                    Dialled::Fault
                }
            }
            Opening::Failed(reason) => {
                self.reason = reason;
                self.counts.fail_dial();
                Dialled::Fault
            }
        }
    }

    /// Closes what was begun for that transfer.
    pub(crate) fn give_up(&mut self, transfer: u64)
        ensures none { IsPending self.new.pending transfer → ⊥ }
        ensures others { (other : ℕ) →
            IsPending self.new.pending other → IsPending self.old.pending other }
        ensures kept { (other : ℕ) → other ≢ transfer →
            IsPending self.old.pending other → IsPending self.new.pending other }
        ensures addresses { self.new.addresses ≡ self.old.addresses }
        ensures counts { self.new.counts ≡ self.old.counts }
    {
        let _ = take(&mut self.pending, transfer);
    }

    /// Whether a connection is begun that is not open yet.
    pub(crate) fn has_begun(&self) -> bool {
        !self.pending.is_empty()
    }

    /// What knows when sockets are ready.
    pub(crate) fn registry(&self) -> &Registry {
        self.poll.registry()
    }

    /// Waits until something that is registered is ready, at most that long, and at most ten
    /// milliseconds. A wait that the system refuses is counted.
    pub(crate) fn wait(&mut self, most: Duration) -> Turned
        ensures counted { CountsTurn result self.old.counts.turn_failures
            self.new.counts.turn_failures }
        ensures others { self.new.counts
            ≡ record self.old.counts { turn_failures = self.new.counts.turn_failures } }
        ensures begun { self.new.pending ≡ self.old.pending }
        ensures addresses { self.new.addresses ≡ self.old.addresses }
    {
        self.seen = 0;
        let most = most.min(Duration::from_millis(MOST_WAIT_MILLISECONDS));
        if self.poll.poll(&mut self.events, Some(most)).is_ok() {
            return Turned::Done;
        }
        self.counts.fail_turn();
        Turned::Fault
    }

    /// The token of the next socket that the last wait found ready.
    pub(crate) fn next_ready(&mut self) -> Option<Token>
        ensures { (self.new.pending ≡ self.old.pending) × (self.new.counts ≡ self.old.counts) }
    {
        let token = self.events.iter().nth(self.seen)?.token();
        self.seen = self.seen.saturating_add(1);
        Some(token)
    }

    /// The token of the connection that is begun for that transfer, if one is.
    pub(crate) fn token_of(&self, transfer: u64) -> Option<Token> {
        Some(self.pending.get(&transfer)?.socket.token())
    }

    // Goes on with an attempt for that transfer and site. One for another is closed.
    fn go_on(&self, attempt: Attempt, site: u32, transfer: u64) -> Opening
        ensures { IfSocket result (λ socket. IsDialledTo
            (addresses_at self.now.addresses.hosts.items site) socket.connection site transfer) }
    {
        let pending = &attempt.socket;
        if !pending.is_for(self.addresses.of(site), site, transfer) {
            return self.begin(site, transfer, 0, None);
        }
        match attempt.socket.progress() {
            Progress::Open => {
                let mut socket = attempt.socket;
                socket.deregister(self.poll.registry());
                Opening::Open(socket)
            }
            Progress::NotYet => Opening::Begun(attempt),
            Progress::Failed(reason) => {
                let told = told_of(attempt.reason, reason);
                self.begin(site, transfer, attempt.next, told)
            }
        }
    }

    // Begins a connection for that transfer, to the first of the site's addresses that takes one,
    // from that place on. Those before it failed, for that reason.
    fn begin(&self, site: u32, transfer: u64, first: usize, former: Option<Reason>) -> Opening
        ensures { IfSocket result (λ socket. IsDialledTo
            (addresses_at self.now.addresses.hosts.items site) socket.connection site transfer) }
    {
        let addresses = self.addresses.of(site);
        let mut reason = former;
        for place in first..addresses.len() {
            match self.attempt(addresses[place], site, transfer, place + 1, reason) {
                Opening::Failed(told) => reason = told,
                opening => return opening,
            }
        }
        Opening::Failed(reason)
    }

    // Begins a connection for that transfer, to that address. Others before it failed, for that
    // reason.
    fn attempt(
        &self,
        address: SocketAddr,
        site: u32,
        transfer: u64,
        next: usize,
        former: Option<Reason>,
    ) -> Opening
        ensures { (addresses : List SocketAddr) → Contains addresses address →
            IfSocket result (λ socket. IsDialledTo addresses socket.connection site transfer) }
    {
        let mut socket = match DialledSocket::begin(self.net, address, site, transfer) {
            Ok(socket) => socket,
            Err(error) => return Opening::Failed(told_of(former, reason_of(error.kind()))),
        };
        match socket.progress() {
            Progress::Open => Opening::Open(socket),
            Progress::Failed(reason) => Opening::Failed(told_of(former, reason)),
            Progress::NotYet => {
                if socket.register(self.poll.registry()) {
                    let reason = former;
                    Opening::Begun(Attempt {
                        socket,
                        next,
                        reason,
                    })
                } else {
                    Opening::Failed(former)
                }
            }
        }
    }
}
