//! What a thread was told at each host, and how many leases it spent there.
ghost use Rattle.std.specs.Prelude.{◌≡◌, ◌<◌, length, replicate, IfOk, IfErr, IsTrue, ◌↔◌, IsSome};
ghost use Rattle.budget.specs.Accounts.{vacant, account_at, change_at, spent_at, IsEnrolledAt};
ghost use Rattle.budget.specs.Accounts.{enrolled, told, spent_once, KeepsSeats};

use crate::refusal::Refusal;
use crate::tally::{PassSeat, StartSeat, Tally};
use std::alloc::Global;
use std::marker::Model;

/// What a pass remembers of one host.
#[derive(Drop)]
pub struct Account<D> {
    /// Its seat at the host's tally, once it is enrolled.
    pub seat: Option<PassSeat>,
    /// What the last call answered.
    pub last: Option<D>,
    /// How many calls were answered; it stays at its greatest value.
    pub calls: u64,
}

impl<D: Copy + Drop> Account<D> {
    // Remembers what one more call answers.
    #[inline(always)]
    fn tell(&mut self, did: D)
        ensures { self.new ≡ told did self.old }
    {
        self.last = Some(did);
        if self.calls < u64::MAX {
            self.calls += 1;
        }
    }
}

/// The account of whoever calls: an account for each host, by its index. It must be given up.
/// `D` is what a call answers.
pub struct Pass<D> {
    accounts: Vec<Account<D>>,
}

impl<D> Model for Pass<D> {
    ghost use Rattle.std.specs.Prelude.{List};
    ghost use Rattle.budget.specs.declared.pass.Account.{Account};

    ghost Value = { List (Account D) };

    ghost view = { λ pass. pass.accounts.items };
}

impl<D: Copy + Drop> Pass<D> {
    /// A pass without a seat, and with an account for each host.
    ///
    /// The only refusal is [`Refusal::Memory`].
    pub fn new(alloc: Global, hosts: usize) -> Result<Pass<D>, Refusal>
        ensures ok { IfOk result (λ pass. pass ≡ replicate hosts vacant) }
        ensures err { IfErr result (λ refusal. refusal ≡ Refusal.Memory) }
    {
        let mut accounts = Vec::with_capacity(alloc, hosts)?;
        while accounts.len() < hosts {
            accounts.push_reserved(Account {
                seat: None,
                last: None,
                calls: 0,
            });
        }
        Ok(Pass { accounts })
    }

    /// How many hosts it has an account for.
    pub fn hosts(&self) -> usize
        ensures { result ≡ length self.now }
    {
        self.accounts.len()
    }

    /// Whether it has a seat at this host's tally; false if there is no such host.
    pub fn is_enrolled(&self, host: usize) -> bool
        ensures { IsTrue result ↔ IsSome (account_at self.now host).seat }
    {
        if host < self.accounts.len() {
            return self.accounts[host].seat.is_some();
        }
        false
    }

    /// Takes the seat at the host's tally, where it has none yet.
    ///
    /// Asked of the caller: the account has no seat, and nothing was spent with this one yet.
    pub fn enrol(&mut self, host: usize, seat: PassSeat)
        requires host { host < length self.old }
        requires apart { (account_at self.old host).seat ≡ None }
        requires new { seat.spent ≡ 0 }
        ensures account { self.new ≡ change_at self.old host (enrolled seat) }
        ensures seats { KeepsSeats self.old self.new }
    {
        self.accounts[host].seat = Some(seat);
    }

    /// How many leases were spent with it at this host; 0 if there is no such host.
    pub fn spent(&self, host: usize) -> u64
        ensures { result ≡ spent_at self.now host }
    {
        if host < self.accounts.len() {
            return match &self.accounts[host].seat {
                Some(seat) => seat.spent(),
                None => 0,
            };
        }
        0
    }

    /// What the pass was told last at this host; `None` if there is no such host.
    pub fn last(&self, host: usize) -> Option<D>
        ensures { result ≡ (account_at self.now host).last }
    {
        if host < self.accounts.len() {
            return self.accounts[host].last;
        }
        None
    }

    /// How often it was told something at this host; this stays at its greatest value. It is 0 if
    /// there is no such host.
    pub fn calls(&self, host: usize) -> u64
        ensures { result ≡ (account_at self.now host).calls }
    {
        if host < self.accounts.len() {
            return self.accounts[host].calls;
        }
        0
    }

    /// Remembers what a call at this host answers. It asks for the tally at which the pass is
    /// enrolled there: whoever has that, and nobody else, tells the pass anything.
    ///
    /// Asked of the caller: the pass is enrolled at this tally.
    pub fn tell(&mut self, host: usize, tally: &Tally, did: D)
        requires host { host < length self.old }
        requires enrolled { IsEnrolledAt self.old host tally.now.table }
        ensures account { self.new ≡ change_at self.old host (told did) }
        ensures seats { KeepsSeats self.old self.new }
    {
        let account = &mut self.accounts[host];
        account.tell(did);
    }

    /// Spends a lease at this host, where it is enrolled, and remembers what the call answers.
    ///
    /// Asked of the caller: the pass is enrolled at this tally, and the lease's start was split off
    /// there.
    pub fn spend(&mut self, host: usize, tally: &Tally, start: StartSeat, did: D)
        requires host { host < length self.old }
        requires enrolled { IsEnrolledAt self.old host tally.now.table }
        requires start { start ≡ tally.now.table }
        ensures account { self.new ≡ change_at self.old host (spent_once did) }
        ensures seats { KeepsSeats self.old self.new }
    {
        // What is told is written first: moves of it on both sides of an atomic step stay apart.
        let enrolled = &mut self.accounts[host];
        enrolled.tell(did);
        match &mut enrolled.seat {
            Some(seat) => tally.join(seat, start),
            None => unreachable!(),
        }
    }

    /// Gives the pass up. What was spent with it stays counted at the tallies.
    pub fn discard(self) {
        let Pass { accounts } = self;
        drop(accounts);
    }
}
