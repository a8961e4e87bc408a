ghost use Rattle.std.specs.Prelude.{◌≡◌, ◌<◌, [], ◌∷◌, ◌++◌, true, false, slice_get, IfOk, IfErr};
ghost use Rattle.budget.specs.Lobby.{is_listed, without_host, turned, IsQueue};

use crate::refusal::Refusal;
use std::alloc::Global;
use std::collections::VecDeque;
use std::marker::Model;

/// The hosts at which a transfer waits for the total, in the order in which they take turns. A host
/// is listed once. Contracts see how many hosts there are, and those that are listed in order.
#[derive(Drop)]
pub struct Lobby {
    hosts: u32,
    order: VecDeque<u32>,
}

impl Model for Lobby {
    ghost use Rattle.std.specs.Prelude.{◌≤◌};
    ghost use Rattle.std.specs.VecDeque.{deque_capacity};
    ghost use Rattle.budget.specs.Lobby.{Queue, IsQueue};

    ghost Value = { Queue };

    ghost view = { λ lobby. record { hosts = lobby.hosts; order = lobby.order.items } };

    ghost invariant = { λ lobby. record {
      queue : IsQueue record { hosts = lobby.hosts; order = lobby.order.items };
      room : lobby.hosts ≤ deque_capacity lobby.order;
    } };
}

impl Lobby {
    /// A lobby for that many hosts, none of which is listed. All of its memory is taken here.
    ///
    /// The only refusal is [`Refusal::Memory`].
    pub fn new(alloc: Global, hosts: u32) -> Result<Lobby, Refusal>
        ensures ok { IfOk result (λ lobby. lobby ≡ record { hosts = hosts; order = [] }) }
        ensures err { IfErr result (λ refusal. refusal ≡ Refusal.Memory) }
    {
        let order = VecDeque::with_capacity(alloc, hosts as usize)?;
        Ok(Lobby { hosts, order })
    }

    /// A host comes last.
    pub fn enlist(&mut self, host: u32)
        requires there { host < self.old.hosts }
        requires new { is_listed self.old.order host ≡ false }
        ensures hosts { self.new.hosts ≡ self.old.hosts }
        ensures order { self.new.order ≡ self.old.order ++ host ∷ [] }
        ensures queue { IsQueue self.new }
    {
        self.order.push_back_reserved(host);
    }

    /// A host is listed no more.
    pub fn delist(&mut self, host: u32)
        requires { is_listed self.old.order host ≡ true }
        ensures hosts { self.new.hosts ≡ self.old.hosts }
        ensures order { self.new.order ≡ without_host self.old.order host }
        ensures gone { is_listed self.new.order host ≡ false }
        ensures queue { IsQueue self.new }
    {
        self.order.retain(|listed| *listed != host);
    }

    /// The host whose turn is next.
    pub fn first(&self) -> Option<u32>
        ensures first { result ≡ slice_get self.now.order 0 }
        ensures queue { IsQueue self.now }
    {
        self.order.front().copied()
    }

    /// The first host goes to the end.
    pub fn rotate(&mut self)
        ensures hosts { self.new.hosts ≡ self.old.hosts }
        ensures order { self.new.order ≡ turned self.old.order }
        ensures queue { IsQueue self.new }
    {
        if let Some(first) = self.order.pop_front() {
            self.order.push_back_reserved(first);
        }
    }

    /// Whether the host is listed.
    pub fn listed(&self, host: u32) -> bool
        ensures listed { result ≡ is_listed self.now.order host }
        ensures queue { IsQueue self.now }
    {
        self.order.contains(&host)
    }
}
