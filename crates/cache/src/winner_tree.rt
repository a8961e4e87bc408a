//! Which host has the earliest stamp: a tournament tree of stamps, which is played again on the way
//! of a changed one alone (Knuth, "The Art of Computer Programming", volume 3, section 5.4.1).

ghost use Rattle.std.specs.Prelude.{◌≡◌, ◌<◌, length, replicate, slice_set, Some, None, IfOk};
ghost use Rattle.std.specs.Prelude.{IfErr, IfSome};
ghost use Rattle.cache.specs.Oldest.{earliest, earlier_of, is_since_before, stamp_at};

use crate::oldest::is_before;
use budget::Refusal;
use conn_log::Stamp;
use std::alloc::Global;
use std::marker::Model;

/// A stamp, or none, for each host. The stamps of the hosts are the leaves, from the place of the
/// number of hosts on; at each place before them, from 1 on, stands the earlier one of the two
/// below it, so that at place 1 there is the earliest of all.
#[derive(Drop)]
pub struct WinnerTree {
    hosts: usize,
    nodes: Vec<Option<Stamp>>,
}

impl Model for WinnerTree {
    ghost use Rattle.std.specs.Prelude.{List, Option, drop};
    ghost use Rattle.conn_log.specs.declared.stamp.Stamp.{Stamp};
    ghost use Rattle.cache.specs.Trees.{IsTree};

    ghost Value = { List (Option Stamp) };

    ghost view = { λ tree. drop tree.hosts tree.nodes.items };

    ghost invariant = { λ tree. IsTree tree.hosts tree.nodes.items };
}

impl WinnerTree {
    /// A tree without stamps. All of its memory is taken here. The only refusal is
    /// [`Refusal::Memory`].
    pub fn new(alloc: Global, hosts: u32) -> Result<WinnerTree, Refusal>
        ensures ok { IfOk result (λ tree. tree ≡ replicate hosts None) }
        ensures err { IfErr result (λ refusal. refusal ≡ Refusal.Memory) }
    {
        let hosts = hosts as usize;
        let mut nodes = Vec::new(alloc);
        nodes.resize(hosts + hosts, None)?;
        Ok(WinnerTree { hosts, nodes })
    }

    /// The earliest stamp of all.
    #[inline(always)]
    pub fn first(&self) -> Option<Stamp>
        ensures earliest { result ≡ earliest self.now }
        ensures own { IfSome result (λ s. stamp_at self.now s.host ≡ Some s) }
    {
        if self.hosts == 0 {
            return None;
        }
        self.nodes[1]
    }

    /// The stamp of that host.
    #[inline(always)]
    pub fn stamp(&self, host: usize) -> Option<Stamp>
        requires { host < length self.now }
        ensures { result ≡ stamp_at self.now host }
    {
        self.nodes[self.hosts + host]
    }

    /// Whether the host has a stamp since a moment before that one.
    #[inline(always)]
    pub fn is_since_before(&self, host: usize, moment: u64) -> bool
        requires { host < length self.now }
        ensures { result ≡ is_since_before (stamp_at self.now host) moment }
    {
        match self.nodes[self.hosts + host] {
            Some(stamp) => stamp.since < moment,
            None => false,
        }
    }

    /// Gives the host that stamp, or none.
    pub fn set(&mut self, host: usize, stamp: Option<Stamp>)
        requires there { host < length self.old }
        requires own { IfSome stamp (λ s. s.host ≡ host) }
        ensures { self.new ≡ slice_set self.old host stamp }
    {
        let mut place = self.hosts + host;
        self.nodes[place] = stamp;
        while place > 1 {
            place /= 2;
            let winner = earlier_of(self.nodes[place + place], self.nodes[place + place + 1]);
            if self.nodes[place] == winner {
                return;
            }
            self.nodes[place] = winner;
        }
    }

    /// Gives the host that stamp where it is earlier than the one that it has.
    pub fn lower(&mut self, host: usize, stamp: Option<Stamp>)
        requires there { host < length self.old }
        requires own { IfSome stamp (λ s. s.host ≡ host) }
        ensures { self.new ≡ slice_set self.old host (earlier_of (stamp_at self.old host) stamp) }
    {
        if is_before(stamp, self.stamp(host)) {
            self.set(host, stamp);
        }
    }
}

// Of two stamps the earlier one; none is later than any.
fn earlier_of(stamp: Option<Stamp>, other: Option<Stamp>) -> Option<Stamp>
    ensures { result ≡ earlier_of stamp other }
{
    if is_before(other, stamp) {
        other
    } else {
        stamp
    }
}
