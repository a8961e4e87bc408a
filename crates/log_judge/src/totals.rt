//! What the hosts have together, so that a step of one host costs the same for any number of them.

ghost use Rattle.std.specs.Prelude.{◌≡◌, []};
ghost use Rattle.log_judge.specs.Tables.{IsSmall};
ghost use Rattle.log_judge.specs.AllHosts.{waits_beside_idle, waits_beside_room, totals_at};
ghost use Rattle.log_judge.specs.AllHosts.{AreCounted};
ghost use Rattle.log_judge.specs.AllHosts.{Exchanges, IsPart, AreSmall, HaveRoom};

use crate::host::HostMonitor;

/// Counts over all hosts, or the part of one host.
#[derive(Clone, Copy, Debug, PartialEq, Eq)]
pub(crate) struct Totals {
    /// Open connections.
    pub open_len: u64,
    /// Idle connections.
    pub idle_len: u64,
    /// Hosts where a transfer waits and a connection is idle.
    pub beside_idle: u64,
    /// Hosts where a transfer waits and one more connection may be open.
    pub beside_room: u64,
}

/// Whether a transfer waits beside an idle connection.
pub(crate) fn waits_beside_idle(host: &HostMonitor) -> bool
    ensures { result ≡ waits_beside_idle host.now }
{
    host.first_waiter().is_some() && host.idle_len() > 0
}

/// Whether a transfer waits beside room for one more connection.
pub(crate) fn waits_beside_room(host: &HostMonitor) -> bool
    ensures { result ≡ waits_beside_room host.now }
{
    host.first_waiter().is_some() && host.open_len() < u64::from(host.limit())
}

impl Totals {
    /// Those of no hosts.
    pub(crate) fn none() -> Totals
        ensures { AreCounted result [] }
    {
        Totals {
            open_len: 0,
            idle_len: 0,
            beside_idle: 0,
            beside_room: 0,
        }
    }

    /// The part of a host.
    pub(crate) fn of(host: &HostMonitor) -> Totals
        ensures totals { result ≡ totals_at host.now }
        ensures small { AreSmall result }
        ensures few { IsSmall host.now }
    {
        Totals {
            open_len: host.open_len(),
            idle_len: host.idle_len(),
            beside_idle: u64::from(waits_beside_idle(host)),
            beside_room: u64::from(waits_beside_room(host)),
        }
    }

    /// Puts what a host's part has become in the place of what it was.
    pub(crate) fn exchange(&mut self, before: Totals, after: Totals)
        requires part { IsPart before self.old }
        requires room { HaveRoom self.old }
        requires small { AreSmall after }
        ensures { Exchanges self.old before after self.new }
    {
        self.open_len = self.open_len - before.open_len + after.open_len;
        self.idle_len = self.idle_len - before.idle_len + after.idle_len;
        self.beside_idle = self.beside_idle - before.beside_idle + after.beside_idle;
        self.beside_room = self.beside_room - before.beside_room + after.beside_room;
    }
}
