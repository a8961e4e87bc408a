//! A cache of connections.

use budget::Refusal;
use bundle::{Acquired, Claimed, Lease, Stray, Ticket};
use conn_log::Want;
use persistence::Facts;

/// A cache of connections with streams of type `S`, as a transfer uses it. Any number of transfers
/// may use one.
///
/// The ghost members tell contracts the tables that the cache's hosts have, by site, from which its
/// leases and tickets are known (no call changes them), and what was done from one time to another.
pub trait Cache<S: Drop> {
    ghost use Rattle.std.specs.Prelude.{◌≡◌, List, IsSome, IfOk, IfErr, OnOk, OnErr};
    ghost use Rattle.bundle.specs.Seats.{Tables};
    ghost use Rattle.cache_trait.specs.CacheCalls.{CacheCall, GivesBy, ClaimsBy};
    ghost use Rattle.cache_trait.specs.CacheCalls.CacheCall.{refuses, gives_back};
    ghost use Rattle.cache_trait.specs.CacheCalls.CacheCall.{abandons, withdraws};
    ghost use Rattle.cache_trait.specs.CacheCalls.CacheCall.{finds_strange_lease};
    ghost use Rattle.cache_trait.specs.CacheCalls.CacheCall.{finds_strange_ticket};
    ghost use Rattle.cache_trait.specs.Homes.{IsMadeBy, Gives, Claims};

    /// The tables of its hosts, by site.
    ghost home: { Self → List Tables };

    /// From the one time to the other this was done, and nothing else.
    ghost did: { Self → Self → CacheCall S → Type 0 };

    /// Leases a connection to the transfer, or begins its wait.
    fn acquire(&mut self, site: u32, want: Want, now: u64) -> Result<Acquired<S>, Refusal>
        ensures given { IfOk result (Gives (home self.new) site want) }
        ensures done { IfOk result (GivesBy (did self.old self.new) now) }
        ensures refused { IfErr result (λ refusal.
            did self.old self.new (refuses site want now refusal)) }
        ensures stays { home self.new ≡ home self.old };

    /// Gives the lease that the ticket was granted, or the ticket while it still waits.
    fn claim(&mut self, ticket: Ticket) -> Result<Claimed<S>, Stray<Ticket>>
        requires here { IsMadeBy (home self.old) ticket.site ticket.tables }
        ensures claimed { IfOk result (Claims (home self.new) ticket) }
        ensures done { IfOk result (ClaimsBy (did self.old self.new)) }
        ensures strange { OnErr result (did self.old self.new (finds_strange_ticket ticket)) }
        ensures stays { home self.new ≡ home self.old };

    /// Takes a connection back, with the facts of its response.
    fn give_back(&mut self, lease: Lease<S>, facts: Facts, now: u64) -> Result<(), Stray<Lease<S>>>
        requires here { IsMadeBy (home self.old) lease.site lease.tables }
        requires stream { IsSome lease.stream }
        ensures ok { OnOk result (did self.old self.new (gives_back lease facts now)) }
        ensures strange { OnErr result (did self.old self.new (finds_strange_lease lease)) }
        ensures stays { home self.new ≡ home self.old };

    /// Closes a connection without a response.
    fn abandon(&mut self, lease: Lease<S>, now: u64) -> Result<(), Stray<Lease<S>>>
        requires here { IsMadeBy (home self.old) lease.site lease.tables }
        ensures ok { OnOk result (did self.old self.new (abandons lease now)) }
        ensures strange { OnErr result (did self.old self.new (finds_strange_lease lease)) }
        ensures stays { home self.new ≡ home self.old };

    /// Ends a wait.
    fn withdraw(&mut self, ticket: Ticket, now: u64) -> Result<(), Stray<Ticket>>
        requires here { IsMadeBy (home self.old) ticket.site ticket.tables }
        ensures ok { OnOk result (did self.old self.new (withdraws ticket now)) }
        ensures strange { OnErr result (did self.old self.new (finds_strange_ticket ticket)) }
        ensures stays { home self.new ≡ home self.old };
}
