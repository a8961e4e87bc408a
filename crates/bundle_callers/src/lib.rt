//! Callers of one host's bundle, which answer what the bundle answered: their clauses speak of what
//! the pass was told, and only the bundle can tell it. Each has a tally of its own at hand, with
//! which nothing can be forged. It is not a part of the product.
#![tactic(auto)]

ghost use Rattle.std.specs.Prelude.{◌≡◌, ◌<◌, length, IsSome, None, false};
ghost use Rattle.budget.specs.Accounts.{account_at, IsEnrolledAt};
ghost use Rattle.conn_log.specs.declared.entry.Event.TheVariants.{Returned};
ghost use Rattle.host_state.specs.Calls.{is_queued};
ghost use Rattle.host_state.specs.Counts.{held_by};
ghost use Rattle.host_state.specs.Steps.{moment_at};
ghost use Rattle.bundle.specs.Around.{HoldsPart};
ghost use Rattle.bundle.specs.Passes.{tells, spends, acquire_did, claim_did};
ghost use Rattle.bundle.specs.Replies.{OnSpent, UnlessSpent};

use budget::{Pass, Permits, Refusal, Tally};
use bundle::{Asker, Back, Bundle, Claimed, Did, Got, Lease, Stray, Ticket};
use conn_log::Want;
use persistence::Facts;

/// Gives the pass its seat at the host.
///
/// Asked of the caller: as of [`Bundle::enrol`].
pub fn enrol<S: Drop>(bundle: &mut Bundle<S>, pass: &mut Pass<Did>, _own: &mut Tally)
    requires there { bundle.old.host < length pass.old }
    requires apart { (account_at pass.old bundle.old.host).seat ≡ None }
    ensures enrolled { IsEnrolledAt pass.new bundle.old.host bundle.old.tables.starts }
{
    bundle.enrol(pass);
}

/// Acquires a connection. `now` is in seconds. Refused as [`Bundle::acquire`] is.
pub fn acquire<S: Drop, P: Permits<Asker>>(
    bundle: &mut Bundle<S>,
    want: Want,
    now: u64,
    permits: &mut P,
    pass: &mut Pass<Did>,
    _own: &mut Tally,
) -> Result<Got<S>, Refusal>
    requires enrolled { IsEnrolledAt pass.old bundle.old.host bundle.old.tables.starts }
    requires permits { HoldsPart P.stands P.held (held_by bundle.old.log) permits.old }
    ensures tells { pass.new
        ≡ tells bundle.old.host (acquire_did want.transfer result) pass.old }
{
    bundle.acquire(want, now, permits, pass)
}

/// Gives a lease back at a host that is not queued. `now` is in seconds.
pub fn give_back<S: Drop, P: Permits<Asker>>(
    bundle: &mut Bundle<S>,
    lease: Lease<S>,
    facts: Facts,
    now: u64,
    permits: &mut P,
    pass: &mut Pass<Did>,
    _own: &mut Tally,
) -> Back<S>
    requires enrolled { IsEnrolledAt pass.old bundle.old.host bundle.old.tables.starts }
    requires here { lease.tables ≡ bundle.old.tables }
    requires stream { IsSome lease.stream }
    requires unqueued { is_queued bundle.old.settings bundle.old.log ≡ false }
    requires permits { HoldsPart P.stands P.held (held_by bundle.old.log) permits.old }
    ensures spent { let moment = moment_at bundle.old.log now in
        let returned = Returned lease.start.number facts in
        OnSpent result (pass.new ≡ spends bundle.old.host moment returned pass.old) }
    ensures unspent { UnlessSpent result (pass.new ≡ pass.old) }
{
    bundle.give_back(lease, facts, now, pass, permits, None, true)
}

/// Claims what the ticket's transfer was granted.
pub fn claim<S: Drop>(
    bundle: &mut Bundle<S>,
    ticket: Ticket,
    pass: &mut Pass<Did>,
    _own: &mut Tally,
) -> Result<Claimed<S>, Stray<Ticket>>
    requires enrolled { IsEnrolledAt pass.old bundle.old.host bundle.old.tables.starts }
    ensures tells { let did = claim_did ticket.wait.want.transfer result in
        pass.new ≡ tells bundle.old.host did pass.old }
{
    bundle.claim(ticket, pass)
}
