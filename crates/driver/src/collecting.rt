//! The end of a run: the results in the order of the jobs, and the passes.

ghost use Rattle.exchange.specs.Dialling.{failed_turns};
ghost use Rattle.std.specs.Prelude.{◌≡◌, ◌+◌, ◌<◌, ◌≤◌, List, length, IfOk, IfErr, []};
ghost use Rattle.std.specs.Prelude.{vec_len, vec_capacity};
ghost use Rattle.std.specs.List.{All, sum_by};
ghost use Rattle.budget.specs.Words.{whole};
ghost use Rattle.run_loop.specs.Draws.{first_seat};
ghost use Rattle.exchange.specs.Worlds.{world_of};
ghost use Rattle.shared_cache.specs.Passes.{IsPassOf};
ghost use Rattle.driver.specs.Faults.{IsWorkerFault};
ghost use Rattle.driver.specs.Running.{IsRun};
ghost use Rattle.driver.specs.Hiring.{HasWorked, IsPlaced};
ghost use Rattle.driver.specs.Turns.{TurnedTogether, DialsTurned};

use crate::context::RunContext;
use crate::fault::DriverFault;
use crate::gate::Gate;
use crate::quit::first_of;
use crate::running::RunReport;
use crate::worker::{Worker, WorkerResult};
use budget::Pass;
use bundle::Did;
use exchange::{Clock, Dial, Done, Wire};
use run_loop::JobSeat;
use shared_cache::Names;

/// Puts the results of all workers in the order of the jobs, and takes their passes back.
pub(crate) fn collect<W: Wire, N: Names, D: Dial<W>, K: Clock, G: Gate>(
    shared: &RunContext<'_, K, G>,
    seat: JobSeat,
    workers: Vec<Worker<'_, W, D>>,
    results: Vec<Done>,
    passes: Vec<Pass<Did>>,
) -> Result<RunReport, (DriverFault, Vec<Pass<Did>>)>
    requires jobs { shared.now.claim.now.jobs ≡ length shared.now.jobs.now }
    requires some { 0 < vec_len workers }
    requires claim { seat ≡ record (first_seat shared.now.claim.now) { share = seat.share } }
    requires share { seat.share + vec_len workers ≡ whole }
    requires results { vec_len results ≡ length shared.now.jobs.now }
    requires worked { All (HasWorked (world_of W.untouched W.happened (K.tells
        shared.now.clock.now)) (G.may_stop shared.now.gate.now) N.names shared.now.claim.now
        shared.now.jobs.now) workers.items }
    requires none { passes.items ≡ [] }
    requires room { vec_len workers ≤ vec_capacity passes }
    ensures ok { IfOk result (IsRun (world_of W.untouched W.happened (K.tells
        shared.now.clock.now)) (G.may_stop shared.now.gate.now) N.names shared.now.jobs.now
        (vec_len workers.entry)) }
    ensures err { IfErr result (λ refused. IsWorkerFault refused.0) }
    ensures passes { IfErr result (λ refused. All (IsPassOf N.names) refused.1.items) }
    ensures come_back { IfErr result (λ refused. vec_len refused.1 ≡ vec_len workers.entry) }
    ensures turns { (dials : List D) → length dials ≡ vec_len workers.entry →
        TurnedTogether (sum_by (failed_turns D.shown) dials) workers.entry.items →
        DialsTurned (failed_turns D.shown) dials result }
{
    let mut seat = seat;
    let mut workers = workers;
    let mut results = results;
    let mut passes = passes;
    let mut quit = None;
    while let Some(worker) = workers.pop() {
        let WorkerResult {
            seat: other,
            pass,
            results: own,
            quit: met,
        } = worker.leave();
        shared.claim.join(&mut seat, other);
        place(&mut results, &own);
        passes.push_reserved(pass);
        quit = first_of(met, quit);
    }
    workers.destroy_empty();
    if let Some(quit) = quit {
        return Err((quit.fault(), passes));
    }
    let _drawn = shared.claim.load(&mut seat);
    Ok(RunReport { results, passes })
}

// Puts each result in the place of its job.
fn place(results: &mut [Done], own: &[(u64, Done)])
    requires { All (λ result. result.0 < length results.old) own.now }
    ensures { IsPlaced own.now results.old results.new }
{
    for (number, done) in own {
        results[*number as usize] = *done;
    }
}
