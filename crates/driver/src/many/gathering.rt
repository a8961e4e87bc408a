//! The end of a run with many jobs at once: what all workers leave.

ghost use Rattle.exchange.specs.Dialling.{failed_turns};
ghost use Rattle.std.specs.Prelude.{◌≡◌, ◌+◌, ◌<◌, ◌≤◌, ℕ, List, reverse, vec_len, []};
ghost use Rattle.std.specs.Prelude.{vec_capacity};
ghost use Rattle.budget.specs.Words.{whole};
ghost use Rattle.run_loop.specs.Draws.{first_seat};
ghost use Rattle.exchange.specs.Worlds.{world_of};
ghost use Rattle.run_loop.specs.Moments.{TakesTimed};
ghost use Rattle.driver.specs.ManyWork.{HaveLooped, IsManyRun, HavePasses, handed_back};

use crate::many::job_source::JobSource;
use crate::many::running::{Common, ManyReport};
use crate::many::worker::{Finished, LoopWorker, WorkerResult};
use exchange::{Dial, Wire};
use run_loop::{JobSeat, Results, RunEnd, Timer};
use shared_cache::Names;

/// Takes over what all workers leave, whose seats are together with this one all there are.
pub(crate) fn gather_work<W: Wire, N: Names, D: Dial<W>, F: Results, S: JobSource, T: Timer>(
    common: &Common<'_, S, T>,
    seat: JobSeat,
    workers: Vec<LoopWorker<W, D, F>>,
    finished: Vec<Finished<D, F>>,
) -> ManyReport<D, F>
    requires some { 0 < vec_len workers }
    requires claim { seat ≡ record (first_seat common.now.claim.now) { share = seat.share } }
    requires share { seat.share + vec_len workers ≡ whole }
    requires left { (begun : List (F × ℕ)) × HaveLooped (world_of W.untouched W.happened (T.tells
        common.now.timer.now)) (T.may_stop common.now.timer.now) N.names (S.job_at
        common.now.source.now) (TakesTimed (T.tells_micros common.now.timer.now) F.took)
        common.now.claim.now begun workers.items }
    requires none { finished.items ≡ [] }
    requires room { vec_len workers ≤ vec_capacity finished }
    ensures passes { HavePasses N.names result.workers.items }
    ensures gathers { (begun : List (F × ℕ)) → HaveLooped (world_of W.untouched W.happened (T.tells
        common.now.timer.now)) (T.may_stop common.now.timer.now) N.names (S.job_at
        common.now.source.now) (TakesTimed (T.tells_micros common.now.timer.now) F.took)
        common.now.claim.now begun
        workers.items → IsManyRun (world_of W.untouched W.happened (T.tells
        common.now.timer.now)) (T.may_stop common.now.timer.now) N.names (S.job_at
        common.now.source.now) (TakesTimed (T.tells_micros common.now.timer.now) F.took)
        common.now.claim.now.jobs (reverse begun) (handed_back
        (failed_turns D.shown) result.workers.items) result.end result.drawn }
{
    let claim = common.claim;
    let mut seat = seat;
    let mut workers = workers;
    let mut finished = finished;
    let mut end = RunEnd::Complete;
    while let Some(worker) = workers.pop() {
        let WorkerResult {
            dial,
            results,
            seat: other,
            pass,
            end: own,
        } = worker.into_left();
        claim.join(&mut seat, other);
        finished.push_reserved(Finished {
            dial,
            results,
            pass,
        });
        end = own.or_worse(end);
    }
    workers.destroy_empty();
    let drawn = claim.load(&mut seat);
    ManyReport {
        end,
        drawn,
        workers: finished,
    }
}
