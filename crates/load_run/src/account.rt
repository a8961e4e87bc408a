//! The figures and passes of a load's threads, added up.

ghost use Rattle.std.specs.Prelude.{◌≡◌, ◌≤◌, ℕ, []};
ghost use Rattle.std.specs.Prelude.{vec_len, vec_capacity, IfErr, IfOk};
ghost use Rattle.std.specs.List.{All};
ghost use Rattle.shared_cache.specs.Passes.{IsPassOf};
ghost use Rattle.driver.specs.ManyWork.{HavePasses};
ghost use Rattle.load_run.specs.Loading.{IsLoadRefusedFor};
ghost use Rattle.load_run.specs.ManyLoads.{Collects, IsNone};

use crate::counted_results::CountedResults;
use crate::error::LoadError;
use budget::Pass;
use bundle::Did;
use driver::{DriverFault, Finished};
use load_figures::Figures;
use shared_cache::{Names, discard_all};
use socket::PolledDial;
use std::alloc::Global;

/// The figures and passes that a load's threads return.
pub(crate) struct Collected {
    /// The figures of all threads.
    pub(crate) figures: Figures,
    /// Number of jobs that were drawn, and stopped before they began.
    pub(crate) unbegun: u64,
    /// Their passes.
    pub(crate) passes: Vec<Pass<Did>>,
}

impl Collected {
    /// Makes it empty, with memory for the passes of `threads` threads.
    pub(crate) fn new(alloc: Global, hosts: u32, threads: usize) -> Result<Collected, LoadError>
        ensures none { IfOk result (IsNone hosts) }
        ensures room { IfOk result (λ collected. threads ≤ vec_capacity collected.passes) }
        ensures refused { (workers : ℕ) → IfErr result (IsLoadRefusedFor workers) }
    {
        let Ok(figures) = Figures::new(alloc, hosts) else {
            return Err(LoadError::Run(DriverFault::Memory));
        };
        let Ok(passes) = Vec::with_capacity(alloc, threads) else {
            return Err(LoadError::Run(DriverFault::Memory));
        };
        Ok(Collected {
            figures,
            unbegun: 0,
            passes,
        })
    }

    /// Adds the figures and passes of these threads, the last thread's first.
    pub(crate) fn take<N: Names>(
        self,
        workers: Vec<Finished<PolledDial<'_, HostRuntime>, CountedResults<'_>>>,
    ) -> Collected
        requires none { self.passes.items ≡ [] }
        requires room { vec_len workers ≤ vec_capacity self.passes }
        requires of_cache { HavePasses N.names workers.items }
        ensures collects { Collects self result workers.entry.items }
        ensures of_cache { All (IsPassOf N.names) result.passes.items }
    {
        let Collected {
            mut figures,
            mut unbegun,
            mut passes,
        } = self;
        let mut workers = workers;
        while let Some(last) = workers.pop() {
            let Finished {
                dial: _,
                results,
                pass,
            } = last;
            figures.join(&results.figures);
            unbegun = unbegun.saturating_add(results.unbegun);
            passes.push_reserved(pass);
        }
        workers.destroy_empty();
        Collected {
            figures,
            unbegun,
            passes,
        }
    }

    /// Discards the passes.
    pub(crate) fn discard(self) {
        let Collected {
            figures: _,
            unbegun: _,
            passes,
        } = self;
        discard_all(passes);
    }
}
