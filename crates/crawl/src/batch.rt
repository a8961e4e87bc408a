//! Transfers that are begun next.

ghost use Rattle.std.specs.Prelude.{◌≡◌, ◌++◌, ◌∷◌, [], OnOk};

use crate::in_flight::InFlight;
use crate::queued::Queued;
use exchange::Job;
use std::alloc::{AllocError, Global};

/// Transfers that are begun next, and the URLs that have to wait.
#[derive(Drop)]
pub(crate) struct Batch {
    /// The jobs of the transfers, with consecutive numbers.
    pub(crate) jobs: Vec<Job>,
    /// The URLs of the transfers.
    pub(crate) transfers: Vec<InFlight>,
    /// The URLs that wait, since their hosts have no place yet.
    pub(crate) waiting: Vec<Queued>,
}

impl Batch {
    /// Makes a batch without transfers.
    pub(crate) fn new(alloc: Global) -> Batch
        ensures jobs { result.jobs.items ≡ [] }
        ensures transfers { result.transfers.items ≡ [] }
        ensures waiting { result.waiting.items ≡ [] }
    {
        Batch {
            jobs: Vec::new(alloc),
            transfers: Vec::new(alloc),
            waiting: Vec::new(alloc),
        }
    }

    /// Adds a transfer.
    ///
    /// # Errors
    ///
    /// There is no memory for it.
    pub(crate) fn add(&mut self, job: Job, transfer: InFlight) -> Result<(), AllocError>
        ensures jobs { OnOk result (self.new.jobs.items ≡ self.old.jobs.items ++ job ∷ []) }
        ensures transfers { OnOk result
            (self.new.transfers.items ≡ self.old.transfers.items ++ transfer ∷ []) }
        ensures waiting { self.new.waiting.items ≡ self.old.waiting.items }
    {
        self.jobs.push(job)?;
        self.transfers.push(transfer)?;
        Ok(())
    }

    /// Adds a URL that has to wait.
    ///
    /// # Errors
    ///
    /// There is no memory for it.
    pub(crate) fn wait(&mut self, one: Queued) -> Result<(), AllocError>
        ensures waiting { OnOk result
            (self.new.waiting.items ≡ self.old.waiting.items ++ one ∷ []) }
        ensures jobs { self.new.jobs.items ≡ self.old.jobs.items }
        ensures transfers { self.new.transfers.items ≡ self.old.transfers.items }
    {
        self.waiting.push(one)?;
        Ok(())
    }
}
