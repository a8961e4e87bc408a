//! What may stop a job that runs, and waits for a connection.

/// Controls the run of one job: it may stop the job between two polls of its transfer, and it
/// waits for a grant. `JobRunner::run` calls it.
///
/// The ghost member tells contracts for which reasons it may stop the job.
pub trait JobControl {
    ghost use Rattle.std.specs.Prelude.{IfSome};

    /// Why it stops a job.
    type Reason: Copy;

    /// It may stop the job for that reason.
    ghost stops_for: { Self → Self.Reason → Type 0 };

    /// The job's transfer is about to begin: there was memory for it.
    fn begin(&self) {}

    /// Tells why to stop before the next poll, if the job is to stop.
    fn stop_before_poll(&self) -> Option<Self::Reason>
        ensures { IfSome result (stops_for self.now) }
    {
        None
    }

    /// Tells why to stop after a poll that was pending, if the job is to stop.
    fn stop_after_poll(&self) -> Option<Self::Reason>
        ensures { IfSome result (stops_for self.now) }
    {
        None
    }

    /// How often other jobs have rung for a connection that they gave up. It is read before each
    /// poll.
    fn rings(&self) -> u64 {
        0
    }

    /// Waits until another job rings, or for a few milliseconds. It does not wait if a job has rung
    /// since `rings` was read.
    fn wait_for_grant(&self, rings: u64);

    /// Tells why to stop after 2^64 - 1 polls. No run takes so many; a control that stops for no
    /// reason of its own may wait forever.
    fn stop_at_last(&self) -> Self::Reason
        ensures { stops_for self.now result };
}
