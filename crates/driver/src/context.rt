//! What all workers of a run share.

use crate::bell::Bell;
use crate::faults::Faults;
use crate::gate::Gate;
use exchange::{Clock, Job};
use run_loop::JobCounter;

/// What all workers of a run share, beside the cache.
#[derive(Drop)]
pub(crate) struct RunContext<'s, K: Clock, G: Gate> {
    pub(crate) claim: &'s JobCounter,
    pub(crate) jobs: &'s [Job],
    pub(crate) clock: &'s K,
    pub(crate) gate: &'s G,
    pub(crate) bell: Bell,
    pub(crate) faults: Faults,
}
