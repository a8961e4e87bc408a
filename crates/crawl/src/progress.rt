//! The progress of a crawl.

use crate::in_flight::{InFlight, Tally};
use commands::CrawlFlags;
use streams::StreamFault;

/// The progress of a crawl: its transfers in flight, its tally, and its fault.
#[derive(Drop)]
pub(crate) struct Progress {
    pub(crate) flags: CrawlFlags,
    pub(crate) in_flight: Vec<InFlight>,
    pub(crate) tally: Tally,
    /// The fault of a line that could not be written.
    pub(crate) fault: Option<StreamFault>,
}
