//! The signals of a crawl to its crawler.

use crate::crawler::Signals;
use client::Names;
use std::sync::atomic::{AtomicBool, Ordering};
use streams::Source;

/// The signals of a crawl to its crawler.
#[derive(Drop)]
pub(crate) struct CrawlSignals<'a, N: Names, R: Source> {
    /// A line could not be written.
    pub(crate) cannot_write: &'a AtomicBool,
    pub(crate) names: &'a N,
    pub(crate) input: &'a R,
    /// More of the input is wanted, once a read of it does not wait.
    pub(crate) wants_input: bool,
}

impl<N: Names, R: Source> Signals for CrawlSignals<'_, N, R> {
    fn is_over(&self) -> bool {
        self.cannot_write.load(Ordering::SeqCst)
    }

    fn has_news(&self) -> bool {
        self.names.has_answer() || (self.wants_input && self.input.is_ready())
    }
}
