//! Fetches any number of URLs over one cache, many at once, and writes a line for each.
#![tactic(auto)]

mod batch;
mod crawl;
mod crawler;
mod fault;
mod host_cache;
mod hosts;
mod in_flight;
mod jobs;
mod json;
mod line;
mod loop_crawler;
mod network;
mod output;
mod placed;
mod progress;
mod queue;
mod queued;
mod route;
mod signals;
mod timer;

pub use crawl::{Crawl, Crawled};
pub use crawler::{Crawler, Signals};
pub use fault::{CrawlFault, NetworkFault};
pub use host_cache::{HostCache, HostDial};
pub use in_flight::Tally;
pub use loop_crawler::LoopCrawler;
pub use network::Network;
