//! Plans of crawls.

use crate::crawl_options::CrawlOptions;
use crate::resolved::Resolved;
use crate::url::CrawlUrl;

/// The plan of a `get`.
#[derive(Drop)]
pub struct CrawlPlan {
    pub options: CrawlOptions,
    /// The URLs among the words, which come first.
    pub urls: Vec<CrawlUrl>,
    /// The file with more of them; `-` is standard input.
    pub file: Option<String>,
    /// The addresses that `--resolve` gives for hosts, which are not looked up.
    pub resolved: Vec<Resolved>,
}
