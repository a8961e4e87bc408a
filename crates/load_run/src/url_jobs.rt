//! Jobs that request URLs in turn.

ghost use Rattle.std.specs.Prelude.{◌≡◌, ◌<◌, length, map, string_bytes, IfOk, IfSome};
ghost use Rattle.exchange.specs.Answers.{job_text};
ghost use Rattle.load_run.specs.UrlJobs.{host_for};

use crate::pace::Rate;
use driver::JobSource;
use exchange::{Job, Prepared};
use std::alloc::{AllocError, Global};

/// Jobs that request URLs in turn: job K is the job of URL K modulo their number, as transfer K.
/// Each site has `each` consecutive hosts in the cache, and a worker's jobs use one of them. With a
/// rate, each job is due later than the one before it. The text of a URL's request is written
/// once.
#[derive(Drop)]
pub(crate) struct UrlJobs<'a> {
    alloc: Global,
    urls: &'a [Job],
    first: &'a Job,
    // The text of each URL's request.
    texts: Vec<String>,
    rate: Option<Rate>,
    // Number of hosts of each site.
    each: u32,
    ghost some: { 0 < length urls.now },
    ghost written: { map string_bytes texts.items ≡ map job_text urls.now },
}

impl<'a> UrlJobs<'a> {
    /// Makes the jobs of these URLs, whose sites have `each` hosts each; `None` if there is no URL,
    /// or no memory.
    pub(crate) fn new(
        alloc: Global,
        urls: &'a [Job],
        rate: Option<Rate>,
        each: u32,
    ) -> Option<UrlJobs<'a>>
        ensures urls { IfSome result (λ source. source.urls.now ≡ urls.now) }
        ensures each { IfSome result (λ source. source.each ≡ each) }
    {
        let (first, _) = urls.split_first()?;
        let texts = texts_of(alloc, urls).ok()?;
        Some(UrlJobs {
            alloc,
            urls,
            first,
            texts,
            rate,
            each,
        })
    }

    // Returns the worker's host of a site.
    fn host_for(&self, worker: usize, site: u32) -> Option<u32>
        ensures { IfSome result (λ host. host ≡ host_for self.now.each worker site) }
    {
        let own = worker.checked_rem(self.each as usize)?;
        site.checked_mul(self.each)?.checked_add(own as u32)
    }
}

// Writes the texts of the requests of these URLs.
fn texts_of(alloc: Global, urls: &[Job]) -> Result<Vec<String>, AllocError>
    ensures { IfOk result (λ texts. map string_bytes texts.items ≡ map job_text urls.now) }
{
    let mut texts = Vec::new(alloc);
    for url in urls {
        let text = url.request_text(alloc)?;
        texts.push(text)?;
    }
    Ok(texts)
}

impl JobSource for UrlJobs<'_> {
    ghost use Rattle.load_run.specs.UrlJobs.{in_turn};

    ghost job_at = { λ jobs worker number.
        in_turn jobs.each jobs.urls.now jobs.first.now worker number };

    fn due(&self, number: u64) -> u64 {
        match self.rate {
            Some(rate) => rate.due(number),
            None => 0,
        }
    }

    fn prepare(
        &self,
        worker: usize,
        number: u64,
        spare: Option<Prepared>,
    ) -> Result<Prepared, Option<Prepared>> {
        let index = (number % self.urls.len() as u64) as usize;
        let (url, text) = (&self.urls[index], self.texts[index].as_str());
        let Some(host) = self.host_for(worker, url.site) else {
            return Err(spare);
        };
        let Some(used) = spare else {
            return Prepared::new_as(self.alloc, url, host, number, text).map_err(|_| None);
        };
        used.again_as(url, host, number, text)
            .map_err(|(left, _)| Some(left))
    }
}
