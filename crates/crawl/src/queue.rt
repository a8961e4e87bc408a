//! The URLs of a crawl that are not in flight yet.

ghost use Rattle.std.specs.Prelude.{◌≡◌, true};
ghost use Rattle.crawl.specs.Faults.{CanEnd, can_end};

use crate::batch::Batch;
use crate::crawl::Crawl;
use crate::crawler::Crawler;
use crate::fault::CrawlFault;
use crate::hosts::{Hosts, host_key};
use crate::in_flight::InFlight;
use crate::placed::Placed;
use crate::queued::Queued;
use crate::route::Route;
use client::{Line, Names, UrlLines};
use commands::{CrawlOptions, CrawlUrl, UrlFault, UrlFile, url_target};
use conn_key::Target;
use conn_log::Want;
use exchange::Job;
use run_loop::Until;
use std::alloc::{AllocError, Global};
use std::collections::VecDeque;
use streams::{Source, StreamFault};

/// Maximum number of URLs that are read ahead.
const MOST_AHEAD: usize = 256;

/// Maximum number of lines that are read between events.
const MOST_LINES: usize = 4_096;

/// The URLs of a crawl that are not in flight yet.
#[derive(Drop)]
pub(crate) struct Queue {
    alloc: Global,
    options: CrawlOptions,
    file: UrlFile,
    // The URLs among the words that were not read yet; the last is next.
    urls: Vec<CrawlUrl>,
    lines: UrlLines,
    // The fault that ends the crawl once nothing is in flight: no more is read.
    stop: Option<CrawlFault>,
    // The URLs that were read, in order.
    queued: VecDeque<Queued>,
    // Number of bad URLs in the queue.
    bad: usize,
    // Number of the next job.
    number: u64,
    hosts: Hosts,
    // A queued URL waits for the addresses of its host.
    awaits_name: bool,
    ghost ends: { can_end options stop ≡ true },
}

impl Queue {
    ghost use Rattle.std.specs.Prelude.{◌≡◌, ◌≢◌, ◌++◌, ◌∷◌, ◌-◌, ◌<◌, ◌≤◌, [], true, None, All};
    ghost use Rattle.std.specs.Prelude.{ℕ, List, Option};
    ghost use Rattle.std.specs.List.{AllZip, HoldsAt};
    ghost use Rattle.commands.specs.Urls.{IsBadText};
    ghost use Rattle.crawl.specs.declared.route.Route.TheVariants.{Bad};
    ghost use Rattle.std.specs.Prelude.{length, option_to_list, string_bytes};
    ghost use Rattle.std.specs.Prelude.{IfErr, IfNone, IfOk, IfSome, OnOk, OnSome};
    ghost use Rattle.streams.specs.Streams.{CanCount};
    ghost use Rattle.crawl.specs.Crawling.{LeavesUrls, crawl_given, fault_in, queue_given};
    ghost use Rattle.client.specs.FileLines.{HasNoLine, NeedsMore};
    ghost use Rattle.crawl.specs.Hosts.{AreInUse, IsInUse, KeepsInUse, is_in_use};
    ghost use Rattle.crawl.specs.Reading.{AddsUrl, Reads, ReadsOn, StopsIfBad, StopsIfUnread};
    ghost use Rattle.crawl.specs.Reading.{TakesBad, TakesOut};
    ghost use Rattle.crawl.specs.Reading.{queue_shown, url_queued};
    ghost use Rattle.commands.specs.Given.{url_text};
    ghost use Rattle.crawl.specs.Results.{HaveNumbers};
    ghost use Rattle.crawl.specs.Batches.{Begins, BeginsOrWaits, KeepsAll, KeepsHosts};
    ghost use Rattle.crawl.specs.Batches.{KeepsOthers, KeepsQueue};
    ghost use Rattle.crawl.specs.Steps.{IsJobOf, want_of};
    ghost use Rattle.conn_key.specs.Target.{GivesTarget};
    ghost use Rattle.crawl.specs.Written.{urls_in_flight};
    ghost use Rattle.commands.specs.declared.crawl_options.UrlFile.TheVariants.{None as NoFile};

    /// Makes the queue of a crawl, of which nothing was read yet.
    pub(crate) fn new(crawl: Crawl) -> Queue
        ensures shown { (bytes : Option (List ℕ))
            → queue_shown result ≡ queue_given (crawl_given crawl bytes) }
    {
        let Crawl {
            alloc,
            options,
            urls,
            file,
            resolved,
        } = crawl;
        let mut urls = urls;
        urls.reverse();
        Queue {
            alloc,
            options,
            file,
            urls,
            lines: UrlLines::new(alloc),
            stop: None,
            queued: VecDeque::new(alloc),
            bad: 0,
            number: 0,
            hosts: Hosts::new(alloc, resolved),
            awaits_name: false,
        }
    }

    /// True if no URL is left to be read or begun. After a failed read, URLs of the file may be
    /// unread; at a bad URL that is not skipped, it is left, and more may be unread.
    pub(crate) fn is_over(&self) -> bool
        ensures { result ≡ true → LeavesUrls self.now.stop (queue_shown self.now) [] }
    {
        match self.stop {
            None => self.queued.is_empty() && self.is_read(),
            Some(CrawlFault::BadUrl(_)) => self.queued.len() == 1 && self.is_bad_at(0),
            Some(_) => self.queued.is_empty() && self.urls.is_empty(),
        }
    }

    // True if no URL is left to be read.
    fn is_read(&self) -> bool
        ensures words { result ≡ true → (queue_shown self.now).left ≡ [] }
        ensures lines { result ≡ true → self.now.file ≢ NoFile
            → HasNoLine (queue_shown self.now).lines }
    {
        self.urls.is_empty() && (self.file == UrlFile::None || self.lines.is_over())
    }

    /// Returns the fault that ends a crawl whose queue is over, if there is one.
    ///
    /// # Errors
    ///
    /// `BadUrl` if a URL is bad, and bad URLs are not skipped, `Input` if a read failed.
    pub(crate) fn end(&self) -> Result<(), CrawlFault>
        ensures stop { fault_in result ≡ self.now.stop }
        ensures fault { IfErr result (CanEnd self.now.options) }
    {
        match self.stop {
            Some(fault) => Err(fault),
            None => Ok(()),
        }
    }

    /// The event after which more URLs may be read or begun.
    pub(crate) fn until(&self) -> Until {
        if !self.queued.is_empty() {
            return Until::Freed;
        }
        if self.stop.is_some() || self.is_read() {
            return Until::Ended;
        }
        if self.reads_at_once() {
            Until::Begun
        } else {
            Until::Freed
        }
    }

    // True if the next URL can be read without a wait.
    fn reads_at_once(&self) -> bool {
        !self.urls.is_empty() || self.file == UrlFile::Regular || self.lines.has_line()
    }

    /// True if more of the file is wanted, once a read of it does not wait.
    pub(crate) fn wants_input(&self) -> bool {
        let has_more = self.file == UrlFile::Waiting && !self.lines.is_over();
        has_more && self.stop.is_none() && self.queued.len() < MOST_AHEAD
    }

    /// Reads URLs ahead, until one ends the crawl, or a read fails. A read that may wait is done
    /// only if nothing is in flight, as `is_idle` says, and no URL is queued.
    ///
    /// # Errors
    ///
    /// There is no memory for them.
    pub(crate) fn read_ahead<R: Source>(
        &mut self,
        input: &mut R,
        is_idle: bool,
    ) -> Result<(), AllocError>
        requires counts { self.old.stop ≡ None → CanCount (R.source input.old) }
        ensures counts_on { OnOk result
            (self.new.stop ≡ None → CanCount (R.source input.new)) }
        ensures reads { OnOk result (Reads (queue_shown self.old) (queue_shown self.new)
            (R.source input.old).bytes (R.source input.new).bytes) }
        ensures hosts { KeepsHosts self.old self.new }
    {
        for _ in 0..MOST_LINES {
            if self.stop.is_some() || self.queued.len() >= MOST_AHEAD {
                return Ok(());
            }
            if !self.read_one(input, is_idle)? {
                return Ok(());
            }
        }
        Ok(())
    }

    // Reads the next URL, or more of the file. Returns false if no more can be read now.
    fn read_one<R: Source>(&mut self, input: &mut R, is_idle: bool) -> Result<bool, AllocError>
        requires counts { CanCount (R.source input.old) }
        ensures counts_on { OnOk result
            (self.new.stop ≡ None → CanCount (R.source input.new)) }
        ensures reads { OnOk result (Reads (queue_shown self.old) (queue_shown self.new)
            (R.source input.old).bytes (R.source input.new).bytes) }
        ensures hosts { KeepsHosts self.old self.new }
    {
        if let Some(url) = self.urls.pop() {
            return self.add_word(url);
        }
        if self.file == UrlFile::None {
            return Ok(false);
        }
        match self.lines.next(self.alloc) {
            Ok(Line::Url(url, line)) => self.add(url, line),
            Ok(Line::Bad(url, line)) => self.add_bad(url, line),
            Ok(Line::Skipped) => Ok(true),
            Ok(Line::Unread) => self.read_on(input, is_idle),
            Ok(Line::Over) => Ok(false),
            Err(error) => Err(error),
        }
    }

    // Reads more of the file, if the read does not wait, or may. Returns false if it did not.
    fn read_on<R: Source>(&mut self, input: &mut R, is_idle: bool) -> Result<bool, AllocError>
        requires counts { CanCount (R.source input.old) }
        requires no_line { NeedsMore (queue_shown self.old).lines }
        ensures counts_on { OnOk result
            (self.new.stop ≡ None → CanCount (R.source input.new)) }
        ensures reads { OnOk result (ReadsOn (queue_shown self.old) (queue_shown self.new)
            (R.source input.old).bytes (R.source input.new).bytes) }
        ensures stop { OnOk result (StopsIfUnread (R.source input.old) (R.source input.new)
            self.old.stop self.new.stop) }
        ensures hosts { KeepsHosts self.old self.new }
    {
        let may_wait = is_idle && self.queued.is_empty();
        if !may_wait && self.file != UrlFile::Regular && !input.is_ready() {
            return Ok(false);
        }
        let was_read = self.lines.read_on(self.alloc, input)?;
        if !was_read {
            self.stop = Some(CrawlFault::Input(StreamFault::Read));
        }
        Ok(was_read)
    }

    // Adds a URL of the words to the queue.
    fn add_word(&mut self, url: CrawlUrl) -> Result<bool, AllocError>
        ensures added { OnOk result (AddsUrl (url_text url) (queue_shown self.old)
            (queue_shown self.new)) }
        ensures stop { StopsIfBad (url_text url) 0 self.old.stop self.new.stop }
        ensures hosts { KeepsHosts self.old self.new }
    {
        let CrawlUrl { text, target } = url;
        match target {
            Some(target) => self.add_good(text, target),
            None => self.add(text, 0),
        }
    }

    // Adds a URL to the queue, with where it leads to. `line` is its line of the file, if it has
    // one.
    fn add(&mut self, url: String, line: u64) -> Result<bool, AllocError>
        ensures added { OnOk result (AddsUrl (string_bytes url) (queue_shown self.old)
            (queue_shown self.new)) }
        ensures stop { StopsIfBad (string_bytes url) line self.old.stop self.new.stop }
        ensures hosts { KeepsHosts self.old self.new }
    {
        match url_target(self.alloc, url.as_str()) {
            Ok(target) => self.add_good(url, target),
            Err(UrlFault::Memory) => Err(AllocError),
            Err(UrlFault::Unprintable) => self.add_bad(url, line),
            Err(UrlFault::NoTarget(_)) => self.add_bad(url, line),
        }
    }

    // Adds a URL with this target to the queue.
    fn add_good(&mut self, url: String, target: Target) -> Result<bool, AllocError>
        requires leads { ∥ GivesTarget (string_bytes url) target ∥₁ }
        ensures added { OnOk result (AddsUrl (string_bytes url) (queue_shown self.old)
            (queue_shown self.new)) }
        ensures stop { self.new.stop ≡ self.old.stop }
        ensures hosts { KeepsHosts self.old self.new }
    {
        let host_key = host_key(self.alloc, &target)?;
        let route = Route::To(target, host_key);
        self.push(Queued { url, route })
    }

    // Adds a bad URL to the queue. It ends the crawl unless bad URLs are skipped.
    fn add_bad(&mut self, url: String, line: u64) -> Result<bool, AllocError>
        requires bad { ∥ IsBadText (string_bytes url) ∥₁ }
        ensures added { OnOk result (AddsUrl (string_bytes url) (queue_shown self.old)
            (queue_shown self.new)) }
        ensures stop { StopsIfBad (string_bytes url) line self.old.stop self.new.stop }
        ensures hosts { KeepsHosts self.old self.new }
    {
        if !self.options.flags.skip_bad {
            self.stop = Some(CrawlFault::BadUrl(line));
        }
        self.bad = self.bad.saturating_add(1);
        let route = Route::Bad;
        self.push(Queued { url, route })
    }

    // Adds a URL to the queue.
    fn push(&mut self, one: Queued) -> Result<bool, AllocError>
        ensures added { OnOk result (AddsUrl (string_bytes one.url) (queue_shown self.old)
            (queue_shown self.new)) }
        ensures stop { self.new.stop ≡ self.old.stop }
        ensures hosts { KeepsHosts self.old self.new }
    {
        self.queued.push_back(one)?;
        Ok(true)
    }

    /// Takes a bad URL out of the queue, if bad URLs are skipped: the first one, or if one
    /// transfer is in flight at a time, the next URL, once nothing is, as `is_idle` says.
    pub(crate) fn take_bad(&mut self, is_idle: bool) -> Option<String>
        ensures takes { IfSome result (λ url. TakesBad is_idle (string_bytes url)
            (queue_shown self.old) (queue_shown self.new)) }
        ensures none { IfNone result (queue_shown self.new ≡ queue_shown self.old) }
        ensures stop { self.new.stop ≡ self.old.stop }
        ensures fewer { OnSome result
            (length self.new.queued.items < length self.old.queued.items) }
        ensures hosts { KeepsHosts self.old self.new }
    {
        if !self.options.flags.skip_bad || self.bad == 0 {
            return None;
        }
        let place = self.next_bad(is_idle)?;
        let Queued { url, route: _ } = self.queued.remove(place)?;
        self.bad = self.bad.saturating_sub(1);
        Some(url)
    }

    // Returns the place of the bad URL that may be taken out of the queue, if there is one.
    fn next_bad(&self, is_idle: bool) -> Option<usize>
        ensures idle { OnSome result (self.now.options.parallel ≡ 1 → is_idle ≡ true) }
        ensures first { IfSome result (λ place. self.now.options.parallel ≡ 1 → place ≡ 0) }
        ensures bad { IfSome result (HoldsAt (λ one. one.route ≡ Bad) self.now.queued.items) }
    {
        if self.options.parallel == 1 {
            let is_next = is_idle && self.is_bad_at(0);
            return is_next.then_some(0);
        }
        for place in 0..self.queued.len() {
            if self.is_bad_at(place) {
                return Some(place);
            }
        }
        None
    }

    // True if the queued URL at that place is bad.
    fn is_bad_at(&self, place: usize) -> bool
        ensures { result ≡ true → HoldsAt (λ one. one.route ≡ Bad) self.now.queued.items place }
    {
        match self.queued.get(place) {
            Some(one) => one.is_bad(),
            None => false,
        }
    }

    /// Records the answers of look-ups that have arrived.
    ///
    /// # Errors
    ///
    /// There is no memory for them.
    pub(crate) fn learn<N: Names>(&mut self, names: &N) -> Result<(), AllocError>
        ensures same { queue_shown self.new ≡ queue_shown self.old }
        ensures stop { self.new.stop ≡ self.old.stop }
        ensures hosts { KeepsHosts self.old self.new }
    {
        self.hosts.learn(names)
    }

    /// Records that these transfers are in flight, and no others.
    pub(crate) fn mark_in_flight(&mut self, in_flight: &[InFlight])
        ensures same { queue_shown self.new ≡ queue_shown self.old }
        ensures stop { self.new.stop ≡ self.old.stop }
        ensures all_in_use { All (IsInUse self.new.hosts.in_use.items) in_flight.now }
    {
        self.hosts.mark_in_flight(in_flight);
    }

    /// Number of transfers that may begin next to `in_flight` others.
    pub(crate) fn room(&self, in_flight: usize) -> usize
        ensures { result ≡ self.now.options.parallel - in_flight }
    {
        (self.options.parallel as usize).saturating_sub(in_flight)
    }

    /// True if a URL waits for the addresses of its host.
    pub(crate) fn awaits_name(&self) -> bool {
        self.awaits_name
    }

    /// Takes the URLs out of the queue whose transfers begin next, at most `free`. Each stays until
    /// its host has a place.
    ///
    /// # Errors
    ///
    /// There is no memory for them.
    pub(crate) fn batch<N: Names, C: Crawler>(
        &mut self,
        free: usize,
        names: &N,
        crawler: &mut C,
    ) -> Result<Batch, AllocError>
        requires can_go_on { C.can_go_on crawler.old }
        ensures can_go_on { C.can_go_on crawler.new }
        ensures takes { IfOk result (λ batch. TakesOut (urls_in_flight batch.transfers.items)
            (queue_shown self.old) (queue_shown self.new)) }
        ensures stop { self.new.stop ≡ self.old.stop }
        ensures jobs { IfOk result (λ batch. AllZip (IsJobOf self.old.options)
            batch.jobs.items batch.transfers.items) }
        ensures numbers { IfOk result (λ batch. HaveNumbers self.old.number self.new.number
            batch.jobs.items) }
        ensures few { IfOk result (λ batch. length batch.transfers.items ≤ free) }
        ensures keeps { KeepsInUse self.old.hosts.table self.new.hosts.table
            self.old.hosts.in_use.items self.new.hosts.in_use.items }
        ensures in_use { IfOk result (λ batch.
            AreInUse self.new.hosts.in_use.items batch.transfers.items) }
    {
        let mut batch = Batch::new(self.alloc);
        self.awaits_name = false;
        while let Some(one) = self.next(free, &batch) {
            self.begin_or_wait(one, &mut batch, names, crawler)?;
        }
        self.put_back(&mut batch.waiting)?;
        Ok(batch)
    }

    // Takes the next URL that may begin, if there is room for its transfer. It may overtake those
    // that wait unless one transfer is in flight at a time.
    fn next(&mut self, free: usize, batch: &Batch) -> Option<Queued>
        ensures takes { self.old.queued.items ≡ option_to_list result ++ self.new.queued.items }
        ensures room { OnSome result (length batch.now.transfers.items < free) }
        ensures first { OnSome result
            (self.old.options.parallel ≡ 1 → batch.now.waiting.items ≡ []) }
        ensures fewer { OnSome result
            (length self.new.queued.items < length self.old.queued.items) }
        ensures same { KeepsOthers self.old self.new }
    {
        if batch.transfers.len() >= free {
            return None;
        }
        if self.options.parallel == 1 && !batch.waiting.is_empty() {
            return None;
        }
        self.queued.pop_front()
    }

    // Begins the transfer of a URL, if its host has a place; otherwise the URL waits.
    fn begin_or_wait<N: Names, C: Crawler>(
        &mut self,
        one: Queued,
        batch: &mut Batch,
        names: &N,
        crawler: &mut C,
    ) -> Result<(), AllocError>
        requires can_go_on { C.can_go_on crawler.old }
        ensures can_go_on { C.can_go_on crawler.new }
        ensures begins { OnOk result (BeginsOrWaits self.old.options (url_queued one)
            self.old.number self.new.number batch.old batch.new) }
        ensures same { KeepsQueue self.old self.new }
        ensures keeps { KeepsInUse self.old.hosts.table self.new.hosts.table
            self.old.hosts.in_use.items self.new.hosts.in_use.items }
        ensures in_use { OnOk result
            (AreInUse self.old.hosts.in_use.items batch.old.transfers.items
            → AreInUse self.new.hosts.in_use.items batch.new.transfers.items) }
    {
        let Queued { url, route } = one;
        let Route::To(target, host_key) = route else {
            let route = Route::Bad;
            return batch.wait(Queued { url, route });
        };
        match self
            .hosts
            .place(&target, host_key.as_str(), names, crawler)?
        {
            Placed::At(place) => self.begin(url, target, place, batch),
            placed => {
                self.awaits_name |= placed == Placed::Unresolved;
                let route = Route::To(target, host_key);
                batch.wait(Queued { url, route })
            }
        }
    }

    // Begins the transfer of a URL with that target, at that place, with the next number. No crawl
    // reaches the last number, 2^64 - 2.
    fn begin(
        &mut self,
        url: String,
        target: Target,
        place: u32,
        batch: &mut Batch,
    ) -> Result<(), AllocError>
        requires leads { ∥ GivesTarget (string_bytes url) target ∥₁ }
        ensures begins { OnOk result (Begins self.old.options (string_bytes url)
            self.old.number self.new.number batch.old batch.new) }
        ensures same { KeepsAll self.old self.new }
        ensures in_use { OnOk result (is_in_use self.old.hosts.in_use.items place ≡ true
            → AreInUse self.old.hosts.in_use.items batch.old.transfers.items
            → AreInUse self.old.hosts.in_use.items batch.new.transfers.items) }
    {
        let number = self.number;
        let Some(next) = number.checked_add(1) else {
            return Err(AllocError);
        };
        self.number = next;
        let job = Job {
            site: place,
            want: self.want(number),
            method: self.options.method,
            target,
        };
        let is_unknown = self.hosts.is_unknown(place);
        let transfer = InFlight {
            number,
            url,
            place,
            is_unknown,
        };
        batch.add(job, transfer)
    }

    // Puts the URLs that have to wait back to the front of the queue.
    fn put_back(&mut self, waiting: &mut Vec<Queued>) -> Result<(), AllocError>
        ensures back { OnOk result
            (self.new.queued.items ≡ waiting.old.items ++ self.old.queued.items) }
        ensures same { KeepsOthers self.old self.new }
    {
        while let Some(one) = waiting.pop() {
            self.queued.push_front(one)?;
        }
        Ok(())
    }

    // The request to the cache for the transfer of that number.
    fn want(&self, transfer: u64) -> Want
        ensures { result ≡ want_of self.now.options transfer }
    {
        Want {
            transfer,
            max_age: self.options.max_age,
            max_life: self.options.max_life,
            lane: 0,
            fresh: self.options.flags.fresh,
            forbid_reuse: false,
        }
    }
}
