//! What a report says, and what has to hold of it.

use commands::LoadOptions;
use std::process::Abort;

/// The most sites of a load.
const MOST_SITES: usize = 8;

/// What happened at one site, or at all.
#[derive(Clone, Copy, PartialEq, Eq)]
struct Connections {
    /// Which site it is, or how many there are.
    site: u64,
    opened: u64,
    reused: u64,
    closed: u64,
    waited: u64,
    alive: u64,
}

/// How the jobs ended.
#[derive(Clone, Copy)]
struct Jobs {
    number: u64,
    bad: u64,
    reused: u64,
    retried: u64,
    bytes: u64,
}

/// A report, and its numbers.
#[derive(Clone, Copy)]
pub(crate) struct Account<'r> {
    report: &'r str,
    // Nothing happened at those past the sites of the load.
    sites: [Connections; MOST_SITES],
    all: Connections,
    jobs: Jobs,
}

/// No connections.
const NOTHING: Connections = Connections {
    site: 0,
    opened: 0,
    reused: 0,
    closed: 0,
    waited: 0,
    alive: 0,
};

impl Connections {
    // What a line with that label says, if that is one.
    fn read(line: Option<&str>, label: &str) -> Option<Connections> {
        let [site, opened, reused, closed, waited, alive] = numbers_after(line, label, 6)?;
        Some(Connections {
            site,
            opened,
            reused,
            closed,
            waited,
            alive,
        })
    }

    // These and those of one more site.
    fn and(self, other: Connections) -> Connections {
        Connections {
            site: self.site.saturating_add(1),
            opened: self.opened.saturating_add(other.opened),
            reused: self.reused.saturating_add(other.reused),
            closed: self.closed.saturating_add(other.closed),
            waited: self.waited.saturating_add(other.waited),
            alive: self.alive.saturating_add(other.alive),
        }
    }

    // Whether what was opened and not closed is open, and no more than that limit; 0 is none.
    fn is_within(self, limit: u32) -> bool {
        self.opened == self.closed.saturating_add(self.alive)
            && (limit == 0 || self.alive <= limit as u64)
    }

    // How many requests were sent, or were to be.
    fn requests(self) -> u64 {
        self.opened.saturating_add(self.reused)
    }
}

// The numbers of a line with that label, if that is one and has so many; the others are 0.
fn numbers_after(line: Option<&str>, label: &str, count: usize) -> Option<[u64; 6]> {
    let mut words = line?.split_whitespace();
    if words.next()? != label {
        return None;
    }
    let mut numbers = [0u64; 6];
    for number in numbers.iter_mut().take(count) {
        *number = words.next()?.parse().ok()?;
    }
    if words.next().is_some() {
        return None;
    }
    Some(numbers)
}

/// A report of so many sites with its numbers, if that is one.
pub(crate) fn account_of(report: &str, sites: u32) -> Option<Account<'_>> {
    let mut lines = report.lines();
    let mut account = [NOTHING; MOST_SITES];
    for connections in account.iter_mut().take(sites as usize) {
        *connections = Connections::read(lines.next(), "host")?;
    }
    let all = Connections::read(lines.next(), "all")?;
    let [number, bad, reused, retried, bytes, _] = numbers_after(lines.next(), "jobs", 5)?;
    if lines.next().is_some() {
        return None;
    }
    Some(Account {
        report,
        sites: account,
        all,
        jobs: Jobs {
            number,
            bad,
            reused,
            retried,
            bytes,
        },
    })
}

// How many of so many jobs are of that site.
fn jobs_at(options: &LoadOptions, site: u32) -> u64 {
    (0..options.jobs)
        .filter(|job| job % options.sites == site)
        .count() as u64
}

impl Account<'_> {
    // That has to be so of a load with these numbers.
    fn expect<R: Abort>(&self, rt: &R, options: &LoadOptions, is_so: bool, what: &str) {
        assert!(rt; is_so, "{what}: {options:?}: {}", self.report);
    }

    // What happened at all sites, each of which has to be in its place and within its limit.
    fn sum<R: Abort>(&self, rt: &R, options: &LoadOptions) -> Connections {
        let mut sum = NOTHING;
        for site in 0..options.sites {
            let connections = self.sites[site as usize];
            let is_right = connections.site == site as u64
                && connections.is_within(options.host_limit);
            self.expect(rt, options, is_right, "each site's limit");
            sum = sum.and(connections);
        }
        sum
    }

    /// Returns the words for opened, reused and closed connections in a trace, with their counts in
    /// the report.
    pub(crate) fn events(&self) -> [(&'static str, u64); 3] {
        [
            ("opened", self.all.opened),
            ("leased", self.all.reused),
            ("closed", self.all.closed),
        ]
    }

    /// Checks what holds of each load with these numbers, also of one whose jobs failed.
    pub(crate) fn check<R: Abort>(&self, rt: &R, options: &LoadOptions) {
        let sum = self.sum(rt, options);
        self.expect(rt, options, self.all == sum, "the sum over sites");
        let is_within = sum.is_within(options.total) && sum.is_within(options.connects);
        self.expect(rt, options, is_within, "the limits of all");
        let Jobs {
            number,
            bad,
            bytes,
            ..
        } = self.jobs;
        self.expect(rt, options, number == options.jobs as u64, "all jobs");
        let good = number.saturating_sub(bad);
        self.expect(
            rt,
            options,
            bytes == good.saturating_mul(2),
            "two bytes a job",
        );
    }

    /// Checks what holds besides where each job has its answer: each sent a request, and one more
    /// if it was retried.
    pub(crate) fn check_answered<R: Abort>(&self, rt: &R, options: &LoadOptions) {
        let Jobs {
            number,
            bad,
            reused,
            retried,
            ..
        } = self.jobs;
        self.expect(rt, options, bad == 0, "no job failed");
        let is_sent = self.all.requests() == number.saturating_add(retried);
        self.expect(rt, options, is_sent, "a request for each job");
        let again = reused..=reused.saturating_add(retried);
        self.expect(rt, options, again.contains(&self.all.reused), "reuses");
        for site in 0..options.sites {
            let jobs = jobs_at(options, site);
            let requests = jobs..=jobs.saturating_add(retried);
            let sent = self.sites[site as usize].requests();
            self.expect(
                rt,
                options,
                requests.contains(&sent),
                "each site's requests",
            );
        }
    }
}
