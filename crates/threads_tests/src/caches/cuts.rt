//! A shared cache whose logs are cut now and then, beside one whose logs are cut at the end alone:
//! the same happens at both, and the parts are what happened.

ghost use Rattle.std.specs.Prelude.{◌≡◌};

use crate::caches::gathering::Passes;
use crate::caches::making::{new_cache, new_plan, push};
use crate::caches::thread_desk::{Desk, Stream};
use crate::caches::workers::{Job, Worker};
use crate::checks::check_eq;
use budget::Refusal;
use bundle::Bundle;
use conn_log::{Counts, Entry};
use load_report::count_part;
use shared_cache::{HostCount, Names, Plan, SharedCache};
use std::alloc::Global;
use std::marker::Brand;
use std::process::Abort;
use std::sync::Wait;

const HOSTS: u32 = 4;

/// How many transfers a worker draws in a turn.
const TRANSFERS: u64 = 100;

const TURNS: u64 = 50;

/// The parts of a host's log that were handed out: their entries, and the sum of what each counts.
#[derive(Drop)]
struct Parts {
    entries: Vec<Entry>,
    counts: Counts,
}

impl Parts {
    // Adds one part more.
    fn add(&mut self, rt: &impl Abort, part: &[Entry]) {
        let more = count_part(part);
        self.counts = Counts {
            opened: self.counts.opened.saturating_add(more.opened),
            reused: self.counts.reused.saturating_add(more.reused),
            closed: self.counts.closed.saturating_add(more.closed),
            waited: self.counts.waited.saturating_add(more.waited),
        };
        self.entries.extend_from_slice(part).expect(rt, "memory");
    }
}

// No part was handed out yet, of each host.
fn none_yet(rt: &impl Abort, alloc: Global) -> Vec<Parts> {
    let mut parts = Vec::new(alloc);
    for _ in 0..HOSTS {
        let none = Parts {
            entries: Vec::new(alloc),
            counts: count_part(&[]),
        };
        push(rt, &mut parts, none);
    }
    parts
}

// Cuts the log of one host, and adds what is handed out to its other parts.
fn cut<N: Names>(
    rt: &(impl Wait + Abort),
    cache: &SharedCache<Stream, N>,
    parts: &mut [Parts],
    site: u32,
) {
    let part = cache.cut(rt, site).expect(rt, "memory");
    let place = site as usize;
    assert!(rt; place < parts.len());
    parts[place].add(rt, &part);
}

// Cuts the log of each host, and looks at what it counts.
fn cut_all<N: Names>(
    rt: &(impl Wait + Abort),
    cache: &SharedCache<Stream, N>,
    parts: &mut [Parts],
) {
    for site in 0..HOSTS {
        cut(rt, cache, parts, site);
        let counted = cache.inspect(rt, site, |bundle: &Bundle<Stream>| bundle.log().counts());
        let place = site as usize;
        assert!(rt; place < parts.len());
        assert_eq!(rt; counted, Ok(parts[place].counts), "host {site}");
    }
}

// What a worker draws; the log of one host is cut after each turn, if that is asked for, and those
// of all at the end. The account at the end is that of the parts.
fn history<N: Names>(
    rt: &(impl Wait + Abort),
    alloc: Global,
    plan: Plan<Stream>,
    is_cut: bool,
) -> Vec<Parts>
    requires { plan ≡ N.names }
{
    let cache: SharedCache<Stream, N> = new_cache(rt, alloc, plan);
    let mut worker = Worker::new(Desk::new(rt, alloc, &cache), drawn(0), 7);
    let mut parts = none_yet(rt, alloc);
    for turn in 0..TURNS {
        worker.begin(drawn(turn));
        worker.work(rt, &cache);
        if is_cut {
            let site = u32::try_from(turn % 4).expect(rt, "a site");
            cut(rt, &cache, &mut parts, site);
        }
    }
    cut_all(rt, &cache, &mut parts);
    let mut passes = Passes::new(alloc);
    passes.put_by(rt, worker.close(rt).0);
    let gathered = passes.gathered(rt, alloc, cache);
    check_hosts(rt, &gathered.hosts, &parts);
    parts
}

// The transfers of that turn.
fn drawn(turn: u64) -> Job {
    Job::Drawn {
        first: turn.saturating_mul(TRANSFERS),
        transfers: TRANSFERS,
        hosts: u64::from(HOSTS),
    }
}

// The account of each host is what the parts of its log count.
fn check_hosts(rt: &impl Abort, hosts: &[HostCount], parts: &[Parts]) {
    check_eq(rt, hosts.len(), parts.len());
    for (host, parts) in hosts.iter().zip(parts) {
        let Counts {
            opened,
            reused,
            closed,
            waited,
        } = parts.counts;
        let counted = (host.opened, host.reused, host.closed, host.waited);
        check_eq(rt, counted, (opened, reused, closed, waited));
    }
}

// The same of a new cache.
fn drawn_history(rt: &(impl Wait + Abort), alloc: Global, is_cut: bool) -> Vec<Parts> {
    let plan = new_plan(rt, alloc, (2, 5, 3), HOSTS);
    history::<Brand>(rt, alloc, plan, is_cut)
}

#[test]
fn parts_add_up_beside_a_cache_that_is_not_cut(rt: HostRuntime) {
    let cut = drawn_history(&rt, rt.alloc(), true);
    let uncut = drawn_history(&rt, rt.alloc(), false);
    for (parts, whole) in cut.iter().zip(&uncut) {
        let (parts, whole) = (&parts.entries, &whole.entries);
        assert!(rt; !whole.is_empty());
        check_eq(&rt, parts.len(), whole.len());
        assert!(rt; parts == whole);
    }
}

// Refusals of a cut.
fn refuse_no_host<N: Names>(rt: &(impl Wait + Abort), alloc: Global, plan: Plan<Stream>)
    requires { plan ≡ N.names }
{
    let cache: SharedCache<Stream, N> = new_cache(rt, alloc, plan);
    assert!(rt; matches!(cache.cut(rt, HOSTS), Err(Refusal::BadSite)));
}

#[test]
fn a_cut_is_refused_where_there_is_no_host(rt: HostRuntime) {
    let plan = new_plan(&rt, rt.alloc(), (2, 5, 3), HOSTS);
    refuse_no_host::<Brand>(&rt, rt.alloc(), plan);
}
