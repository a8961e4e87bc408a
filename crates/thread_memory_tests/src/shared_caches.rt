//! A shared cache that is out of memory. The tests pass whichever allocation fails. In one of them
//! the refusal says so and changes nothing, the call succeeds when it comes again, and spending
//! takes no memory. In the others all memory may be refused from some moment on.

ghost use Rattle.std.specs.Prelude.{◌≡◌};

use crate::checks::check_eq;
use crate::making::{gathered_with, new_cache, new_plan, put_by, want_of};
use crate::thread_desk::{Desk, Said, Stream, look_said};
use budget::{Limits, Refusal};
use bundle::Bundle;
use conn_log::{Cause, Counts, Event};
use shared_cache::{Gathered, HostCount, Names, Plan, SharedCache};
use std::alloc::Global;
use std::marker::Brand;
use std::process::Abort;
use std::sync::Wait;

/// How often two transfers acquire a connection of host 0: its log grows several times.
const ROUNDS: u64 = 20;

/// What happened at each host in the end.
static ACCOUNT: [HostCount; 2] = [
    HostCount {
        opened: 1,
        reused: 39,
        closed: 0,
        waited: 20,
        alive: 1,
    },
    HostCount {
        opened: 0,
        reused: 0,
        closed: 0,
        waited: 0,
        alive: 0,
    },
];

/// The length of a host's log, what the host looks like, and what the pass remembers.
type Shown = (Result<usize, Refusal>, Said, Said);

fn shown<N: Names>(
    rt: &(impl Wait + Abort),
    cache: &SharedCache<Stream, N>,
    desk: &Desk<N>,
    site: u32,
) -> Shown {
    let entries = cache.inspect(rt, site, |bundle: &Bundle<Stream>| bundle.log().len());
    (entries, look_said(rt, cache, site), desk.told(rt, site))
}

// The host is to be seen as it was before.
fn check_unchanged<N: Names>(
    rt: &(impl Wait + Abort),
    cache: &SharedCache<Stream, N>,
    desk: &Desk<N>,
    site: u32,
    before: Shown,
) {
    check_eq(rt, shown(rt, cache, desk, site), before);
}

fn check_said(rt: &impl Abort, said: Said, expected: Said) {
    check_eq(rt, said, expected);
}

// The answer to the transfer at host 0. If memory runs out nothing changes, and it asks again.
fn asked_at_last<N: Names>(
    rt: &(impl Wait + Abort),
    cache: &SharedCache<Stream, N>,
    desk: &mut Desk<N>,
    transfer: u64,
) -> Said {
    let before = shown(rt, cache, desk, 0);
    let said = desk.acquire(rt, cache, 0, want_of(transfer), 0);
    if said != Said::Refused(Refusal::Memory) {
        return said;
    }
    check_unchanged(rt, cache, desk, 0, before);
    desk.acquire(rt, cache, 0, want_of(transfer), 0)
}

// The same of a change of host 1's limit.
fn limited_at_last<N: Names>(
    rt: &(impl Wait + Abort),
    cache: &SharedCache<Stream, N>,
    desk: &mut Desk<N>,
    limit: u32,
) -> Said {
    let before = shown(rt, cache, desk, 1);
    let said = desk.limit(rt, cache, 1, limit, 0);
    if said != Said::Refused(Refusal::Memory) {
        return said;
    }
    check_unchanged(rt, cache, desk, 1, before);
    desk.limit(rt, cache, 1, limit, 0)
}

// The same of a cut of host 1's log; returns the number of its entries.
fn cut_at_last<N: Names>(
    rt: &(impl Wait + Abort),
    cache: &SharedCache<Stream, N>,
    desk: &Desk<N>,
) -> usize {
    let before = shown(rt, cache, desk, 1);
    match cache.cut(rt, 1) {
        Ok(part) => part.len(),
        Err(refusal) => {
            check_eq(rt, refusal, Refusal::Memory);
            check_unchanged(rt, cache, desk, 1, before);
            cache.cut(rt, 1).expect(rt, "memory").len()
        }
    }
}

// One transfer has the connection, and hands it to another one that waits.
fn use_often<N: Names>(
    rt: &(impl Wait + Abort),
    cache: &SharedCache<Stream, N>,
    desk: &mut Desk<N>,
) {
    for round in 0..ROUNDS {
        let (first, second) = (2 * round, 2 * round + 1);
        asked_at_last(rt, cache, desk, first);
        check_said(rt, asked_at_last(rt, cache, desk, second), Said::Waits);
        desk.back(rt, cache, first, 0);
        check_said(rt, desk.claim(rt, cache, second), Said::Reused(1, 0));
        desk.back(rt, cache, second, 0);
        let limit = round as u32 + 2;
        check_said(rt, limited_at_last(rt, cache, desk, limit), Said::Done);
        check_eq(rt, cut_at_last(rt, cache, desk), 1);
    }
}

// The account is the expected one, and each host's log has the same counts.
fn check_account(rt: &impl Abort, gathered: &Gathered<Stream>) {
    check_eq(rt, (gathered.total, gathered.kept), (1, 1));
    check_eq(rt, gathered.hosts.as_slice(), ACCOUNT.as_slice());
    for (site, host) in ACCOUNT.iter().enumerate() {
        let counts = gathered.log(site as u32).expect(rt, "a log").counts();
        let expected = Counts {
            opened: host.opened,
            reused: host.reused,
            closed: host.closed,
            waited: host.waited,
        };
        check_eq(rt, counts, expected);
    }
    assert!(rt; gathered.log(u32::MAX).is_none(), "a log of no host");
}

// A cache of that plan, from its beginning to its end. Each host may have one open connection.
fn whole_life<N: Names, R: Wait + Abort>(rt: &R, alloc: Global, plan: Plan<Stream>)
    requires { plan ≡ N.names }
{
    let cache: SharedCache<Stream, N> = new_cache(rt, alloc, plan);
    let mut desk = Desk::new(rt, alloc, &cache);
    use_often(rt, &cache, &mut desk);
    let mut passes = Vec::new(alloc);
    put_by::<N>(rt, &mut passes, desk.close(rt));
    check_account(rt, &gathered_with(rt, alloc, cache, passes));
}

#[test]
fn want_of_memory_loses_nothing(rt: HostRuntime) {
    let plan = new_plan(&rt, rt.alloc(), (1, 0, 4), 2);
    whole_life::<Brand, HostRuntime>(&rt, rt.alloc(), plan);
}

/// How many transfers ask for a connection.
const ASKING: u64 = 6;

// Transfers ask until one is refused; returns the number of those that were answered.
fn ask_until_refused<N: Names>(
    rt: &(impl Wait + Abort),
    cache: &SharedCache<Stream, N>,
    desk: &mut Desk<N>,
) -> u64 {
    for transfer in 0..ASKING {
        let said = desk.acquire(rt, cache, 0, want_of(transfer), 0);
        if said == Said::Refused(Refusal::Memory) {
            return transfer;
        }
        let answer = if transfer == 0 {
            Said::Opened(1, 0)
        } else {
            Said::Waits
        };
        check_said(rt, said, answer);
    }
    ASKING
}

// A cache of that plan, and a desk with room for all that ask; none if memory is refused.
fn cache_with_desk<N: Names, R: Wait + Abort>(
    rt: &R,
    alloc: Global,
    plan: Plan<Stream>,
) -> Option<(SharedCache<Stream, N>, Desk<N>)>
    requires { plan ≡ N.names }
{
    let Ok(cache) = SharedCache::new(alloc, plan) else {
        return None;
    };
    let Ok(desk) = Desk::with_room(rt, alloc, &cache, ASKING as usize) else {
        return None;
    };
    Some((cache, desk))
}

// The first transfer gives its connection back, and the second one abandons it. For each of the
// others one is opened in its place, and withdrawn.
fn end_each<N: Names, R: Wait + Abort>(
    rt: &R,
    cache: &SharedCache<Stream, N>,
    desk: &mut Desk<N>,
    answered: u64,
) {
    if answered >= 1 {
        desk.back(rt, cache, 0, 1);
    }
    if answered >= 2 {
        check_said(rt, desk.claim(rt, cache, 1), Said::Reused(1, 1));
        desk.abandon(rt, cache, 1, 2);
    }
    for transfer in 2..answered {
        let connection = u32::try_from(transfer).expect(rt, "a number");
        let said = desk.leave(rt, cache, transfer, 3);
        check_said(rt, said, Said::Withdrawn(connection));
    }
}

// A cache of that plan, whose host may have one open connection. From the refusal on there may be
// no memory at all: each lease and each ticket ends as it does with ample memory.
fn end_all<N: Names, R: Wait + Abort>(rt: &R, alloc: Global, plan: Plan<Stream>)
    requires { plan ≡ N.names }
{
    let made: Option<(SharedCache<Stream, N>, Desk<N>)> = cache_with_desk(rt, alloc, plan);
    let Some((cache, mut desk)) = made else {
        return;
    };
    let answered = ask_until_refused(rt, &cache, &mut desk);
    end_each(rt, &cache, &mut desk, answered);
    let pruned = u32::from(answered == 1);
    check_said(rt, desk.prune(rt, &cache, 9, 0, 0), Said::Number(pruned));
    check_said(rt, look_said(rt, &cache, 0), Said::Look(0, 0, 0, 0, false));
    desk.close(rt).discard();
}

#[test]
fn want_of_memory_for_good_keeps_each_promise(rt: HostRuntime) {
    let limits = Limits::new(1, 0, 4).expect(&rt, "limits");
    let made: Result<Plan<Stream>, Refusal> = Plan::new(rt.alloc(), limits, 1);
    if let Ok(plan) = made {
        end_all::<Brand, HostRuntime>(&rt, rt.alloc(), plan);
    }
}

/// How many hosts have a transfer that asks for a connection: transfer N at host N.
const HOSTS: u32 = 3;

/// Limits, and how the transfers of three hosts end under them: each gives its connection back in
/// turn, once it has claimed it if it had to wait.
struct Serving {
    limits: (u32, u32, u32),
    // How many transfers get a connection at once.
    at_once: u32,
    // Why the connection of each host is closed in the end, by how many transfers were answered.
    causes: [&'static [Cause]; 4],
}

static SERVING: [Serving; 2] = [
    // what comes back makes room for the head of the next host in turn
    Serving {
        limits: (0, 1, 4),
        at_once: 1,
        causes: [
            &[],
            &[Cause::Pruned],
            &[Cause::TotalRoom, Cause::Pruned],
            &[Cause::TotalRoom, Cause::TotalRoom, Cause::Pruned],
        ],
    },
    // one connection alone is kept
    Serving {
        limits: (0, 2, 1),
        at_once: 2,
        causes: [
            &[],
            &[Cause::Pruned],
            &[Cause::CacheFull, Cause::Pruned],
            &[Cause::TotalRoom, Cause::CacheFull, Cause::Pruned],
        ],
    },
];

// The transfers ask, each at its host, until one is refused; returns the number of those that were
// answered.
fn ask_each_host<N: Names>(
    rt: &(impl Wait + Abort),
    cache: &SharedCache<Stream, N>,
    desk: &mut Desk<N>,
    at_once: u32,
) -> u32 {
    for site in 0..HOSTS {
        let said = desk.acquire(rt, cache, site, want_of(u64::from(site)), 0);
        if said == Said::Refused(Refusal::Memory) {
            return site;
        }
        let answer = if site < at_once {
            Said::Opened(1, 0)
        } else {
            Said::Waits
        };
        check_said(rt, said, answer);
    }
    HOSTS
}

// The only connection of each host is closed for its cause, at the end of its log.
fn check_closings<N: Names>(
    rt: &(impl Wait + Abort),
    cache: &SharedCache<Stream, N>,
    causes: &[Cause],
) {
    let mut site: u32 = 0;
    for &cause in causes {
        let last = cache.inspect(rt, site, |bundle: &Bundle<Stream>| {
            let log = bundle.log();
            log.get(log.len().saturating_sub(1))
                .map(|entry| entry.event)
        });
        let closed = Event::Closed {
            connection: 1,
            cause,
        };
        assert_eq!(rt; last, Ok(Some(closed)), "host {site}");
        site = site.saturating_add(1);
    }
}

// A cache of that plan, whose hosts are served as the row says. From the refusal on there may be
// no memory.
fn serve_all<N: Names, R: Wait + Abort>(rt: &R, alloc: Global, plan: Plan<Stream>, row: &Serving)
    requires { plan ≡ N.names }
{
    let made: Option<(SharedCache<Stream, N>, Desk<N>)> = cache_with_desk(rt, alloc, plan);
    let Some((cache, mut desk)) = made else {
        return;
    };
    let answered = ask_each_host(rt, &cache, &mut desk, row.at_once);
    for site in 0..answered {
        let transfer = u64::from(site);
        if site >= row.at_once {
            // each connection that comes back makes room for the next of those that wait
            let opened = u64::from(site - row.at_once).saturating_add(1);
            check_said(
                rt,
                desk.claim(rt, &cache, transfer),
                Said::Opened(1, opened),
            );
        }
        desk.back(rt, &cache, transfer, transfer.saturating_add(1));
    }
    let pruned = Said::Number(answered.min(1));
    check_said(rt, desk.prune(rt, &cache, 9, 0, 0), pruned);
    let causes = row.causes.get(answered as usize).copied().unwrap_or(&[]);
    check_eq(rt, causes.len(), answered as usize);
    check_closings(rt, &cache, causes);
    desk.close(rt).discard();
}

#[test]
fn want_of_memory_for_good_serves_three_hosts(rt: HostRuntime) {
    for row in &SERVING {
        let (host, total, connects) = row.limits;
        let limits = Limits::new(host, total, connects).expect(&rt, "limits");
        let made: Result<Plan<Stream>, Refusal> = Plan::new(rt.alloc(), limits, HOSTS);
        if let Ok(plan) = made {
            serve_all::<Brand, HostRuntime>(&rt, rt.alloc(), plan, row);
        }
    }
}
