//! What a shared cache costs: threads acquire connections and give them back.

ghost use Rattle.std.specs.Prelude.{◌≡◌, ◌≤◌, IsSome};
ghost use Rattle.shared_cache.specs.Calls.{IsTicketOf};
ghost use Rattle.shared_cache.specs.Passes.{IsPassOf};

use crate::counts::{Counts, MeasureError};
use crate::words::{next_choice, next_number};
use budget::{GREATEST_LIMIT, Limits, Pass, Refusal};
use bundle::{Acquired, Did, Lease, MOST_HOSTS, Ticket};
use conn_log::Want;
use persistence::{Facts, Framing, Version};
use shared_cache::{Names, Plan, SharedCache};
use std::alloc::Global;
use std::env::Args;
use std::marker::{Brand, Model, PhantomData};
use std::sync::Wait;
use std::thread;
use std::thread::Threads;

/// How many hosts a thread has that works at hosts of its own.
const OWN_HOSTS: u32 = 16;

/// The most threads: so many have hosts of their own.
const MOST_THREADS: u32 = MOST_HOSTS / OWN_HOSTS;

/// A response that lets its connection persist.
pub(crate) const KEEP: Facts = Facts {
    version: Version::V11,
    close: false,
    keep_alive: false,
    request_close: false,
    framing: Framing::Counted,
    both_lengths: false,
    upgraded: false,
    whole: true,
    surplus: false,
};

/// How far apart the transfers of two threads begin: no thread does so many rounds.
const TRANSFERS: u64 = 4_294_967_296;

/// What a round does.
#[derive(Clone, Copy)]
enum Form {
    /// It reuses the connection of one host.
    Pair,
    /// It opens one at the next host, where the oldest of all is closed for it.
    Close,
    /// As the first, by several threads at once.
    Threads,
}

/// Each form's word.
static FORMS: [(&str, Form); 3] = [
    ("pair", Form::Pair),
    ("close", Form::Close),
    ("threads", Form::Threads),
];

/// The word for threads with hosts of their own, or all at one.
static PLACES: [(&str, bool); 2] = [("own", true), ("one", false)];

/// What is measured: threads that go round hosts, and acquire a connection at each and give it
/// back.
#[derive(Clone, Copy)]
struct Task {
    /// How many hosts the cache has.
    hosts: u32,
    /// The most connections that may be open over all hosts; 0 counts as the greatest limit.
    total: u32,
    /// How many connections are opened at each host before, which are idle then.
    idle: u32,
    /// How many threads there are.
    threads: u32,
    /// The first host of the first thread.
    first: u32,
    /// By how many hosts the first one of each thread is behind that of the thread before it.
    apart: u32,
    /// How many hosts a thread goes round, from its first one on.
    sites: u32,
    /// How many rounds each thread does.
    rounds: u32,
}

impl Task {
    /// Rounds at one of so many hosts, each with an idle connection, which is reused.
    fn pair(hosts: u32, rounds: u32) -> Task {
        Task {
            hosts,
            total: 0,
            idle: 1,
            threads: 1,
            first: hosts / 2,
            apart: 0,
            sites: 1,
            rounds,
        }
    }

    /// Rounds at so many hosts in turn, half of which have a connection: the next host has none,
    /// and the oldest of all is closed for its new one. One host alone keeps its connection.
    fn close(hosts: u32, rounds: u32) -> Task {
        Task {
            hosts,
            total: (hosts / 2).max(1),
            idle: 0,
            threads: 1,
            first: 0,
            apart: 0,
            sites: hosts,
            rounds,
        }
    }

    /// Rounds of so many threads, each at hosts of its own in turn, which have an idle connection
    /// each.
    fn own(threads: u32, rounds: u32) -> Task {
        Task {
            hosts: threads.saturating_mul(OWN_HOSTS),
            total: 0,
            idle: 1,
            threads,
            first: 0,
            apart: OWN_HOSTS,
            sites: OWN_HOSTS,
            rounds,
        }
    }

    /// Rounds of so many threads at one host, which has an idle connection for each of them.
    fn one(threads: u32, rounds: u32) -> Task {
        Task {
            hosts: 1,
            total: 0,
            idle: threads,
            threads,
            first: 0,
            apart: 0,
            sites: 1,
            rounds,
        }
    }
}

/// The next word as a number, from 1 to the most that may be.
fn number(words: &mut Args, most: u32) -> Result<u32, MeasureError> {
    let number = next_number(words)?;
    if number == 0 || number > most {
        return Err(MeasureError::Words);
    }
    Ok(number)
}

/// What the words ask for.
fn task_of(words: &mut Args) -> Result<Task, MeasureError> {
    let form = next_choice(words, &FORMS)?;
    let most = match form {
        Form::Threads => MOST_THREADS,
        Form::Pair | Form::Close => MOST_HOSTS,
    };
    let count = number(words, most)?;
    let is_own = match form {
        Form::Threads => next_choice(words, &PLACES)?,
        Form::Pair | Form::Close => false,
    };
    let rounds = number(words, u32::MAX)?;
    Ok(match form {
        Form::Pair => Task::pair(count, rounds),
        Form::Close => Task::close(count, rounds),
        Form::Threads if is_own => Task::own(count, rounds),
        Form::Threads => Task::one(count, rounds),
    })
}

/// What was counted of leases.
#[derive(Clone, Copy)]
struct Leases {
    /// How many reused an idle connection.
    reused: u64,
    /// For how many a connection was opened.
    opened: u64,
}

impl Leases {
    /// Both together.
    fn plus(self, other: Leases) -> Leases {
        Leases {
            reused: self.reused.saturating_add(other.reused),
            opened: self.opened.saturating_add(other.opened),
        }
    }
}

/// What a transfer wants, with the most seconds for which its connection may have been idle.
#[inline(always)]
fn want_of(transfer: u64, max_age: u64) -> Want {
    Want {
        transfer,
        lane: 0,
        max_age,
        max_life: 0,
        fresh: false,
        forbid_reuse: false,
    }
}

/// The lease with a stream.
fn with_stream(lease: Lease<()>) -> Lease<()>
    ensures site { result.site ≡ lease.site }
    ensures tables { result.tables ≡ lease.tables }
    ensures stream { IsSome result.stream }
{
    let mut lease = lease;
    if !lease.has_stream() {
        lease.attach(());
    }
    lease
}

/// Withdraws a ticket at a moment, in seconds. Inlined, so that the room for what it moves is
/// cleared here, and not before each acquire.
#[inline(always)]
fn leave<N: Names, R: Wait>(
    rt: &R,
    cache: &SharedCache<(), N>,
    ticket: Ticket,
    now: u64,
    pass: &mut Pass<Did>,
)
    requires made { IsTicketOf N.names ticket }
    requires pass { IsPassOf N.names pass.old }
    ensures { IsPassOf N.names pass.new }
{
    if let Err(stray) = cache.withdraw(rt, ticket, now, pass) {
        stray.scrap();
    }
}

/// Acquires a connection at the site and gives it back, at a moment in seconds. Answers whether it
/// was idle before, if there was one. The age is known only when it runs, so that its test is a
/// part of what is measured.
#[inline(always)]
fn use_once<N: Names, R: Wait>(
    rt: &R,
    cache: &SharedCache<(), N>,
    site: u32,
    transfer: u64,
    max_age: u64,
    now: u64,
    pass: &mut Pass<Did>,
) -> Option<bool>
    requires { IsPassOf N.names pass.old }
    ensures { IsPassOf N.names pass.new }
{
    let want = want_of(transfer, max_age);
    match cache.acquire(rt, site, want, now, pass) {
        Ok(Acquired::Lease(lease)) => {
            let reused = lease.reused();
            cache.give_back(rt, with_stream(lease), KEEP, now, pass);
            Some(reused)
        }
        Ok(Acquired::Wait(ticket)) => {
            leave(rt, cache, ticket, now, pass);
            None
        }
        Err(_) => None,
    }
}

/// Does so in each of these rounds, each for a transfer of its own, at so many sites in turn, from
/// that one on. The rounds are their moments, in seconds; the transfers are those of that thread.
///
/// It alone calls `use_once`, which is inlined only where it is called but once.
#[inline(never)]
fn use_in_turn<N: Names, R: Wait>(
    rt: &R,
    cache: &SharedCache<(), N>,
    from: u32,
    sites: u32,
    thread: u32,
    rounds: u32,
    pass: &mut Pass<Did>,
) -> Leases
    requires { IsPassOf N.names pass.old }
    ensures { IsPassOf N.names pass.new }
{
    let (mut reused, mut opened) = (0, 0);
    let first = u64::from(thread) * TRANSFERS;
    let max_age = u64::from(rounds);
    let last = from.saturating_add(sites.saturating_sub(1));
    let mut site = from;
    for round in 0..rounds {
        let now = u64::from(round);
        match use_once(rt, cache, site, first + now, max_age, now, pass) {
            Some(true) => reused += 1,
            Some(false) => opened += 1,
            None => {}
        }
        site = if site < last { site + 1 } else { from };
    }
    Leases { reused, opened }
}

/// Opens a connection for the transfer and gives it back, at moment 0; whether there was one.
fn is_opened<N: Names, R: Wait>(
    rt: &R,
    cache: &SharedCache<(), N>,
    site: u32,
    transfer: u64,
    pass: &mut Pass<Did>,
) -> bool
    requires { IsPassOf N.names pass.old }
    ensures { IsPassOf N.names pass.new }
{
    let want = Want {
        fresh: true,
        ..want_of(transfer, 0)
    };
    match cache.acquire(rt, site, want, 0, pass) {
        Ok(Acquired::Lease(lease)) => {
            cache.give_back(rt, with_stream(lease), KEEP, 0, pass);
            true
        }
        Ok(Acquired::Wait(ticket)) => {
            leave(rt, cache, ticket, 0, pass);
            false
        }
        Err(_) => false,
    }
}

/// Opens so many connections at each of so many sites, which are idle then since moment 0.
fn open_at_each<N: Names, R: Wait>(
    rt: &R,
    cache: &SharedCache<(), N>,
    sites: u32,
    idle: u32,
    pass: &mut Pass<Did>,
) -> Leases
    requires { IsPassOf N.names pass.old }
    ensures { IsPassOf N.names pass.new }
{
    let mut leases = Leases {
        reused: 0,
        opened: 0,
    };
    for site in 0..sites {
        leases = leases.plus(open_at(rt, cache, site, idle, pass));
    }
    leases
}

/// The same at that site.
fn open_at<N: Names, R: Wait>(
    rt: &R,
    cache: &SharedCache<(), N>,
    site: u32,
    count: u32,
    pass: &mut Pass<Did>,
) -> Leases
    requires { IsPassOf N.names pass.old }
    ensures { IsPassOf N.names pass.new }
{
    let mut opened = 0;
    for transfer in 0..count {
        if is_opened(rt, cache, site, u64::from(transfer), pass) {
            opened += 1;
        }
    }
    Leases { reused: 0, opened }
}

/// A thread: its index, the pass with which it calls the cache that `N` names, and what it counted.
struct Worker<N: Names> {
    index: u32,
    pass: Pass<Did>,
    leases: Leases,
    of: PhantomData<N>,
}

impl<N: Names> Model for Worker<N> {
    ghost use Rattle.bundle.specs.Passes.{Accounts};
    ghost use Rattle.shared_cache.specs.Passes.{IsPassOf};

    ghost Value = { Accounts };

    ghost view = { λ worker. worker.pass };

    ghost invariant = { λ worker. IsPassOf N.names worker.pass };
}

impl<N: Names> Drop for Worker<N> {
    fn drop(self) {
        let Worker {
            index: _,
            pass,
            leases: _,
            of: _,
        } = self;
        pass.discard();
    }
}

impl<N: Names> Worker<N> {
    /// One with a new pass of the cache, that has counted nothing.
    fn new<R: Wait>(
        rt: &R,
        alloc: Global,
        cache: &SharedCache<(), N>,
        index: u32,
    ) -> Result<Worker<N>, Refusal> {
        let pass = cache.pass(rt, alloc)?;
        Ok(Worker {
            index,
            pass,
            leases: Leases {
                reused: 0,
                opened: 0,
            },
            of: PhantomData,
        })
    }

    /// Does its rounds of the task.
    fn work<R: Wait>(&mut self, rt: &R, cache: &SharedCache<(), N>, task: &Task) {
        let ahead = self.index.saturating_mul(task.apart);
        let first = task.first.saturating_add(ahead);
        self.leases = use_in_turn(
            rt,
            cache,
            first,
            task.sites,
            self.index,
            task.rounds,
            &mut self.pass,
        );
    }
}

/// Opens the connections that are idle at each host before the rounds.
fn warmed<N: Names, R: Wait>(
    rt: &R,
    alloc: Global,
    cache: &SharedCache<(), N>,
    task: &Task,
) -> Result<Leases, Refusal> {
    let mut pass = cache.pass(rt, alloc)?;
    let leases = open_at_each(rt, cache, task.hosts, task.idle, &mut pass);
    cache.discard(pass);
    Ok(leases)
}

/// Does the task with the cache of that plan: the threads' rounds, at once. Answers what was
/// counted in all of them, and before.
fn measured<N: Names + Send + Sync, R: Threads + Wait + Sync>(
    rt: &R,
    alloc: Global,
    plan: Plan<()>,
    task: Task,
) -> Result<Leases, Refusal>
    requires { plan ≡ N.names }
{
    let cache = match SharedCache::<(), N>::new(alloc, plan) {
        Ok(cache) => cache,
        Err((_plan, refusal)) => return Err(refusal),
    };
    let before = warmed(rt, alloc, &cache, &task)?;
    let mut workers = hired(rt, alloc, &cache, task.threads)?;
    work_at_once(rt, &cache, &mut workers, &task);
    Ok(before.plus(leases_in_all(&workers)))
}

/// So many threads' passes.
fn hired<N: Names, R: Wait>(
    rt: &R,
    alloc: Global,
    cache: &SharedCache<(), N>,
    threads: u32,
) -> Result<Vec<Worker<N>>, Refusal> {
    let mut workers = Vec::with_capacity(alloc, threads as usize)?;
    for index in 0..threads {
        workers.push_reserved(Worker::new(rt, alloc, cache, index)?);
    }
    Ok(workers)
}

/// Each does its rounds in a thread of its own.
fn work_at_once<N: Names + Send + Sync, R: Threads + Wait + Sync>(
    rt: &R,
    cache: &SharedCache<(), N>,
    workers: &mut [Worker<N>],
    task: &Task,
) {
    let threads = workers.len().max(1);
    thread::for_each_mut(
        rt,
        workers,
        threads,
        &|_, worker| worker.work(rt, cache, task),
    );
}

/// What they counted together.
fn leases_in_all<N: Names>(workers: &[Worker<N>]) -> Leases {
    let mut leases = Leases {
        reused: 0,
        opened: 0,
    };
    for worker in workers {
        leases = leases.plus(worker.leases);
    }
    leases
}

/// Does the task with a new cache, and answers what was counted.
fn leases_of<R: Threads + Wait + Sync>(
    rt: &R,
    alloc: Global,
    task: Task,
) -> Result<Leases, Refusal> {
    let Ok(limits) = Limits::new(0, task.total, GREATEST_LIMIT) else {
        return Err(Refusal::BadLimit);
    };
    let plan = Plan::new(alloc, limits, task.hosts)?;
    measured::<Brand, R>(rt, alloc, plan, task)
}

/// Measures what the words name, and counts the leases.
pub(crate) fn counted<R: Threads + Wait + Sync>(
    rt: &R,
    alloc: Global,
    words: &mut Args,
) -> Result<Counts, MeasureError> {
    let task = task_of(words)?;
    match leases_of(rt, alloc, task) {
        Ok(Leases { reused, opened }) => Ok(Counts::Connections {
            rounds: reused,
            kind: "reused",
            opened,
        }),
        Err(_) => Err(MeasureError::Memory),
    }
}
