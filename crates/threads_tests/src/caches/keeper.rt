//! Rows of steps by one thread: what is done with a shared cache, and what each step is answered.

ghost use Rattle.std.specs.Prelude.{◌≡◌};

use crate::caches::gathering::{Account, Passes, check_account};
use crate::caches::making::{new_cache, new_plan};
use crate::caches::thread_desk::{CLOSE, Desk, KEEP, Said, Stream, entry_said, look_said, want_of};
use budget::Refusal;
use conn_log::Want;
use shared_cache::{Names, Plan, SharedCache};
use std::alloc::Global;
use std::marker::Brand;
use std::process::Abort;
use std::sync::Wait;

/// What is done with the cache, or read there. Transfers come first, then sites, and moments last.
#[derive(Clone, Copy)]
pub(crate) enum Step {
    /// The transfer acquires a connection, and wants nothing else.
    Get(u64, u32, u64),
    /// The same of a transfer that does.
    Ask(Want, u32, u64),
    Claim(u64),
    Leave(u64, u64),
    /// The lease comes back after a response that lets its connection persist.
    Back(u64, u64),
    /// It comes back after a response with which its connection ends.
    BackToClose(u64, u64),
    Drop(u64, u64),
    /// The limit, the site, and the moment.
    Limit(u32, u32, u64),
    /// The moment, the most seconds idle, and the most seconds open.
    Prune(u64, u64, u64),
    Upkeep,
    Look(u32),
    /// The entry of that place in the log of that site.
    Entry(u32, usize),
    /// What the pass remembers of that site.
    Told(u32),
    /// The pass is put by for the gathering, and there is a new one.
    PutBy,
    /// The pass is given up, and there is a new one.
    Discard,
    /// The cache is to be gathered with the passes that were put by, which is refused.
    Gather,
}

/// What happens, under which limits.
pub(crate) struct Row {
    pub name: &'static str,
    /// The limits of a host, of the total, and of those kept; 0 is none.
    pub limits: (u32, u32, u32),
    /// How many hosts there are.
    pub hosts: u32,
    pub steps: &'static [(Step, Said)],
    /// The account with all passes; none where it can't add up any more.
    pub account: Option<Account>,
}

/// A cache, the desk of the thread that calls it, and the passes that are put by.
struct Keeper<N: Names> {
    cache: SharedCache<Stream, N>,
    desk: Desk<N>,
    passes: Passes<N>,
}

impl<N: Names> Keeper<N> {
    fn new(rt: &(impl Wait + Abort), alloc: Global, plan: Plan<Stream>) -> Self
        requires { plan ≡ N.names }
    {
        let cache = new_cache(rt, alloc, plan);
        let desk = Desk::new(rt, alloc, &cache);
        Keeper {
            cache,
            desk,
            passes: Passes::new(alloc),
        }
    }

    // Does the step.
    fn after(self, rt: &(impl Wait + Abort), alloc: Global, step: Step) -> (Self, Said) {
        if let Step::Gather = step {
            return self.gather(rt, alloc);
        }
        let mut keeper = self;
        let said = keeper.said(rt, alloc, step);
        (keeper, said)
    }

    fn said(&mut self, rt: &(impl Wait + Abort), alloc: Global, step: Step) -> Said {
        let (desk, cache) = (&mut self.desk, &self.cache);
        match step {
            Step::Get(transfer, site, now) => desk.acquire(rt, cache, site, want_of(transfer), now),
            Step::Ask(want, site, now) => desk.acquire(rt, cache, site, want, now),
            Step::Claim(transfer) => desk.claim(rt, cache, transfer),
            Step::Leave(transfer, now) => desk.leave(rt, cache, transfer, now),
            Step::Back(transfer, now) => desk.back(rt, cache, transfer, KEEP, now),
            Step::BackToClose(transfer, now) => desk.back(rt, cache, transfer, CLOSE, now),
            Step::Drop(transfer, now) => desk.abandon(rt, cache, transfer, now),
            Step::Limit(limit, site, now) => desk.limit(rt, cache, site, limit, now),
            Step::Prune(now, max_age, max_life) => desk.prune(rt, cache, now, max_age, max_life),
            _other => self.rest(rt, alloc, step),
        }
    }

    // What the steps are answered that neither a lease nor a ticket takes.
    fn rest(&mut self, rt: &(impl Wait + Abort), alloc: Global, step: Step) -> Said {
        match step {
            Step::Upkeep => Said::Number(self.cache.upkeep()),
            Step::Look(site) => look_said(rt, &self.cache, site),
            Step::Entry(site, place) => entry_said(rt, &self.cache, site, place),
            Step::Told(site) => self.desk.told(rt, site),
            Step::PutBy => {
                let pass = self.desk.change_pass(rt, alloc, &self.cache);
                self.passes.put_by(rt, pass);
                Said::Done
            }
            Step::Discard => {
                let pass = self.desk.change_pass(rt, alloc, &self.cache);
                self.cache.discard(pass);
                Said::Done
            }
            _other => panic!(rt; "no such step"),
        }
    }

    // Gathers, which has to be refused.
    fn gather(self, rt: &impl Abort, alloc: Global) -> (Self, Said) {
        let Keeper {
            cache,
            desk,
            passes,
        } = self;
        match passes.gather(alloc, cache) {
            Ok(_gathered) => panic!(rt; "the cache is gathered"),
            Err((cache, passes, refusal)) => {
                let keeper = Keeper {
                    cache,
                    desk,
                    passes,
                };
                (keeper, Said::Refused(refusal))
            }
        }
    }

    // Gathers with all passes; the account has to be that one.
    fn close(self, rt: &impl Abort, alloc: Global, name: &str, account: Option<Account>) {
        let Keeper {
            cache,
            desk,
            mut passes,
        } = self;
        passes.put_by(rt, desk.close(rt));
        match passes.gather(alloc, cache) {
            Ok(gathered) => {
                let account = account.expect(rt, name);
                check_account(rt, &gathered, name, account);
            }
            Err((cache, passes, refusal)) => {
                assert_eq!(rt; refusal, Refusal::PassesMissing, "{name}");
                assert!(rt; account.is_none(), "{name}: passes are missing");
                passes.discard(&cache);
            }
        }
    }
}

// Does the steps of a row with a new cache; each has to be answered as the row says.
fn run_row<N: Names, R: Wait + Abort>(rt: &R, alloc: Global, plan: Plan<Stream>, row: &Row)
    requires { plan ≡ N.names }
{
    let name = row.name;
    let mut keeper: Keeper<N> = Keeper::new(rt, alloc, plan);
    for place in 0..row.steps.len() {
        let (step, expected) = row.steps[place];
        let (next, said) = keeper.after(rt, alloc, step);
        assert_eq!(rt; said, expected, "{name}: step {place}");
        keeper = next;
    }
    keeper.close(rt, alloc, name, row.account);
}

/// Does each row with a cache of its own.
pub(crate) fn run_all<R: Wait + Abort>(rt: &R, alloc: Global, rows: &[Row]) {
    for row in rows {
        let plan = new_plan(rt, alloc, row.limits, row.hosts);
        run_row::<Brand, R>(rt, alloc, plan, row);
    }
}
