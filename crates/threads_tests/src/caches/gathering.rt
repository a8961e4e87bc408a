//! Passes that are put by until their cache is gathered, and accounts as rows have them.

ghost use Rattle.shared_cache.specs.Passes.{IsPassOf};

use crate::caches::making::push;
use crate::caches::thread_desk::Stream;
use budget::{Pass, Refusal};
use bundle::Did;
use shared_cache::{Gathered, HostCount, Names, SharedCache};
use std::alloc::Global;
use std::marker::{Model, PhantomData};
use std::process::Abort;

/// How many connections are open in the end, and kept; and what happened at each host: how many
/// were opened, leased again, and closed, how many transfers waited, and how many are open. At the
/// hosts that are left out nothing happened.
pub(crate) type Account = (u64, u64, &'static [(u64, u64, u64, u64, u64)]);

/// Passes of the cache of those names.
pub(crate) struct Passes<N: Names> {
    list: Vec<Pass<Did>>,
    of: PhantomData<N>,
}

impl<N: Names> Model for Passes<N> {
    ghost use Rattle.std.specs.List.{All};
    ghost use Rattle.shared_cache.specs.Passes.{IsPassOf};

    ghost Value = { Unit {0} };

    ghost view = { λ passes. tt };

    ghost invariant = { λ passes. All (IsPassOf N.names) passes.list.items };
}

/// A cache that is not gathered, the passes, and why.
pub(crate) type NotGathered<N> = (SharedCache<Stream, N>, Passes<N>, Refusal);

impl<N: Names> Passes<N> {
    /// None.
    pub fn new(alloc: Global) -> Self {
        Passes {
            list: Vec::new(alloc),
            of: PhantomData,
        }
    }

    /// Puts one more by.
    pub fn put_by(&mut self, rt: &impl Abort, pass: Pass<Did>)
        requires { IsPassOf N.names pass }
    {
        push(rt, &mut self.list, pass);
    }

    /// Gathers the cache with these; where memory runs out, once more.
    pub fn gather(
        self,
        alloc: Global,
        cache: SharedCache<Stream, N>,
    ) -> Result<Gathered<Stream>, NotGathered<N>> {
        match self.gather_once(alloc, cache) {
            Err((cache, passes, Refusal::Memory)) => passes.gather_once(alloc, cache),
            gathered => gathered,
        }
    }

    /// The same of a cache that has to be gathered.
    pub fn gathered(
        self,
        rt: &impl Abort,
        alloc: Global,
        cache: SharedCache<Stream, N>,
    ) -> Gathered<Stream> {
        match self.gather(alloc, cache) {
            Ok(gathered) => gathered,
            Err((_cache, _passes, refusal)) => panic!(rt; "not gathered: {refusal}"),
        }
    }

    fn gather_once(
        self,
        alloc: Global,
        cache: SharedCache<Stream, N>,
    ) -> Result<Gathered<Stream>, NotGathered<N>> {
        let Passes { list, of: _ } = self;
        match cache.gather(alloc, list) {
            Ok(gathered) => Ok(gathered),
            Err((cache, list, refusal)) => {
                let passes = Passes {
                    list,
                    of: PhantomData,
                };
                Err((cache, passes, refusal))
            }
        }
    }

    /// Gives them all up.
    pub fn discard(self, cache: &SharedCache<Stream, N>) {
        let Passes { mut list, of: _ } = self;
        while let Some(pass) = list.pop() {
            cache.discard(pass);
        }
        list.destroy_empty();
    }
}

/// The account has to be this one, and each host's log has to tell the same.
pub(crate) fn check_account(
    rt: &impl Abort,
    gathered: &Gathered<Stream>,
    name: &str,
    account: Account,
) {
    let (total, kept, counts) = account;
    assert_eq!(rt; (gathered.total, gathered.kept), (total, kept), "{name}");
    for place in 0..gathered.hosts.len() {
        let expected = if place < counts.len() {
            counts[place]
        } else {
            (0, 0, 0, 0, 0)
        };
        let found = counts_of(gathered.hosts[place]);
        assert_eq!(rt; found, expected, "{name}: host {place}");
        let (opened, reused, closed, waited, _alive) = expected;
        let logged = logged_at(rt, gathered, place);
        assert_eq!(rt;
            logged,
            (opened, reused, closed, waited),
            "{name}: log of host {place}"
        );
    }
    assert!(rt;
        gathered.log(u32::MAX).is_none(),
        "{name}: a log of no host"
    );
}

// What the host's log tells: how many connections were opened, leased again and closed, and how
// many transfers waited.
fn logged_at(rt: &impl Abort, gathered: &Gathered<Stream>, place: usize) -> (u64, u64, u64, u64) {
    let site = u32::try_from(place).expect(rt, "a site");
    let counts = gathered.log(site).expect(rt, "a log").counts();
    (counts.opened, counts.reused, counts.closed, counts.waited)
}

fn counts_of(host: HostCount) -> (u64, u64, u64, u64, u64) {
    let HostCount {
        opened,
        reused,
        closed,
        waited,
        alive,
    } = host;
    (opened, reused, closed, waited, alive)
}
