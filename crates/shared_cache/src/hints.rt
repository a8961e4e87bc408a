//! Which host may have the oldest idle connection of all: a word for each host, which whoever has
//! its lock writes. Reading them takes no lock. A word is a hint: it may be older than what it
//! tells of, and what is closed is looked at again under its host's lock.

ghost use Rattle.std.specs.Prelude.{◌≡◌, ◌<◌, ◌≤◌, IfOk, IfErr, IfSome};

use budget::Refusal;
use conn_log::Stamp;
use std::alloc::Global;
use std::marker::Model;
use std::sync::atomic::{AtomicU64, Ordering};

/// What the word of a host says that has no idle connection.
const NONE: u64 = u64::MAX;

/// Since which moment the oldest idle connection of a host is idle.
#[derive(Drop)]
struct Hint {
    since: AtomicU64,
    // Words that threads write at once are 64 bytes apart: no two of them share a cache line.
    _apart: [u64; 7],
}

/// Where the oldest idle connection of all may be.
#[derive(Clone, Copy)]
pub(crate) struct Hinted {
    /// The host.
    pub host: u32,
    /// What its word says.
    pub since: u64,
}

/// A word for each host, which says since which moment its oldest idle connection is idle.
#[derive(Drop)]
pub(crate) struct Hints {
    words: Vec<Hint>,
}

impl Model for Hints {
    ghost use Rattle.std.specs.Prelude.{ℕ, ◌≤◌, vec_len};

    ghost Value = { ℕ };

    ghost view = { λ hints. vec_len hints.words };

    ghost invariant = { λ hints. vec_len hints.words ≤ 1024 };
}

impl Hints {
    /// Those of so many hosts, none of which has an idle connection. The only refusal is
    /// [`Refusal::Memory`].
    pub fn new(alloc: Global, hosts: u32) -> Result<Hints, Refusal>
        requires { hosts ≤ 1024 }
        ensures ok { IfOk result (λ hints. hints ≡ hosts) }
        ensures err { IfErr result (λ refusal. refusal ≡ Refusal.Memory) }
    {
        let mut words = Vec::with_capacity(alloc, hosts as usize)?;
        while words.len() < hosts as usize {
            words.push_reserved(Hint {
                since: AtomicU64::new(NONE),
                _apart: [0; 7],
            });
        }
        Ok(Hints { words })
    }

    /// Notes since when that host's oldest connection is idle. Whoever calls it has the host's
    /// lock.
    #[inline(always)]
    pub fn note(&self, host: u32, oldest: Option<Stamp>)
        requires { host < self.now }
    {
        let since = word_of(oldest);
        let word = &self.words[host as usize].since;
        if word.load(Ordering::SeqCst) != since {
            word.store(since, Ordering::SeqCst);
        }
    }

    /// The host whose oldest connection is idle since the earliest moment; of several the lowest.
    pub fn first(&self) -> Option<Hinted>
        ensures { IfSome result (λ hinted. hinted.host < self.now) }
    {
        let mut least = NONE;
        let mut first = None;
        for (host, word) in self.words.iter().enumerate() {
            let since = word.since.load(Ordering::SeqCst);
            if since < least {
                least = since;
                let host = host as u32;
                first = Some(Hinted { host, since });
            }
        }
        first
    }
}

/// What the word of a host says whose oldest idle connection has that stamp. The last two moments
/// that there are share a word.
#[inline(always)]
pub(crate) fn word_of(oldest: Option<Stamp>) -> u64 {
    match oldest {
        Some(stamp) => stamp.since.min(NONE - 1),
        None => NONE,
    }
}
