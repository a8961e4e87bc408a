//! The account of a cache at a script's end, compared with its logs.

ghost use Rattle.std.specs.Prelude.{◌≡◌, ◌<◌, [], vec_capacity};
ghost use Rattle.std.specs.List.{All};
ghost use Rattle.shared_cache.specs.Passes.{IsPassOf};

use crate::scripts::errors::ScriptError;
use crate::scripts::site_leases::NoStream;
use budget::Pass;
use bundle::Did;
use conn_log::Counts;
use shared_cache::{Gathered, HostCount, Names, SharedCache, discard_all};
use std::alloc::Global;
use std::sync::Wait;

/// Cuts each log, gathers the cache, and compares its account with the logs.
pub(super) fn check_account<N: Names, R: Wait>(
    rt: &R,
    alloc: Global,
    cache: SharedCache<NoStream, N>,
    pass: Pass<Did>,
) -> Result<(), ScriptError>
    requires { IsPassOf N.names pass }
{
    let Some(logs) = counts_of_logs(rt, alloc, &cache) else {
        pass.discard();
        return Err(ScriptError::Memory);
    };
    let Ok(room) = Vec::with_capacity(alloc, 1) else {
        pass.discard();
        return Err(ScriptError::Memory);
    };
    let passes = listed::<N>(room, pass);
    match cache.gather(alloc, passes) {
        Ok(gathered) => if is_of_logs(&gathered, &logs) {
            Ok(())
        } else {
            Err(ScriptError::Account)
        },
        Err((_cache, passes, refusal)) => {
            discard_all(passes);
            Err(ScriptError::NotGathered(refusal))
        }
    }
}

/// Returns a list of that one pass, in room made before.
fn listed<N: Names>(room: Vec<Pass<Did>>, pass: Pass<Did>) -> Vec<Pass<Did>>
    requires none { room.items ≡ [] }
    requires room { 0 < vec_capacity room }
    requires pass { IsPassOf N.names pass }
    ensures { All (IsPassOf N.names) result.items }
{
    let mut passes = room;
    passes.push_reserved(pass);
    passes
}

/// Cuts the log of each host, and returns its counts. `None` if an allocation fails.
fn counts_of_logs<N: Names, R: Wait>(
    rt: &R,
    alloc: Global,
    cache: &SharedCache<NoStream, N>,
) -> Option<Vec<HostCount>> {
    let mut counts = Vec::new(alloc);
    for site in 0..cache.hosts() {
        let part = cache.cut(rt, site).ok()?;
        counts.push(count_of(&Counts::of(&part))).ok()?;
    }
    Some(counts)
}

/// Returns the counts of a host with that log.
fn count_of(counts: &Counts) -> HostCount {
    let Counts {
        opened,
        reused,
        closed,
        waited,
    } = *counts;
    HostCount {
        opened,
        reused,
        closed,
        waited,
        alive: opened.saturating_sub(closed),
    }
}

/// True if the account has the counts of the logs: those of each host, and in total the connections
/// left open, all of them idle.
fn is_of_logs(gathered: &Gathered<NoStream>, logs: &[HostCount]) -> bool {
    let mut open = 0u64;
    for host in logs {
        open = open.saturating_add(host.alive);
    }
    gathered.total == open && gathered.kept == open && gathered.hosts.as_slice() == logs
}
