//! The logs of a load's hosts, as they are cut.

ghost use Rattle.std.specs.Prelude.{ℕ, IfOk};
ghost use Rattle.load_run.specs.Loading.{IsLoadRefusedFor};
ghost use Rattle.load_run.specs.Logs.{AreLogsOf};

use crate::error::LoadError;
use budget::Refusal;
use conn_log::Entry;
use driver::DriverFault;
use shared_cache::{Names, SharedCache};
use std::alloc::Global;
use std::sync::Wait;

/// Cuts the log of every host, and returns what was cut, in the order of the hosts.
///
/// # Errors
///
/// Memory ran out.
pub(crate) fn cut_logs<S: Drop, N: Names, R: Wait>(
    rt: &R,
    alloc: Global,
    cache: &SharedCache<S, N>,
) -> Result<Vec<Vec<Entry>>, Refusal>
    ensures { IfOk result (λ logs. AreLogsOf S N.names logs.items) }
{
    let hosts = cache.hosts();
    let Ok(logs) = Vec::with_capacity(alloc, hosts as usize) else {
        return Err(Refusal::Memory);
    };
    let mut logs = logs;
    for site in 0..hosts {
        let log = cache.cut(rt, site)?;
        logs.push_reserved(log);
    }
    Ok(logs)
}

/// The reason why there is no account, if a cut or the gathering was refused.
pub(crate) fn error_of(refusal: Refusal) -> LoadError
    ensures { (workers : ℕ) → IsLoadRefusedFor workers result }
{
    match refusal {
        Refusal::Memory => LoadError::Run(DriverFault::Memory),
        _ => LoadError::Gather,
    }
}
