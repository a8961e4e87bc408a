//! The dials, counters, alarms and progress of a load's threads.

ghost use Rattle.std.specs.Prelude.{◌≡◌, ℕ, IfErr, IfOk, length, vec_len};
ghost use Rattle.std.specs.List.{All};
ghost use Rattle.load_run.specs.Counting.{IsUncounted};
ghost use Rattle.load_run.specs.Loading.{IsLoadRefusedFor};

use crate::counted_results::{CountedResults, Counting};
use crate::error::LoadError;
use crate::progress::Progress;
use driver::{DriverFault, Tools};
use load_figures::Figures;
use socket::{Addresses, PolledAlarm, PolledDial};
use std::alloc::{AllocError, Global};
use std::io::{self, ErrorKind};

/// Makes a dial and a counter of results for each of these addresses, the last address first.
pub(crate) fn tools_for<'a>(
    system: &'a HostRuntime,
    alloc: Global,
    addresses: Vec<Addresses>,
    hosts: u32,
    counting: Counting<'a>,
    progress: &'a [Progress],
) -> Result<Vec<Tools<PolledDial<'a, HostRuntime>, CountedResults<'a>>>, LoadError>
    requires { length progress.now ≡ vec_len addresses }
    ensures number { IfOk result (λ tools. vec_len tools ≡ vec_len addresses) }
    ensures uncounted { IfOk result (λ tools.
        All (λ own. IsUncounted hosts counting.entry own.results) tools.items) }
    ensures refused { (workers : ℕ) → IfErr result (IsLoadRefusedFor workers) }
{
    let Ok(tools) = Vec::with_capacity(alloc, addresses.len()) else {
        return Err(LoadError::Run(DriverFault::Memory));
    };
    let mut tools = tools;
    let mut addresses = addresses;
    while let Some(last) = addresses.pop() {
        let dial = dial_for(system, alloc, last)?;
        let results = results_for(alloc, hosts, counting, &progress[addresses.len()])?;
        tools.push_reserved(Tools { dial, results });
    }
    Ok(tools)
}

// Makes a dial to these addresses.
fn dial_for<'a>(
    system: &'a HostRuntime,
    alloc: Global,
    addresses: Addresses,
) -> Result<PolledDial<'a, HostRuntime>, LoadError>
    ensures refused { (workers : ℕ) → IfErr result (IsLoadRefusedFor workers) }
{
    match PolledDial::new(system, alloc, addresses) {
        Ok(dial) => Ok(dial),
        Err(error) => Err(error_of(&error)),
    }
}

// Makes the counter for the results of one thread.
fn results_for<'a>(
    alloc: Global,
    hosts: u32,
    counting: Counting<'a>,
    progress: &'a Progress,
) -> Result<CountedResults<'a>, LoadError>
    ensures ok { IfOk result (IsUncounted hosts counting.entry) }
    ensures refused { (workers : ℕ) → IfErr result (IsLoadRefusedFor workers) }
{
    let Ok(figures) = Figures::new(alloc, hosts) else {
        return Err(LoadError::Run(DriverFault::Memory));
    };
    Ok(CountedResults {
        figures,
        unbegun: 0,
        counting,
        progress,
    })
}

/// Returns the alarms of these dials.
pub(crate) fn alarms_of(
    alloc: Global,
    tools: &[Tools<PolledDial<'_, HostRuntime>, CountedResults<'_>>],
) -> Result<Vec<PolledAlarm>, LoadError>
    ensures refused { (workers : ℕ) → IfErr result (IsLoadRefusedFor workers) }
{
    let Ok(alarms) = Vec::with_capacity(alloc, tools.len()) else {
        return Err(LoadError::Run(DriverFault::Memory));
    };
    let mut alarms = alarms;
    for own in tools {
        match own.dial.alarm() {
            Ok(alarm) => alarms.push_reserved(alarm),
            Err(error) => return Err(error_of(&error)),
        }
    }
    Ok(alarms)
}

/// Makes the progress of `workers` threads that have done no job.
pub(crate) fn progress_for(alloc: Global, workers: usize) -> Result<Vec<Progress>, AllocError>
    ensures number { IfOk result (λ progress. vec_len progress ≡ workers) }
{
    let mut progress = Vec::with_capacity(alloc, workers)?;
    for _ in 0..workers {
        progress.push_reserved(Progress::new());
    }
    Ok(progress)
}

// Returns the reason why a load has no poller.
fn error_of(error: &io::Error) -> LoadError
    ensures { (workers : ℕ) → IsLoadRefusedFor workers result }
{
    if error.kind() == ErrorKind::OutOfMemory {
        LoadError::Run(DriverFault::Memory)
    } else {
        LoadError::Run(DriverFault::Poll)
    }
}
