//! Dials of the threads, and the alarms that wake them up.

use crate::addresses::addresses_of;
use crate::many::task::Task;
use crate::tally::Tally;
use driver::Tools;
use socket::{PolledAlarm, PolledDial};
use std::alloc::{AllocGlobal, Global};

/// Makes a dial and a tally for each thread. `None` if the system has no memory or no poller for
/// them.
pub(crate) fn tools_of<'n>(
    system: &'n HostRuntime,
    task: &Task,
) -> Option<Vec<Tools<PolledDial<'n, HostRuntime>, Tally>>> {
    let alloc = system.alloc();
    let mut tools = Vec::new(alloc);
    for _ in 0..task.workers {
        let addresses = addresses_of(alloc, &task.ports)?;
        let dial = PolledDial::new(system, alloc, addresses).ok()?;
        let results = Tally::new();
        tools.push(Tools { dial, results }).ok()?;
    }
    Some(tools)
}

/// Makes the alarms of these dials. `None` if the system has no memory or no descriptor for them.
pub(crate) fn alarms_of(
    alloc: Global,
    tools: &[Tools<PolledDial<'_, HostRuntime>, Tally>],
) -> Option<Vec<PolledAlarm>> {
    let mut alarms = Vec::new(alloc);
    for own in tools {
        let alarm = own.dial.alarm().ok()?;
        alarms.push(alarm).ok()?;
    }
    Some(alarms)
}
