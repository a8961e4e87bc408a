//! Loads over the system's threads and sockets.

ghost use Rattle.std.specs.Prelude.{◌≡◌, ◌⊎◌, IfOk, length};
ghost use Rattle.load_run.specs.LoadJobs.{AsksOwn};
ghost use Rattle.load_run.specs.LoadRuns.{IsUnknownHost, ReportsLoad, ReportsRun, polled_world};

use crate::load::failure::LoadFailure;
use crate::load::fault::{LoadFault, NO_THREAD, OUT_OF_MEMORY, POLL_FAILED};
use crate::load::outcome::LoadOutcome;
use crate::load::own_server::add_own;
use crate::load::running::load_sites;
use commands::LoadPlan;
use loopback_server::Server;
use std::alloc::{AllocGlobal, Global};
use std::io::{self, Error, ErrorKind};
use std::random::RandomSource;
use std::sync::Wait;
use std::sync::atomic::{AtomicBool, Ordering};
use std::thread;
use std::thread::{Builder, JoinHandle, Scope, Threads, scope_env};

/// Runs a load over the system's threads and sockets, and returns its outcome. The requests go to
/// the plan's URLs. Without URLs they go to a server that the load starts, on one port of 127.0.0.1
/// for each site. The files that the plan names are created once the addresses of all sites are
/// known. The trace is written during the load, the picture after it. If one of them cannot be
/// written, the outcome still has the report, and gives the reason.
///
/// `threads` and `system` are one runtime; `threads` is the one that may start threads.
///
/// # Errors
///
/// The reason why there is no report, with the name of a file that could not be created.
pub fn load_on_system<T: Threads + Wait + RandomSource + AllocGlobal + Sync>(
    threads: &T,
    system: &HostRuntime,
    alloc: Global,
    plan: LoadPlan,
) -> Result<LoadOutcome, LoadFailure>
    ensures { IfOk result (ReportsLoad polled_world plan) }
{
    if !plan.urls.is_empty() {
        return load_sites(threads, system, alloc, &plan);
    }
    let mut plan = plan;
    let server = own_server(system, alloc, &mut plan)?;
    let (used, ended) = (&plan, AtomicBool::new(false));
    thread::scope(
        scope_env(),
        threads,
        |scope| -> Result<LoadOutcome, LoadFailure>
            ensures { IfOk result (λ outcome. IsUnknownHost used.entry.now outcome
                ⊎ ReportsRun polled_world used.entry.now outcome) }
        {
            let serving = serve(scope, threads, server, &ended)?;
            let outcome = load_sites(threads, system, alloc, used);
            ended.store(true, Ordering::SeqCst);
            match serving.join(threads) {
                Ok(_requests) => outcome,
                Err(error) => Err(fault_of(&error, POLL_FAILED).into()),
            }
        },
    )
}

// Makes the server of a load without URLs, and adds its requests to the plan.
fn own_server(
    system: &HostRuntime,
    alloc: Global,
    plan: &mut LoadPlan,
) -> Result<Server, LoadFailure>
    ensures { IfOk result (λ server. (length server ≡ plan.old.options.sites)
        × AsksOwn server plan.old plan.new) }
{
    let server = match Server::listen(system, alloc, plan.options.sites) {
        Ok(server) => server,
        Err(error) => return Err(fault_of(&error, LoadFault::Listen).into()),
    };
    let Ok(()) = add_own(alloc, plan, server.ports()) else {
        return Err(OUT_OF_MEMORY.into());
    };
    Ok(server)
}

// Lets the server serve on another thread of the scope, until `ended` is true.
fn serve<'s, E, T: Wait + Sync>(
    scope: &Scope<'s, E>,
    threads: &'s T,
    server: Server,
    ended: &'s AtomicBool,
) -> Result<JoinHandle<io::Result<Vec<u64>>>, LoadFailure> {
    match Builder::new().spawn_scoped(scope, || server.serve(threads, ended)) {
        Ok(serving) => Ok(serving),
        Err(error) => Err(fault_of(&error, NO_THREAD).into()),
    }
}

// Returns `OUT_OF_MEMORY` if the system's error is an allocation failure, else `otherwise`.
fn fault_of(error: &Error, otherwise: LoadFault) -> LoadFault {
    if error.kind() == ErrorKind::OutOfMemory {
        OUT_OF_MEMORY
    } else {
        otherwise
    }
}
