//! A server on one thread beside what uses it on another.

use loopback_server::Server;
use std::sync::Wait;
use std::sync::atomic::{AtomicBool, Ordering};
use std::thread::{Builder, Threads, scope_env};
use std::{io, thread};

/// What the client returns, beside which the server serves on a thread of its own. The server is
/// told to end after it.
///
/// # Errors
///
/// No thread can be started, and the client isn't called then; the client fails; or the server
/// does.
pub(crate) fn beside<R: Threads + Wait + Sync, T: Drop, F: FnOnce() -> io::Result<T>>(
    rt: &R,
    server: Server,
    client: F,
) -> io::Result<T>
    requires { F.pre client }
{
    let ended = AtomicBool::new(false);
    thread::scope(
        scope_env(),
        rt,
        |scope| -> io::Result<T>
            requires { F.pre client }
        {
            let serving = Builder::new().spawn_scoped(scope, || server.serve(rt, &ended))?;
            let got = client();
            ended.store(true, Ordering::SeqCst);
            let _requests = serving.join(rt)?;
            got
        },
    )
}
