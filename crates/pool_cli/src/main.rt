//! The program curlpool: it fetches URLs over kept connections, runs scripts of connection events
//! through a pool, and puts a shared cache under load.
#![tactic(auto)]

use cli::{System, SystemNetwork, look_up_threads, run_program};
use client::{LookUps, SystemResolver};
use command_line::{CountedArgsAlloc, given_words};
use load_run::load_on_system;
use std::alloc::Global;
use std::fs::{self, File};
use std::io::{self, IsTerminal};
use std::process::ExitCode;
use std::sync::Wait;
use std::thread::{self, Builder, JoinHandle, Scope, scope_env};
use streams::{FailureCounted, SystemFiles};

/// Takes a descriptor, which can be neither read nor written. One of a standard stream that was
/// closed would else be the next socket's, and a server would get what is told.
fn taken_descriptor(rt: &HostRuntime) -> io::Result<File> {
    fs::open(rt, "/")
}

/// Starts threads that look up names, at most `count`, and returns them.
fn start_threads<'s, 'a: 's, E: 's, H: Wait + Sync>(
    alloc: Global,
    scope: &'s Scope<'s, E>,
    look_ups: &'s LookUps<'a, H, SystemResolver<'a>>,
    resolver: SystemResolver<'a>,
    count: u32,
) -> Vec<JoinHandle<()>> {
    let mut threads = Vec::new(alloc);
    for _ in 0..count {
        if let Ok(thread) = Builder::new().spawn_scoped(scope, move || look_ups.serve(&resolver)) {
            // without memory to keep it, the thread ends by itself
            let _ = threads.push(thread);
        }
    }
    threads
}

fn main(rt: HostRuntime) -> ExitCode {
    let _taken = [
        taken_descriptor(&rt),
        taken_descriptor(&rt),
        taken_descriptor(&rt),
    ];
    let look_ups = LookUps::new(&rt, rt.alloc());
    let status = thread::scope(scope_env(), &rt, |scope| -> u8 {
        let mut memory = CountedArgsAlloc::new(rt.alloc());
        let words = given_words(&rt);
        let resolver = SystemResolver::new(&rt);
        let count = look_up_threads(&words);
        let threads = start_threads(rt.alloc(), scope, &look_ups, resolver, count);
        let stdin = rt.stdin();
        let is_typed = stdin.is_terminal();
        let mut system = System {
            files: SystemFiles::new(&rt),
            network: SystemNetwork::new(&rt, &rt, &look_ups, !threads.is_empty()),
            input: FailureCounted::with_descriptor(stdin),
            is_typed,
            output: FailureCounted::new(rt.stdout()),
            errors: rt.stderr(),
        };
        let load = |alloc, plan| load_on_system(&rt, &rt, alloc, plan);
        let status = run_program(rt.alloc(), &mut memory, words, load, &mut system);
        look_ups.close();
        for thread in threads {
            thread.join(&rt);
        }
        status
    });
    ExitCode::from(status)
}
