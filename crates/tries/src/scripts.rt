//! The command `script`: runs a script over a shared cache in one thread. Its transcript has to be
//! that of `curlpool script`, which runs the script over a pool.

ghost use Rattle.std.specs.Prelude.{◌≡◌};

mod accounts;
mod calls;
mod errors;
mod heads;
mod site_leases;
mod telling;

use crate::input::read_input;
use crate::scripts::accounts::check_account;
use crate::scripts::calls::answer;
use crate::scripts::errors::{ScriptError, print_error};
use crate::scripts::heads::{Head, MOST_LINES, read_head};
use crate::scripts::site_leases::{NoStream, SiteLeases};
use crate::statuses::{BAD_WORDS, PASSED};
use script_text::{FaultKind, ScriptFault};
use shared_cache::{Names, Plan, SharedCache};
use std::io::Write;
use std::marker::Brand;
use std::sync::Wait;
use streams::first_line;

/// Runs the script of the named file, or of standard input, and prints its transcript. Returns the
/// status.
pub(crate) fn run_script<R: Wait>(rt: &R, system: &HostRuntime, words: &[String]) -> u8 {
    if words.len() > 1 {
        return BAD_WORDS;
    }
    let ended = match read_input(system, words) {
        Ok(script) => run(rt, system, &script),
        Err(_) => Err(fault(0, FaultKind::Read)),
    };
    match ended {
        Ok(()) => PASSED,
        Err(error) => print_error(system, error),
    }
}

/// Returns the error of a fault in that line.
fn fault(line: u32, kind: FaultKind) -> ScriptError {
    ScriptError::Script(ScriptFault { line, kind })
}

/// Runs a script, and prints its transcript.
fn run<R: Wait>(rt: &R, system: &HostRuntime, script: &[u8]) -> Result<(), ScriptError> {
    if script.len() > MOST_LINES as usize {
        return Err(fault(0, FaultKind::ScriptTooLong));
    }
    let head = match read_head(system.alloc(), script) {
        Ok(head) => head,
        Err(fault) => return Err(ScriptError::Script(fault)),
    };
    let Some(limits) = head.limits else {
        return Ok(());
    };
    let Ok(plan) = Plan::new(system.alloc(), limits, head.sites) else {
        return Err(ScriptError::Memory);
    };
    run_commands::<Brand, R>(rt, system, plan, &head)
}

/// Runs the commands after the head over the cache of that plan, and checks its account at the end.
fn run_commands<N: Names, R: Wait>(
    rt: &R,
    system: &HostRuntime,
    plan: Plan<NoStream>,
    head: &Head<'_>,
) -> Result<(), ScriptError>
    requires { plan ≡ N.names }
{
    let alloc = system.alloc();
    let Ok(cache) = SharedCache::<NoStream, N>::new(alloc, plan) else {
        return Err(ScriptError::Memory);
    };
    let Ok(mut told) = vec![in alloc; 0usize; cache.hosts() as usize] else {
        return Err(ScriptError::Memory);
    };
    let Ok(mut kept) = SiteLeases::new(rt, alloc, &cache) else {
        return Err(ScriptError::Memory);
    };
    let ran = print_lines(rt, system, &cache, &mut kept, &mut told, head);
    let pass = kept.end(rt, &cache);
    check_account(rt, alloc, cache, pass)?;
    ran
}

/// Runs each line after the head, and prints its lines of the transcript.
fn print_lines<N: Names, R: Wait>(
    rt: &R,
    system: &HostRuntime,
    cache: &SharedCache<NoStream, N>,
    kept: &mut SiteLeases<N>,
    told: &mut [usize],
    head: &Head<'_>,
) -> Result<(), ScriptError> {
    let mut rest = head.rest;
    for index in head.lines..MOST_LINES {
        if rest.is_empty() {
            break;
        }
        let (line, others) = first_line(rest);
        match answer(rt, system.alloc(), cache, kept, told, line) {
            Ok(text) => print_text(system, &text)?,
            Err(kind) => return Err(fault(index + 1, kind)),
        }
        rest = others;
    }
    Ok(())
}

/// Prints a command's lines of the transcript.
fn print_text(system: &HostRuntime, text: &str) -> Result<(), ScriptError> {
    match system.stdout().write_all(text.as_bytes()) {
        Ok(()) => Ok(()),
        Err(_) => Err(ScriptError::Output),
    }
}
