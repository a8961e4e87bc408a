//! A program that measures: rounds over the parts of the product, as often and by as many threads
//! as its words say. It is not a part of the product.
#![tactic(auto)]

mod counts;
mod endless;
mod limits;
mod shared;
mod transfers;
mod words;

use crate::counts::MeasureError;
use crate::words::next_choice;
use std::env;
use std::env::Args;
use std::process::ExitCode;
use std::sync::Wait;
use std::thread::Threads;

/// Memory ran out, or what was counted could not be written.
const FAILED: u8 = 1;

/// The words are refused.
const BAD_WORDS: u8 = 2;

/// The words that there are.
const USAGE: &str = "one or more of:\n\
    limits open-1|open-2|open-4|open-alone|keep-1|plain|tally|link|holders ROUNDS\n\
    shared pair|close HOSTS ROUNDS\n\
    shared threads THREADS own|one ROUNDS\n\
    exchange transfers COUNT\n\
    exchange waiting OTHERS ENDS";

/// What is measured.
#[derive(Clone, Copy)]
enum Subject {
    Limits,
    Shared,
    Exchange,
}

/// Each subject's word.
static SUBJECTS: [(&str, Subject); 3] = [
    ("limits", Subject::Limits),
    ("shared", Subject::Shared),
    ("exchange", Subject::Exchange),
];

/// Measures what the next words ask for, and prints what was counted. Threads and locks are those
/// of `rt`.
fn measure_next<R: Threads + Wait + Sync>(
    rt: &R,
    system: &HostRuntime,
    words: &mut Args,
) -> Result<(), MeasureError> {
    let counts = match next_choice(words, &SUBJECTS)? {
        Subject::Limits => limits::counted(rt, system.alloc(), words)?,
        Subject::Shared => shared::counted(rt, system.alloc(), words)?,
        Subject::Exchange => transfers::counted(system, system.alloc(), words)?,
    };
    counts.print(system)
}

/// Measures what the words ask for, one subject after another.
fn measure_all<R: Threads + Wait + Sync>(
    rt: &R,
    system: &HostRuntime,
    words: &mut Args,
) -> Result<(), MeasureError> {
    for _ in 0..u64::MAX {
        measure_next(rt, system, words)?;
        if words.len() == 0 {
            break;
        }
    }
    Ok(())
}

/// Measures what the words ask for with which the program was started.
fn measure<R: Threads + Wait + Sync>(rt: &R, system: &HostRuntime) -> Result<(), MeasureError> {
    let Ok(mut words) = env::args(system) else {
        return Err(MeasureError::Words);
    };
    let _program = words.next();
    measure_all(rt, system, &mut words)
}

/// Tells why nothing more is done; if that fails there is nobody left to tell.
fn tell(rt: &HostRuntime, error: MeasureError) -> ExitCode {
    match error {
        MeasureError::Words => tell_why(rt, USAGE, BAD_WORDS),
        MeasureError::Memory => tell_why(rt, "out of memory", FAILED),
        MeasureError::Output => tell_why(rt, "the output cannot be written", FAILED),
    }
}

/// Tells that.
fn tell_why(rt: &HostRuntime, why: &str, status: u8) -> ExitCode {
    let _ = eprintln!(rt; "measures: {why}");
    ExitCode::from(status)
}

fn main(rt: HostRuntime) -> ExitCode {
    match measure(&rt, &rt) {
        Ok(()) => ExitCode::SUCCESS,
        Err(error) => tell(&rt, error),
    }
}
