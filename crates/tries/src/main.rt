//! A program that tests the other crates: it fuzzes the reader of responses, compares its reports
//! with rows that state them, runs scripts over a shared cache, and sends requests to servers that
//! run elsewhere. It is not a part of the product.
#![tactic(auto)]

mod addresses;
mod fuzzing;
mod input;
mod jobs;
mod loading;
mod many;
mod reading;
mod reports;
mod scripts;
mod soaking;
mod statuses;
mod tally;
mod words;

use crate::fuzzing::fuzz;
use crate::loading::load_each;
use crate::many::load_many;
use crate::reading::read_rows;
use crate::scripts::run_script;
use crate::soaking::soak;
use crate::statuses::{BAD_WORDS, FAILED, PASSED};
use std::alloc::AllocGlobal;
use std::env;
use std::process::ExitCode;
use std::random::RandomSource;
use std::sync::Wait;
use std::thread::Threads;

/// Usage.
const USAGE: &str = "\
    tries: fuzz SEED COUNT [LIST] < CORPUS\n\
    tries: read [FILE]\n\
    tries: script [FILE]\n\
    tries: load each WORKERS TOTAL JOBS PORT..\n\
    tries: many WORKERS PLACES TOTAL JOBS PORT..\n\
    tries: soak SECONDS THREADS TOTAL PORT..\n\
    tries: COMMAND then COMMAND..\n\
    Standard input is read for FILE `-`, and if no FILE is named.\n";

/// Separates two commands.
const THEN: &str = "then";

fn main(rt: HostRuntime) -> ExitCode {
    let status = match env::args(&rt) {
        Ok(words) => match words.collect::<Vec<String>>(rt.alloc()) {
            Ok(words) => run_all(&rt, &rt, words.get(1..).unwrap_or(&[])),
            Err(_) => FAILED,
        },
        Err(_) => BAD_WORDS,
    };
    if status == BAD_WORDS {
        let _ = eprint!(rt; "{USAGE}");
    }
    ExitCode::from(status)
}

// Runs the commands until one fails. Returns the status of the last one run.
fn run_all<R: Threads + Wait + RandomSource + AllocGlobal + Sync>(
    threads: &R,
    rt: &HostRuntime,
    words: &[String],
) -> u8 {
    let mut status = PASSED;
    for command in words.split(|word| word.as_str() == THEN) {
        if status == PASSED {
            status = run(threads, rt, command);
        }
    }
    status
}

// Runs one command, and returns its status.
fn run<R: Threads + Wait + RandomSource + AllocGlobal + Sync>(
    threads: &R,
    rt: &HostRuntime,
    words: &[String],
) -> u8 {
    let Some((command, words)) = words.split_first() else {
        return BAD_WORDS;
    };
    match command.as_str() {
        "fuzz" => fuzz(rt, words),
        "read" => read_rows(rt, words),
        "script" => run_script(threads, rt, words),
        "load" => load_each(threads, rt, words),
        "many" => load_many(threads, rt, words),
        "soak" => soak(threads, rt, words),
        _ => BAD_WORDS,
    }
}
