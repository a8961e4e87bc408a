//! The command `fuzz`: mutates the responses of a corpus, and reads each mutant at once and in
//! random pieces.

mod corpus;
mod damage;
mod draws;
mod printing;
mod reading;
mod task;
mod trial;

use crate::fuzzing::corpus::responses_of;
use crate::fuzzing::task::{Task, task_of};
use crate::fuzzing::trial::differing;
use crate::input::read_stdin;
use crate::statuses::{BAD_WORDS, status_of};
use std::io::Write;

/// Runs the command on the corpus from standard input. Returns the status, `FAILED` if readers
/// differ.
pub(crate) fn fuzz(rt: &HostRuntime, words: &[String]) -> u8 {
    match task_of(words) {
        Some(task) => status_of(readers_agree(rt, &task)),
        None => BAD_WORDS,
    }
}

// Tries all mutants, and returns true if none differed. `None` if an allocation, a read or a
// write fails.
fn readers_agree(rt: &HostRuntime, task: &Task) -> Option<bool> {
    let corpus = read_corpus(rt)?;
    let differ = differing(rt, task, corpus.as_slice())?;
    let count = task.count;
    println!(rt; "{count} responses, {differ} differ").ok()?;
    Some(differ == 0)
}

// Reads the corpus from standard input. `None` if that fails, or it is no corpus.
fn read_corpus(rt: &HostRuntime) -> Option<Vec<Vec<u8>>> {
    let bytes = read_stdin(rt).ok()?;
    responses_of(rt.alloc(), bytes.as_slice())
}
