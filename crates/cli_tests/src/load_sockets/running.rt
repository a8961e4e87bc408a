//! The program, with its streams in memory.

use crate::networks::FakeNetwork;
use cli::{System, run_program};
use command_line::{CountedArgsAlloc, Words};
use load_run::load_on_system;
use std::alloc::{AllocError, AllocGlobal, Global};
use std::random::RandomSource;
use std::sync::Wait;
use std::thread::Threads;
use streams::SystemFiles;

/// The status with which the program ended, and what it wrote on output and on standard error.
#[derive(Drop)]
pub(crate) struct Ran {
    pub(crate) status: u8,
    pub(crate) output: Vec<u8>,
    pub(crate) errors: Vec<u8>,
}

fn add_word(alloc: Global, words: &mut Vec<String>, word: &str) -> Result<(), AllocError> {
    words.push(String::from_str(alloc, word)?)?;
    Ok(())
}

/// The words after the program's name, of a text with spaces between them.
///
/// # Errors
///
/// There is no memory for them.
pub(crate) fn words(alloc: Global, text: &str) -> Result<Words, AllocError> {
    let mut words = Vec::new(alloc);
    add_word(alloc, &mut words, "curlpool")?;
    for word in text.split_whitespace() {
        add_word(alloc, &mut words, word)?;
    }
    Ok(Words::Given(words))
}

/// What the program does with the words of that text. Loads are carried out on this system, by
/// `threads`, which is the system once more.
///
/// # Errors
///
/// There is no memory for the words.
pub(crate) fn run_words<T: Threads + Wait + RandomSource + AllocGlobal + Sync>(
    threads: &T,
    rt: &HostRuntime,
    text: &str,
) -> Result<Ran, AllocError> {
    let given = words(rt.alloc(), text)?;
    let mut memory = CountedArgsAlloc::new(rt.alloc());
    let mut system = System {
        files: SystemFiles::new(rt),
        network: FakeNetwork::new(rt.alloc(), None),
        input: b"".as_slice(),
        is_typed: false,
        output: Vec::new(rt.alloc()),
        errors: Vec::new(rt.alloc()),
    };
    let load = |alloc, plan| load_on_system(threads, rt, alloc, plan);
    let status = run_program(rt.alloc(), &mut memory, given, load, &mut system);
    let System { output, errors, .. } = system;
    Ok(Ran {
        status,
        output,
        errors,
    })
}
