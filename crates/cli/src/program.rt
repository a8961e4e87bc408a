//! What the program does with its words, and the status with which it ends.

ghost use Rattle.std.specs.Prelude.{◌≡◌, None};
ghost use Rattle.cli.specs.Programs.{RunsProgram};
ghost use Rattle.command_line.specs.CommandLine.{file_said, said, word_faults};
ghost use Rattle.cli.specs.Fetching.{RunsGet};
ghost use Rattle.load_run.specs.LoadTexts.{RunsLoad, WritesText};
ghost use Rattle.streams.specs.Streams.{CanCount};

use crate::auditing::answer_audit;
use crate::get::run_get;
use crate::loading::run_load;
use crate::script::answer_script;
use crate::system::System;
use command_line::{ArgsAlloc, Input, Request, ScriptWords, Words};
use commands::{LoadPlan, Status};
use crawl::Network;
use load_run::{LoadFailure, LoadOutcome};
use std::alloc::Global;
use std::io::Write;
use streams::{Files, Sink, Source};

/// How a script on a terminal ends, for the person who writes it.
const HOW_TO_END: &str = "Write a script, and end it with Ctrl-D on an empty line.\n";

/// Does what the words ask for, and answers the status with which the program ends:
///
/// - 0: it was done, or the trace is lawful;
/// - 1: the pool of the trace broke a rule;
/// - 2: the words are refused, or a line of a file of URLs is no URL;
/// - 3: the script has a fault, or the trace can't be read on;
/// - 4: memory ran out while the words or the trace were read, a URL has no good response or no
///   line, or a script's picture, a load's report, an audit's answer, help or the version was not
///   written whole.
///
/// The script, the trace or more URLs are read from the file that the words name, or else from
/// standard input. URLs are fetched over the system's network, and `load` carries out loads.
/// Standard output gets the transcript, the lines of transfers, the report, the answer, the help or
/// the version, and nothing else. Standard error gets what goes wrong, and first how to end a
/// script that is typed on a terminal.
pub fn run_program<
    M: ArgsAlloc,
    F: Files,
    N: Network,
    L: FnOnce(Global, LoadPlan) -> Result<LoadOutcome, LoadFailure> + Drop,
    R: Source,
    W: Sink,
    E: Write,
>(alloc: Global, memory: &mut M, words: Words, load: L, system: &mut System<F, N, R, W, E>) -> u8
    requires input { CanCount (R.source system.old.input) }
    requires output { CanCount (W.sink system.old.output) }
    requires load { L.IsAlwaysCallable load }
    ensures runs { RunsProgram (F.opens system.old.files system.new.files)
        (RunsGet N.Crawler.crawled N.Crawler.finished (F.opens system.old.files system.new.files))
        (RunsLoad (L.post load alloc)) (word_faults words) (said words) (M.wants memory.old)
        (M.wants memory.new) (R.source system.old.input) (R.source system.new.input)
        (W.sink system.old.output) (W.sink system.new.output) result }
    ensures unopened { file_said (said words) ≡ None → system.new.files ≡ system.old.files }
{
    let request = memory.request(words);
    say(&mut system.errors, hint_for(&request, system.is_typed));
    match request {
        Request::Script(words) => answer_script(alloc, words, system),
        Request::Get(plan) => run_get(alloc, plan, system),
        Request::Load(plan) => {
            run_load(alloc, plan, load, &mut system.output, &mut system.errors)
        }
        Request::Audit(words) => answer_audit(alloc, words, system),
        Request::Tell(text) => tell(text.as_str(), &mut system.output, &mut system.errors),
        Request::Refuse(text) => {
            say(&mut system.errors, text.as_str());
            Status::Refused.code()
        }
        Request::NoMemory => {
            say(&mut system.errors, "run: out of memory\n");
            Status::Failed.code()
        }
    }
}

/// Returns the text that comes first on standard error: how to end a script, if one is typed on a
/// terminal.
fn hint_for(request: &Request, is_typed: bool) -> &'static str {
    match request {
        Request::Script(
            ScriptWords {
                input: Input::Standard,
                ..
            },
        ) if is_typed => HOW_TO_END,
        _ => "",
    }
}

/// Tells help or the version. Answers the status: 0 if it was written whole, else 4.
fn tell<W: Sink, E: Write>(text: &str, output: &mut W, errors: &mut E) -> u8
    requires { CanCount (W.sink output.old) }
    ensures { WritesText text.now (W.sink output.old) (W.sink output.new) result }
{
    match output.put(text.as_bytes()) {
        Ok(()) => Status::Done.code(),
        Err(kind) => {
            let _ = writeln!(errors, "run: {kind}");
            Status::Failed.code()
        }
    }
}

/// Tells what goes wrong. If that fails there is nobody left to tell.
fn say<E: Write>(errors: &mut E, text: &str) {
    let _ = errors.write_all(text.as_bytes());
}
