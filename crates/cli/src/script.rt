//! Runs a script, and tells of its fault.

ghost use Rattle.std.specs.Prelude.{◌≡◌, None, option_map, string_bytes};
ghost use Rattle.cli.specs.Programs.{AnswersDrawn, AnswersPictured, AnswersScript};
ghost use Rattle.cli.specs.Programs.{status_of};
ghost use Rattle.command_line.specs.Inputs.{name_of};
ghost use Rattle.streams.specs.Streams.{CanCount};

mod picturing;

use crate::system::System;
use command_line::{Input, ScriptWords};
use commands::{FileAction, Status, write_file_fault};
use picturing::Painter;
use script_engine::{Unseen, Viewer, run_file_for, run_script_for};
use script_text::ScriptFault;
use std::alloc::Global;
use std::io::Write;
use streams::{Files, Sink, Source, StreamFault};

/// Runs the script that is read from there, tells of its fault on `errors`, and answers the status.
/// If the words name a file for the picture, it is made before, and gets the picture after the
/// script; if that fails, it is told, and the status is 4.
pub(crate) fn answer_script<F: Files, N, R: Source, W: Sink, E: Write>(
    alloc: Global,
    words: ScriptWords,
    system: &mut System<F, N, R, W, E>,
) -> u8
    requires input { CanCount (R.source system.old.input) }
    requires output { CanCount (W.sink system.old.output) }
    ensures answers { AnswersDrawn (option_map string_bytes words.picture)
        (F.opens system.old.files system.new.files) (name_of words.input) words.is_traced
        (R.source system.old.input) (R.source system.new.input)
        (W.sink system.old.output) (W.sink system.new.output) result }
    ensures unopened { name_of words.input ≡ None → system.new.files ≡ system.old.files }
{
    let ScriptWords {
        is_traced,
        picture,
        input: from,
    } = words;
    match picture {
        None => { run_seen(alloc, is_traced, from, system, &mut Unseen) }
        Some(name) => { run_pictured(alloc, is_traced, name.as_str(), from, system) }
    }
}

/// Runs the script that is read from there, draws its picture into the file of that name, tells
/// what goes wrong on `errors`, and answers the status.
fn run_pictured<F: Files, N, R: Source, W: Sink, E: Write>(
    alloc: Global,
    is_traced: bool,
    name: &str,
    from: Input,
    system: &mut System<F, N, R, W, E>,
) -> u8
    requires input { CanCount (R.source system.old.input) }
    requires output { CanCount (W.sink system.old.output) }
    ensures answers { AnswersPictured (F.opens system.old.files system.new.files) (name_of from)
        is_traced (R.source system.old.input) (R.source system.new.input)
        (W.sink system.old.output) (W.sink system.new.output) result }
    ensures unopened { name_of from ≡ None → system.new.files ≡ system.old.files }
{
    let mut file = match system.files.create(name) {
        Ok(file) => file,
        Err(reason) => {
            let errors = &mut system.errors;
            write_file_fault(alloc, errors, FileAction::Write, name, Some(reason));
            return Status::Failed.code();
        }
    };
    let mut painter = Painter::new(alloc);
    let status = run_seen(alloc, is_traced, from, system, &mut painter);
    let errors = &mut system.errors;
    match painter.write_to(&mut file) {
        Ok(()) => status,
        Err(StreamFault::Memory) => {
            let _ = writeln!(errors, "run: out of memory");
            Status::Failed.code()
        }
        Err(_) => {
            write_file_fault(alloc, errors, FileAction::Write, name, file.last_error());
            Status::Failed.code()
        }
    }
}

/// Runs the script that is read from there, which that viewer sees, tells of its fault on `errors`,
/// and answers the status.
fn run_seen<F: Files, N, R: Source, W: Sink, E: Write, V: Viewer>(
    alloc: Global,
    is_traced: bool,
    from: Input,
    system: &mut System<F, N, R, W, E>,
    viewer: &mut V,
) -> u8
    requires input { CanCount (R.source system.old.input) }
    requires output { CanCount (W.sink system.old.output) }
    ensures answers { AnswersScript (F.opens system.old.files system.new.files) (name_of from)
        is_traced (R.source system.old.input) (R.source system.new.input)
        (W.sink system.old.output) (W.sink system.new.output) result }
    ensures unopened { name_of from ≡ None → system.new.files ≡ system.old.files }
{
    match from {
        Input::Standard => {
            let System { input, output, .. } = system;
            let ran = run_script_for(alloc, is_traced, input, output, viewer);
            status_told(&mut system.errors, ran)
        }
        Input::File(name) => {
            let System { files, output, .. } = system;
            let ran = run_file_for(alloc, is_traced, files, name.as_str(), output, viewer);
            status_told(&mut system.errors, ran)
        }
    }
}

/// The status of a program that ran a script; a fault is told.
fn status_told<E: Write>(errors: &mut E, ran: Result<(), ScriptFault>) -> u8
    ensures { result ≡ status_of ran }
{
    match ran {
        Ok(()) => Status::Done.code(),
        Err(fault) => {
            let _ = writeln!(errors, "{fault}");
            Status::Stopped.code()
        }
    }
}
