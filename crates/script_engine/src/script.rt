//! Runs a script, from its bytes to its transcript.

ghost use Rattle.std.specs.Prelude.{◌≡◌, ◌≤◌, ◌++◌, length, false, IfErr, IfOk};
ghost use Rattle.streams.specs.Lines.{lines};
ghost use Rattle.script_text.specs.Grammar.{reading};
ghost use Rattle.script_engine.specs.Transcript.{Answers};
ghost use Rattle.script_engine.specs.Running.{IsOfNoStream, RunsLine, RunsLines, RunsScript};
ghost use Rattle.script_engine.specs.Running.{RunsWithoutReading};
ghost use Rattle.script_engine.specs.RunFiles.{RunsFile};
ghost use Rattle.streams.specs.Streams.{CanCount, in_memory};
ghost use Rattle.script_engine.specs.Traces.{echo_of, output_of, stands, told_as, traced_step};
ghost use Rattle.script_engine.specs.Traces.{AnUntracedOutputIsTheTranscript};

use crate::line::line_text;
use crate::machine::{Engine, Machine};
use crate::reading::read_script;
use crate::viewer::{Unseen, Viewer};
use script_text::{Action, Command, FaultKind, HostCommand, ScriptFault, read_line};
use std::alloc::{AllocError, Global};
use streams::{Files, Sink, Source, first_line};

/// Runs the script that the reader gives, and writes its transcript: the lines of each event and
/// reply, in order. If `is_traced`, writes its trace: each line but `limit` stands before the lines
/// that it causes. The fault says at which line the script ended, and why. What was written before
/// a fault stays: the lines of the script's lines before it, and a part of its own if writing
/// failed.
pub fn run_script<R: Source, W: Sink>(
    alloc: Global,
    is_traced: bool,
    reader: &mut R,
    writer: &mut W,
) -> Result<(), ScriptFault>
    requires reader { CanCount (R.source reader.old) }
    requires writer { CanCount (W.sink writer.old) }
    ensures { RunsScript is_traced (R.source reader.old) (R.source reader.new) (W.sink writer.old)
        (W.sink writer.new) result }
{
    run_script_for(alloc, is_traced, reader, writer, &mut Unseen)
}

/// Runs the script that the reader gives, as [`run_script`] does. The viewer sees its hosts before
/// their leases and tickets are given up, but nothing if the script could not be read or memory ran
/// out before it began.
pub fn run_script_for<R: Source, W: Sink, V: Viewer>(
    alloc: Global,
    is_traced: bool,
    reader: &mut R,
    writer: &mut W,
    viewer: &mut V,
) -> Result<(), ScriptFault>
    requires reader { CanCount (R.source reader.old) }
    requires writer { CanCount (W.sink writer.old) }
    ensures { RunsScript is_traced (R.source reader.old) (R.source reader.new) (W.sink writer.old)
        (W.sink writer.new) result }
{
    match read_script(alloc, reader) {
        Ok(script) => run_engine(alloc, is_traced, script.as_slice(), writer, viewer),
        Err(kind) => Err(ScriptFault { line: 0, kind }),
    }
}

/// Runs the script in the named file, as `run_script` does. If the file can't be opened, the fault
/// is `Read`, at no line, and nothing is written.
pub fn run_file<F: Files, W: Sink>(
    alloc: Global,
    is_traced: bool,
    files: &mut F,
    name: &str,
    writer: &mut W,
) -> Result<(), ScriptFault>
    requires { CanCount (W.sink writer.old) }
    ensures { RunsFile is_traced (F.opens files.old files.new name.now) (W.sink writer.old)
        (W.sink writer.new) result }
{
    run_file_for(alloc, is_traced, files, name, writer, &mut Unseen)
}

/// Runs the script in the named file, as [`run_file`] does. The viewer sees its hosts as in
/// [`run_script_for`].
pub fn run_file_for<F: Files, W: Sink, V: Viewer>(
    alloc: Global,
    is_traced: bool,
    files: &mut F,
    name: &str,
    writer: &mut W,
    viewer: &mut V,
) -> Result<(), ScriptFault>
    requires { CanCount (W.sink writer.old) }
    ensures { RunsFile is_traced (F.opens files.old files.new name.now) (W.sink writer.old)
        (W.sink writer.new) result }
{
    match files.open(name) {
        Ok(mut file) => run_script_for(alloc, is_traced, &mut file, writer, viewer),
        Err(_) => Err(ScriptFault {
            line: 0,
            kind: FaultKind::Read,
        }),
    }
}

/// Runs a script in memory, and appends its transcript to `out`. Reads and writes don't fail: if
/// `out` can't grow, the fault is `Memory`.
pub fn run_bytes(alloc: Global, script: &[u8], out: &mut Vec<u8>) -> Result<(), ScriptFault>
    ensures lines { RunsLines (in_memory out.old.items) (in_memory out.new.items)
        (output_of false script.now) result }
    ensures streams { IfErr result IsOfNoStream }
{
    let mut reader = script;
    run_script(alloc, false, &mut reader, out)
}

/// Runs the lines of a script on an engine of its own, which the viewer sees at the end.
fn run_engine<W: Sink, V: Viewer>(
    alloc: Global,
    is_traced: bool,
    script: &[u8],
    writer: &mut W,
    viewer: &mut V,
) -> Result<(), ScriptFault>
    requires short { length script.now ≤ 1048576 }
    requires writer { CanCount (W.sink writer.old) }
    ensures { RunsWithoutReading (W.sink writer.old) (W.sink writer.new)
        (output_of is_traced script.now) result }
{
    let mut engine = match Engine::new(alloc) {
        Ok(engine) => engine,
        Err(kind) => return Err(ScriptFault { line: 0, kind }),
    };
    let result = run_lines(alloc, is_traced, &mut engine, script, writer);
    viewer.see(&engine);
    let _ = engine.end();
    result
}

/// Runs the lines of a script on a machine, one after another, as [`run_script`] does on an engine
/// of its own. The fault is at no line if the machine fails at the script's end.
///
/// Precondition: the script has at most 1,048,576 bytes.
pub fn run_lines<M: Machine, W: Sink>(
    alloc: Global,
    is_traced: bool,
    machine: &mut M,
    script: &[u8],
    writer: &mut W,
) -> Result<(), ScriptFault>
    requires short { length script.now ≤ 1048576 }
    requires writer { CanCount (W.sink writer.old) }
    ensures { RunsWithoutReading (W.sink writer.old) (W.sink writer.new)
        (told_as is_traced (M.run machine.old) 1 (lines script.now)) result }
{
    let mut rest = script;
    let mut line: u32 = 0;
    while !rest.is_empty() {
        line += 1;
        let (first, others) = first_line(rest);
        match run_line(alloc, is_traced, machine, first, writer) {
            Ok(()) => rest = others,
            Err(kind) => return Err(ScriptFault { line, kind }),
        }
    }
    match machine.end_of_script() {
        Ok(()) => Ok(()),
        Err(kind) => Err(ScriptFault { line: 0, kind }),
    }
}

/// Runs a line, and writes its lines of the transcript; in a trace, behind the line itself.
fn run_line<M: Machine, W: Sink>(
    alloc: Global,
    is_traced: bool,
    machine: &mut M,
    line: &[u8],
    writer: &mut W,
) -> Result<(), FaultKind>
    requires { CanCount (W.sink writer.old) }
    ensures { RunsLine (W.sink writer.old) (W.sink writer.new)
        (traced_step is_traced (M.run machine.old) line.now) (M.run machine.new) result }
{
    let text = match line_output(alloc, is_traced, machine, line) {
        Ok(text) => text,
        Err(kind) => return Err(kind),
    };
    match writer.put(text.as_slice()) {
        Ok(()) => Ok(()),
        Err(fault) => Err(FaultKind::from(fault)),
    }
}

/// Runs a line, and gives its lines of the transcript; in a trace, behind the line itself.
fn line_output<M: Machine>(
    alloc: Global,
    is_traced: bool,
    machine: &mut M,
    line: &[u8],
) -> Result<Vec<u8>, FaultKind>
    ensures { Answers (λ output. output.items)
        (traced_step is_traced (M.run machine.old) line.now) result (M.run machine.new) }
{
    let text = match line_text(alloc, machine, line) {
        Ok(text) => text,
        Err(kind) => return Err(kind),
    };
    if !is_traced {
        return Ok(text.into_bytes());
    }
    match echoed(alloc, line, text.as_bytes()) {
        Ok(whole) => Ok(whole),
        Err(_) => Err(FaultKind::Memory),
    }
}

/// A line with the lines that it causes behind it. A new limit is left out: if it is taken, the
/// line that it causes has the same text.
fn echoed(alloc: Global, line: &[u8], text: &[u8]) -> Result<Vec<u8>, AllocError>
    ensures { IfOk result (λ whole. whole.items ≡ echo_of line.now ++ text.now) }
{
    let mut whole = Vec::new(alloc);
    if stands(line) {
        whole.extend_from_slice(line)?;
        whole.push(b'\n')?;
    }
    whole.extend_from_slice(text)?;
    Ok(whole)
}

/// Whether a line stands in the trace.
fn stands(line: &[u8]) -> bool
    ensures { result ≡ stands (reading line.now) }
{
    match read_line(line) {
        Ok(Some(Command::Ask(HostCommand::At { action, .. }))) => !matches!(
            action,
            Action::Limit { .. }
        ),
        _ => true,
    }
}

/// Without its lines between them, the output is the transcript.
pub fn untraced_outputs_are_transcripts()
    ensures { AnUntracedOutputIsTheTranscript }
{}
