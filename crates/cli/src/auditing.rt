//! Judges a trace, and tells why there is no verdict.

ghost use Rattle.std.specs.Prelude.{◌≡◌, None};
ghost use Rattle.cli.specs.Auditing.{AnswersAudit, audit_status, stop_status};
ghost use Rattle.command_line.specs.Inputs.{name_of};
ghost use Rattle.streams.specs.Streams.{CanCount};

use crate::system::System;
use audit_stream::{AuditStop, Verdict, audit_file, audit_stream};
use command_line::{AuditWords, Input};
use commands::Status;
use std::alloc::Global;
use std::io::Write;
use streams::{Files, Sink, Source};

/// What standard input is called.
const STANDARD: &str = "trace";

/// Judges the trace that is read from there, writes the answer on `output`, tells on `errors` why
/// there is no verdict, and answers the status.
pub(crate) fn answer_audit<F: Files, N, R: Source, W: Sink, E: Write>(
    alloc: Global,
    words: AuditWords,
    system: &mut System<F, N, R, W, E>,
) -> u8
    requires input { CanCount (R.source system.old.input) }
    requires output { CanCount (W.sink system.old.output) }
    ensures answers { AnswersAudit (F.opens system.old.files system.new.files)
        (name_of words.input) words.telling (R.source system.old.input)
        (R.source system.new.input) (W.sink system.old.output) (W.sink system.new.output) result }
    ensures unopened { name_of words.input ≡ None → system.new.files ≡ system.old.files }
{
    let AuditWords {
        telling,
        input: from,
    } = words;
    match from {
        Input::Standard => {
            let System { input, output, .. } = system;
            let audited = audit_stream(alloc, STANDARD, telling, input, output);
            status_told(&mut system.errors, audited)
        }
        Input::File(name) => {
            let System { files, output, .. } = system;
            let audited = audit_file(alloc, files, name.as_str(), telling, output);
            status_told(&mut system.errors, audited)
        }
    }
}

/// The status of a program that judged a trace; why there is no verdict is told.
fn status_told<E: Write>(errors: &mut E, audited: Result<Verdict, AuditStop>) -> u8
    ensures { result ≡ audit_status audited }
{
    match audited {
        Ok(Verdict::Lawful) => Status::Done.code(),
        Ok(Verdict::Broken) => Status::Broken.code(),
        Err(stop) => {
            let _ = writeln!(errors, "{stop}");
            stop_status(stop)
        }
    }
}

/// The status of a program that gave no verdict.
fn stop_status(stop: AuditStop) -> u8
    ensures { result ≡ stop_status stop }
{
    match stop {
        AuditStop::Line { .. } | AuditStop::Read => Status::Stopped.code(),
        AuditStop::Memory | AuditStop::Write => Status::Failed.code(),
    }
}
