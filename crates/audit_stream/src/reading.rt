//! Reads a trace of any length, of which it keeps less than two pieces.

ghost use Rattle.std.specs.Prelude.{◌≡◌, ◌<◌, length, true, option_map, IfOk, OnOk};
ghost use Rattle.streams.specs.Streams.{CanCount};
ghost use Rattle.audit_stream.specs.Audits.{AuditsFile, AuditsStream, IsSetTo, ReadsAll};
ghost use Rattle.audit_stream.specs.Audits.{ReadsPiece};
ghost use Rattle.audit_stream.specs.Reading.{EndsText, Leaves, goes_on};
ghost use Rattle.audit_stream.specs.Runs.{told_by};
ghost use Rattle.audit_stream.specs.Tells.{TellsLine};
ghost use Rattle.audit_stream.specs.Writing.{WritesAlone, WritesFor};

use crate::audit_output::{AuditOutput, Verdict};
use crate::line_ends::complete_line;
use crate::stop::AuditStop;
use crate::teller::Teller;
use audit::{Audit, AuditFault};
use script_text::{FaultKind, LINE_LIMIT};
use std::alloc::Global;
use std::mem;
use streams::{Files, Sink, Source, first_line};

/// How many bytes are read at a time.
const PIECE: usize = 65536;

/// Judges the trace in the file of that name, as `audit_stream` does. If it can't be opened, the
/// error is `Read`, and nothing is written.
pub fn audit_file<F: Files, W: Sink>(
    alloc: Global,
    files: &mut F,
    name: &str,
    telling: AuditOutput,
    output: &mut W,
) -> Result<Verdict, AuditStop>
    requires { CanCount (W.sink output.old) }
    ensures { AuditsFile (F.opens files.old files.new name.now) telling (W.sink output.old)
        (W.sink output.new) result }
{
    match files.open(name) {
        Ok(mut file) => audit_stream(alloc, name, telling, &mut file, output),
        Err(_) => Err(AuditStop::Read),
    }
}

/// Judges the trace that the reader gives, and writes the answer; the trace is called so there.
/// Without `all` it is read up to its first violation. The error says why there is no verdict; the
/// violations before it are written, but for those told as JSON.
pub fn audit_stream<R: Source, W: Sink>(
    alloc: Global,
    name: &str,
    telling: AuditOutput,
    reader: &mut R,
    output: &mut W,
) -> Result<Verdict, AuditStop>
    requires reader { CanCount (R.source reader.old) }
    requires output { CanCount (W.sink output.old) }
    ensures { AuditsStream telling (R.source reader.old) (R.source reader.new)
        (W.sink output.old) (W.sink output.new) result }
{
    let Ok(mut audit) = Audit::new(alloc) else {
        return Err(AuditStop::Memory);
    };
    let mut run = Run {
        audit,
        teller: Teller::new(alloc, name, telling),
    };
    match run.read_all(alloc, reader, output) {
        Ok(()) => run.teller.finish(&run.audit, output),
        Err(stop) => Err(stop),
    }
}

/// Reads some bytes to the end of `text`, and answers how many: none only at the end.
fn read_piece<R: Source>(
    reader: &mut R,
    piece: &mut [u8],
    text: &mut Vec<u8>,
) -> Result<usize, AuditStop>
    requires reader { CanCount (R.source reader.old) }
    requires room { 0 < length piece.old }
    ensures { ReadsPiece (R.source reader.old) (R.source reader.new) text.old.items
        text.new.items result }
{
    let Ok(count) = reader.read_some(piece) else {
        return Err(AuditStop::Read);
    };
    match text.extend_from_slice(&piece[..count]) {
        Ok(()) => Ok(count),
        Err(_) => Err(AuditStop::Memory),
    }
}

/// Sets a text to these bytes.
fn set_to(text: &mut Vec<u8>, bytes: &[u8]) -> Result<(), AuditStop>
    ensures { IsSetTo text.new.items bytes.now result }
{
    text.clear();
    match text.extend_from_slice(bytes) {
        Ok(()) => Ok(()),
        Err(_) => Err(AuditStop::Memory),
    }
}

/// An audit under way, and what was told of it.
#[derive(Drop)]
struct Run<'a> {
    audit: Audit,
    teller: Teller<'a>,
}

impl Run<'_> {
    /// Reads all lines, or up to the first violation if one is enough.
    fn read_all<R: Source, W: Sink>(
        &mut self,
        alloc: Global,
        reader: &mut R,
        output: &mut W,
    ) -> Result<(), AuditStop>
        requires reader { CanCount (R.source reader.old) }
        requires output { CanCount (W.sink output.old) }
        requires goes { goes_on self.old.teller.telling.all (told_by self.old) ≡ true }
        ensures reads { ReadsAll self.old.teller.telling.all (R.source reader.old)
            (R.source reader.new) (told_by self.old) (told_by self.new) result }
        ensures writes { WritesFor (W.sink output.old) (W.sink output.new) result }
    {
        let mut piece = [0u8; PIECE];
        let mut text = Vec::new(alloc);
        let mut left = Vec::new(alloc);
        'pieces: for _ in 0..u64::MAX {
            match read_piece(reader, &mut piece, &mut text) {
                Ok(0) => return self.read_last(text.as_slice(), output),
                Ok(_) => {}
                Err(stop) => return Err(stop),
            }
            let rest = match self.read_complete(text.as_slice(), output) {
                Ok(Some(rest)) => rest,
                Ok(None) => return Ok(()),
                Err(stop) => return Err(stop),
            };
            match set_to(&mut left, rest) {
                Ok(()) => {}
                Err(stop) => return Err(stop),
            }
            mem::swap(&mut text, &mut left);
        }
        // Nothing reads so often.
        Err(AuditStop::Memory)
    }

    /// Reads the lines whose ends are there, and answers what follows them; nothing if one
    /// violation is enough.
    fn read_complete<'b, W: Sink>(
        &mut self,
        text: &'b [u8],
        output: &mut W,
    ) -> Result<Option<&'b [u8]>, AuditStop>
        requires output { CanCount (W.sink output.old) }
        requires goes { goes_on self.old.teller.telling.all (told_by self.old) ≡ true }
        ensures leaves { IfOk result (λ left. Leaves self.old.teller.telling.all text.now
            (told_by self.old) (told_by self.new) (option_map (λ rest. rest.now) left)) }
        ensures same { OnOk result (self.new.teller.telling ≡ self.old.teller.telling) }
        ensures writes { WritesAlone (W.sink output.old) (W.sink output.new) result }
    {
        let mut rest = text;
        while let Some((line, others)) = complete_line(rest) {
            match self.read(line, output) {
                Ok(true) => rest = others,
                Ok(false) => return Ok(None),
                Err(stop) => return Err(stop),
            }
        }
        // one byte more may be a CR before the line's end
        if rest.len() > LINE_LIMIT + 1 {
            let fault = AuditFault::Line(FaultKind::LineTooLong);
            return Err(AuditStop::Line {
                line: self.audit.line().saturating_add(1),
                fault,
            });
        }
        Ok(Some(rest))
    }

    /// Reads the last lines, and ends the trace.
    fn read_last<W: Sink>(&mut self, text: &[u8], output: &mut W) -> Result<(), AuditStop>
        requires output { CanCount (W.sink output.old) }
        requires goes { goes_on self.old.teller.telling.all (told_by self.old) ≡ true }
        ensures ends { OnOk result (EndsText self.old.teller.telling.all text.now
            (told_by self.old) (told_by self.new)) }
        ensures writes { WritesAlone (W.sink output.old) (W.sink output.new) result }
    {
        let mut rest = text;
        while !rest.is_empty() {
            let (line, others) = first_line(rest);
            match self.read(line, output) {
                Ok(true) => rest = others,
                Ok(false) => return Ok(()),
                Err(stop) => return Err(stop),
            }
        }
        let Ok(()) = self.audit.end() else {
            return Err(AuditStop::Memory);
        };
        match self.teller.tell(&mut self.audit, output) {
            Ok(_) => Ok(()),
            Err(stop) => Err(stop),
        }
    }

    /// Reads a line, and tells the violations that it shows. Answers whether to go on.
    fn read<W: Sink>(&mut self, line: &[u8], output: &mut W) -> Result<bool, AuditStop>
        requires { CanCount (W.sink output.old) }
        ensures tells { OnOk result (TellsLine line.now (told_by self.old) (told_by self.new)) }
        ensures goes { IfOk result (λ goes.
            goes ≡ goes_on self.new.teller.telling.all (told_by self.new)) }
        ensures same { OnOk result (self.new.teller.telling ≡ self.old.teller.telling) }
        ensures writes { WritesAlone (W.sink output.old) (W.sink output.new) result }
    {
        match self.audit.read(line) {
            Ok(()) => self.teller.tell(&mut self.audit, output),
            Err(fault) => Err(AuditStop::at(self.audit.line(), fault)),
        }
    }
}
