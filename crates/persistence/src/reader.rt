//! A response that is read in whatever pieces its bytes come.
ghost use Rattle.std.specs.Prelude.{◌≡◌, ℕ, false, true, List, ◌++◌, Err, None, Some, IfOk, IfErr};
ghost use Rattle.persistence.specs.declared.answer.ReadFault.{ReadFault};
ghost use Rattle.persistence.specs.declared.answer.ReadFault.TheVariants.{Memory};
ghost use Rattle.persistence.specs.declared.method.Method.{Method};
ghost use Rattle.persistence.specs.Told.{facts_before, is_some_text, TellsFacts};
ghost use Rattle.persistence.specs.Told.{TellsFactsAfterFault, TellsStatus, TellsLength};
ghost use Rattle.persistence.specs.Faults.{IsFaultless};
ghost use Rattle.persistence.specs.Reader.{new_reader, IsSameResponse, HasNoFault, HasFault};
ghost use Rattle.persistence.specs.Reader.{TellsFed, TellsWhole, ShowsItsFault, TellsFactsOf};
ghost use Rattle.persistence.specs.Reader.{TellsWholeOf, TellsFactsOfFaulty};
ghost use Rattle.persistence.specs.ReadingStages.{IsAtStage, fault_at};

pub(crate) mod buffer;
mod bytes_fed;
mod stage;

use crate::{Facts, Fed, Framing, Method, ReadFault, Version};
use buffer::Buffer;
use bytes_fed::BytesFed;
use stage::{Stage, stage_after};
use std::alloc::Global;
use std::marker::Model;

/// A reader of the response to one request: it is fed the bytes in whatever pieces they come, and
/// tells the status, the facts and the body's length of all bytes so far (RFC 9112, sections 2.1,
/// 6.3 and 7.1). It keeps 16,384 bytes of memory, taken when it is made.
#[derive(Drop)]
pub struct ResponseReader {
    method: Method,
    request_close: bool,
    buffer: Buffer,
    stage: Stage,
    ended: bool,
    any_byte: bool,
    fed: BytesFed,
}

impl Model for ResponseReader {
    ghost use Rattle.persistence.specs.Reader.{Reading};

    ghost Value = { Reading };

    ghost use Rattle.std.specs.Prelude.{◌≡◌};
    ghost use Rattle.persistence.specs.declared.method.Method.{Method};
    ghost use Rattle.persistence.specs.Told.{is_some_text};
    ghost use Rattle.persistence.specs.ReadingStages.{IsAtStage, fault_at, len_at};

    ghost view = { λ reader. record {
      method = reader.method;
      request_close = reader.request_close;
      bytes = reader.fed.bytes;
      ended = reader.ended;
      fault = fault_at reader.stage;
      len = len_at reader.stage;
    } };

    ghost invariant = { λ reader. record {
      reached : IsAtStage reader.method reader.fed.bytes reader.stage reader.buffer;
      any : reader.any_byte ≡ is_some_text reader.fed.bytes;
    } };
}

impl ResponseReader {
    /// A reader that was fed nothing, for the response to a request of that method, which had the
    /// connection option `close` or not. All memory is taken here.
    ///
    /// # Errors
    ///
    /// `Memory`: there is no memory for it.
    pub fn new(
        alloc: Global,
        method: Method,
        request_close: bool,
    ) -> Result<ResponseReader, ReadFault>
        ensures unread { IfOk result (λ reader. reader ≡ new_reader method request_close) }
        ensures memory { IfErr result (λ fault. fault ≡ Memory) }
    {
        let Ok(buffer) = Buffer::new(alloc) else {
            return Err(ReadFault::Memory);
        };
        Ok(ResponseReader {
            method,
            request_close,
            buffer,
            stage: Stage::Heads { skipped: 0 },
            ended: false,
            any_byte: false,
            fed: BytesFed::new(),
        })
    }

    /// Reads one piece more, of any length; the connection must not have ended. `Whole` from the
    /// piece on by which the response is whole, `More` before, and always `More` for a body that
    /// lasts until the connection ends. Bytes after the response's end make its facts say `surplus`
    /// and are otherwise dropped. It takes no memory.
    ///
    /// # Errors
    ///
    /// The fault that the shortest front of the bytes shows that shows any; past a 101st field it
    /// may be one that the section shows further on. It is answered from the piece on by which it
    /// shows, and by each later call: `BadHead` where no head can come any more, `HeadTooLong` past
    /// 16,384 bytes or 100 fields of a head, `TooManyInterims` at the end of a ninth interim head,
    /// `BadLength` where the body is counted and the Content-Length fields give no one number, or
    /// where a body that lasts until the connection ends has more bytes than a `u64` counts,
    /// `BadChunk` where no chunk or trailer section can come any more, `TrailerTooLong` past 8,192
    /// bytes or 100 fields of a trailer section. `Memory` never comes.
    pub fn feed(&mut self, piece: &[u8]) -> Result<Fed, ReadFault>
        requires { self.old.ended ≡ false }
        ensures bytes { self.new.bytes ≡ self.old.bytes ++ piece.now }
        ensures same { IsSameResponse self.old self.new }
        ensures told { IfOk result (TellsFed self.new.method self.new.bytes) }
        ensures faultless { IfOk result (λ _. HasNoFault self.new) }
        ensures fault { IfErr result (HasFault self.new) }
        ensures again { (fault : ReadFault) → self.old.fault ≡ Some fault
            → (result ≡ Err fault) × (self.new.len ≡ self.old.len) }
    {
        self.any_byte |= !piece.is_empty();
        self.stage = stage_after(self.method, &mut self.buffer, self.stage, piece);
        self.fed.append(piece);
        answer_at(&self.stage)
    }

    /// The connection has ended: where the final head came and no fault was answered, a body that
    /// lasts until then is whole. Nothing else changes; it may be called again.
    pub fn end(&mut self)
        ensures { self.new ≡ record self.old { ended = true } }
    {
        self.ended = true;
    }

    /// Forgets the response: it is now as a new reader of the response to the same request, with
    /// nothing fed and nothing ended. It keeps its memory and takes none.
    pub fn clear(&mut self)
        ensures { self.new ≡ new_reader self.old.method self.old.request_close }
    {
        self.reset(self.method, self.request_close);
    }

    /// The same for the response to another request, of that method, which had the connection
    /// option `close` or not.
    pub fn reset(&mut self, method: Method, request_close: bool)
        ensures { self.new ≡ new_reader method request_close }
    {
        self.method = method;
        self.request_close = request_close;
        self.buffer.clear();
        self.stage = Stage::Heads { skipped: 0 };
        self.ended = false;
        self.any_byte = false;
        self.fed = BytesFed::new();
    }

    /// Whether `end` was called.
    pub fn ended(&self) -> bool
        ensures { result ≡ self.now.ended }
    {
        self.ended
    }

    /// Whether a byte was fed.
    pub fn any_byte(&self) -> bool
        ensures { result ≡ is_some_text self.now.bytes }
    {
        self.any_byte
    }

    /// The status of the final head, once that has come; a fault does not change it.
    pub fn status(&self) -> Option<u16>
        ensures { TellsStatus self.now.bytes result }
    {
        match self.stage {
            Stage::Heads { .. } => None,
            Stage::Body { head, .. } => Some(head.status),
            Stage::Fault { head, .. } => match head {
                None => None,
                Some(head) => Some(head.status),
            },
        }
    }

    /// What decides whether the response's connection persists, and whether the response is whole.
    /// After a fault the framing is `Faulty`, `whole` and `surplus` are false, and the rest is what
    /// the final head says, if it came.
    pub fn facts(&self) -> Facts
        ensures shown { ShowsItsFault self.now }
        ensures told { self.now.fault ≡ None → TellsFactsOf self.now result }
        ensures whole { self.now.fault ≡ None → TellsWholeOf self.now result.whole }
        ensures after_fault { (fault : ReadFault) → self.now.fault ≡ Some fault
            → TellsFactsOfFaulty self.now result }
    {
        facts_at(self.method, self.request_close, &self.stage, self.ended)
    }

    /// How many bytes of the body have come, of chunks the data alone; after a fault, how many came
    /// before it.
    pub fn body_len(&self) -> u64
        ensures len { result ≡ self.now.len }
        ensures told { TellsLength self.now.method self.now.bytes result }
    {
        match self.stage {
            Stage::Heads { .. } => 0,
            Stage::Body { body, .. } => body.len(),
            Stage::Fault { len, .. } => len,
        }
    }
}

// What the reader answers there, while the connection lasts.
fn answer_at(stage: &Stage) -> Result<Fed, ReadFault>
    ensures told { (method : Method) (bytes kept : List ℕ) → IsAtStage method bytes stage.now kept
        → IfOk result (TellsFed method bytes) }
    ensures faultless { (method : Method) (bytes kept : List ℕ)
        → IsAtStage method bytes stage.now kept
        → IfOk result (λ _. (fault_at stage.now ≡ None) × IsFaultless method bytes) }
    ensures fault { IfErr result (λ fault. fault_at stage.now ≡ Some fault) }
{
    match stage {
        Stage::Heads { .. } => Ok(Fed::More),
        Stage::Body { body, .. } => {
            if body.is_whole(false) {
                return Ok(Fed::Whole);
            }
            Ok(Fed::More)
        }
        Stage::Fault { fault, .. } => Err(*fault),
    }
}

// The facts there.
fn facts_at(method: Method, request_close: bool, stage: &Stage, ended: bool) -> Facts
    ensures told { (bytes kept : List ℕ) → IsAtStage method bytes stage.now kept
        → fault_at stage.now ≡ None
        → TellsFacts method request_close bytes ended result }
    ensures whole { (bytes kept : List ℕ) → IsAtStage method bytes stage.now kept
        → fault_at stage.now ≡ None
        → TellsWhole method bytes ended result.whole }
    ensures after_fault { (bytes kept : List ℕ) → IsAtStage method bytes stage.now kept
        → (fault : ReadFault) → fault_at stage.now ≡ Some fault
        → TellsFactsAfterFault method request_close bytes result }
{
    match stage {
        Stage::Heads { .. } => facts_before_head(request_close),
        Stage::Body { head, body } => {
            head.facts(
                method,
                request_close,
                body.is_whole(ended),
                body.has_surplus(),
            )
        }
        Stage::Fault { head, .. } => match head {
            None => facts_before_head(request_close),
            Some(head) => Facts {
                framing: Framing::Faulty,
                ..head.facts(method, request_close, false, false)
            },
        },
    }
}

// The facts before a final head.
fn facts_before_head(request_close: bool) -> Facts
    ensures { result ≡ facts_before request_close }
{
    Facts {
        version: Version::V10,
        close: false,
        keep_alive: false,
        request_close,
        framing: Framing::Faulty,
        both_lengths: false,
        upgraded: false,
        whole: false,
        surplus: false,
    }
}
