//! A reader at an index, which reads one response after another.

ghost use Rattle.std.specs.Prelude.{◌≡◌, None, Some, IfNone, IfSome, OnErr, OnOk, true, false};
ghost use Rattle.persistence.specs.Reader.{new_reader};
ghost use Rattle.held_pool.specs.Readers.{EndsReader, FeedsReader, TellsItsFacts, TellsResponse};
ghost use Rattle.held_pool.specs.Readers.{reading_of};

use crate::response::{FeedError, Response};
use persistence::{Facts, Fed, Method, ResponseReader, persists};
use std::alloc::{AllocError, Global};

/// The reader at an index, once it was needed, and of which generation the slot is whose response
/// it reads.
#[derive(Drop)]
pub struct SlotReader {
    generation: u32,
    reader: Option<ResponseReader>,
}

impl SlotReader {
    // None was needed yet.
    pub(crate) fn none() -> SlotReader
        ensures { result ≡ record { generation = 0; reader = None } }
    {
        SlotReader {
            generation: 0,
            reader: None,
        }
    }

    // Begins a response for the slot of that generation.
    pub(crate) fn begin(
        &mut self,
        alloc: Global,
        generation: u32,
        method: Method,
        request_close: bool,
    ) -> Result<(), AllocError>
        ensures ok { OnOk result (self.new ≡ record {
          generation = generation;
          reader = Some (new_reader method request_close);
        }) }
        ensures err { OnErr result (self.new ≡ self.old) }
    {
        match &mut self.reader {
            Some(reader) => reader.reset(method, request_close),
            None => {
                let Ok(reader) = ResponseReader::new(alloc, method, request_close) else {
                    return Err(AllocError);
                };
                self.reader = Some(reader);
            }
        }
        self.generation = generation;
        Ok(())
    }

    // The reader that reads for that generation.
    #[inline(always)]
    pub(crate) fn get(&self, generation: u32) -> Option<&ResponseReader>
        ensures some { IfSome result (λ reader.
            reading_of self.now generation ≡ Some reader.now) }
        ensures none { IfNone result (reading_of self.now generation ≡ None) }
    {
        if self.generation != generation {
            return None;
        }
        self.reader.as_ref()
    }

    // The same, to be fed.
    #[inline(always)]
    pub(crate) fn feed(&mut self, generation: u32, piece: &[u8]) -> Result<Fed, FeedError>
        ensures { FeedsReader self.old self.new generation piece.now result }
    {
        if self.generation != generation {
            return Err(FeedError::NoReader);
        }
        let Some(reader) = &mut self.reader else {
            return Err(FeedError::NoReader);
        };
        if reader.ended() {
            return Err(FeedError::Ended);
        }
        match reader.feed(piece) {
            Ok(fed) => Ok(fed),
            Err(fault) => Err(FeedError::Fault(fault)),
        }
    }

    // Notes that the connection of that generation's response has ended; whether there is one.
    pub(crate) fn end(&mut self, generation: u32) -> bool
        ensures ended { result ≡ true → EndsReader self.old self.new generation }
        ensures none { result ≡ false → reading_of self.old generation ≡ None }
        ensures same { result ≡ false → self.new ≡ self.old }
    {
        if self.generation != generation {
            return false;
        }
        match &mut self.reader {
            Some(reader) => {
                reader.end();
                true
            }
            None => false,
        }
    }
}

// What a reader tells.
pub(crate) fn response_of(reader: &ResponseReader) -> Response
    ensures { TellsResponse reader.now result }
{
    let facts = facts_of(reader);
    Response {
        status: reader.status(),
        body_len: reader.body_len(),
        facts,
        persists: persists(&facts),
    }
}

// The facts that a reader tells.
#[inline(always)]
pub(crate) fn facts_of(reader: &ResponseReader) -> Facts
    ensures { TellsItsFacts reader.now result }
{
    reader.facts()
}
