//! Readers of responses by slot.

ghost use Rattle.std.specs.Prelude.{◌≡◌, [], ◌<◌, length, None, Some, IfNone, IfSome, OnErr};
ghost use Rattle.std.specs.Prelude.{OnOk, true, false};
ghost use Rattle.persistence.specs.Reader.{new_reader};
ghost use Rattle.held_pool.specs.Readers.{ChangesReader, EndsSlot, FeedsSlot, SameReaders};
ghost use Rattle.held_pool.specs.Readers.{TellsFactsOfSome, TellsSome, reading_in};

use crate::response::{FeedError, Response};
use crate::slot::Slot;
use crate::slot_reader::{SlotReader, facts_of, response_of};
use persistence::{Facts, Fed, Method};
use std::alloc::{AllocError, Global};

/// Readers of responses, each for a slot of a table. A slot has a reader once its response was
/// begun, until that of another slot of its index is; the reader's memory is used again then.
#[derive(Drop)]
pub struct SlotReaders {
    readers: Vec<SlotReader>,
}

impl SlotReaders {
    /// No response is read for any slot.
    pub fn new(alloc: Global) -> SlotReaders
        ensures { result.readers.items ≡ [] }
    {
        SlotReaders {
            readers: Vec::new(alloc),
        }
    }

    /// Begins the response for a slot: to a request of that method, which had the connection option
    /// `close` or not. What was read at the slot's index before is forgotten.
    ///
    /// # Errors
    ///
    /// There is no memory for a reader; then nothing changes for any slot.
    pub fn begin(
        &mut self,
        alloc: Global,
        slot: Slot,
        method: Method,
        request_close: bool,
    ) -> Result<(), AllocError>
        ensures ok { OnOk result (ChangesReader self.old.readers.items self.new.readers.items slot
            (new_reader method request_close)) }
        ensures err { OnErr result (SameReaders self.old.readers.items self.new.readers.items) }
    {
        self.reach(slot.index)?;
        let reader = &mut self.readers[slot.index as usize];
        reader.begin(alloc, slot.generation, method, request_close)
    }

    // Makes room up to that index.
    fn reach(&mut self, index: u32) -> Result<(), AllocError>
        ensures there { OnOk result (index < length self.new.readers.items) }
        ensures same { SameReaders self.old.readers.items self.new.readers.items }
    {
        while self.readers.len() <= index as usize {
            self.readers.push(SlotReader::none())?;
        }
        Ok(())
    }

    /// Reads one piece more of the slot's response, as [`persistence::ResponseReader::feed`] does.
    ///
    /// # Errors
    ///
    /// `NoReader` if no response is read for the slot, `Ended` if its connection has ended; then
    /// nothing changes. `Fault` with the response's fault.
    #[inline(always)]
    pub fn feed(&mut self, slot: Slot, piece: &[u8]) -> Result<Fed, FeedError>
        ensures { FeedsSlot self.old.readers.items self.new.readers.items slot piece.now result }
    {
        match self.readers.get_mut(slot.index as usize) {
            Some(reader) => reader.feed(slot.generation, piece),
            None => Err(FeedError::NoReader),
        }
    }

    /// Tells that the connection of the slot's response has ended; whether there is one.
    pub fn end(&mut self, slot: Slot) -> bool
        ensures ended { result ≡ true
            → EndsSlot self.old.readers.items self.new.readers.items slot }
        ensures none { result ≡ false → reading_in self.old.readers.items slot ≡ None }
        ensures same { result ≡ false → SameReaders self.old.readers.items self.new.readers.items }
    {
        match self.readers.get_mut(slot.index as usize) {
            Some(reader) => reader.end(slot.generation),
            None => false,
        }
    }

    /// What the slot's response tells so far.
    pub fn response(&self, slot: Slot) -> Option<Response>
        ensures some { IfSome result (TellsSome (reading_in self.now.readers.items slot)) }
        ensures none { IfNone result (reading_in self.now.readers.items slot ≡ None) }
    {
        let reader = self.readers.get(slot.index as usize)?.get(slot.generation)?;
        Some(response_of(reader))
    }

    /// The facts that the slot's response tells so far.
    #[inline(always)]
    pub fn facts(&self, slot: Slot) -> Option<Facts>
        ensures some { IfSome result (TellsFactsOfSome (reading_in self.now.readers.items slot)) }
        ensures none { IfNone result (reading_in self.now.readers.items slot ≡ None) }
    {
        let reader = self.readers.get(slot.index as usize)?.get(slot.generation)?;
        Some(facts_of(reader))
    }
}
