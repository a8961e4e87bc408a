//! What a target is made in: the URL parser, and memory for texts.

ghost use Rattle.std.specs.Prelude.{◌≡◌, ◌≤◌, ◌++◌, ℕ, None, IfOk, IfErr, string_bytes};
ghost use Rattle.url.specs.Parser.{parse_url, Gives, IsOutOfRoom};
ghost use Rattle.streams.specs.RisingCounts.{Rises};

use std::alloc::{AllocError, Global};
use url::{ParseError, Url};

/// What a target is made in. It counts the wants of memory that it answered, so that a contract can
/// say that memory was short only where one came.
pub trait TargetMemory {
    ghost use Rattle.std.specs.Prelude.{ℕ};

    /// How many wants of memory it answered; at the greatest u64 the count stays.
    ghost wants: { Self → ℕ };

    /// The URL that the text is by the URL Standard's parser. The parser's two wants of room count
    /// as wants of memory: it had none, or the URL came to 4 GB.
    fn parse(&mut self, text: &str) -> Result<Url, ParseError>
        ensures value { Gives result (parse_url None text.now) }
        ensures wants { IfErr result (λ error. IsOutOfRoom error
            → Rises (wants self.old) (wants self.new)) }
        ensures kept { wants self.old ≤ wants self.new };

    /// A copy of the text.
    fn copy(&mut self, text: &str) -> Result<String, AllocError>
        ensures value { IfOk result (λ copy. string_bytes copy ≡ text.now) }
        ensures wants { IfErr result (λ _. Rises (wants self.old) (wants self.new)) }
        ensures kept { wants self.old ≤ wants self.new };

    /// Adds a text at the end of another.
    fn add(&mut self, text: &mut String, more: &str) -> Result<(), AllocError>
        ensures value { IfOk result (λ _.
            string_bytes text.new ≡ string_bytes text.old ++ more.now) }
        ensures wants { IfErr result (λ _. Rises (wants self.old) (wants self.new)) }
        ensures kept { wants self.old ≤ wants self.new };
}

/// The program's memory, with a count of the wants that it answered.
#[derive(Drop)]
pub struct CountedMemory {
    alloc: Global,
    wants: u64,
}

impl CountedMemory {
    /// Memory that answered no want yet.
    pub fn new(alloc: Global) -> CountedMemory
        ensures { result.wants ≡ 0 }
    {
        CountedMemory { alloc, wants: 0 }
    }
}

impl TargetMemory for CountedMemory {
    ghost wants = { λ memory. memory.wants };

    fn parse(&mut self, text: &str) -> Result<Url, ParseError> {
        let parsed = Url::parse(self.alloc, text);
        if let Err(ParseError::OutOfMemory | ParseError::Overflow) = &parsed {
            self.wants = self.wants.saturating_add(1);
        }
        parsed
    }

    fn copy(&mut self, text: &str) -> Result<String, AllocError> {
        let copy = String::from_str(self.alloc, text);
        if copy.is_err() {
            self.wants = self.wants.saturating_add(1);
        }
        copy
    }

    fn add(&mut self, text: &mut String, more: &str) -> Result<(), AllocError> {
        let added = text.push_str(more);
        if added.is_err() {
            self.wants = self.wants.saturating_add(1);
        }
        added
    }
}
