//! Memory for the words, with a count of its allocation failures.

ghost use Rattle.std.specs.Prelude.{◌≡◌};
ghost use Rattle.command_line.specs.CommandLine.{Asks, said, word_faults};

use crate::request::{Request, request_of};
use crate::words::Words;
use std::alloc::Global;

/// Memory for the words. It counts allocation failures, so that a contract can say that memory was
/// short only if one came.
pub trait ArgsAlloc {
    ghost use Rattle.std.specs.Prelude.{ℕ};

    /// Number of allocation failures; at the greatest u64 the count stays.
    ghost wants: { Self → ℕ };

    /// Returns the request that the words make. `NoMemory` counts as an allocation failure.
    fn request(&mut self, words: Words) -> Request
        ensures { Asks (word_faults words) (said words) (wants self.old) (wants self.new) result };
}

/// The program's memory, with a count of its allocation failures.
#[derive(Drop)]
pub struct CountedArgsAlloc {
    alloc: Global,
    wants: u64,
}

impl CountedArgsAlloc {
    /// Memory without an allocation failure yet.
    pub fn new(alloc: Global) -> CountedArgsAlloc
        ensures { result.wants ≡ 0 }
    {
        CountedArgsAlloc { alloc, wants: 0 }
    }
}

impl ArgsAlloc for CountedArgsAlloc {
    ghost wants = { λ memory. memory.wants };

    fn request(&mut self, words: Words) -> Request {
        let request = request_of(self.alloc, words);
        if let Request::NoMemory = &request {
            self.wants = self.wants.saturating_add(1);
        }
        request
    }
}
