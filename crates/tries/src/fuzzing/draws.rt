//! Random numbers.

ghost use Rattle.std.specs.Prelude.{◌<◌, ◌≤◌};

use rand_core::utils::NextWord;
use rand_pcg::Pcg32;
use std::ops::Range;

/// A generator of random numbers: the same ones for the same seed.
#[derive(Drop)]
pub(crate) struct Draws {
    random: Pcg32,
}

impl Draws {
    /// Makes the generator of that seed.
    pub(crate) fn new(seed: u64) -> Draws {
        Draws {
            random: Pcg32::new(seed, 0),
        }
    }

    /// Draws a number below `count`; 0 if that is 0.
    pub(crate) fn below(&mut self, count: usize) -> usize
        ensures { 0 < count → result < count }
    {
        self.random.next_word() as usize % count.max(1)
    }

    /// Draws a place in a text of that length, from its beginning to its end.
    pub(crate) fn place(&mut self, len: usize) -> usize
        ensures { result ≤ len }
    {
        self.below(len.saturating_add(1)).min(len)
    }

    /// Draws a part of a text of that length, of at most `most` bytes.
    pub(crate) fn part(&mut self, len: usize, most: usize) -> Range<usize>
        ensures order { result.start ≤ result.end }
        ensures within { result.end ≤ len }
    {
        let start = self.place(len);
        let count = self.place(most.min(len - start));
        start..start + count
    }
}
