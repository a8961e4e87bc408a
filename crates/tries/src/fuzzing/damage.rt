//! Mutations of a response.

use crate::fuzzing::draws::Draws;
use std::alloc::{AllocError, Global};
use std::mem;

/// Maximum length of a part that is left out, repeated or inserted.
const MOST_PART: usize = 80;

/// Number of times that a part is repeated past each limit of fields.
const OFTEN: usize = 120;

/// Maximum number of mutations of a response.
const MOST_TIMES: usize = 3;

/// Maximum number of bits flipped at once.
const MOST_BITS: usize = 4;

/// A mutated response, in memory that the next one reuses.
#[derive(Drop)]
pub(crate) struct Damaged {
    text: Vec<u8>,
    spare: Vec<u8>,
}

impl Damaged {
    /// Makes an empty one.
    pub(crate) fn new(alloc: Global) -> Damaged {
        Damaged {
            text: Vec::new(alloc),
            spare: Vec::new(alloc),
        }
    }

    /// Returns the mutated bytes.
    pub(crate) fn text(&self) -> &[u8] {
        self.text.as_slice()
    }

    /// Draws a response of the corpus, and mutates it up to three times.
    pub(crate) fn draw(&mut self, draws: &mut Draws, corpus: &[Vec<u8>]) -> Result<(), AllocError> {
        let one = drawn(draws, corpus);
        self.text.clear();
        self.text.extend_from_slice(one)?;
        for _ in 0..draws.below(MOST_TIMES + 1) {
            let other = drawn(draws, corpus);
            self.damage(draws, other)?;
        }
        Ok(())
    }

    // Makes one mutation; a part of the other text may be spliced in.
    fn damage(&mut self, draws: &mut Draws, other: &[u8]) -> Result<(), AllocError> {
        let len = self.text.len();
        match draws.below(16) {
            0..=2 => self.text.truncate(draws.place(len)),
            3..=4 => return self.leave_out(draws),
            5..=6 => return self.repeat(draws, 1),
            7 => return self.repeat(draws, OFTEN),
            8..=9 => return self.splice(draws, other),
            10..=11 => return self.insert(draws, other),
            _ => self.flip(draws),
        }
        Ok(())
    }

    // Leaves a part out.
    fn leave_out(&mut self, draws: &mut Draws) -> Result<(), AllocError> {
        let part = draws.part(self.text.len(), MOST_PART);
        let (front, back) = (&self.text[..part.start], &self.text[part.end..]);
        join(&mut self.spare, front, b"", 0, back)?;
        self.turn();
        Ok(())
    }

    // Repeats a part `times` times.
    fn repeat(&mut self, draws: &mut Draws, times: usize) -> Result<(), AllocError> {
        let part = draws.part(self.text.len(), MOST_PART);
        let (front, back) = (&self.text[..part.end], &self.text[part.end..]);
        let repeated = &self.text[part.start..part.end];
        join(&mut self.spare, front, repeated, times, back)?;
        self.turn();
        Ok(())
    }

    // Continues with the other text, from any place in both.
    fn splice(&mut self, draws: &mut Draws, other: &[u8]) -> Result<(), AllocError> {
        let (end, begin) = (draws.place(self.text.len()), draws.place(other.len()));
        let front = &self.text[..end];
        join(&mut self.spare, front, b"", 0, &other[begin..])?;
        self.turn();
        Ok(())
    }

    // Inserts a part of the other text.
    fn insert(&mut self, draws: &mut Draws, other: &[u8]) -> Result<(), AllocError> {
        let (place, part) = (
            draws.place(self.text.len()),
            draws.part(other.len(), MOST_PART),
        );
        let (front, back) = (&self.text[..place], &self.text[place..]);
        let inserted = &other[part.start..part.end];
        join(&mut self.spare, front, inserted, 1, back)?;
        self.turn();
        Ok(())
    }

    // Flips some bits.
    fn flip(&mut self, draws: &mut Draws) {
        for _ in 0..1 + draws.below(MOST_BITS) {
            let place = draws.below(self.text.len());
            let bit = draws.below(8) as u8;
            if let Some(byte) = self.text.get_mut(place) {
                *byte ^= 1u8.rotate_left(u32::from(bit));
            }
        }
    }

    // Makes the bytes in the spare memory the text.
    fn turn(&mut self) {
        mem::swap(&mut self.text, &mut self.spare);
    }
}

// Draws a response of the corpus; an empty one if it has none.
fn drawn<'c>(draws: &mut Draws, corpus: &'c [Vec<u8>]) -> &'c [u8] {
    match corpus.get(draws.below(corpus.len())) {
        Some(one) => one.as_slice(),
        None => b"",
    }
}

// Joins the front, the part `times` times, and the back.
fn join(
    into: &mut Vec<u8>,
    front: &[u8],
    part: &[u8],
    times: usize,
    back: &[u8],
) -> Result<(), AllocError> {
    into.clear();
    into.extend_from_slice(front)?;
    for _ in 0..times {
        into.extend_from_slice(part)?;
    }
    into.extend_from_slice(back)
}
