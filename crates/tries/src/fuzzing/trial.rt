//! Responses one after another, each read both ways.

use crate::fuzzing::damage::Damaged;
use crate::fuzzing::draws::Draws;
use crate::fuzzing::printing::{print_difference, print_listed};
use crate::fuzzing::reading::{read_at_once, read_in_pieces};
use crate::fuzzing::task::Task;
use crate::reports::{Request, may_both};
use persistence::{Method, ResponseReader};
use std::alloc::Global;

/// The readers of both ways, and the number of responses that differed.
#[derive(Drop)]
pub(crate) struct Trial {
    draws: Draws,
    damaged: Damaged,
    at_once: ResponseReader,
    in_pieces: ResponseReader,
    differ: u64,
}

impl Trial {
    // Returns a trial of no response; `None` if an allocation fails.
    fn new(alloc: Global, seed: u64) -> Option<Trial> {
        let at_once = ResponseReader::new(alloc, Method::Get, false).ok()?;
        let in_pieces = ResponseReader::new(alloc, Method::Get, false).ok()?;
        Some(Trial {
            draws: Draws::new(seed),
            damaged: Damaged::new(alloc),
            at_once,
            in_pieces,
            differ: 0,
        })
    }

    // Draws a request.
    fn draw_request(&mut self) -> Request {
        let method = match self.draws.below(8) {
            0 => Method::Head,
            _ => Method::Get,
        };
        let close = self.draws.below(8) == 0;
        Request { method, close }
    }

    // Tries the next response; `None` if an allocation fails, or a line can't be printed.
    fn try_next(&mut self, rt: &HostRuntime, task: &Task, corpus: &[Vec<u8>]) -> Option<()> {
        let request = self.draw_request();
        self.damaged.draw(&mut self.draws, corpus).ok()?;
        let text = self.damaged.text();
        let one = read_at_once(&mut self.at_once, request, text);
        let other = read_in_pieces(&mut self.in_pieces, request, text, &mut self.draws);
        if task.list {
            print_listed(rt, request, text, &one)?;
        }
        if may_both(&one, &other, text) {
            return Some(());
        }
        self.differ = self.differ.saturating_add(1);
        if self.differ == 1 {
            print_difference(rt, request, text, &one, &other)?;
        }
        Some(())
    }
}

/// Tries the task's number of responses, and returns the number of those that differed. `None` if
/// an allocation fails, or a line can't be printed.
pub(crate) fn differing(rt: &HostRuntime, task: &Task, corpus: &[Vec<u8>]) -> Option<u64> {
    let mut trial = Trial::new(rt.alloc(), task.seed)?;
    for _ in 0..task.count {
        trial.try_next(rt, task, corpus)?;
    }
    Some(trial.differ)
}
