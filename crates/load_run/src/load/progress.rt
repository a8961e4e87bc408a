//! The progress of a load, on standard error, and Ctrl-C.

use crate::load::interrupt::{interrupt_descriptor, is_interrupted};
use crate::watch::Seen;
use std::io::{IsTerminal, Write};
use std::sync::atomic::{AtomicBool, AtomicU64, Ordering};

/// Time between two drawings, in microseconds.
const DRAWN_MICROS: u64 = 200_000;

/// Draws the progress of a load, and notes Ctrl-C.
#[derive(Drop)]
pub(crate) struct ProgressLine<'a> {
    system: &'a HostRuntime,
    is_shown: bool,
    /// The moment of the last drawing, in microseconds after the start; 0 if there was none.
    drawn: AtomicU64,
    /// The descriptor of the launcher's pipe.
    interrupt: Option<i32>,
    is_interrupted: AtomicBool,
}

impl<'a> ProgressLine<'a> {
    /// Makes a progress line. It is drawn only if it is to be shown, and standard error is a
    /// terminal.
    pub(crate) fn new(system: &'a HostRuntime, is_shown: bool) -> ProgressLine<'a> {
        ProgressLine {
            system,
            is_shown: is_shown && system.stderr().is_terminal(),
            drawn: AtomicU64::new(0),
            interrupt: interrupt_descriptor(system),
            is_interrupted: AtomicBool::new(false),
        }
    }

    /// True if Ctrl-C was pressed.
    pub(crate) fn is_interrupted(&self) -> bool {
        self.is_interrupted.load(Ordering::SeqCst)
    }

    /// Erases the progress line.
    pub(crate) fn erase(&self) {
        if self.drawn.load(Ordering::SeqCst) != 0 {
            let _ = eprint!(self.system; "\r\x1b[K");
        }
    }

    /// Checks for Ctrl-C, and draws the progress every 200 milliseconds.
    pub(crate) fn look(&self, seen: Seen) {
        if is_interrupted(self.interrupt) {
            self.is_interrupted.store(true, Ordering::SeqCst);
        }
        let before = self.drawn.load(Ordering::SeqCst);
        if !self.is_shown || seen.micros.saturating_sub(before) < DRAWN_MICROS {
            return;
        }
        self.drawn.store(seen.micros, Ordering::SeqCst);
        let Seen {
            micros,
            done,
            failed,
        } = seen;
        let seconds = micros / 1_000_000;
        let _ = eprint!(self.system; "\r{seconds} s, {done} requests, {failed} failed");
    }
}
