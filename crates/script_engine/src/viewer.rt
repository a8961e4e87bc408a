//! Who sees the hosts of a script at its end.

use crate::machine::Engine;

/// Sees what the commands of a script came to.
pub trait Viewer {
    /// Sees it after the last line, or after the line before a fault. Leases and tickets that are
    /// left are not given up yet.
    fn see(&mut self, engine: &Engine);
}

/// Nobody sees it.
#[derive(Clone, Copy, Debug, PartialEq, Eq)]
pub struct Unseen;

impl Viewer for Unseen {
    fn see(&mut self, _engine: &Engine) {}
}
