//! The memory of jobs that have ended, which serves the next ones.

ghost use Rattle.std.specs.Prelude.{IfSome};
ghost use Rattle.std.specs.List.{All};
ghost use Rattle.run_loop.specs.Room.{HasRoom};

use exchange::Prepared;
use std::alloc::{AllocError, Global};

/// The memory of jobs that have ended.
#[derive(Drop)]
pub(crate) struct Spares {
    parts: Vec<Prepared>,
    ghost room: { All HasRoom parts.items },
}

impl Spares {
    /// None yet, with room for so many.
    pub(crate) fn new(alloc: Global, most: usize) -> Result<Spares, AllocError> {
        let parts = Vec::with_capacity(alloc, most)?;
        Ok(Spares { parts })
    }

    /// Takes the memory of the job that has ended last, if there is any.
    pub(crate) fn take(&mut self) -> Option<Prepared>
        ensures { IfSome result HasRoom }
    {
        self.parts.pop()
    }

    /// Keeps the memory of a job that has ended, if there is room for it.
    pub(crate) fn keep(&mut self, used: Option<Prepared>)
        requires { IfSome used HasRoom }
    {
        if let Some(used) = used {
            let _full = self.parts.push(used);
        }
    }
}
