//! Reasons why a load has no report.

use crate::load::fault::{LoadFault, OUT_OF_MEMORY};
use std::alloc::AllocError;
use thiserror::Error;

/// The reason why a load has no report.
#[derive(Debug, Drop, Error)]
pub enum LoadFailure {
    /// A fault of the load.
    #[error("{0}")]
    Fault(#[from] LoadFault),
    /// The message for a file that could not be written, with its name and the system's reason.
    #[error("{0}")]
    File(String),
}

impl From<AllocError> for LoadFailure {
    ghost use Rattle.std.specs.Prelude.{⊤};

    ghost from_gives = { λ _ _. ⊤ };

    fn from(_: AllocError) -> LoadFailure {
        LoadFailure::Fault(OUT_OF_MEMORY)
    }
}
