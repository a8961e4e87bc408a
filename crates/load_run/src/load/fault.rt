//! Why loads fail.

ghost use Rattle.std.specs.Prelude.{◌≡◌};
ghost use Rattle.load_run.specs.LoadTexts.{load_fault_text};

use crate::error::LoadError;
use driver::DriverFault;
use std::{error, fmt};

/// Why a load has no report.
#[derive(Clone, Copy, Debug, PartialEq, Eq)]
pub enum LoadFault {
    /// The load has no account.
    Load(LoadError),
    /// The server could not listen.
    Listen,
    /// The report could not be written.
    Write,
}

/// Memory ran out.
pub(crate) const OUT_OF_MEMORY: LoadFault = LoadFault::Load(LoadError::Run(DriverFault::Memory));

/// The system has no means to wait for connections, or waiting failed.
pub(crate) const POLL_FAILED: LoadFault = LoadFault::Load(LoadError::Run(DriverFault::Poll));

/// A thread could not be started.
pub(crate) const NO_THREAD: LoadFault = LoadFault::Load(LoadError::Run(DriverFault::Spawn));

impl LoadFault {
    /// The message for the user.
    pub fn text(self) -> &'static str
        ensures { result.now ≡ load_fault_text self }
    {
        match self {
            LoadFault::Load(LoadError::Run(DriverFault::Memory)) => "out of memory",
            LoadFault::Load(LoadError::Run(DriverFault::BadWorkers)) => "bad workers",
            LoadFault::Load(LoadError::Run(DriverFault::Poll)) => "poll failed",
            LoadFault::Load(LoadError::Run(DriverFault::Doubled)) => "job collected twice",
            LoadFault::Load(LoadError::Run(DriverFault::Missing)) => "job missing",
            LoadFault::Load(LoadError::Run(DriverFault::Spawn)) => "cannot start thread",
            LoadFault::Load(LoadError::Gather) => "cannot gather",
            LoadFault::Listen => "cannot listen",
            LoadFault::Write => "cannot write",
        }
    }
}

impl fmt::Display for LoadFault {
    ghost use Rattle.std.specs.Prelude.{Some};

    ghost output = { λ fault. Some (load_fault_text fault) };

    fn fmt<W: fmt::Write>(&self, f: &mut fmt::Formatter<W>) -> fmt::Result {
        f.write_str(self.text())
    }
}

impl error::Error for LoadFault {}
