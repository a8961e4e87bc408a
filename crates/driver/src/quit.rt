//! Why a worker gives up.

ghost use Rattle.std.specs.Prelude.{◌≡◌};
ghost use Rattle.driver.specs.Faults.{IsWorkerFault};
ghost use Rattle.driver.specs.Quits.{fault_of, first_quit};

use crate::fault::DriverFault;

/// Why a worker gives up.
#[derive(Clone, Copy, Debug, PartialEq, Eq)]
pub(crate) enum Quit {
    /// There was no memory for its results, or to prepare a job.
    Memory,
    /// A turn of its own dial failed.
    Poll,
    /// Another worker had given up.
    Told,
}

impl Quit {
    /// The fault of a run for which this is the first reason.
    pub(crate) fn fault(self) -> DriverFault
        ensures is { result ≡ fault_of self }
        ensures worker { IsWorkerFault result }
    {
        match self {
            Quit::Poll => DriverFault::Poll,
            Quit::Memory | Quit::Told => DriverFault::Memory,
        }
    }
}

/// Why a run ends without results: a worker's own reason goes before that another had given up.
pub(crate) fn first_of(met: Option<Quit>, earlier: Option<Quit>) -> Option<Quit>
    ensures { result ≡ first_quit met earlier }
{
    match met {
        None => earlier,
        Some(Quit::Told) => match earlier {
            None => met,
            Some(_) => earlier,
        },
        Some(Quit::Memory | Quit::Poll) => met,
    }
}
