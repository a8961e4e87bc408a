ghost use Rattle.std.specs.Prelude.{◌≡◌};
ghost use Rattle.script_text.specs.Faults.{kind_of};

use streams::StreamFault;
use thiserror::Error;

/// What is wrong with a script, or kept it from being run.
#[derive(Clone, Copy, Debug, PartialEq, Eq, Error)]
pub enum FaultKind {
    /// Memory ran out.
    #[error("out of memory")]
    Memory,
    /// The script could not be read.
    #[error("cannot read")]
    Read,
    /// The transcript could not be written.
    #[error("cannot write")]
    Write,
    /// The script has more than 1,048,576 bytes.
    #[error("script too long")]
    ScriptTooLong,
    /// The line has more than 2,304 bytes.
    #[error("line too long")]
    LineTooLong,
    /// The line's first word is no command.
    #[error("unknown command")]
    Unknown,
    /// A word is missing, one too many, or not what stands in its place.
    #[error("wrong form")]
    Form,
    /// The command may not stand here.
    #[error("wrong place")]
    Place,
    /// These limits cannot be kept.
    #[error("bad limits")]
    BadLimits,
    /// The site is not UTF-8, or not an `http` URL of at most 2,048 bytes.
    #[error("bad site")]
    BadSite,
    /// There are 1,024 other sites already.
    #[error("too many sites")]
    TooManySites,
}

impl From<StreamFault> for FaultKind {
    fn from(fault: StreamFault) -> FaultKind
        ensures { result ≡ kind_of fault }
    {
        match fault {
            StreamFault::Memory => FaultKind::Memory,
            StreamFault::Read => FaultKind::Read,
            StreamFault::Write => FaultKind::Write,
        }
    }
}

/// Where a script ended, and why.
#[derive(Clone, Copy, Debug, PartialEq, Eq, Error)]
#[error("line {line}: {kind}")]
pub struct ScriptFault {
    /// The line at work, counted from 1; 0 while reading and at the script's end.
    pub line: u32,
    pub kind: FaultKind,
}
