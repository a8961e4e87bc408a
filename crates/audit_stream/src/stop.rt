ghost use Rattle.std.specs.Prelude.{◌≡◌};
ghost use Rattle.audit_stream.specs.Writing.{stop_at, stop_of_output};

use audit::AuditFault;
use streams::StreamFault;
use thiserror::Error;

/// Why an audit ends without a verdict.
#[derive(Clone, Copy, Debug, PartialEq, Eq, Error)]
pub enum AuditStop {
    /// The trace can't be read on from that line, counted from 1.
    #[error("line {line}: {fault}")]
    Line { line: u64, fault: AuditFault },
    /// A read failed, or there is no such file.
    #[error("line 0: cannot read")]
    Read,
    /// Memory ran out.
    #[error("run: out of memory")]
    Memory,
    /// The answer can't be written.
    #[error("run: cannot write")]
    Write,
}

impl AuditStop {
    /// Why a trace can't be read on from a line that has that fault.
    pub(crate) fn at(line: u64, fault: AuditFault) -> AuditStop
        ensures { result ≡ stop_at line fault }
    {
        match fault {
            AuditFault::Memory => AuditStop::Memory,
            _ => AuditStop::Line { line, fault },
        }
    }

    /// Why an answer isn't written whole.
    pub(crate) fn of_output(kind: StreamFault) -> AuditStop
        ensures { result ≡ stop_of_output kind }
    {
        match kind {
            StreamFault::Memory => AuditStop::Memory,
            _ => AuditStop::Write,
        }
    }
}
