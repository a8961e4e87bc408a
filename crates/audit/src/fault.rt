use script_text::FaultKind;
use std::alloc::AllocError;
use thiserror::Error;

/// Why a trace can't be read on.
#[derive(Clone, Copy, Debug, PartialEq, Eq, Error)]
pub enum AuditFault {
    /// Memory ran out.
    #[error("out of memory")]
    Memory,
    /// The line can't be read, or stands in a wrong place, or its limits or its site are bad.
    #[error("{0}")]
    Line(FaultKind),
    /// A line that says names a host that isn't there.
    #[error("no such site")]
    NoSuchSite,
    /// A connection is opened whose number an open one has.
    #[error("{host}.{connection} is open already")]
    OpenAlready { host: u32, connection: u64 },
    /// 4,294,967,295 connections were opened at the host.
    #[error("too many connections")]
    TooManyConnections,
    /// A transfer starts or waits without a `get`.
    #[error("transfer {transfer} asked for nothing")]
    AskedNothing { transfer: u64 },
    /// A transfer returns a connection without a `back`.
    #[error("transfer {transfer} gave nothing back")]
    GaveNothing { transfer: u64 },
}

impl From<AllocError> for AuditFault {
    ghost use Rattle.std.specs.Prelude.{◌≡◌};
    ghost use Rattle.audit.specs.declared.fault.AuditFault.TheVariants.{Memory};

    ghost from_gives = { λ _ e. e ≡ Memory };

    fn from(_: AllocError) -> AuditFault {
        AuditFault::Memory
    }
}

impl From<FaultKind> for AuditFault {
    ghost use Rattle.std.specs.Prelude.{◌≡◌};
    ghost use Rattle.audit.specs.declared.fault.AuditFault.TheVariants.{Line};

    ghost from_gives = { λ kind e. e ≡ Line kind };

    fn from(kind: FaultKind) -> AuditFault {
        AuditFault::Line(kind)
    }
}
