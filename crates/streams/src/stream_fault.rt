use thiserror::Error;

/// Why bytes were not read or written.
#[derive(Clone, Copy, Debug, PartialEq, Eq, Error)]
pub enum StreamFault {
    /// Memory ran out.
    #[error("out of memory")]
    Memory,
    /// A read failed.
    #[error("cannot read")]
    Read,
    /// A write failed, or took no byte.
    #[error("cannot write")]
    Write,
}
