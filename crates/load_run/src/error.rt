//! Reasons why a load has no account.

use driver::DriverFault;

/// The reason why a load has no account.
#[derive(Clone, Copy, Debug, PartialEq, Eq)]
pub enum LoadError {
    /// The run failed.
    Run(DriverFault),
    /// The cache could not be gathered. This is not expected after a complete run, but no contract
    /// rules it out.
    Gather,
}
