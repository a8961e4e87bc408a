//! Any number of transfers in a slab, polled in turn by whoever has an event for them.
#![tactic(auto)]

mod ended;
mod schedule;
mod slab;

pub use ended::Ended;
pub use slab::Slab;
