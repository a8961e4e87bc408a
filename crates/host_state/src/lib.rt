//! The state of one host's connections, which replays its log: each step adds the entries that it
//! is named for.
#![tactic(auto)]

mod closing;
mod held;
mod idle;
pub mod laws;
mod queue;
mod returned;
mod snapshot;
mod state;
pub mod worked;

pub use closing::Closing;
pub use held::Held;
pub use returned::Returned;
pub use snapshot::Snapshot;
pub use state::State;
