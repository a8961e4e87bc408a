//! Whether one more connection may be open, or kept: limits and permits for one thread, and the
//! words and tables by which threads agree on sums without one lock round everything.
#![tactic(auto)]

mod holders;
mod limits;
mod link;
mod lobby;
mod pass;
mod permits;
mod plain;
mod refusal;
mod tally;
mod words;

pub use holders::{HolderSeat, Holders};
pub use limits::{GREATEST_LIMIT, Limits, LimitsFault};
pub use link::{Link, LobbySeat, MarkSeat};
pub use lobby::Lobby;
pub use pass::Pass;
pub use permits::{Held, Permits, Try};
pub use plain::{HostPermits, PlainBudget};
pub use refusal::Refusal;
pub use tally::{PassSeat, StartSeat, Tally};
pub use words::{BudgetSeat, SeatPermits, Seen, WordBudget, Words};
