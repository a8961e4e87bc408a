//! The budget that threads share: one table of two words, and a seat for each host.
mod budget;
mod permits;
pub mod rule;
pub mod view;

pub use budget::{BudgetSeat, Seen, WordBudget, Words};
pub use permits::SeatPermits;
