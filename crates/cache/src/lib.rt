//! The connection cache: the connections of many hosts, under limits for each host and for all;
//! what its calls answer, as definitions over the logs of all hosts, and laws of them.
#![tactic(auto)]

mod acquiring;
mod as_cache;
mod cutting;
mod hosts;
pub mod laws;
mod limits;
mod notes;
mod oldest;
mod pool;
mod serving;
mod spending;
pub mod stamp_laws;
mod winner_tree;
pub mod worked;

pub use oldest::oldest_of;
pub use pool::Pool;
pub use winner_tree::WinnerTree;
