//! A pool whose leases and tickets lie in slots, for callers that can keep numbers alone: a slot
//! names one value until that is taken out, and no other one after it. The streams of its
//! connections are tokens, 64-bit numbers, of which it tells once they are closed. Beside a slot
//! stands the reader of its response.
#![tactic(auto)]

mod acquiring;
mod answers;
mod claiming;
mod closed_tokens;
mod closing;
mod held_pool;
mod response;
mod slot;
mod slot_place;
mod slot_reader;
mod slot_readers;
mod slot_table;
mod spending;
mod token;
mod token_node;
mod used_sites;
mod waiters;

pub use answers::{SlotAnswer, SlotError};
pub use closed_tokens::ClosedTokens;
pub use held_pool::HeldPool;
pub use response::{FeedError, Response};
pub use slot::Slot;
pub use slot_place::Place;
pub use slot_readers::SlotReaders;
pub use slot_table::SlotTable;
pub use token::Token;
