//! The connection cache that threads share: a lock for each host, and limits over all hosts that
//! are kept by words. A thread has a desk, its own handle to the cache.
#![tactic(auto)]

mod acquiring;
mod cache;
mod cutting;
mod desk;
mod desk_calls;
mod desk_laws;
mod desk_returns;
mod gathered;
mod gathering;
mod hints;
mod inspecting;
mod laws;
mod limits;
mod locked;
mod locked_calls;
mod names;
mod passes;
mod plan;
mod pruning;
mod serving;
mod spending;

pub use cache::SharedCache;
pub use desk::Desk;
pub use desk_laws::desk_shows_what_went_back;
pub use gathered::{Gathered, HostCount};
pub use gathering::discard_all;
pub use laws::the_lobby_lists_who_waits_beside_room;
pub use names::Names;
pub use plan::Plan;
