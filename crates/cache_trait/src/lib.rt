//! What a cache of connections does for those who use it, whichever cache it is.
#![tactic(auto)]

mod cache;

pub use cache::Cache;
