//! What names a connection's far end: the target that a URL leads to, the site that a target is
//! at, and the key under which a connection is kept; and which host has which place of a cache, if
//! there are more hosts than places.
#![tactic(auto)]

mod key;
pub mod laws;
mod memory;
mod place_table;
mod places;
mod site;
mod sites;
mod target;

pub use key::Key;
pub use memory::{CountedMemory, TargetMemory};
pub use place_table::{PlaceError, PlaceTable};
pub use places::Places;
pub use site::Site;
pub use sites::{Sites, SitesFault};
pub use target::{KeyError, Target, read_target};
