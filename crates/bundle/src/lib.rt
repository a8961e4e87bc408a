//! One host's connections: which of them are open, idle or leased, and which one a transfer gets.
#![tactic(auto)]

mod acquiring;
mod answers;
mod asker;
mod booking;
mod cutting;
mod did;
mod grant;
mod host;
pub mod laws;
mod lease;
mod limit;
mod origin;
mod room;
mod seats;
mod serving;
mod shortage;
mod spending;
mod ticket;

pub use answers::{Acquired, Back, Changed, Claimed, Got, Served};
pub use asker::Asker;
pub use booking::Booking;
pub use did::Did;
pub use host::{Bundle, MOST_HOSTS};
pub use host_state::Snapshot;
pub use lease::{Lease, Stray};
pub use shortage::{NoKeep, NoRoom, Shortage, short_of_total};
pub use ticket::Ticket;
