//! Connections over sockets: what dials them, and what a request goes over. Waiting ones read and
//! write with a time limit of ten milliseconds; polled ones never wait, and stand in an event loop.
#![tactic(auto)]

mod addresses;
mod alarm;
mod clock;
mod connection;
mod connector;
mod counts;
mod dialled_socket;
mod look_up;
mod pending;
mod places;
mod polled;
mod reasons;
mod waiting;

pub use addresses::{AddressFault, Addresses, host_addresses};
pub use alarm::PolledAlarm;
pub use clock::SystemClock;
pub use look_up::system_addresses;
pub use polled::{PolledDial, PolledWire};
pub use waiting::{WaitingDial, WaitingWire};
