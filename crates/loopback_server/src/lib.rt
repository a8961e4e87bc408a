//! A server for tests and for a first run. It has one port of 127.0.0.1 for each site, and answers
//! each request alike, on one thread.
//!
//! A request is a head (RFC 9112, section 3): none has a body, so what follows a head is the next
//! request, and one for `HEAD` gets the body of the answer all the same.
#![tactic(auto)]

mod connection;
mod connections;
mod received;
mod request;
mod server;

pub use server::Server;
