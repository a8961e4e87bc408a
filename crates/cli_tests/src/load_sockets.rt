//! Tests of `load` over this machine's threads and sockets, from the words to the report, whose
//! numbers add up.

mod account;
mod grid;
mod many;
pub(crate) mod running;
mod traces;
