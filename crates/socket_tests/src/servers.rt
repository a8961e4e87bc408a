//! Tests of `loopback_server`, beside clients on a thread of their own. One of them is the program
//! of docs/embedding.md.

mod at_once;
mod beside;
mod connection;
mod ends;
mod example;
mod many;
mod requests;
