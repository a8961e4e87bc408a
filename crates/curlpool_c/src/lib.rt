//! The exports of a pool for C, a static library: calls on numbers, slices of bytes and one handle
//! in memory of the caller's. `c/curlpool.h` declares them.
#![tactic(auto)]

mod exports;
mod handle;
mod held;
mod inner;
mod lifecycle;
mod logs;
mod sites;
mod slots;
mod status;
mod structs;
mod target;
mod transfers;
