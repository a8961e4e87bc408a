//! Tests of `driver`: threads that carry out jobs over a shared cache, whose account has to balance
//! in the end.

mod cancels;
mod events;
mod gates;
mod jobs;
mod logs;
mod many;
mod orders;
mod peers;
mod runs;
mod sockets;
mod threads;
mod whole;
