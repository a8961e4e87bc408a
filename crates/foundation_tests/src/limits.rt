//! Tests of `budget` and `job_counter`: threads that come and go, or draw jobs.

mod claims;
mod holders;
mod pass;
mod permits;
mod threads;
