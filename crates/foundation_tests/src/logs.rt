//! Tests of `conn_log`, and of `monitor`, which judges logs.

mod counts;
mod cuts;
mod entries;
mod judged;
mod judged_hosts;
mod log;
mod readers;
