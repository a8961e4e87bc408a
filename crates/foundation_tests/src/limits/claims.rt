//! Tests of `claim`: worked rows of one thread, and threads that draw all jobs.

mod rows;
mod threads;
