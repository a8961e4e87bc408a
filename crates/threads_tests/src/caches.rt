//! Tests of `shared_cache`: what no clause says, worked rows, and threads.

mod cuts;
mod example;
mod gathering;
mod inspecting;
mod keeper;
mod making;
mod rows;
mod sharing;
mod thread_desk;
mod told;
mod workers;
