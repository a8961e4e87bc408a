//! Tests of `desk`: exchanges over a shared cache, and what cancels leave there.

mod cancels;
mod connections;
mod driving;
mod exchanges;
