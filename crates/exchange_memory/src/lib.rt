//! A cache, connections and a clock in memory, which users' tests drive transfers with.
#![tactic(auto)]

mod calls;
mod fake_cache;
mod fixed_clock;
mod memory_dial;
mod memory_wire;
mod returned;

pub use calls::Halt;
pub use fake_cache::FakeCache;
pub use fixed_clock::FixedClock;
pub use memory_dial::MemoryDial;
pub use memory_wire::MemoryWire;
pub use returned::Returned;
