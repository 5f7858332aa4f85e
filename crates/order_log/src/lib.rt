//! The order of memory: the stores and atomics that reached it, in the order in which they did. Only `Log::new` takes
//! memory.
#![tactic(auto)]

mod log;

pub use log::Log;
