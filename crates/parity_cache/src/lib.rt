//! The parity caches of a core (GRLIB, LEON3FT, cache subsystem): one to four ways of 8 to 256 sets of lines of 32 bytes, each
//! byte of a tag and of a line under parity.
//!
//! Contracts see a cache as the definitions of the machine do: its slots with the histories of their bytes, and its counters of
//! parity errors. They also see the bytes last written to each line. Each call is one of the definitions' functions over that. A
//! hit reads the bits of the bytes that it answers, and none of them is struck. Only `ParityCache::new` takes memory.
#![tactic(auto)]

mod cache;
mod unit;

pub use cache::ParityCache;
pub use unit::{Counts, Unit};
