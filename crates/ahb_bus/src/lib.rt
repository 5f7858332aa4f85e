//! The AHB bus: turns of its masters, the log of stores and atomics, and memory with the script's flips (GRLIB, AMBA AHB).
//!
//! A turn begins with `Bus::turn_start`, and one call ends it: `fill`, `store`, `atomic`, `snooped`, `look` or `fix`. Contracts
//! see the transfers so far, which are those of the definitions. Only `Bus::new` takes memory.
#![tactic(auto)]

mod arbiter;
mod bus;
mod finish;
mod lines;
mod noting;
mod record;
mod single;
mod stores;
mod transfer;

pub use arbiter::grant;
pub use bus::Bus;
pub use bus_memory::Fixed;
pub use record::{BusRecord, Who};
