//! Memory over the transfers on the AHB bus (GRLIB, FTAHBRAM): coded RAM, which the script's flips strike as turns begin, and
//! which transfers read and write.
//!
//! Contracts see the transfers so far, and of each word the number last written. What a word reads as follows from its history:
//! the flips of the script that struck it, and the transfers that wrote it. At the end error traps name words, and the record has
//! what became of each flip. Only `BusMemory::new` takes memory.
#![tactic(auto)]

mod memory;
mod names;
mod record;
mod strike;
mod transfer;

pub use memory::BusMemory;
pub use ram_words::{Fixed, Got};
pub use record::MemoryRecord;
