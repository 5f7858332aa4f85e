//! Coded RAM (GRLIB, FTAHBRAM, memory EDAC): words under the (39,32) code, of which one flipped bit is corrected and two are detected.
//!
//! Contracts see of each word the value last written and its history; the first word is that at 40000000 hex. A read changes
//! nothing: a flipped bit is corrected in its answer alone. A store, an atomic and a fix write. Only `Memory::new` takes memory.
#![tactic(auto)]

mod memory;

pub use memory::Memory;
pub use ram_words::{Fixed, Got};
