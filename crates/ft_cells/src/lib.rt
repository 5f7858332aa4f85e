//! Cells that protect a value by a code: words of memory and registers by the (39,32) code, bytes of caches by their parity
//! (GRLIB, LEON3FT, fault tolerance).
//!
//! A cell keeps the bits of the code, a word as its data bits and its syndrome, and a flip turns one of them. Contracts see
//! the value last written, the set of bits toggled since, and the number of flips. The laws of a code say what its cells read as. No call takes memory.
#![tactic(auto)]

mod byte9;
mod cell;
mod flipped;
mod protect;
mod word39;

pub use byte9::Byte9;
pub use cell::Cell;
pub use flipped::Flipped;
pub use protect::Protect;
pub use word39::Word39;
