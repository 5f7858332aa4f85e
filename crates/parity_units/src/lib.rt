//! Bytes under parity: the tag bytes and line bytes of a cache (GRLIB, LEON3FT, cache subsystem). One flipped bit of the nine is
//! detected, and one flip is taken between two writes.
//!
//! A `ParityByte` keeps its nine bits. What befalls several bytes at once is noted in the `FlipLedger` of their array by `note`,
//! which costs a test for each byte, and a record for each byte in which a flip stands. No call takes memory.
#![tactic(auto)]

mod byte;
mod events;

pub use byte::ParityByte;
pub use events::{Event, note, note_flip};
