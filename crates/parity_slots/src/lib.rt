//! The slots of a cache, one for each way of each set (GRLIB, LEON3FT, cache subsystem): a tag of four bytes and a line of 32,
//! each byte under parity, and when the slot was last used.
//!
//! Contracts see a slot as the definitions of the machine do: its tag as it was last written, the history of each byte, and its
//! last use. They also see the bytes last written to its line, which are what a hit reads. At run time a slot has the nine bits of
//! each byte, and the array a ledger of flips. Only `Slots::new` takes memory.
#![tactic(auto)]

mod access;
mod cache_slot;
mod cache_slots;
mod change;
mod parity_word;

pub use cache_slot::Slot;
pub use cache_slots::Slots;
