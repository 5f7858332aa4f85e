//! The store buffer of one core: its stores that wait for the bus, first in, first out. No call takes memory.
#![tactic(auto)]

mod buffer;
mod place;

pub use buffer::Buffer;
