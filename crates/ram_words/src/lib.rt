//! The big-endian words of RAM (SPARC V8, chapter 5, data formats): where each lies, what it holds at the start, and a byte or half
//! put into one. Memory is made of them.
//!
//! Only `initial_bytes` and `initial_words` take memory.
#![tactic(auto)]

mod answer;
mod part;
mod place;
mod start;

pub use answer::{Fixed, Got};
pub use part::{merged, word_of};
pub use place::place_of;
pub use start::{initial_bytes, initial_words, word_at};
