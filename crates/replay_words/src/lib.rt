//! The memory words that a script strikes, as the replay of an audit keeps them: what each transfer reads of them, and what became
//! of the flips. Nothing of the machine is used.
//!
//! Contracts see the words of the replay, each with its history. At run time there is a table of the words of RAM, four bytes for
//! each, by which a struck word is found, and the flips that stand in each of these. A turn begins with `begin`, at which its flips
//! strike; `answer` gives a transfer what memory answers; `end` writes what it writes, and ends the turn. Each takes time by the words
//! of the transfer and the flips of the turn. Only `Words::new` takes memory.
#![tactic(auto)]

mod places;
mod read;
mod strike;
mod touched;
mod words;
mod write;

pub use words::Words;
