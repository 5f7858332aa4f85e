//! Arrays of words under the (39,32) code (GRLIB, fault tolerance): one turned bit of a word is corrected, two are detected.
//! Memory and the register file are such arrays.
//!
//! Contracts see of each word the value last written and its history: which flips struck it, how it was written, when an error
//! trap named it. What a word reads as, whether a flip is applied, and the fate of each flip are functions of the history. At run
//! time a word has its data bits, its syndrome and a count of flips, and the array a ledger of flips. A word that no flip struck is read and
//! written with no code computed and no record touched. Only `CodedWords::new` takes memory.
#![tactic(auto)]

mod history;
mod note;
mod past;
mod word;
mod words;

pub use history::How;
pub use words::CodedWords;
