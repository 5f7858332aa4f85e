//! Units that flips strike, as the replay of an audit keeps them: memory words, register cells, and tag bytes and line bytes of
//! caches. Nothing of the machine is used.
//!
//! Contracts see the history of each unit. At run time a unit has the bits that its standing flips struck, at most two of them, and
//! the array a ledger of the script's flips, by which each of them has its fate. What a unit holds is not kept: which words are bad,
//! and which bytes are struck, is by the flips alone. Each call but `Units::new` takes constant time and no memory.
#![tactic(auto)]

mod bits;
mod history;
mod note;
mod units;

pub use history::How;
pub use units::Units;
