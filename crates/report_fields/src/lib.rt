//! Fields and lines of a report, read back from its text.
#![tactic(auto)]

mod digits;
mod entries;
mod texts;
mod unread;
mod words;

pub use digits::{byte, digit, hex, long, number, own_number, sized, value, word};
pub use entries::length_at;
pub use texts::{Word, any_word, literal, next};
pub use unread::Unread;
