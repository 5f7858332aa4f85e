//! The text of an image as a map that is searched: whether a word, or one of some bytes, is text, asked at each fetch
//! and store, costs no walk through the ranges of text.
#![tactic(auto)]

mod map;

pub use map::TextMap;
