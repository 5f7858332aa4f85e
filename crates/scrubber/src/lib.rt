//! The scrubber (GRLIB, MEMSCRUB, scrub mode): it looks at its range line by line, round and round, and makes one fix for each word
//! that it read not clean. No call takes memory.
#![tactic(auto)]

mod scrubber;

pub use scrubber::Scrubber;
