use crate::image::Range;
use crate::listed::Listed;

/// A list of words.
pub type Words = Listed<u32>;

/// The shape of a cache: its ways, and its sets of 32-byte lines in each way (GRLIB, LEON3FT, caches).
#[derive(Clone, Copy, Debug)]
pub struct Shape {
    /// 1 to 4.
    pub ways: u32,
    /// 8, 16, 32, 64, 128 or 256.
    pub sets: u32,
}

/// The machine that an image runs on.
#[derive(Debug, Drop)]
pub struct Config {
    /// The number of cores, 1 to 8.
    pub cores: u32,
    /// The bytes of RAM, which begins at 40000000 hex: a multiple of 65,536, to 16,777,216.
    pub ram: u32,
    /// The core steps that each core may make; `cores` times `steps` is at most 4,000,000.
    pub steps: u32,
    /// The local steps that a core makes at most between two turns on the bus, 1 to 1,024.
    pub window: u32,
    /// The stores that a core's store buffer holds at most, 1 to 8.
    pub buffer: u32,
    pub fetch_cache: Shape,
    pub load_cache: Shape,
    /// The addresses that the scrubber walks.
    pub scrub: Range,
    /// The turns on the bus that the scrubber makes, at most 1,000,000.
    pub scrub_turns: u32,
    /// The addresses of the words whose value is reported at the end, at most 64.
    pub watch: Words,
}
