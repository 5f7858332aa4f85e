/// A unit of a cache: a byte of a tag or of a line, with its parity.
#[derive(Clone, Copy, Debug)]
pub struct Unit {
    /// A byte of a tag, and not of a line.
    pub tag: bool,
    /// Below the ways of the cache.
    pub way: u8,
    /// Below the sets of the cache.
    pub set: u16,
    /// Below 4 in a tag, below 32 in a line.
    pub byte: u8,
}

/// The counters of parity errors of a cache since reset. Each stops at 3.
#[derive(Clone, Copy, Debug, PartialEq, Eq)]
pub struct Counts {
    /// Ways that a tag check dropped.
    pub tag_errors: u8,
    /// Lines that a look-up dropped for a byte.
    pub byte_errors: u8,
}
