/// What the last field of a transfer's line tells.
#[derive(Clone, Copy, Debug)]
pub struct Syndromes {
    /// The syndromes of the words read, the first in the top byte.
    pub syn: u64,
    /// The number of words read.
    pub words: u8,
    /// The length of the store that four dashes stand for, else 0.
    pub len: u8,
}
