/// What a read of a word that is not bad gives.
#[derive(Clone, Copy, Debug, PartialEq, Eq)]
pub struct Got {
    /// The word last written, with a flipped bit corrected.
    pub value: u32,
    /// The syndrome: 0 for a clean word, else the column of the bit that was corrected.
    pub syn: u8,
}

/// What a fix of a word met.
#[derive(Clone, Copy, Debug, PartialEq, Eq)]
pub enum Fixed {
    /// No bit was flipped: nothing is written.
    Clean,
    /// One bit was flipped, with this syndrome: the word is written anew.
    Corrected { bit: u8, syn: u8 },
    /// The word is bad, with this syndrome: nothing is written.
    Bad { syn: u8 },
}
