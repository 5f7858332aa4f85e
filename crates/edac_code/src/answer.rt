/// What a cell of 39 bits reads as.
#[derive(Clone, Copy, Debug, PartialEq, Eq)]
pub enum Read39 {
    /// The word of a cell with no bit turned.
    Clean(u32),
    /// The word of a cell with one bit turned, and that bit: 0 to 31 are data, 32 to 38 check bits.
    Fixed(u32, u8),
    /// The syndrome of a cell whose word is lost, neither 0 nor the column of a bit.
    Bad(u8),
}
