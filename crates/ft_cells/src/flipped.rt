/// Whether a flip turned its bit.
#[derive(Clone, Copy, Debug, PartialEq, Eq)]
pub enum Flipped {
    /// The bit is turned.
    Applied,
    /// Nothing is turned, since the cell took all the flips that it may take between two writes: their number.
    Declined(u8),
}
