/// Why a text is read no further.
#[derive(Clone, Copy, Debug, PartialEq, Eq)]
pub enum Unread {
    /// Want of memory.
    Memory,
    /// A line does not fit, and so many bytes are left from its start.
    Left(usize),
}
