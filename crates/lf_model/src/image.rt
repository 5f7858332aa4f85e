use crate::listed::Listed;

/// A list of bytes.
pub type Bytes = Listed<u8>;

/// The segments of an image, in the order of its program headers.
pub type Segments = Listed<Segment>;

/// Ranges of addresses, in the order of the segments and, inside one, of its sections.
pub type Ranges = Listed<Range>;

/// A loadable segment: `size` bytes of RAM from `addr` on, which start with `bytes` and go on with 0.
#[derive(Debug, Drop)]
pub struct Segment {
    /// The address of its first byte.
    pub addr: u32,
    /// The bytes that the file gives.
    pub bytes: Bytes,
    /// The number of bytes in memory, not below the number that the file gives.
    pub size: u32,
    /// The segment is writable.
    pub write: bool,
    /// The segment is executable.
    pub exec: bool,
}

/// The `length` addresses from `first` on, in bytes.
#[derive(Clone, Copy, Debug)]
pub struct Range {
    pub first: u32,
    pub length: u32,
}

/// A program as it is loaded into RAM.
#[derive(Debug, Drop)]
pub struct Image {
    /// The address of the first instruction.
    pub entry: u32,
    pub segments: Segments,
    /// The ranges of text bytes: executable and write-protected.
    pub text: Ranges,
}
