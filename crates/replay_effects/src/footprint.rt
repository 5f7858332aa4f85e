use arrayvec::ArrayVec;
use lf_model::bus::Why;

/// What an instruction asks of memory.
#[derive(Clone, Copy, Debug)]
pub enum AccessKind {
    Load,
    Store,
    Atomic,
}

/// A memory operation that an instruction asks for: so many bytes at an address, and the number that it stores, 0 for a load.
#[derive(Clone, Copy, Debug)]
pub struct Access {
    pub kind: AccessKind,
    pub addr: u32,
    pub len: u8,
    pub put: u64,
}

/// What an instruction reads, accesses and writes.
#[derive(Debug, Drop)]
pub struct Footprint {
    /// The register cells that it reads, in order.
    pub reads: ArrayVec<u8, 4>,
    /// It takes an ordinary trap.
    pub trap: bool,
    pub access: Option<Access>,
    /// STBAR or FLUSH.
    pub barrier: Option<Why>,
    /// The register cells that it writes, in order.
    pub writes: ArrayVec<u8, 2>,
}
