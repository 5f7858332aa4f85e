use crate::bus::Why;

/// What a look-up of a cache answers.
#[derive(Clone, Copy, Debug)]
pub enum Look {
    Hit { value: u64, way: u8 },
    Miss(Why),
}

/// A register cell reads bad, since two different bits of it are flipped: which, and its syndrome.
#[derive(Clone, Copy, Debug)]
pub struct RegBad {
    pub cell: usize,
    pub syn: u8,
}

/// The store buffer has no room.
#[derive(Clone, Copy, Debug)]
pub struct Full;

/// A turn on the bus that a step needs before it can go on.
#[derive(Clone, Copy, Debug)]
pub enum Turn {
    /// A fill of the fetch cache.
    Fetch {
        line: u32,
        why: Why,
    },
    /// A fill of the data cache for a load of `len` bytes.
    Load {
        addr: u32,
        len: u8,
        why: Why,
    },
    /// LDSTUB or SWAP, which puts `new` and writes what it reads to the register `rd`.
    Atomic {
        addr: u32,
        len: u8,
        new: u32,
        rd: u8,
    },
    /// The drain of the store that has waited longest.
    Drain(Why),
    /// Catching up alone.
    Snoop,
}

/// What a step of a core came to.
#[derive(Clone, Copy, Debug)]
pub enum Did {
    /// The instruction retired, or took a trap.
    Retired,
    /// A fill, a drain or a snoop turn was made, and gave no stop.
    Turned,
    /// The step needs a turn on the bus.
    Need(Turn),
    /// The core entered error mode by this trap type.
    Halt(u8),
    /// An error trap stopped the core: its type, the register cell or the transfer, and the syndrome.
    Stop { tt: u8, place: u32, syn: u8 },
}
