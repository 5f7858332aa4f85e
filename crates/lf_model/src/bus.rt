/// What a transfer on the bus does.
#[derive(Clone, Copy, Debug, PartialEq, Eq)]
pub enum TurnKind {
    /// A fill of the fetch cache.
    Fetch,
    /// A fill of the data cache.
    Load,
    /// The drain of a waiting store.
    Store,
    /// LDSTUB or SWAP.
    Atomic,
    /// A core catches up with the stores of the others, and does nothing else.
    Snoop,
    /// The scrubber reads a line.
    Look,
    /// The scrubber reads a word again and, if it can be corrected, writes it back.
    Fix,
}

/// Why a core makes a transfer, or a look-up of a cache misses.
#[derive(Clone, Copy, Debug, PartialEq, Eq)]
pub enum Why {
    /// No cause: a transfer of the scrubber, or an atomic.
    None,
    /// Miss: no line matches.
    Absent,
    /// Miss: a wanted word of the line is not valid.
    Word,
    /// Miss: no line matches, and a way with a bad tag byte was dropped.
    Tag,
    /// Miss: a byte of a wanted word is bad, and the line was dropped. Reports say `data`.
    Byte,
    /// Drain: the store buffer is full.
    Full,
    /// Drain before a fill.
    Miss,
    /// Drain before STBAR.
    Stbar,
    /// Drain before an atomic.
    Atomic,
    /// Drain before FLUSH.
    Flush,
    /// The core made its window of local steps.
    Window,
    /// Drain before error mode, before a register stop, or after the last step.
    End,
    /// Drain by the schedule.
    Sched,
}

/// A transfer on the bus.
#[derive(Clone, Copy, Debug)]
pub struct Transfer {
    /// The syndromes of the words read, eight bits each, the first in the top byte.
    pub syn: u64,
    /// The number of the transfer, from 0.
    pub turn: u32,
    /// The core's number, or 8 for the scrubber.
    pub master: u32,
    /// The core's step, or how many turns the scrubber made before.
    pub step: u32,
    /// The address: of the line for fetch, load and look, 0 for snoop.
    pub addr: u32,
    pub kind: TurnKind,
    pub why: Why,
    /// The way of a fill, else 0.
    pub way: u8,
    /// The number of words read.
    pub words: u8,
    /// The length in bytes of a store or an atomic while the bus keeps it, else 0; always 0 in a trace.
    pub len: u8,
}

/// A line of eight words as memory answers it.
#[derive(Clone, Copy, Debug)]
pub struct Line {
    /// The words, 0 for a bad one.
    pub words: [u32; 8],
    /// The syndrome of each word.
    pub syn: [u8; 8],
    /// Which words are bad.
    pub bad: [bool; 8],
}

/// A word of memory reads bad, since two different bits of it are flipped: where, and its syndrome.
#[derive(Clone, Copy, Debug)]
pub struct Bad {
    pub addr: u32,
    pub syn: u8,
}

/// A store that waits in the store buffer of its core.
#[derive(Clone, Copy, Debug)]
pub struct Pending {
    /// The number stored, below 2 to eight times `len`.
    pub value: u64,
    pub addr: u32,
    /// The number of the operation on its core.
    pub k: u32,
    /// The step in which it retired.
    pub step: u32,
    /// 1, 2, 4 or 8 bytes.
    pub len: u8,
}

/// A memory operation as the program makes it. The entries of the log are the stores and atomics that reached
/// memory, in the order in which they did.
#[derive(Clone, Copy, Debug)]
pub struct Entry {
    /// The number that a load or an atomic read, else 0.
    pub got: u64,
    /// The number that a store or an atomic put, else 0.
    pub put: u64,
    pub core: u32,
    /// The number of the operation on its core.
    pub k: u32,
    pub addr: u32,
    pub kind: OpKind,
    /// 1, 2, 4 or 8 bytes.
    pub len: u8,
}

/// The kind of a memory operation.
#[derive(Clone, Copy, Debug, PartialEq, Eq)]
pub enum OpKind {
    Load,
    Store,
    /// LDSTUB or SWAP: a load and a store in one.
    Atomic,
    /// A store that never reached memory.
    Lost,
}
