use crate::bus::{OpKind, Transfer};
use crate::config::Words;
use crate::image::Bytes;
use crate::listed::Listed;

/// Registers in the order of their numbers; `None` is one that reads bad.
pub type Regs = Listed<Option<u32>>;

/// The results of the cores, in the order of their numbers.
pub type Results = Listed<CoreResult>;

/// Transfers, by turn.
pub type Transfers = Listed<Transfer>;

/// Memory operations.
pub type Ops = Listed<Op>;

/// What became of the flips of a script, in its order.
pub type Fates = Listed<Fate>;

/// Words by their addresses.
pub type Words2 = Listed<Word2>;

/// A memory operation.
#[derive(Clone, Copy, Debug)]
pub struct Op {
    /// The number read by a load or an atomic, else 0; of a signed load the bytes read.
    pub got: u64,
    /// The number stored by a store or an atomic, else 0.
    pub put: u64,
    pub core: u32,
    /// The number of the operation on its core, from 0 in program order.
    pub k: u32,
    /// The core step in which it retired.
    pub step: u32,
    pub addr: u32,
    pub kind: OpKind,
    /// 1, 2, 4 or 8 bytes.
    pub len: u8,
    /// The way of the data cache that a load hit, else 0.
    pub way: u8,
}

/// How a core ended.
#[derive(Clone, Copy, Debug)]
pub enum CoreEnd {
    /// In error mode: an ordinary trap of this type came while traps were disabled.
    Halt(u8),
    /// By an error trap: its type, the register cell (type 20 hex) or the transfer, and the syndrome.
    Stop { tt: u8, place: u32, syn: u8 },
    /// After its last step, with no other end, and with each waiting store drained.
    Limit,
}

/// The counters of parity errors of a core's two caches, each of which stops at 3.
#[derive(Clone, Copy, Debug)]
pub struct Four {
    pub fetch_tag: u8,
    pub fetch_byte: u8,
    pub data_tag: u8,
    pub data_byte: u8,
}

/// What a core computed.
#[derive(Debug, Drop)]
pub struct CoreResult {
    pub end: CoreEnd,
    /// How many instructions were counted: retired, ended by an ordinary trap, or halting.
    pub n: u32,
    /// How many steps the core made.
    pub steps: u32,
    /// The bytes written to the output word.
    pub out: Bytes,
    /// The 32 registers of the current window.
    pub regs: Regs,
    pub psr: u32,
    pub wim: u32,
    pub tbr: u32,
    pub y: u32,
    pub pc: u32,
    pub npc: u32,
    pub parity: Four,
}

/// What became of a flip.
#[derive(Clone, Copy, Debug, PartialEq, Eq)]
pub enum Fate {
    /// Its turn or step never came.
    Late,
    /// Its unit held as many flips as it may since it was last written.
    Declined,
    /// The next write of its cell was a register read's write-back, or that of its word was by a fix, a part store
    /// or an atomic.
    Repaired,
    /// A check found its unit struck by this flip and dropped the line.
    Discarded,
    /// An error trap met its word or cell.
    Stopped,
    /// Its unit was written otherwise.
    Overwritten,
    /// None of these until the end.
    Dormant,
}

/// A word by its address, and its value; `None` is one that reads bad.
#[derive(Clone, Copy, Debug)]
pub struct Word2 {
    pub addr: u32,
    pub value: Option<u32>,
}

/// All that a report tells of a run.
#[derive(Debug, Drop)]
pub struct Trace {
    pub cores: Results,
    /// The AHB failing address register (GRLIB, AHBSTAT).
    pub ahb_addr: u32,
    /// The AHB status register (GRLIB, AHBSTAT).
    pub ahb_status: u32,
    /// The transfers of the bus, by turn.
    pub transfers: Transfers,
    /// The memory operations of all cores, in memory order.
    pub order: Ops,
    pub fates: Fates,
    /// The watched words at the end.
    pub watch: Words2,
}
