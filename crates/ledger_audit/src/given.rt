use lf_model::bus::{Transfer, TurnKind, Why};
use lf_model::listed::Listed;
use lf_model::trace::{Fates, Four};

/// A memory operation of a core that retired.
#[derive(Clone, Copy, Debug)]
pub struct Completion {
    /// The step in which it retired.
    pub step: u32,
    /// The way of the data cache that a load hit.
    pub way: Option<u8>,
    /// How many entries of the log the core had seen.
    pub seen: u32,
}

/// An error trap that a core met.
#[derive(Clone, Copy, Debug)]
pub struct ErrorTrap {
    pub trap_type: u8,
    /// The register cell or the transfer.
    pub place: u32,
    pub syndrome: u8,
    /// How many steps the core had made, with this one.
    pub steps: u32,
    /// How many transfers the core had made, with this one. `None` is a trap by a register cell.
    pub turns: Option<u32>,
}

/// Stores that follow one another in the program of a core.
#[derive(Clone, Copy, Debug)]
pub struct Stores {
    /// How many stores come before them.
    pub first: u32,
    pub count: u32,
}

/// What the run gives of a core at its end.
#[derive(Debug, Drop)]
pub struct CoreGiven {
    /// The turns that it needed and did not make.
    pub owed: u64,
    /// The error traps that it met.
    pub errors: Listed<ErrorTrap>,
    /// Its stores that never reached memory.
    pub lost: Stores,
    pub parity: Four,
    /// Which of the 32 registers of its window have no value.
    pub blank: [bool; 32],
    /// Its memory operations, in program order.
    pub completions: Listed<Completion>,
}

/// What a step of a core, or the walk of the scrubber, needs of the bus.
#[derive(Clone, Copy, Debug, PartialEq, Eq)]
pub enum Need {
    NoTurn,
    Turn { kind: TurnKind, why: Why },
    /// The stop by a bad register cell.
    RegisterStop { cell: u8 },
}

/// A transfer as it was made, with its length, and what its master needed.
#[derive(Clone, Copy, Debug)]
pub struct TurnGiven {
    pub transfer: Transfer,
    pub need: Need,
}

/// A store or an atomic in the log: its core, and its number there.
#[derive(Clone, Copy, Debug)]
pub struct LogEntry {
    pub core: u32,
    pub number: u32,
}

/// What the run of all masters gives.
#[derive(Debug, Drop)]
pub struct Given {
    /// The cores, in the order of their numbers.
    pub cores: Listed<CoreGiven>,
    /// The stores and atomics that reached memory, in the order in which they did.
    pub log: Listed<LogEntry>,
    /// The transfers, by turn.
    pub turns: Listed<TurnGiven>,
    /// The fates of the flips, in the order of the script.
    pub fates: Fates,
    /// Which watched words have no value at the end.
    pub blank: Listed<bool>,
}
