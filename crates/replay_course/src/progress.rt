/// A memory operation that retired.
#[derive(Clone, Copy, Debug)]
pub struct Completion {
    pub step: u32,
    /// The way that a load hit.
    pub way: Option<u8>,
    /// How many entries of the log the core had seen.
    pub seen: u32,
}

/// An error trap that a core met.
#[derive(Clone, Copy, Debug)]
pub struct ErrorTrap {
    pub trap_type: u8,
    /// The register cell, or the turn.
    pub place: u32,
    pub syndrome: u8,
    /// How many steps the core had made, with that one.
    pub steps: u32,
    /// Of one that a turn met: how many turns, with that one.
    pub turns: Option<u32>,
}

/// How far a core has come, by numbers.
#[derive(Clone, Copy, Debug)]
pub(crate) struct Counts {
    pub(crate) steps: u32,
    pub(crate) turns: u32,
    /// Its steps since its last turn.
    pub(crate) quiet: u32,
    /// The instructions that retired.
    pub(crate) retired: u32,
    /// The stores that retired, and those that left the store buffer.
    pub(crate) stored: u32,
    pub(crate) drained: u32,
    /// The entries of the log up to its last turn.
    pub(crate) seen: u32,
    /// Its steps without a turn that needed one.
    pub(crate) owed: u32,
}
