use lf_model::bus::Why;

/// What the instruction at PC comes to as it is tried.
#[derive(Clone, Copy, Debug)]
pub enum Outcome {
    /// PC is no text word.
    NoText,
    FetchMiss(Why),
    /// A register cell that it reads is bad.
    BadRegister(u8),
    OrdinaryTrap,
    LoadMiss(Why),
    /// Its load hits in a slot of the data cache.
    LoadHit(usize),
    Store,
    Atomic,
    /// STBAR or FLUSH.
    Barrier(Why),
    Other,
}
