use lf_model::bus::Entry;
use lf_model::trace::CoreEnd;
use tso_thread::Program;

/// What a core is given: the numbers that its loads and atomics read, and its stores, lost ones among them, in program order.
#[derive(Clone, Copy, Debug)]
pub struct Given<'a> {
    pub answers: &'a [u64],
    pub stores: &'a [Entry],
}

/// What a core runs on.
#[derive(Drop)]
pub struct Ground<'a> {
    pub program: &'a Program<'a>,
    /// The core's number.
    pub core: u32,
    pub given: Given<'a>,
    /// How it ends.
    pub end: CoreEnd,
    /// How many steps it makes.
    pub steps: u32,
}
