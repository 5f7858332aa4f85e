use crate::footprint::Access;
use crate::made::{Made, Output};
use arrayvec::ArrayVec;
use ghost_value::Ghost;
use tso_thread::Program;

/// A copy of the parts of a core, on which one instruction is tried: no register cell is bad, no load misses, and the store buffer is
/// never full.
///
/// It notes which register cells the instruction reads and writes, and its load or store.
#[derive(Drop)]
pub(crate) struct Trial<'a> {
    pub(crate) program: &'a Program<'a>,
    pub(crate) core: u32,
    pub(crate) cells: [u32; 136],
    /// What a load reads.
    pub(crate) got: u64,
    /// A store waits in the store buffer.
    pub(crate) waiting: bool,
    pub(crate) reads: ArrayVec<u8, 4>,
    pub(crate) writes: ArrayVec<u8, 2>,
    pub(crate) access: Option<Access>,
    pub(crate) out: Ghost<Output>,
    pub(crate) made: Ghost<Made>,
}
