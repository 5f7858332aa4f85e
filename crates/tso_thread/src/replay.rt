ghost use Rattle.std.specs.Prelude.{◌≡◌, ◌↔◌, length, IsTrue};
ghost use Rattle.tso_thread.specs.ReplayState.{ReadsFit, IsFront};

use crate::made::Made;
use crate::program::Program;
use ghost_value::Ghost;
use lf_model::trace::Op;

/// The parts of a core whose loads and atomics read what its operations in a trace say, with no cache, no store buffer and no flip.
///
/// It keeps count of the operations that its instructions make, and whether they are the first ones of the trace.
#[derive(Drop)]
pub(crate) struct Replay<'a> {
    pub(crate) program: &'a Program<'a>,
    /// The operations of the core in the trace, in program order.
    pub(crate) ops: &'a [Op],
    pub(crate) core: u32,
    pub(crate) cells: [u32; 136],
    pub(crate) out: Vec<u8>,
    /// How many operations were made.
    pub(crate) count: usize,
    /// They are the first ones of the trace.
    pub(crate) agrees: bool,
    pub(crate) made: Ghost<Made>,
    ghost fit: { ReadsFit ops.now },
    ghost count_is: { count ≡ length made },
    ghost agree: { IsTrue agrees ↔ IsFront made ops.now },
}
