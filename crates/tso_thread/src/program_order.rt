ghost use Rattle.std.specs.Prelude.{◌≡◌, ◌<◌, ◌^◌, ◌&&◌, ◌↔◌, count_by, length, slice_index_or, nat_lt, if◌then◌else◌, IfOk, ℕ};
ghost use Rattle.lf_model.specs.ProgramOrder.{program_order};
ghost use Rattle.lf_model.specs.Once.{is_number, OnceAtCore};
ghost use Rattle.lf_model.specs.Operation.{of_core};
ghost use Rattle.lf_model.specs.declared.trace.Op.{Op};
ghost use Rattle.tso_thread.specs.ReplayState.{no_op, ReadsFit};

use lf_model::bus::OpKind;
use lf_model::trace::Op;
use std::alloc::{AllocError, Global};

/// No operation, which no place inside a list shows.
const NO_OPERATION: Op = Op {
    got: 0,
    put: 0,
    core: 0,
    k: 0,
    step: 0,
    addr: 0,
    kind: OpKind::Load,
    len: 0,
    way: 0,
};

/// How many operations are of core `c`.
pub fn count_of(order: &[Op], c: u32) -> usize
    ensures { result ≡ count_by (of_core c) order.now }
{
    order.iter().filter(|op| op.core == c).count()
}

/// Puts an operation of the core to its number, if that is among the numbers that there are.
fn put_by_number(ops: &mut [Op], op: &Op, core: u32)
    ensures length { length ops.new ≡ length ops.old }
    ensures placed { (k : ℕ) → k < length ops.old
        → slice_index_or ops.new k no_op ≡ (if is_number core k op.now then op.now else slice_index_or ops.old k no_op) }
{
    if op.core != core {
        return;
    }
    let k = op.k as usize;
    if k >= ops.len() {
        return;
    }
    ops[k] = *op;
}

/// The operations of a core in program order, of an order in which each has its number once.
pub(crate) fn program_order(alloc: Global, order: &[Op], core: u32) -> Result<Vec<Op>, AllocError>
    requires numbered { OnceAtCore order.now core }
    ensures ops { IfOk result (λ ops. ops.items ≡ program_order core order.now) }
{
    let mut ops = vec![in alloc; NO_OPERATION; count_of(order, core)]?;
    for i in (0..order.len()).rev() {
        put_by_number(&mut ops, &order[i], core);
    }
    Ok(ops)
}
