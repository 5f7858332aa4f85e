ghost use Rattle.std.specs.Prelude.{◌≡◌, ◌+◌, ◌<◌, ◌≤◌, ◌^◌, ◌++◌, ℕ, OnOk, IfOk, filter, length, vec_len};
ghost use Rattle.lf_model.specs.Operation.{is_lost};
ghost use Rattle.lf_model.specs.Records.SeenOrder.{is_load};
ghost use Rattle.run_trace.specs.Order.{chosen, is_load_at, is_lost_in, loads_at, order_of};
ghost use Rattle.run_trace.specs.Cursors.{IsReadable, IsCursor, AreReadable, AreCursors, IsListed};

use lf_model::bus::OpKind;
use lf_model::record::CoreRecord;
use lf_model::trace::Op;
use order_log::Log;
use std::alloc::{AllocError, Global};

/// The operation is a load.
fn is_load(op: &Op) -> bool
    ensures { result ≡ is_load op.now }
{
    match op.kind {
        OpKind::Load => true,
        OpKind::Store | OpKind::Atomic | OpKind::Lost => false,
    }
}

/// It is a store that never reached memory.
fn is_lost(op: &Op) -> bool
    ensures { result ≡ is_lost op.now }
{
    match op.kind {
        OpKind::Lost => true,
        OpKind::Load | OpKind::Store | OpKind::Atomic => false,
    }
}

/// Puts the loads of a core that had seen so many entries of the log at the end, from operation `from` on. Answers the first
/// operation that had seen more.
fn push_core_loads(
    order: &mut Vec<Op>,
    kept: &CoreRecord,
    from: usize,
    seen: u32,
) -> Result<usize, AllocError>
    requires readable { IsReadable kept.now }
    requires cursor { IsCursor seen kept.now from }
    ensures cursor { IfOk result (IsCursor (seen + 1) kept.now) }
    ensures pushed { OnOk result (order.new.items ≡ order.old.items ++ filter (is_load_at seen kept.now) kept.now.ops) }
{
    let ops = kept.ops.as_slice();
    let all_seen = kept.seen.as_slice();
    for k in from..ops.len() {
        if all_seen[k] > seen {
            return Ok(k);
        }
        if is_load(&ops[k]) {
            order.push(ops[k])?;
        }
    }
    Ok(ops.len())
}

/// The same for all cores, each from its cursor on.
fn push_loads(
    order: &mut Vec<Op>,
    records: &[CoreRecord],
    cursors: &mut Vec<usize>,
    seen: u32,
) -> Result<(), AllocError>
    requires readable { AreReadable records.now }
    requires one_each { vec_len cursors.old ≡ length records.now }
    requires cursors { AreCursors seen records.now cursors.old.items }
    ensures one_each { OnOk result (vec_len cursors.new ≡ length records.now) }
    ensures cursors { OnOk result (AreCursors (seen + 1) records.now cursors.new.items) }
    ensures pushed { OnOk result (order.new.items ≡ order.old.items ++ loads_at records.now seen) }
{
    for c in 0..records.len() {
        let next = push_core_loads(order, &records[c], cursors[c], seen)?;
        cursors[c] = next;
    }
    Ok(())
}

/// Puts the lost stores of a core at the end.
fn push_core_lost(order: &mut Vec<Op>, kept: &CoreRecord) -> Result<(), AllocError>
    ensures { OnOk result (order.new.items ≡ order.old.items ++ filter (is_lost_in kept.now) kept.now.ops) }
{
    for &op in kept.ops.as_slice() {
        if is_lost(&op) {
            order.push(op)?;
        }
    }
    Ok(())
}

/// The same for all cores.
fn push_lost(order: &mut Vec<Op>, records: &[CoreRecord]) -> Result<(), AllocError>
    ensures { OnOk result (order.new.items ≡ order.old.items ++ chosen is_lost_in records.now) }
{
    for kept in records {
        push_core_lost(order, kept)?;
    }
    Ok(())
}

/// All operations in memory order: each store and atomic by its entry of the log, each load after the last entry that its
/// core had seen, and the lost stores last. Loads of one place and lost stores stand by core, and then in program order.
pub fn order_of(alloc: Global, records: &[CoreRecord], log: &Log) -> Result<Vec<Op>, AllocError>
    requires readable { AreReadable records.now }
    requires listed { (place : ℕ) → place < length log.now.entries → IsListed records.now log.now.entries place }
    requires few { length log.now.entries + 1 < 2 ^ 32 }
    ensures { IfOk result (λ order. order.items ≡ order_of records.now log.now.entries) }
{
    let mut order = Vec::new(alloc);
    let mut cursors = vec![in alloc; 0usize; records.len()]?;
    for place in 0..log.len() {
        push_loads(&mut order, records, &mut cursors, place)?;
        let entry = log.at(place);
        let ops = records[entry.core as usize].ops.as_slice();
        order.push(ops[entry.k as usize])?;
    }
    push_loads(&mut order, records, &mut cursors, log.len())?;
    push_lost(&mut order, records)?;
    Ok(order)
}
