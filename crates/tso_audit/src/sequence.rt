ghost use Rattle.std.specs.Prelude.{◌≡◌, ◌<◌, ◌+◌, ◌^◌, ◌&&◌, nat_lt, length, if◌then◌else◌};
ghost use Rattle.lf_model.specs.Operation.{reads, stores};
ghost use Rattle.lf_model.specs.Order.{LoadOpAt, StoreStoreAt};
ghost use Rattle.lf_model.specs.Places.{FailsFirstIn};
ghost use Rattle.tso_audit.specs.FirstPlaces.{HasCoresBelow, LoadOpFailsFirst, StoreStoreFailsFirst};

use lf_model::bus::OpKind;
use lf_model::place::Place;
use lf_model::trace::{Op, Trace};

/// A load or an atomic.
pub(crate) fn reads(op: &Op) -> bool
    ensures { result ≡ reads op.now }
{
    matches!(op.kind, OpKind::Load | OpKind::Atomic)
}

/// A store or an atomic, lost or not.
pub(crate) fn stores(op: &Op) -> bool
    ensures { result ≡ stores op.now }
{
    matches!(op.kind, OpKind::Store | OpKind::Atomic | OpKind::Lost)
}

/// The number of the next operation of its core.
fn next_number(op: &Op) -> u64
    ensures { result ≡ op.now.k + 1 }
{
    u64::from(op.k) + 1
}

/// After a store or an atomic the number of the next operation of its core, 0 for a load.
fn next_of_store(op: &Op) -> u64
    ensures { result ≡ (if stores op.now then op.now.k + 1 else 0) }
{
    if stores(op) { next_number(op) } else { 0 }
}

/// A load or an atomic of a core that already made a later operation: `next` is one more than the largest number so far.
fn is_early_load(op: &Op, next: u64) -> bool
    ensures { result ≡ (reads op.now && nat_lt (op.now.k + 1) next) }
{
    reads(op) && next_number(op) < next
}

/// A store or an atomic of a core that already made a later one: `next` is one more than the largest number so far.
fn is_early_store(op: &Op, next: u64) -> bool
    ensures { result ≡ (stores op.now && nat_lt (op.now.k + 1) next) }
{
    stores(op) && next_number(op) < next
}

/// The first load or atomic with a later operation of its core before it.
fn first_early_load(order: &[Op]) -> Option<usize>
    requires cores { HasCoresBelow 8 order.now }
    ensures first { FailsFirstIn LoadOpAt order.now result }
{
    // Of each core one more than the largest number so far, or 0.
    let mut next = [0u64; 8];
    for (i, op) in order.iter().enumerate() {
        let core = op.core as usize;
        let largest = next[core];
        if is_early_load(op, largest) {
            return Some(i);
        }
        next[core] = largest.max(next_number(op));
    }
    None
}

/// The first store or atomic with a later store or atomic of its core before it.
fn first_early_store(order: &[Op]) -> Option<usize>
    requires cores { HasCoresBelow 8 order.now }
    ensures first { FailsFirstIn StoreStoreAt order.now result }
{
    // Of each core one more than the largest number of its stores and atomics so far, or 0.
    let mut next = [0u64; 8];
    for (i, op) in order.iter().enumerate() {
        let core = op.core as usize;
        let largest = next[core];
        if is_early_store(op, largest) {
            return Some(i);
        }
        next[core] = largest.max(next_of_store(op));
    }
    None
}

/// The first place at which LoadOp fails, of a trace whose operations are of 8 cores at most: before a load or an atomic stands no
/// operation of its core that the program makes after it (SPARC V8, appendix K).
pub fn load_op(trace: &Trace) -> Option<Place>
    requires few { length trace.now.order < 2 ^ 32 }
    requires cores { HasCoresBelow 8 trace.now.order }
    ensures first { LoadOpFailsFirst trace.now result }
{
    match first_early_load(trace.order.as_slice()) {
        Some(place) => Some(Place::Order(place as u32)),
        None => None,
    }
}

/// The first place at which StoreStore fails, of a trace whose operations are of 8 cores at most: before a store or an atomic
/// stands no store or atomic of its core that the program makes after it (SPARC V8, appendix K).
pub fn store_store(trace: &Trace) -> Option<Place>
    requires few { length trace.now.order < 2 ^ 32 }
    requires cores { HasCoresBelow 8 trace.now.order }
    ensures first { StoreStoreFailsFirst trace.now result }
{
    match first_early_store(trace.order.as_slice()) {
        Some(place) => Some(Place::Order(place as u32)),
        None => None,
    }
}
