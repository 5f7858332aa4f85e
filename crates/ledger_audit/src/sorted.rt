ghost use Rattle.std.specs.Prelude.{◌≡◌, ◌<◌, ◌≤◌, ◌+◌, ◌&&◌, true, false, None, Some, length, drop, slice_index_or, IfSome};
ghost use Rattle.std.specs.List.{list_all};
ghost use Rattle.lf_model.specs.Ledger.OrderAccount.{Before, comes_before, sorted_by};
ghost use Rattle.lf_model.specs.Operation.{is_lost};
ghost use Rattle.ledger_audit.specs.Sorting.{no_op, after_last, Tells, SortedWith};

use lf_model::bus::OpKind;
use lf_model::trace::Op;

/// What is known of the operations before a place of a memory order, all of which are sorted.
#[derive(Clone, Copy)]
pub(crate) struct SoFar {
    /// The last load since the last store or atomic.
    load: Option<Op>,
    /// The last lost store.
    lost: Option<Op>,
    /// From this place on all operations are lost stores. Where this is false, it is not known.
    ends_lost: bool,
}

impl SoFar {
    /// Before the first operation.
    pub(crate) fn new() -> SoFar
        ensures { result ≡ record { load = None; lost = None; ends_lost = false } }
    {
        SoFar {
            load: None,
            lost: None,
            ends_lost: false,
        }
    }
}

/// A store that never reached memory.
pub(crate) fn is_lost(op: &Op) -> bool
    ensures { result ≡ is_lost op.now }
{
    matches!(op.kind, OpKind::Lost)
}

/// The second comes before the first by core and program order.
fn comes_before(op: &Op, earlier: &Op) -> bool
    ensures { result ≡ comes_before op.now earlier.now }
{
    earlier.core < op.core || (earlier.core == op.core && earlier.k <= op.k)
}

/// The last of some operations comes before this one, if there is one.
fn comes_after(op: &Op, last: Option<Op>) -> bool
    ensures { result ≡ after_last op.now last }
{
    match last {
        Some(last) => comes_before(op, &last),
        None => true,
    }
}

/// All of these operations are lost stores.
fn are_lost(order: &[Op]) -> bool
    ensures { result ≡ list_all is_lost order.now }
{
    order.iter().all(|op| is_lost(op))
}

/// All operations from a place on are lost stores. It may be known that they are.
fn are_lost_from(order: &[Op], place: usize, known: bool) -> bool
    requires place { place ≤ length order.now }
    requires known { known ≡ true → list_all is_lost (drop place order.now) ≡ true }
    ensures { result ≡ list_all is_lost (drop place order.now) }
{
    known || are_lost(&order[place..])
}

/// What is known after a load, if that is sorted.
fn after_load(so_far: SoFar, op: Op) -> Option<SoFar>
    ensures unsorted { result ≡ None → after_last op so_far.load ≡ false }
    ensures sorted { IfSome result (λ next. after_last op so_far.load ≡ true) }
    ensures next { IfSome result (λ next. next ≡ record so_far { load = Some op }) }
{
    if comes_after(&op, so_far.load) {
        Some(SoFar {
            load: Some(op),
            ..so_far
        })
    } else {
        None
    }
}

/// What is known after a lost store, if that is sorted: `ends_lost` tells whether all later operations are lost stores.
fn after_lost(so_far: SoFar, op: Op, ends_lost: bool) -> Option<SoFar>
    ensures unsorted { result ≡ None → (ends_lost && after_last op so_far.lost) ≡ false }
    ensures sorted { IfSome result (λ next. (ends_lost && after_last op so_far.lost) ≡ true) }
    ensures next { IfSome result (λ next. next ≡ record so_far { lost = Some op; ends_lost = true }) }
{
    if ends_lost && comes_after(&op, so_far.lost) {
        Some(SoFar {
            lost: Some(op),
            ends_lost: true,
            ..so_far
        })
    } else {
        None
    }
}

/// What is known after the operation at a place, if that is sorted.
pub(crate) fn next(so_far: SoFar, order: &[Op], place: usize) -> Option<SoFar>
    requires place { place < length order.now }
    requires ends { so_far.ends_lost ≡ true → list_all is_lost (drop (place + 1) order.now) ≡ true }
    ensures unsorted { (b : Before) → Tells so_far b → result ≡ None
        → sorted_by b (slice_index_or order.now place no_op) (drop (place + 1) order.now) (slice_index_or order.now place no_op).kind ≡ false }
    ensures sorted { (b : Before) → Tells so_far b → IfSome result (SortedWith b (slice_index_or order.now place no_op) (drop (place + 1) order.now)) }
{
    let op = order[place];
    match op.kind {
        OpKind::Load => after_load(so_far, op),
        OpKind::Store | OpKind::Atomic => Some(SoFar {
            load: None,
            ..so_far
        }),
        OpKind::Lost => after_lost(
            so_far,
            op,
            are_lost_from(order, place + 1, so_far.ends_lost),
        ),
    }
}
