ghost use Rattle.std.specs.Prelude.{◌≡◌, ◌↔◌, ◌<◌, ◌^◌, Some, length, map, option_map, IsTrue};
ghost use Rattle.lf_model.specs.Ledger.OrderAccount.{completion_of, reported_by, shown};
ghost use Rattle.lf_model.specs.Places.{FailsFirst};
ghost use Rattle.ledger_audit.specs.Account.{completion_seen, completions_of, entry_seen};
ghost use Rattle.ledger_audit.specs.Entries.{after_entries};
ghost use Rattle.ledger_audit.specs.FirstPlaces.{SameOrderAt};

use crate::entries::next_entry;
use crate::given::{Completion, CoreGiven, LogEntry};
use crate::sorted::{SoFar, next};
use lf_model::bus::OpKind;
use lf_model::trace::Op;

/// The order reports of an operation the step that is given and, of a load, the way and how many entries of the log the core had seen.
fn is_shown(completion: &Completion, op: &Op, entries: usize) -> bool
    ensures { IsTrue result ↔ shown op.now.kind (completion_seen completion.now) ≡ reported_by (after_entries entries) op.now op.now.kind }
{
    match op.kind {
        OpKind::Load => {
            completion.step == op.step
                && completion.way == Some(op.way)
                && completion.seen as usize == entries
        }
        OpKind::Store | OpKind::Atomic | OpKind::Lost => completion.step == op.step,
    }
}

/// The order reports of an operation, after so many entries of the log, what is given of its completion.
fn is_completed(cores: &[CoreGiven], op: &Op, entries: usize) -> bool
    ensures { IsTrue result ↔ option_map (shown op.now.kind) (completion_of (map completions_of cores.now) op.now.core op.now.k) ≡ Some (reported_by (after_entries entries) op.now op.now.kind) }
{
    let Some(core) = cores.get(op.core as usize) else {
        return false;
    };
    match core.completions.as_slice().get(op.k as usize) {
        Some(completion) => is_shown(completion, op, entries),
        None => false,
    }
}

/// The first operation of which the order reports other than is given: a store or an atomic in memory is the next entry of the log, each
/// operation is completed as it is reported, and it is sorted.
pub(crate) fn first_other_operation(
    cores: &[CoreGiven],
    log: &[LogEntry],
    order: &[Op],
) -> Option<usize>
    requires few { length order.now < 2 ^ 32 }
    ensures { FailsFirst (length order.now) (SameOrderAt (map entry_seen log.now) (map completions_of cores.now) order.now) result }
{
    let mut entries = 0;
    let mut so_far = SoFar::new();
    for place in 0..order.len() {
        if !is_completed(cores, &order[place], entries) {
            return Some(place);
        }
        match next_entry(log, entries, &order[place]) {
            Some(next) => entries = next,
            None => return Some(place),
        }
        match next(so_far, order, place) {
            Some(next) => so_far = next,
            None => return Some(place),
        }
    }
    None
}
