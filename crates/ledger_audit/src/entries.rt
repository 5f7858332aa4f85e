ghost use Rattle.std.specs.Prelude.{◌≡◌, ◌↔◌, ◌<◌, ◌+◌, ◌^◌, None, Some, map, slice_get, IsTrue, IfSome};
ghost use Rattle.lf_model.specs.Operation.{enters};
ghost use Rattle.ledger_audit.specs.Account.{entry_seen};
ghost use Rattle.ledger_audit.specs.Entries.{entry_of, HasEntry, HasOther};

use crate::given::LogEntry;
use lf_model::bus::OpKind;
use lf_model::trace::Op;

/// A store or an atomic that reached memory.
fn enters(op: &Op) -> bool
    ensures { result ≡ enters op.now }
{
    matches!(op.kind, OpKind::Store | OpKind::Atomic)
}

/// Entry number `entry` of the log is of this operation.
fn is_entry(log: &[LogEntry], entry: usize, op: &Op) -> bool
    ensures { IsTrue result ↔ slice_get (map entry_seen log.now) entry ≡ Some (entry_of op.now) }
{
    match log.get(entry) {
        Some(entry) => entry.core == op.core && entry.number == op.k,
        None => false,
    }
}

/// The number of the next entry after an operation, if that is no store or atomic in memory, or is of entry number `entry` of the log.
pub(crate) fn next_entry(log: &[LogEntry], entry: usize, op: &Op) -> Option<usize>
    requires few { entry + 1 < 2 ^ 64 }
    ensures other { result ≡ None → HasOther (map entry_seen log.now) entry op.now }
    ensures next { IfSome result (HasEntry (map entry_seen log.now) entry op.now) }
{
    if !enters(op) {
        return Some(entry);
    }
    if is_entry(log, entry, op) {
        Some(entry + 1)
    } else {
        None
    }
}
