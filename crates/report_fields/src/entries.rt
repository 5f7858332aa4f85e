ghost use Rattle.std.specs.Prelude.{◌≡◌, filter, drop, slice_get, if◌then◌else◌};
ghost use Rattle.std.specs.List.{list_any};
ghost use Rattle.std.specs.Option.{option_map_or};
ghost use Rattle.lf_model.specs.Operation.{enters};
ghost use Rattle.lf_model.specs.TransferLines.{stops_at, core_stops_at, has_entry, length_of};

use lf_model::bus::{OpKind, Transfer, TurnKind};
use lf_model::trace::{CoreEnd, CoreResult, Op};

/// The length of a transfer's entry in the log, 0 where it has none, and the part of the order that is left for
/// the transfers after it.
pub fn length_at<'a>(cores: &[CoreResult], order: &'a [Op], transfer: &Transfer) -> (u8, &'a [Op])
    ensures length { result.0 ≡ (if has_entry cores.now transfer.now then option_map_or length_of (slice_get (filter enters order.now) 0) 0 else 0) }
    ensures later { filter enters result.1.now ≡ (if has_entry cores.now transfer.now then drop 1 (filter enters order.now) else filter enters order.now) }
{
    if is_entry(cores, transfer) {
        next_length(order)
    } else {
        (0, order)
    }
}

/// The length of the first operation that entered memory, and the operations after it.
fn next_length(order: &[Op]) -> (u8, &[Op])
    ensures length { result.0 ≡ option_map_or length_of (slice_get (filter enters order.now) 0) 0 }
    ensures later { filter enters result.1.now ≡ drop 1 (filter enters order.now) }
{
    let mut left = order;
    while let Some((op, later)) = left.split_first() {
        if matches!(op.kind, OpKind::Store | OpKind::Atomic) {
            return (op.len, later);
        }
        left = later;
    }
    (0, left)
}

/// The transfer has an entry in the log: it is a store or an atomic that met no bad word.
fn is_entry(cores: &[CoreResult], transfer: &Transfer) -> bool
    ensures entry { result ≡ has_entry cores.now transfer.now }
{
    matches!(transfer.kind, TurnKind::Store | TurnKind::Atomic)
        && !is_stop_of_any(cores, transfer.turn)
}

/// A core stopped at the transfer of this turn.
fn is_stop_of_any(cores: &[CoreResult], turn: u32) -> bool
    ensures any { result ≡ list_any (core_stops_at turn) cores.now }
{
    cores.iter().any(|core| is_stop(core.end, turn))
}

/// The end is a stop at the transfer of this turn: at a load or an atomic, or at a part store.
fn is_stop(end: CoreEnd, turn: u32) -> bool
    ensures stop { result ≡ stops_at turn end }
{
    match end {
        CoreEnd::Stop { tt, place, .. } => place == turn && (tt == 0x09 || tt == 0x2b),
        CoreEnd::Halt(_) | CoreEnd::Limit => false,
    }
}
