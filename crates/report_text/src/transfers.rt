ghost use Rattle.std.specs.Prelude.{◌≡◌, ℕ, ◌+◌, ◌-◌, ◌*◌, ◌/◌, ◌^◌, ◌≤◌, ◌++◌, codes, filter, drop, length, slice_get, if◌then◌else◌};
ghost use Rattle.std.specs.List.{list_any};
ghost use Rattle.std.specs.Option.{option_map_or};
ghost use Rattle.arrayvec.specs.ArrayVec.{array_vec_len};
ghost use Rattle.lf_model.specs.Operation.{enters};
ghost use Rattle.lf_model.specs.Texts.{hex_field};
ghost use Rattle.lf_model.specs.Report.{transfers_part};
ghost use Rattle.lf_model.specs.TransferLines.{kind_word, why_word, way_field, syndromes_field, store_field, syn_field, transfer_line, makes_entry, stops_at, core_stops_at, has_entry, length_of, lines_of, transfer_lines};
ghost use Rattle.report_text.specs.Written.{Writes, progress};

use super::fields::{LINE_FEED, Piece, SPACE, put, put_hex_field, put_number};
use super::stream::Stream;
use lf_io::Sink;
use lf_model::bus::{Transfer, TurnKind};
use lf_model::trace::{CoreResult, Op, Trace};
use report_fields::{Word, length_at};

/// Writes the number of transfers, and a line for each.
pub fn write_transfers<K: Sink>(text: &mut Stream, out: &mut K, trace: &Trace)
    ensures written { Writes (progress (K.taken out.old) (K.faults out.old) text.old)
        (progress (K.taken out.new) (K.faults out.new) text.new) (transfers_part trace.now) }
{
    let transfers = trace.transfers.as_slice();
    text.append_count(out, b"transfers ", transfers.len());
    write_transfer_list(
        text,
        out,
        trace.cores.as_slice(),
        trace.order.as_slice(),
        transfers,
    );
}

/// Writes a line for each transfer, going along the order for the lengths of stores and atomics.
fn write_transfer_list<K: Sink>(
    text: &mut Stream,
    out: &mut K,
    cores: &[CoreResult],
    order: &[Op],
    transfers: &[Transfer],
)
    ensures written { Writes (progress (K.taken out.old) (K.faults out.old) text.old)
        (progress (K.taken out.new) (K.faults out.new) text.new) (lines_of cores.now (filter enters order.now) transfers.now) }
{
    let mut left = order;
    for transfer in transfers {
        let (len, later) = length_at(cores, left, transfer);
        write_transfer(text, out, len, transfer);
        left = later;
    }
}

/// Writes the line of a transfer whose entry in the log has this length.
fn write_transfer<K: Sink>(text: &mut Stream, out: &mut K, len: u8, transfer: &Transfer)
    ensures written { Writes (progress (K.taken out.old) (K.faults out.old) text.old)
        (progress (K.taken out.new) (K.faults out.new) text.new) (transfer_line len transfer.now) }
{
    text.make_room(out);
    put_transfer(&mut text.piece, len, transfer);
}

/// Appends the line of a transfer whose entry in the log has this length.
#[tactic(auto, unfolding(lf_model::specs::TransferLines::transfer_line))]
fn put_transfer(piece: &mut Piece, len: u8, transfer: &Transfer)
    requires room { array_vec_len piece.old + 700 ≤ 4096 }
    ensures appended { piece.new.items ≡ piece.old.items ++ transfer_line len transfer.now }
{
    put(piece, b"t ");
    put_number(piece, SPACE, u64::from(transfer.turn));
    put_number(piece, SPACE, u64::from(transfer.master));
    put_number(piece, SPACE, u64::from(transfer.step));
    put_action(piece, len, transfer);
}

/// Appends the fields of a transfer's line from the word for what it does on.
fn put_action(piece: &mut Piece, len: u8, transfer: &Transfer)
    requires room { array_vec_len piece.old + 600 ≤ 4096 }
    ensures appended { let t = transfer.now in piece.new.items ≡ piece.old.items ++ (kind_word t.kind ++ (why_word t.why ++ (hex_field SPACE 8 t.addr ++ (way_field t.kind t.way ++ syn_field t.kind len t)))) }
{
    put(piece, transfer.kind.text());
    put(piece, transfer.why.text());
    put_hex_field(piece, SPACE, 8, u64::from(transfer.addr));
    put_way(piece, transfer.kind, transfer.way);
    put_syndrome_field(piece, len, transfer);
}

/// Appends the way of a fill, and a dash for any other transfer.
fn put_way(piece: &mut Piece, kind: TurnKind, way: u8)
    requires room { array_vec_len piece.old + 21 ≤ 4096 }
    ensures appended { piece.new.items ≡ piece.old.items ++ way_field kind way }
    ensures grown { array_vec_len piece.new ≤ array_vec_len piece.old + 21 }
{
    match kind {
        TurnKind::Fetch | TurnKind::Load => put_number(piece, SPACE, u64::from(way)),
        TurnKind::Store | TurnKind::Atomic | TurnKind::Snoop | TurnKind::Look | TurnKind::Fix => {
            put(piece, b"- ");
        }
    }
}

/// Appends the syndromes of the words read, or dashes where a transfer reads none.
fn put_syndrome_field(piece: &mut Piece, len: u8, transfer: &Transfer)
    requires room { array_vec_len piece.old + 520 ≤ 4096 }
    ensures appended { piece.new.items ≡ piece.old.items ++ syn_field transfer.now.kind len transfer.now }
{
    match transfer.kind {
        TurnKind::Store => put_store_syndrome(piece, len, transfer),
        TurnKind::Snoop => put(piece, b"-\n"),
        TurnKind::Fetch | TurnKind::Load | TurnKind::Atomic | TurnKind::Look | TurnKind::Fix => {
            put_syndromes(piece, transfer);
        }
    }
}

/// Appends the syndrome of the word that a part store read, or two dashes for each word that a store wrote
/// without a read.
fn put_store_syndrome(piece: &mut Piece, len: u8, transfer: &Transfer)
    requires room { array_vec_len piece.old + 520 ≤ 4096 }
    ensures appended { piece.new.items ≡ piece.old.items ++ store_field len transfer.now }
{
    if transfer.words != 0 {
        put_syndromes(piece, transfer);
    } else if len == 8 {
        put(piece, b"----\n");
    } else {
        put(piece, b"--\n");
    }
}

/// Appends two digits for the syndrome of each word read.
fn put_syndromes(piece: &mut Piece, transfer: &Transfer)
    requires room { array_vec_len piece.old + 520 ≤ 4096 }
    ensures appended { piece.new.items ≡ piece.old.items ++ syndromes_field transfer.now }
{
    let digits = 2 * u16::from(transfer.words);
    put_hex_field(
        piece,
        LINE_FEED,
        digits,
        top_bytes(transfer.syn, transfer.words),
    );
}

/// The number that the top `count` bytes hold.
fn top_bytes(n: u64, count: u8) -> u64
    ensures top { result ≡ n / 2 ^ (64 - 8 * count) }
{
    match count {
        0 => 0,
        1..=7 => n >> (64 - 8 * count),
        _ => n,
    }
}
