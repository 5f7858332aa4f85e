ghost use Rattle.std.specs.Prelude.{◌≡◌, ℕ, ◌+◌, ◌≤◌, ◌*◌, ◌++◌, length, codes};
ghost use Rattle.std.specs.List.{flat_map};
ghost use Rattle.arrayvec.specs.ArrayVec.{array_vec_len};
ghost use Rattle.lf_model.specs.Report.{ahb_line, op_text, letter_of, op_line, fate_word, fate_line, fate_lines, watch_line, order_part, flips_part, watch_part};
ghost use Rattle.report_text.specs.Written.{Writes, progress};

use super::fields::{LINE_FEED, Piece, SPACE, put, put_hex_field, put_number, put_word};
use super::stream::Stream;
use lf_io::Sink;
use lf_model::bus::OpKind;
use lf_model::trace::{Fate, Op, Word2};
use report_fields::Word;

/// Writes the line of the AHB failing address and status registers.
pub fn write_ahb<K: Sink>(text: &mut Stream, out: &mut K, addr: u32, status: u32)
    ensures written { Writes (progress (K.taken out.old) (K.faults out.old) text.old)
        (progress (K.taken out.new) (K.faults out.new) text.new) (ahb_line addr status) }
{
    text.make_room(out);
    put_ahb(&mut text.piece, addr, status);
}

/// Appends the line of the AHB failing address and status registers.
#[tactic(auto, unfolding(lf_model::specs::Report::ahb_line))]
fn put_ahb(piece: &mut Piece, addr: u32, status: u32)
    requires room { array_vec_len piece.old + 22 ≤ 4096 }
    ensures appended { piece.new.items ≡ piece.old.items ++ ahb_line addr status }
{
    put(piece, b"ahb ");
    put_hex_field(piece, SPACE, 8, u64::from(addr));
    put_hex_field(piece, LINE_FEED, 8, u64::from(status));
}

/// Writes the number of memory operations, and a line for each.
pub fn write_order<K: Sink>(text: &mut Stream, out: &mut K, order: &[Op])
    ensures written { Writes (progress (K.taken out.old) (K.faults out.old) text.old)
        (progress (K.taken out.new) (K.faults out.new) text.new) (order_part order.now) }
{
    text.append_count(out, b"order ", order.len());
    write_operations(text, out, order);
}

/// Writes a line for each memory operation.
fn write_operations<K: Sink>(text: &mut Stream, out: &mut K, order: &[Op])
    ensures written { Writes (progress (K.taken out.old) (K.faults out.old) text.old)
        (progress (K.taken out.new) (K.faults out.new) text.new) (flat_map op_line order.now) }
{
    for op in order {
        write_operation(text, out, op);
    }
}

/// Writes the line of a memory operation.
fn write_operation<K: Sink>(text: &mut Stream, out: &mut K, op: &Op)
    ensures written { Writes (progress (K.taken out.old) (K.faults out.old) text.old)
        (progress (K.taken out.new) (K.faults out.new) text.new) (op_line op.now) }
{
    text.make_room(out);
    put_operation(&mut text.piece, op);
}

/// Appends the line of a memory operation.
#[tactic(auto, unfolding(lf_model::specs::Report::op_line))]
fn put_operation(piece: &mut Piece, op: &Op)
    requires room { array_vec_len piece.old + 1200 ≤ 4096 }
    ensures appended { piece.new.items ≡ piece.old.items ++ op_line op.now }
{
    put(piece, op.kind.text());
    put_number(piece, SPACE, u64::from(op.core));
    put_number(piece, SPACE, u64::from(op.k));
    put_number(piece, SPACE, u64::from(op.step));
    put_hex_field(piece, SPACE, 8, u64::from(op.addr));
    put_operands(piece, op);
}

/// Appends what a memory operation read and stored, two digits a byte, and the way of a load.
fn put_operands(piece: &mut Piece, op: &Op)
    requires room { array_vec_len piece.old + 1100 ≤ 4096 }
    ensures appended { piece.new.items ≡ piece.old.items ++ op_text op.now.kind op.now }
{
    let digits = 2 * u16::from(op.len);
    match op.kind {
        OpKind::Load => {
            put_hex_field(piece, SPACE, digits, op.got);
            put_number(piece, LINE_FEED, u64::from(op.way));
        }
        OpKind::Atomic => {
            put_hex_field(piece, SPACE, digits, op.got);
            put_hex_field(piece, LINE_FEED, digits, op.put);
        }
        OpKind::Store | OpKind::Lost => put_hex_field(piece, LINE_FEED, digits, op.put),
    }
}

/// Writes the number of flips, and a line for each.
pub fn write_flips<K: Sink>(text: &mut Stream, out: &mut K, fates: &[Fate])
    ensures written { Writes (progress (K.taken out.old) (K.faults out.old) text.old)
        (progress (K.taken out.new) (K.faults out.new) text.new) (flips_part fates.now) }
{
    text.append_count(out, b"flips ", fates.len());
    write_fates(text, out, fates);
}

/// Writes a line for each flip.
fn write_fates<K: Sink>(text: &mut Stream, out: &mut K, fates: &[Fate])
    ensures written { Writes (progress (K.taken out.old) (K.faults out.old) text.old)
        (progress (K.taken out.new) (K.faults out.new) text.new) (fate_lines 0 fates.now) }
{
    for (i, fate) in fates.iter().enumerate() {
        write_fate(text, out, i as u64, *fate);
    }
}

/// Writes the line of what became of flip `i`.
fn write_fate<K: Sink>(text: &mut Stream, out: &mut K, i: u64, fate: Fate)
    ensures written { Writes (progress (K.taken out.old) (K.faults out.old) text.old)
        (progress (K.taken out.new) (K.faults out.new) text.new) (fate_line i fate) }
{
    text.make_room(out);
    put_fate(&mut text.piece, i, fate);
}

/// Appends the line of what became of flip `i`.
#[tactic(auto, unfolding(lf_model::specs::Report::fate_line))]
fn put_fate(piece: &mut Piece, i: u64, fate: Fate)
    requires room { array_vec_len piece.old + 40 ≤ 4096 }
    ensures appended { piece.new.items ≡ piece.old.items ++ fate_line i fate }
{
    put(piece, b"f ");
    put_number(piece, SPACE, i);
    put(piece, fate.text());
}

/// Writes the number of watched words, and a line for each.
pub fn write_watch<K: Sink>(text: &mut Stream, out: &mut K, words: &[Word2])
    ensures written { Writes (progress (K.taken out.old) (K.faults out.old) text.old)
        (progress (K.taken out.new) (K.faults out.new) text.new) (watch_part words.now) }
{
    text.append_count(out, b"watch ", words.len());
    write_watched(text, out, words);
}

/// Writes a line for each watched word.
fn write_watched<K: Sink>(text: &mut Stream, out: &mut K, words: &[Word2])
    ensures written { Writes (progress (K.taken out.old) (K.faults out.old) text.old)
        (progress (K.taken out.new) (K.faults out.new) text.new) (flat_map watch_line words.now) }
{
    for word in words {
        write_watched_word(text, out, word);
    }
}

/// Writes the line of a watched word.
fn write_watched_word<K: Sink>(text: &mut Stream, out: &mut K, word: &Word2)
    ensures written { Writes (progress (K.taken out.old) (K.faults out.old) text.old)
        (progress (K.taken out.new) (K.faults out.new) text.new) (watch_line word.now) }
{
    text.make_room(out);
    put_watched_word(&mut text.piece, word);
}

/// Appends the line of a watched word.
#[tactic(auto, unfolding(lf_model::specs::Report::watch_line))]
fn put_watched_word(piece: &mut Piece, word: &Word2)
    requires room { array_vec_len piece.old + 20 ≤ 4096 }
    ensures appended { piece.new.items ≡ piece.old.items ++ watch_line word.now }
{
    put(piece, b"w ");
    put_hex_field(piece, SPACE, 8, u64::from(word.addr));
    put_word(piece, LINE_FEED, word.value);
}
