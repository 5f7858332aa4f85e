ghost use Rattle.std.specs.Prelude.{◌≡◌, ℕ, ◌+◌, ◌≤◌, ◌*◌, ◌++◌, codes, take, drop, length};
ghost use Rattle.std.specs.List.{flat_map};
ghost use Rattle.arrayvec.specs.ArrayVec.{array_vec_len};
ghost use Rattle.lf_model.specs.Texts.{hex, number};
ghost use Rattle.lf_model.specs.Report.{end_text, end_line, bytes_text, out_line, word_field, words_text, words_line, register_lines, control_line, parity_line, core_lines, cores_lines, cores_part};
ghost use Rattle.report_text.specs.Written.{Writes, progress};

use super::fields::{LINE_FEED, Piece, SPACE, put, put_hex, put_hex_field, put_number, put_word};
use super::stream::Stream;
use lf_io::Sink;
use lf_model::trace::{CoreEnd, CoreResult, Four};

/// Writes the first line and the lines of the cores.
pub fn write_cores<K: Sink>(text: &mut Stream, out: &mut K, cores: &[CoreResult])
    ensures written { Writes (progress (K.taken out.old) (K.faults out.old) text.old)
        (progress (K.taken out.new) (K.faults out.new) text.new) (cores_part cores.now) }
{
    text.append(out, b"leon3ft report 1\n");
    text.append_count(out, b"cores ", cores.len());
    write_core_list(text, out, cores);
}

/// Writes eight lines for each core.
fn write_core_list<K: Sink>(text: &mut Stream, out: &mut K, cores: &[CoreResult])
    ensures written { Writes (progress (K.taken out.old) (K.faults out.old) text.old)
        (progress (K.taken out.new) (K.faults out.new) text.new) (cores_lines 0 cores.now) }
{
    for (k, core) in cores.iter().enumerate() {
        write_core(text, out, k as u64, core);
    }
}

/// Writes the eight lines of core `k`.
fn write_core<K: Sink>(text: &mut Stream, out: &mut K, k: u64, core: &CoreResult)
    ensures written { Writes (progress (K.taken out.old) (K.faults out.old) text.old)
        (progress (K.taken out.new) (K.faults out.new) text.new) (core_lines k core.now) }
{
    write_end(text, out, k, core);
    write_output(text, out, k, core);
    write_state(text, out, k, core);
}

/// Writes the line that says how core `k` ended.
fn write_end<K: Sink>(text: &mut Stream, out: &mut K, k: u64, core: &CoreResult)
    ensures written { Writes (progress (K.taken out.old) (K.faults out.old) text.old)
        (progress (K.taken out.new) (K.faults out.new) text.new) (end_line k core.now) }
{
    text.make_room(out);
    put_end(&mut text.piece, k, core);
}

/// Appends the line that says how core `k` ended.
#[tactic(auto, unfolding(lf_model::specs::Report::end_line))]
fn put_end(piece: &mut Piece, k: u64, core: &CoreResult)
    requires room { array_vec_len piece.old + 130 ≤ 4096 }
    ensures appended { piece.new.items ≡ piece.old.items ++ end_line k core.now }
{
    put(piece, b"core ");
    put_number(piece, SPACE, k);
    put_end_fields(piece, u64::from(core.n), u64::from(core.steps), core.end);
}

/// Appends what came at a core's end, after `n` instructions and so many steps.
fn put_end_fields(piece: &mut Piece, n: u64, steps: u64, end: CoreEnd)
    requires room { array_vec_len piece.old + 100 ≤ 4096 }
    ensures appended { piece.new.items ≡ piece.old.items ++ end_text n steps end }
{
    match end {
        CoreEnd::Halt(tt) => {
            put(piece, b"halt ");
            put_hex_field(piece, SPACE, 2, u64::from(tt));
            put_number(piece, SPACE, n);
            put_number(piece, LINE_FEED, steps);
        }
        CoreEnd::Stop { tt, place, syn } => {
            put(piece, b"stop ");
            put_hex_field(piece, SPACE, 2, u64::from(tt));
            put_number(piece, SPACE, n);
            put_number(piece, SPACE, steps);
            put_number(piece, SPACE, u64::from(place));
            put_hex_field(piece, LINE_FEED, 2, u64::from(syn));
        }
        CoreEnd::Limit => {
            put(piece, b"limit ");
            put_number(piece, SPACE, n);
            put_number(piece, LINE_FEED, steps);
        }
    }
}

/// Writes the line of the bytes that core `k` wrote to the output word.
fn write_output<K: Sink>(text: &mut Stream, out: &mut K, k: u64, core: &CoreResult)
    ensures written { Writes (progress (K.taken out.old) (K.faults out.old) text.old)
        (progress (K.taken out.new) (K.faults out.new) text.new) (out_line k core.now) }
{
    write_output_head(text, out, k);
    write_bytes(text, out, core.out.as_slice());
    text.append(out, b"\n");
}

/// Writes the first word of that line, and the number of the core.
fn write_output_head<K: Sink>(text: &mut Stream, out: &mut K, k: u64)
    ensures written { Writes (progress (K.taken out.old) (K.faults out.old) text.old)
        (progress (K.taken out.new) (K.faults out.new) text.new) (codes "out " ++ number SPACE k) }
{
    text.make_room(out);
    put_output_head(&mut text.piece, k);
}

/// Appends the first word of that line, and the number of the core.
fn put_output_head(piece: &mut Piece, k: u64)
    requires room { array_vec_len piece.old + 30 ≤ 4096 }
    ensures appended { piece.new.items ≡ piece.old.items ++ (codes "out " ++ number SPACE k) }
{
    put(piece, b"out ");
    put_number(piece, SPACE, k);
}

/// Writes two digits for each byte, or a dash where there is none.
fn write_bytes<K: Sink>(text: &mut Stream, out: &mut K, bytes: &[u8])
    ensures written { Writes (progress (K.taken out.old) (K.faults out.old) text.old)
        (progress (K.taken out.new) (K.faults out.new) text.new) (bytes_text bytes.now) }
{
    if bytes.is_empty() {
        text.append(out, b"-");
    } else {
        write_pairs(text, out, bytes);
    }
}

/// Writes two digits for each byte.
fn write_pairs<K: Sink>(text: &mut Stream, out: &mut K, bytes: &[u8])
    ensures written { Writes (progress (K.taken out.old) (K.faults out.old) text.old)
        (progress (K.taken out.new) (K.faults out.new) text.new) (flat_map (hex 2) bytes.now) }
{
    for byte in bytes {
        write_pair(text, out, *byte);
    }
}

/// Writes the two digits of a byte.
fn write_pair<K: Sink>(text: &mut Stream, out: &mut K, byte: u8)
    ensures written { Writes (progress (K.taken out.old) (K.faults out.old) text.old)
        (progress (K.taken out.new) (K.faults out.new) text.new) (hex 2 byte) }
{
    text.make_room(out);
    put_hex(&mut text.piece, 2, u64::from(byte));
}

/// Writes the lines of the registers and counters of core `k`.
fn write_state<K: Sink>(text: &mut Stream, out: &mut K, k: u64, core: &CoreResult)
    ensures written { Writes (progress (K.taken out.old) (K.faults out.old) text.old)
        (progress (K.taken out.new) (K.faults out.new) text.new) (register_lines k core.now ++ (control_line k core.now ++ parity_line k core.now.parity)) }
{
    text.make_room(out);
    put_state(&mut text.piece, k, core);
}

/// Appends the lines of the registers and counters of core `k`.
fn put_state(piece: &mut Piece, k: u64, core: &CoreResult)
    requires room { array_vec_len piece.old + 800 ≤ 4096 }
    ensures appended { piece.new.items ≡ piece.old.items ++ (register_lines k core.now ++ (control_line k core.now ++ parity_line k core.now.parity)) }
{
    put_registers(piece, k, core);
    put_control(piece, k, core);
    put_parity(piece, k, &core.parity);
}

/// Appends the lines of the globals, outs, locals and ins of core `k` in its current window.
#[tactic(auto, unfolding(lf_model::specs::Report::register_lines))]
fn put_registers(piece: &mut Piece, k: u64, core: &CoreResult)
    requires room { array_vec_len piece.old + 400 ≤ 4096 }
    ensures appended { piece.new.items ≡ piece.old.items ++ register_lines k core.now }
    ensures grown { array_vec_len piece.new ≤ array_vec_len piece.old + 400 }
{
    let registers = core.regs.as_slice();
    put_words_line(piece, b"g ", k, eight_from(registers, 0));
    put_words_line(piece, b"o ", k, eight_from(registers, 8));
    put_words_line(piece, b"l ", k, eight_from(registers, 16));
    put_words_line(piece, b"i ", k, eight_from(registers, 24));
}

/// The eight words from an index on, or as many as there are.
fn eight_from(words: &[Option<u32>], first: usize) -> &[Option<u32>]
    ensures words { result.now ≡ take 8 (drop first words.now) }
    ensures most { length result.now ≤ 8 }
{
    let first = first.min(words.len());
    let rest = &words[first..];
    &rest[..rest.len().min(8)]
}

/// Appends the line of PSR, WIM, TBR, Y, PC and nPC of core `k`.
#[tactic(auto, unfolding(lf_model::specs::Report::control_line))]
fn put_control(piece: &mut Piece, k: u64, core: &CoreResult)
    requires room { array_vec_len piece.old + 100 ≤ 4096 }
    ensures appended { piece.new.items ≡ piece.old.items ++ control_line k core.now }
    ensures grown { array_vec_len piece.new ≤ array_vec_len piece.old + 100 }
{
    let words = [
        Some(core.psr),
        Some(core.wim),
        Some(core.tbr),
        Some(core.y),
        Some(core.pc),
        Some(core.npc),
    ];
    put_words_line(piece, b"ctl ", k, &words);
}

/// Appends a line of at most eight words of core `k`: its first word with the space behind it, `k`, and the words.
#[tactic(auto, unfolding(lf_model::specs::Report::words_line))]
fn put_words_line(piece: &mut Piece, head: &[u8], k: u64, words: &[Option<u32>])
    requires short { length head.now ≤ 4 }
    requires most { length words.now ≤ 8 }
    requires room { array_vec_len piece.old + 97 ≤ 4096 }
    ensures appended { piece.new.items ≡ piece.old.items ++ words_line head.now k words.now }
    ensures grown { array_vec_len piece.new ≤ array_vec_len piece.old + 97 }
{
    put(piece, head);
    put_number(piece, SPACE, k);
    put_words(piece, words);
}

/// Appends at most eight words with a space between, and a line feed behind the last.
fn put_words(piece: &mut Piece, words: &[Option<u32>])
    requires most { length words.now ≤ 8 }
    requires room { array_vec_len piece.old + 72 ≤ 4096 }
    ensures appended { piece.new.items ≡ piece.old.items ++ words_text words.now }
    ensures grown { array_vec_len piece.new ≤ array_vec_len piece.old + 72 }
{
    let Some((last, front)) = words.split_last() else {
        return;
    };
    put_front_words(piece, front);
    put_word(piece, LINE_FEED, *last);
}

/// Appends words with a space behind each.
fn put_front_words(piece: &mut Piece, words: &[Option<u32>])
    requires room { array_vec_len piece.old + 9 * length words.now ≤ 4096 }
    ensures appended { piece.new.items ≡ piece.old.items ++ flat_map (word_field SPACE) words.now }
    ensures grown { array_vec_len piece.new ≡ array_vec_len piece.old + 9 * length words.now }
{
    for word in words {
        put_word(piece, SPACE, *word);
    }
}

/// Appends the line of the counters of parity errors of core `k`.
#[tactic(auto, unfolding(lf_model::specs::Report::parity_line))]
fn put_parity(piece: &mut Piece, k: u64, parity: &Four)
    requires room { array_vec_len piece.old + 120 ≤ 4096 }
    ensures appended { piece.new.items ≡ piece.old.items ++ parity_line k parity.now }
{
    put(piece, b"parity ");
    put_number(piece, SPACE, k);
    put_number(piece, SPACE, u64::from(parity.fetch_tag));
    put_number(piece, SPACE, u64::from(parity.fetch_byte));
    put_number(piece, SPACE, u64::from(parity.data_tag));
    put_number(piece, LINE_FEED, u64::from(parity.data_byte));
}
