ghost use Rattle.std.specs.Prelude.{◌≡◌, ℕ, ◌+◌, ◌*◌, ◌/◌, ◌%◌, ◌^◌, ◌<◌, ◌≤◌, ◌++◌, length};
ghost use Rattle.arrayvec.specs.ArrayVec.{array_vec_len};
ghost use Rattle.lf_model.specs.Texts.{number, hex, hex_field, glyph};
ghost use Rattle.lf_model.specs.Report.{word_field, count_line};

use arrayvec::ArrayVec;
use itoa::Buffer;

/// The most bytes that wait to be written.
pub const PIECE: usize = 4096;

/// The bytes of a text that wait to be written.
pub type Piece = ArrayVec<u8, PIECE>;

/// The byte that ends a field within a line.
pub const SPACE: u8 = b' ';

/// The byte that ends the last field of a line.
pub const LINE_FEED: u8 = b'\n';

/// Appends bytes as they are.
pub fn put(piece: &mut Piece, bytes: &[u8])
    requires room { array_vec_len piece.old + length bytes.now ≤ 4096 }
    ensures appended { piece.new.items ≡ piece.old.items ++ bytes.now }
    ensures grown { array_vec_len piece.new ≡ array_vec_len piece.old + length bytes.now }
{
    match piece.try_extend_from_slice(bytes) {
        Ok(()) => {}
        Err(_) => unreachable!(),
    }
}

/// Appends a number in decimal digits, and the byte that ends the field.
pub fn put_number(piece: &mut Piece, stop: u8, n: u64)
    requires room { array_vec_len piece.old + 21 ≤ 4096 }
    ensures appended { piece.new.items ≡ piece.old.items ++ number stop n }
    ensures grown { array_vec_len piece.new ≤ array_vec_len piece.old + 21 }
{
    let mut digits = Buffer::new();
    put(piece, digits.format(n).as_bytes());
    piece.push(stop);
}

/// Appends the last `digits` hexadecimal digits of a number.
pub fn put_hex(piece: &mut Piece, digits: u16, n: u64)
    requires room { array_vec_len piece.old + digits ≤ 4096 }
    ensures appended { piece.new.items ≡ piece.old.items ++ hex digits n }
    ensures grown { array_vec_len piece.new ≡ array_vec_len piece.old + digits }
{
    let mut left = digits;
    while left > 0 {
        left -= 1;
        piece.push(glyph_of(digit_at(n, left)));
    }
}

/// Appends the last `digits` hexadecimal digits of a number, and the byte that ends the field.
pub fn put_hex_field(piece: &mut Piece, stop: u8, digits: u16, n: u64)
    requires room { array_vec_len piece.old + digits + 1 ≤ 4096 }
    ensures appended { piece.new.items ≡ piece.old.items ++ hex_field stop digits n }
    ensures grown { array_vec_len piece.new ≡ array_vec_len piece.old + digits + 1 }
{
    put_hex(piece, digits, n);
    piece.push(stop);
}

/// Appends a word in eight hexadecimal digits, or eight dashes for one that reads bad, and the byte that ends the
/// field.
#[tactic(auto, unfolding(lf_model::specs::Report::word_field))]
pub fn put_word(piece: &mut Piece, stop: u8, word: Option<u32>)
    requires room { array_vec_len piece.old + 9 ≤ 4096 }
    ensures appended { piece.new.items ≡ piece.old.items ++ word_field stop word }
    ensures grown { array_vec_len piece.new ≡ array_vec_len piece.old + 9 }
{
    match word {
        Some(word) => put_hex_field(piece, stop, 8, u64::from(word)),
        None => {
            put(piece, b"--------");
            piece.push(stop);
        }
    }
}

/// Appends a line that says how many lines follow: its first word with the space behind it, and the number.
pub fn put_count(piece: &mut Piece, head: &[u8], n: usize)
    requires room { array_vec_len piece.old + length head.now + 21 ≤ 4096 }
    ensures appended { piece.new.items ≡ piece.old.items ++ count_line head.now n }
{
    put(piece, head);
    put_number(piece, LINE_FEED, n as u64);
}

/// The hexadecimal digit of a number at a place, which is 0 for the last digit.
fn digit_at(n: u64, place: u16) -> u8
    ensures digit { result ≡ n / 16 ^ place % 16 }
{
    if place < 16 {
        ((n >> (4 * place)) % 16) as u8
    } else {
        0
    }
}

/// The byte of a hexadecimal digit, in capitals.
fn glyph_of(digit: u8) -> u8
    requires { digit < 16 }
    ensures glyph { result ≡ glyph digit }
{
    if digit < 10 {
        b'0' + digit
    } else {
        b'A' - 10 + digit
    }
}
