//! The error-correcting code of memory words and register cells: 32 data bits and 7 check bits.
//!
//! One turned bit of a cell is found and put right, two are always detected. No call takes memory.
#![tactic(auto)]

ghost use Rattle.std.specs.Prelude.{◌≡◌, ◌≢◌, ◌^◌, ◌<◌, IfSome, IfNone, All, slice_get, ℕ};
ghost use Rattle.lf_num.specs.Columns.{column};
ghost use Rattle.edac_code.specs.Code.{check_bit, check_bits, code, syndrome, data_of};
ghost use Rattle.edac_code.specs.Reading.{ReadsBySyndrome, ReadsStruck, ReadsByTurnedBits, HasStruckSyndrome, IsSumOfTurnedBits};

mod answer;
mod coded;

pub use answer::Read39;
pub use coded::Coded39;
use lf_num::odd64;

/// For each check bit, the data bits that it sums.
const CHECKED_BITS: [u32; 7] = [
    0xb42e_4bd1,
    0x1557_1557,
    0xa699_a699,
    0x38e3_38e3,
    0xc0fc_c0fc,
    0xff00_ff00,
    0xff00_00ff,
];

/// The check bits that are stored inverted.
const INVERTED_CHECKS: u8 = 0x0c;

/// For each bit of a cell, the check bits in which it takes part.
static COLUMNS: [u8; 39] = [
    0x4f, 0x4a, 0x52, 0x54, 0x57, 0x58, 0x5b, 0x5d, 0x23, 0x25, 0x26, 0x29, 0x2a, 0x2c, 0x31, 0x34,
    0x0e, 0x0b, 0x13, 0x15, 0x16, 0x19, 0x1a, 0x1c, 0x62, 0x64, 0x67, 0x68, 0x6b, 0x6d, 0x70, 0x75,
    0x01, 0x02, 0x04, 0x08, 0x10, 0x20, 0x40,
];

fn check_bit(word: u32, j: usize) -> u8
    requires { j < 7 }
    ensures { result ≡ check_bit word j }
{
    let odd = odd64(u64::from(word & CHECKED_BITS[j])) as u8;
    odd ^ (INVERTED_CHECKS >> j & 1)
}

fn check_bits(word: u32) -> u8
    ensures value { result ≡ check_bits word }
    ensures fits { result < 2 ^ 7 }
{
    let mut bits = 0;
    for j in 0..7usize {
        bits += check_bit(word, j) << j;
    }
    bits
}

/// The check bits in which a bit of a cell takes part.
#[tactic(auto, unfolding(lf_num::specs::Columns::columns, lf_num::specs::Columns::column))]
fn column(bit: u8) -> u8
    requires { bit < 39 }
    ensures { result ≡ column bit }
{
    COLUMNS[bit as usize]
}

fn place_of(columns: &[u8], syndrome: u8) -> Option<usize>
    ensures found { IfSome result (λ place. slice_get columns.now place ≡ Some syndrome) }
    ensures absent { IfNone result (All (λ entry. entry ≢ syndrome) columns.now) }
{
    columns.iter().position(|entry| *entry == syndrome)
}

fn struck_bit(syndrome: u8) -> Option<u8>
    ensures found { IfSome result (λ bit. (bit < 39) × (syndrome ≡ column bit)) }
    ensures absent { IfNone result ((bit : ℕ) → bit < 39 → syndrome ≢ column bit) }
{
    let place = place_of(&COLUMNS, syndrome)?;
    Some(place as u8)
}

fn data(cell: u64) -> u32
    ensures { result ≡ data_of cell }
{
    (cell & 0xffff_ffff) as u32
}

/// The cell that holds `word`: the word in bits 0 to 31, its check bits 0 to 6 in bits 32 to 38.
pub fn encode39(word: u32) -> u64
    ensures code { result ≡ code word }
    ensures fits { result < 2 ^ 39 }
{
    u64::from(word) + (u64::from(check_bits(word)) << 32)
}

/// The syndrome of a cell of 39 bits: a bit is 1 where the stored check bit differs from the one that
/// the stored data gives.
pub fn syndrome39(cell: u64) -> u8
    requires { cell < 2 ^ 39 }
    ensures value { result ≡ syndrome cell }
    ensures struck { HasStruckSyndrome cell result }
    ensures turned { IsSumOfTurnedBits cell result }
{
    (cell >> 32) as u8 ^ check_bits(data(cell))
}

/// What a cell of 39 bits reads as. Of three turned bits and more nothing is promised but the rule.
pub fn read39(cell: u64) -> Read39
    requires { cell < 2 ^ 39 }
    ensures rule { ReadsBySyndrome cell result }
    ensures struck { ReadsStruck cell result }
    ensures turned { ReadsByTurnedBits cell result }
{
    Coded39::of_bits(cell).read()
}
