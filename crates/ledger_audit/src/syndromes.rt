ghost use Rattle.std.specs.Prelude.{◌≡◌, ◌<◌, ◌==◌, slice_index};
ghost use Rattle.std.specs.List.{list_any};
ghost use Rattle.lf_num.specs.Columns.{columns};
ghost use Rattle.lf_model.specs.Course.Syndromes.{syndromes_of, is_bad_syndrome};

use lf_model::bus::Transfer;

/// For each bit of a word, then of its check bits, the check bits in which it takes part: the syndrome of the word where just this bit
/// is flipped.
static COLUMNS: [u8; 39] = [
    0x4f, 0x4a, 0x52, 0x54, 0x57, 0x58, 0x5b, 0x5d, 0x23, 0x25, 0x26, 0x29, 0x2a, 0x2c, 0x31, 0x34,
    0x0e, 0x0b, 0x13, 0x15, 0x16, 0x19, 0x1a, 0x1c, 0x62, 0x64, 0x67, 0x68, 0x6b, 0x6d, 0x70, 0x75,
    0x01, 0x02, 0x04, 0x08, 0x10, 0x20, 0x40,
];

/// The syndrome of word `place` of those that a transfer read.
pub(crate) fn syndrome_of(transfer: &Transfer, place: u8) -> u8
    requires within { place < transfer.now.words }
    ensures { result ≡ slice_index (syndromes_of transfer.now) place }
{
    ((transfer.syn >> 56u32.saturating_sub(8 * u32::from(place))) % 256) as u8
}

/// The syndrome is that of one flipped bit.
#[tactic(auto, unfolding(lf_num::specs::Columns::columns))]
fn is_column(syndrome: u8) -> bool
    ensures { result ≡ list_any (λ column. column == syndrome) columns }
{
    COLUMNS.iter().any(|column| *column == syndrome)
}

/// A word with this syndrome is bad: two of its bits are flipped.
pub(crate) fn is_bad(syndrome: u8) -> bool
    ensures { result ≡ is_bad_syndrome syndrome }
{
    syndrome != 0 && !is_column(syndrome)
}
