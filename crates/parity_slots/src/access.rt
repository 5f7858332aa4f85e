ghost use Rattle.std.specs.Prelude.{◌≡◌, ◌+◌, ◌*◌, ◌/◌, ◌%◌, ◌^◌, ◌<◌, ◌≤◌, length, map};
ghost use Rattle.lf_model.specs.Operation.{byte_of};
ghost use Rattle.parity_slots.specs.ParityWords.{bytes_in};
ghost use Rattle.parity_slots.specs.SlotState.{bytes_of};
ghost use Rattle.parity_units.specs.Bytes.{fresh_byte};

use crate::parity_word::ParityWord;

/// Byte `i`, from the most significant, of a number of `len` bytes.
#[inline]
pub(crate) fn byte_of(value: u64, len: u8, i: u8) -> u8
    requires len { len ≤ 8 }
    requires within { i < len }
    ensures { result ≡ byte_of value len i }
{
    let after = u32::from(len - 1 - i);
    ((value >> (8 * after)) % 256) as u8
}

/// The first word, in its line, that an access wants.
#[inline]
pub(crate) fn wanted_first(addr: u32) -> usize
    ensures { result ≡ addr / 4 % 8 }
{
    (addr / 4 % 8) as usize
}

/// How many words it wants: two for eight bytes, else one.
#[inline]
pub(crate) fn wanted_count(len: u8) -> usize
    ensures { result ≡ (len + 3) / 4 }
{
    usize::from(len).div_ceil(4)
}

/// The tag of the line of an address, with these valid bits.
pub(crate) fn tag_of(addr: u32, valid: u8) -> u32
    ensures { result ≡ addr / 2 ^ 8 * 2 ^ 8 + valid }
{
    addr / 256 * 256 + u32::from(valid)
}

/// A line of eight words that is written.
pub(crate) fn fresh_line(words: &[u32]) -> [ParityWord; 8]
    requires { length words.now ≡ 8 }
    ensures { bytes_in 32 result ≡ map fresh_byte (bytes_of words.now) }
{
    let mut line = [ParityWord::fresh(0); 8];
    for i in 0..8 {
        line[i] = ParityWord::fresh(words[i]);
    }
    line
}
