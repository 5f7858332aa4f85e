ghost use Rattle.std.specs.Prelude.{◌≡◌, ◌≢◌, ◌+◌, ◌*◌, ◌/◌, ◌%◌, ◌^◌, ◌<◌, ◌≤◌, ◌||◌, ◌∷◌, [], ℕ, List, length};
ghost use Rattle.std.specs.Int.{bit_at, from_bool};
ghost use Rattle.flip_ledger.specs.Follows.{Follows, Keeps};
ghost use Rattle.lf_model.specs.Flips.{Moment, byte_budget, is_struck_byte};
ghost use Rattle.lf_model.specs.Operation.{byte_of};
ghost use Rattle.parity_units.specs.Bytes.{byte_bits, fresh_byte, is_bad};
ghost use Rattle.parity_units.specs.Events.{befallen, over};
ghost use Rattle.parity_slots.specs.ParityWords.{byte_in, bytes_in, AreWordUnits};

use crate::access::byte_of;
use flip_ledger::FlipLedger;
use lf_num::odd8;
use parity_units::{Event, ParityByte, note};

/// Four bytes under parity, kept as one word. Byte 0 is the most significant.
#[derive(Clone, Copy, Debug)]
pub(crate) struct ParityWord {
    /// The bytes as they stand.
    pub(crate) bits: u32,
    /// Bit `k`: the parity bit of byte `k`, as it stands.
    pub(crate) parity: u8,
    /// Bit `k`: a flip was applied to byte `k` since it was written.
    pub(crate) struck: u8,
}

/// The bits with bit `k` set or cleared.
fn with_bit(bits: u8, k: usize, on: bool) -> u8
    requires { k < 4 }
    ensures here { bit_at result k ≡ from_bool on }
    ensures others { (j : ℕ) → j < 4 → j ≢ k → bit_at result j ≡ bit_at bits j }
{
    if on { bits | 1 << k } else { bits & !(1 << k) }
}

/// The word with byte `k` replaced.
fn with_byte_of(bits: u32, k: usize, byte: u8) -> u32
    requires { k < 4 }
    ensures here { byte_of result 4 k ≡ byte }
    ensures others { (j : ℕ) → j < 4 → j ≢ k → byte_of result 4 j ≡ byte_of bits 4 j }
{
    let byte = u32::from(byte);
    match k {
        0 => (byte << 24) + bits % (1 << 24),
        1 => bits / (1 << 24) * (1 << 24) + (byte << 16) + bits % (1 << 16),
        2 => bits / (1 << 16) * (1 << 16) + (byte << 8) + bits % (1 << 8),
        _ => bits / (1 << 8) * (1 << 8) + byte,
    }
}

impl ParityWord {
    /// A word that is written.
    pub(crate) fn fresh(v: u32) -> ParityWord
        ensures value { result.bits ≡ v }
        ensures unstruck { result.struck ≡ 0 }
        ensures bytes { (k : ℕ) → k < 4 → byte_in result k ≡ fresh_byte (byte_of v 4 k) }
    {
        let [first, second, third, last] = v.to_be_bytes();
        ParityWord {
            bits: v,
            parity: u8::from(odd8(first))
                + 2 * u8::from(odd8(second))
                + 4 * u8::from(odd8(third))
                + 8 * u8::from(odd8(last)),
            struck: 0,
        }
    }

    /// Its bytes, as a number.
    #[inline]
    pub(crate) fn value(self) -> u32
        ensures is { result ≡ self.bits }
        ensures fits { self.bits < 2 ^ 32 }
    {
        self.bits
    }

    /// One of its bytes.
    pub(crate) fn byte(self, k: usize) -> ParityByte
        requires { k < 4 }
        ensures { result ≡ byte_in self k }
    {
        let value = byte_of(u64::from(self.bits), 4, k as u8);
        let parity = (self.parity >> k) % 2;
        ParityByte {
            bits: u16::from(parity) * 256 + u16::from(value),
            struck: (self.struck >> k) % 2 == 1,
        }
    }

    /// The word with one of its bytes replaced.
    pub(crate) fn with_byte(self, k: usize, byte: ParityByte) -> ParityWord
        requires place { k < 4 }
        requires fits { byte.bits < 2 ^ byte_bits }
        ensures here { byte_in result k ≡ byte }
        ensures others { (j : ℕ) → j < 4 → j ≢ k → byte_in result j ≡ byte_in self j }
    {
        ParityWord {
            bits: with_byte_of(self.bits, k, byte.value()),
            parity: with_bit(self.parity, k, byte.bits >= 256),
            struck: with_bit(self.struck, k, byte.struck),
        }
    }

    /// Its bytes.
    pub(crate) fn bytes(self) -> [ParityByte; 4]
        ensures { result ≡ bytes_in 4 (self ∷ []) }
    {
        [self.byte(0), self.byte(1), self.byte(2), self.byte(3)]
    }

    /// Whether the parity of one of its bytes is wrong. No parity is computed where no flip was applied since they were written.
    #[inline]
    pub(crate) fn is_bad(self) -> bool
        ensures { result ≡ (is_bad (byte_in self 0) || (is_bad (byte_in self 1) || (is_bad (byte_in self 2) || is_bad (byte_in self 3)))) }
    {
        self.struck != 0 && self.has_wrong_parity()
    }

    #[cold]
    #[inline(never)]
    fn has_wrong_parity(self) -> bool
        ensures { result ≡ (is_bad (byte_in self 0) || (is_bad (byte_in self 1) || (is_bad (byte_in self 2) || is_bad (byte_in self 3)))) }
    {
        self.byte(0).is_bad()
            || (self.byte(1).is_bad() || (self.byte(2).is_bad() || self.byte(3).is_bad()))
    }
}

/// Notes an event of the bytes of a word, which are the units of the ledger from `first` on, before it changes them.
pub(crate) fn note_word(ledger: &mut FlipLedger, first: usize, word: ParityWord, event: Event)
    requires units { first + 4 ≤ length ledger.old.standing }
    requires fits { first + 4 < 2 ^ 64 }
    ensures keeps { Keeps ledger.old ledger.new }
    ensures follows { (h : ℕ → List Moment) → AreWordUnits first (word ∷ []) h → Follows byte_budget h ledger.old
        → Follows byte_budget (over first 4 (befallen event) h) ledger.new }
{
    if word.struck != 0 {
        note(ledger, first, &word.bytes(), event);
    }
}

/// The same of several words.
pub(crate) fn note_words(ledger: &mut FlipLedger, first: usize, words: &[ParityWord], event: Event)
    requires units { first + 4 * length words.now ≤ length ledger.old.standing }
    requires fits { first + 4 * length words.now < 2 ^ 64 }
    ensures keeps { Keeps ledger.old ledger.new }
    ensures follows { (h : ℕ → List Moment) → AreWordUnits first words.now h → Follows byte_budget h ledger.old
        → Follows byte_budget (over first (4 * length words.now) (befallen event) h) ledger.new }
{
    for w in 0..words.len() {
        note_word(ledger, first + 4 * w, words[w], event);
    }
}

/// The same of one byte of a word, which is a unit of the ledger.
pub(crate) fn note_byte(
    ledger: &mut FlipLedger,
    unit: usize,
    word: ParityWord,
    k: usize,
    event: Event,
)
    requires place { k < 4 }
    requires unit { unit < length ledger.old.standing }
    requires fits { unit + 1 < 2 ^ 64 }
    ensures keeps { Keeps ledger.old ledger.new }
    ensures follows { (h : ℕ → List Moment) → (byte_in word k).struck ≡ is_struck_byte (h unit) → Follows byte_budget h ledger.old
        → Follows byte_budget (over unit 1 (befallen event) h) ledger.new }
{
    if word.struck != 0 {
        note(ledger, unit, &[word.byte(k)], event);
    }
}
