ghost use Rattle.std.specs.Prelude.{◌≡◌, ◌≢◌, ◌^◌, ◌<◌, bit_xor};

use crate::answer::Read39;
use crate::{check_bits, column, data, struck_bit, syndrome39};

/// A cell of 39 bits, kept as its word and its syndrome: the check bits are those of the word, turned where the syndrome
/// has a one. So a cell that was just written has the syndrome 0, and no code is computed for it.
#[derive(Clone, Copy, Debug)]
pub struct Coded39 {
    word: u32,
    syndrome: u8,
    ghost whole: { word < 2 ^ 32 },
    ghost small: { syndrome < 2 ^ 7 },
}

impl Coded39 {
    ghost use Rattle.edac_code.specs.Code.{code, syndrome, data_of};
    ghost use Rattle.edac_code.specs.Kept.{bits_of};
    ghost use Rattle.edac_code.specs.Reading.{ReadsBySyndrome, ReadsStruck, ReadsByTurnedBits, HasStruckSyndrome, IsSumOfTurnedBits};

    /// The cell of a word that was just written.
    #[inline]
    pub fn of(word: u32) -> Coded39
        ensures code { bits_of result ≡ code word }
        ensures fits { bits_of result < 2 ^ 39 }
    {
        Coded39 { word, syndrome: 0 }
    }

    /// The cell of these 39 bits.
    pub(crate) fn of_bits(bits: u64) -> Coded39
        requires { bits < 2 ^ 39 }
        ensures { bits_of result ≡ bits }
    {
        Coded39 {
            word: data(bits),
            syndrome: syndrome39(bits),
        }
    }

    /// The 39 bits: the word in bits 0 to 31, the check bits 0 to 6 in bits 32 to 38.
    pub fn bits(self) -> u64
        ensures bits { result ≡ bits_of self }
        ensures fits { result < 2 ^ 39 }
    {
        u64::from(self.word) + (u64::from(check_bits(self.word) ^ self.syndrome) << 32)
    }

    /// The word that the data bits show.
    #[inline]
    pub fn word(self) -> u32
        ensures { result ≡ data_of (bits_of self) }
    {
        self.word
    }

    /// The syndrome.
    #[inline]
    pub fn syndrome(self) -> u8
        ensures value { result ≡ syndrome (bits_of self) }
        ensures struck { HasStruckSyndrome (bits_of self) result }
        ensures turned { IsSumOfTurnedBits (bits_of self) result }
    {
        self.syndrome
    }

    /// What the cell reads as. Of three turned bits and more nothing is promised but the rule.
    #[inline]
    pub fn read(self) -> Read39
        ensures rule { ReadsBySyndrome (bits_of self) result }
        ensures struck { ReadsStruck (bits_of self) result }
        ensures turned { ReadsByTurnedBits (bits_of self) result }
    {
        self.read_by_syndrome()
    }

    #[inline]
    fn read_by_syndrome(self) -> Read39
        ensures { ReadsBySyndrome (bits_of self) result }
    {
        if self.syndrome == 0 {
            return Read39::Clean(self.word);
        }
        self.read_struck()
    }

    #[cold]
    #[inline(never)]
    fn read_struck(self) -> Read39
        requires { self.syndrome ≢ 0 }
        ensures { ReadsBySyndrome (bits_of self) result }
    {
        match struck_bit(self.syndrome) {
            Some(bit) => Read39::Fixed(self.turned(bit).word(), bit),
            None => Read39::Bad(self.syndrome),
        }
    }

    /// The cell with one bit turned.
    #[inline]
    pub fn turned(self, bit: u8) -> Coded39
        requires { bit < 39 }
        ensures bits { bits_of result ≡ bit_xor (bits_of self) (2 ^ bit) }
        ensures fits { bits_of result < 2 ^ 39 }
    {
        let syndrome = self.syndrome ^ column(bit);
        if bit < 32 {
            return Coded39 {
                word: self.word ^ (1 << bit),
                syndrome,
            };
        }
        Coded39 {
            word: self.word,
            syndrome,
        }
    }
}
