ghost use Rattle.std.specs.Prelude.{◌≡◌, ◌<◌, ◌/◌, ◌%◌, ◌^◌, ◌==◌, not};
ghost use Rattle.parity_code.specs.Parity.{parity};
ghost use Rattle.parity_units.specs.Bytes.{byte_bits, fresh_byte, flipped_byte, is_bad, answer_of};

use ft_cells::{Byte9, Flipped, Protect};
use parity_code::{get9, put9};

/// A byte and its parity: nine bits, of which bit 8 is the parity.
#[derive(Clone, Copy, Debug)]
pub struct ParityByte {
    /// The nine bits as they stand.
    pub bits: u16,
    /// A flip was applied since the byte was written.
    pub struck: bool,
}

impl ParityByte {
    /// A byte that is written.
    #[inline]
    pub fn fresh(v: u8) -> ParityByte
        ensures { result ≡ fresh_byte v }
    {
        ParityByte {
            bits: put9(v),
            struck: false,
        }
    }

    /// The byte of its nine bits.
    #[inline]
    pub fn value(self) -> u8
        ensures { result ≡ self.bits % 2 ^ 8 }
    {
        (self.bits % 256) as u8
    }

    /// Whether its parity shows a flip. No parity is computed where none was applied since the byte was written.
    #[inline]
    pub fn is_bad(self) -> bool
        requires { self.bits < 2 ^ byte_bits }
        ensures { result ≡ is_bad self }
    {
        self.struck && self.has_wrong_parity()
    }

    #[cold]
    #[inline(never)]
    fn has_wrong_parity(self) -> bool
        requires { self.bits < 2 ^ byte_bits }
        ensures { result ≡ not (self.bits / 2 ^ 8 == parity (self.bits % 2 ^ 8)) }
    {
        get9(self.bits).is_none()
    }

    /// Flips a bit, 0 to 8. Declined, with nothing changed, where a flip was applied since the byte was written.
    pub fn flip(&mut self, bit: u8) -> Flipped
        requires bit { bit < byte_bits }
        requires fits { self.old.bits < 2 ^ byte_bits }
        ensures answer { result ≡ answer_of self.old.struck }
        ensures flipped { self.new ≡ flipped_byte bit self.old }
    {
        if self.struck {
            return Flipped::Declined(1);
        }
        self.bits = Byte9::turn(self.bits, bit);
        self.struck = true;
        Flipped::Applied
    }
}
