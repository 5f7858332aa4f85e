ghost use Rattle.std.specs.Prelude.{◌≡◌, ◌<◌, ◌∷◌, ◌==◌, nat_lt, length, map, List, if◌then◌else◌};
ghost use Rattle.std.specs.List.{AllByRecursion};
ghost use Rattle.lf_num.specs.Columns.{column, columns_sum};
ghost use Rattle.lf_model.specs.Flips.{Standing, turned, word_bits};
ghost use Rattle.replay_units.specs.Bits.{bits_of, bit_of, IsPlace};

/// For each bit of a word, then of its check bits, the check bits in which it takes part.
static COLUMNS: [u8; 39] = [
    0x4f, 0x4a, 0x52, 0x54, 0x57, 0x58, 0x5b, 0x5d, 0x23, 0x25, 0x26, 0x29, 0x2a, 0x2c, 0x31, 0x34,
    0x0e, 0x0b, 0x13, 0x15, 0x16, 0x19, 0x1a, 0x1c, 0x62, 0x64, 0x67, 0x68, 0x6b, 0x6d, 0x70, 0x75,
    0x01, 0x02, 0x04, 0x08, 0x10, 0x20, 0x40,
];

/// The check bits in which a bit takes part.
#[tactic(auto, unfolding(lf_num::specs::Columns::columns, lf_num::specs::Columns::column))]
fn column(bit: u8) -> u8
    requires { bit < word_bits }
    ensures { result ≡ column bit }
{
    COLUMNS[bit as usize]
}

/// The bits of a unit that its standing flips struck.
#[derive(Clone, Copy, Debug)]
pub enum Bits {
    Empty,
    One(u8),
    Two { older: u8, newer: u8 },
}

impl Bits {
    /// How many flips stand.
    pub fn count(self) -> u8
        ensures count { result ≡ length (bits_of self) }
    {
        match self {
            Bits::Empty => 0,
            Bits::One(_) => 1,
            Bits::Two { .. } => 2,
        }
    }

    /// The bits once a flip struck one, which is applied where fewer flips than the budget stand.
    pub fn struck(self, bit: u8, budget: u8) -> Bits
        requires { budget < 3 }
        ensures { bits_of result ≡ (if nat_lt (length (bits_of self)) budget then bit ∷ bits_of self else bits_of self) }
    {
        if self.count() >= budget {
            return self;
        }
        match self {
            Bits::Empty => Bits::One(bit),
            Bits::One(older) => Bits::Two { older, newer: bit },
            Bits::Two { .. } => self,
        }
    }

    /// A word reads bad: two of its bits stand turned.
    pub fn is_bad(self) -> bool
        requires { AllByRecursion IsPlace (bits_of self) }
        ensures { (flips : List Standing) → map bit_of flips ≡ bits_of self → result ≡ (length (turned word_bits flips) == 2) }
    {
        let Bits::Two { older, newer } = self else {
            return false;
        };
        older != newer
    }

    /// A word reads fixed: one of its bits stands turned.
    pub fn is_fixed(self) -> bool
        requires { AllByRecursion IsPlace (bits_of self) }
        ensures { (flips : List Standing) → map bit_of flips ≡ bits_of self → result ≡ (length (turned word_bits flips) == 1) }
    {
        matches!(self, Bits::One(_))
    }

    /// The syndrome of a word: the sum modulo 2 of the columns of its turned bits.
    pub fn syndrome(self) -> u8
        requires { AllByRecursion IsPlace (bits_of self) }
        ensures { (flips : List Standing) → map bit_of flips ≡ bits_of self → result ≡ columns_sum (turned word_bits flips) }
    {
        match self {
            Bits::Empty => 0,
            Bits::One(bit) => column(bit),
            Bits::Two { older, newer } => column(older) ^ column(newer),
        }
    }
}
