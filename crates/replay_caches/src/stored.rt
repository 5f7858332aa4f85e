ghost use Rattle.std.specs.Prelude.{◌≡◌, ◌==◌};
ghost use Rattle.std.specs.Int.{bit_at};
ghost use Rattle.lf_model.specs.Caches.Slot.{Slot, tag_of, is_present, holds, is_valid_word, has_wanted_words};

/// The tag of a slot as it was last written, and when the slot was last used.
#[derive(Clone, Copy, Debug)]
pub(crate) struct Stored {
    /// Bits 31 to 8 of the address, the most significant byte first, and a valid bit for each word of the line.
    pub(crate) tag: [u8; 4],
    pub(crate) used: u64,
}

/// The tag of a line that is dropped.
pub(crate) const EMPTY_TAG: [u8; 4] = [0; 4];

/// The tag of the line of an address, with these valid bits.
pub(crate) fn tag_of(addr: u32, valid: u8) -> [u8; 4]
    ensures { result ≡ tag_of addr valid }
{
    [
        (addr / (1 << 24) % 256) as u8,
        (addr / (1 << 16) % 256) as u8,
        (addr / (1 << 8) % 256) as u8,
        valid,
    ]
}

/// A bit of a byte is 1. None from 8 on is.
fn has_bit(byte: u8, bit: usize) -> bool
    ensures { result ≡ (bit_at byte bit == 1) }
{
    if bit >= 8 {
        return false;
    }
    (byte >> bit) % 2 == 1
}

impl Stored {
    /// A line is present.
    pub(crate) fn is_present(self) -> bool
        ensures { (slot : Slot) → slot.tag ≡ self.tag → result ≡ is_present slot }
    {
        self.tag[3] != 0
    }

    /// The line of this address is present.
    pub(crate) fn holds(self, addr: u32) -> bool
        ensures { (slot : Slot) → slot.tag ≡ self.tag → result ≡ holds addr slot }
    {
        let tag = tag_of(addr, self.tag[3]);
        self.is_present()
            && (self.tag[0] == tag[0] && self.tag[1] == tag[1] && self.tag[2] == tag[2])
    }

    /// A word of the line is valid.
    pub(crate) fn is_valid_word(self, word: usize) -> bool
        ensures { (slot : Slot) → slot.tag ≡ self.tag → result ≡ is_valid_word slot word }
    {
        has_bit(self.tag[3], word)
    }

    /// The words that an access of so many bytes wants are valid.
    pub(crate) fn has_wanted_words(self, addr: u32, len: u8) -> bool
        ensures { (slot : Slot) → slot.tag ≡ self.tag → result ≡ has_wanted_words addr len slot }
    {
        let first = (addr / 4 % 8) as usize;
        for i in 0..(usize::from(len) + 3) / 4 {
            if !self.is_valid_word(first + i) {
                return false;
            }
        }
        true
    }
}
