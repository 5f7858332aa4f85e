ghost use Rattle.std.specs.Prelude.{◌≡◌, ◌+◌, ◌^◌, ◌≤◌, find};
ghost use Rattle.std.specs.Option.{option_copied};
ghost use Rattle.lf_model.specs.Start.{initial_byte, word_at, byte_in, covers, in_range, is_text_byte, is_text_word, touches_text, is_in_ram};

use crate::image::{Image, Range, Segment};

/// The first address of RAM.
pub const RAM_FIRST: u32 = 0x4000_0000;

/// The output word: a word stored here is a byte of the core's output.
pub const OUTPUT_WORD: u32 = 0x8000_0100;

/// The address is in the range.
pub fn is_in_range(range: &Range, addr: u64) -> bool
    ensures { result ≡ in_range addr range.now }
{
    let first = u64::from(range.first);
    first <= addr && addr < first + u64::from(range.length)
}

/// The byte at this address is text: executable and write-protected.
pub fn is_text_byte(text: &[Range], addr: u64) -> bool
    ensures { result ≡ is_text_byte text.now addr }
{
    text.iter().any(|range| is_in_range(range, addr))
}

/// The word at this address, a multiple of 4, is text: all its four bytes are.
pub fn is_text_word(text: &[Range], addr: u32) -> bool
    ensures { result ≡ is_text_word text.now addr }
{
    let addr = u64::from(addr);
    (0..4u64).all(|i| is_text_byte(text, addr + i))
}

/// One of the `len` bytes from this address on is text.
pub fn touches_text(text: &[Range], addr: u32, len: u8) -> bool
    ensures { result ≡ touches_text text.now addr len }
{
    let addr = u64::from(addr);
    (0..u64::from(len)).any(|i| is_text_byte(text, addr + i))
}

/// All the `len` bytes from this address on are in RAM of `ram` bytes.
pub fn is_in_ram(ram: u32, addr: u32, len: u8) -> bool
    ensures { result ≡ is_in_ram ram addr len }
{
    let end = u64::from(RAM_FIRST) + u64::from(ram);
    RAM_FIRST <= addr && u64::from(addr) + u64::from(len) <= end
}

impl Segment {
    /// The segment holds this address.
    pub fn covers(&self, addr: u64) -> bool
        ensures { result ≡ covers addr self.now }
    {
        let first = u64::from(self.addr);
        first <= addr && addr < first + u64::from(self.size)
    }

    /// The byte that the segment has at this address: 0 past the bytes that the file gives.
    fn byte_at(&self, addr: u64) -> u8
        ensures { result ≡ byte_in addr self.now }
    {
        let offset = addr.saturating_sub(u64::from(self.addr));
        self.bytes
            .as_slice()
            .get(offset as usize)
            .copied()
            .unwrap_or(0)
    }
}

impl Image {
    /// The segment that holds this address.
    fn segment_at(&self, addr: u64) -> Option<&Segment>
        ensures { option_copied result ≡ find (covers addr) self.now.segments }
    {
        self.segments
            .as_slice()
            .iter()
            .find(|segment| segment.covers(addr))
    }

    /// The byte of memory at this address at the start.
    pub fn initial_byte(&self, addr: u64) -> u8
        ensures { result ≡ initial_byte self.now addr }
    {
        match self.segment_at(addr) {
            Some(segment) => segment.byte_at(addr),
            None => 0,
        }
    }

    /// The big-endian word of memory at this address at the start.
    #[tactic(auto, unfolding(crate::specs::Start::number_at))]
    pub fn word_at(&self, addr: u32) -> u32
        ensures { result ≡ word_at self.now addr }
    {
        let addr = u64::from(addr);
        u32::from_be_bytes([
            self.initial_byte(addr),
            self.initial_byte(addr + 1),
            self.initial_byte(addr + 2),
            self.initial_byte(addr + 3),
        ])
    }
}
