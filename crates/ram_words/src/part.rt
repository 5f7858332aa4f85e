ghost use Rattle.std.specs.Prelude.{◌≡◌, ◌%◌, IsTrue};
ghost use Rattle.lf_model.specs.Bus.Words.{word_of};
ghost use Rattle.ram_words.specs.Parts.{is_part, merged};

/// The address of the word that an address lies in.
pub fn word_of(addr: u32) -> u32
    ensures { result ≡ word_of addr }
{
    addr - addr % 4
}

/// A word with the byte or half (`len` 1 or 2) at an address, a multiple of `len`, replaced by the low bytes of a number.
pub fn merged(word: u32, addr: u32, len: u8, value: u32) -> u32
    requires part { IsTrue (is_part len) }
    requires aligned { addr % len ≡ 0 }
    ensures { result ≡ merged word addr len value }
{
    let [first, second, third, fourth] = word.to_be_bytes();
    let [_, _, high, low] = value.to_be_bytes();
    match (len, addr % 4) {
        (1, 0) => u32::from_be_bytes([low, second, third, fourth]),
        (1, 1) => u32::from_be_bytes([first, low, third, fourth]),
        (1, 2) => u32::from_be_bytes([first, second, low, fourth]),
        (1, _) => u32::from_be_bytes([first, second, third, low]),
        (_, 0) => u32::from_be_bytes([high, low, third, fourth]),
        _ => u32::from_be_bytes([first, second, high, low]),
    }
}
