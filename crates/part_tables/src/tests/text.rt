use super::expect;
use lf_model::image::Range;
use lf_model::listed::Listed;
use std::test::Fail;
use text_map::TextMap;

/// Ranges of text, by first address and length: overlapping, adjoining, contained, empty, and the last addresses.
static RANGES: [(u32, u32); 7] = [
    (0x4000_0100, 8),
    (0x4000_0000, 6),
    (0x4000_0102, 2),
    (0x4000_0004, 4),
    (0x4000_0050, 0),
    (0x4000_0008, 4),
    (0xffff_fffc, 4),
];

/// Addresses, and whether the word at each is text.
static WORDS: [(u32, bool); 10] = [
    (0x3fff_fffc, false),
    (0x4000_0000, true),
    (0x4000_0004, true),
    (0x4000_0008, true),
    (0x4000_000a, false),
    (0x4000_000c, false),
    (0x4000_0050, false),
    (0x4000_0104, true),
    (0x4000_0108, false),
    (0xffff_fffc, true),
];

/// Addresses and numbers of bytes, and whether one of these bytes is text.
static TOUCHES: [(u32, u8, bool); 8] = [
    (0x3fff_fff8, 8, false),
    (0x3fff_fff9, 8, true),
    (0x4000_000b, 1, true),
    (0x4000_000c, 8, false),
    (0x4000_0050, 8, false),
    (0x4000_00fc, 8, true),
    (0x4000_0104, 0, false),
    (0xffff_ffff, 1, true),
];

#[test]
fn overlapping_ranges(rt: HostRuntime) -> Result<(), Fail> {
    let mut text = Listed::new(rt.alloc());
    for &(first, length) in &RANGES {
        text.push(Range { first, length })?;
    }
    let map = TextMap::new(rt.alloc(), &text)?;
    for &(addr, is_text) in &WORDS {
        expect(&rt, addr, map.is_text_word(addr) == is_text);
    }
    for &(addr, len, touches) in &TOUCHES {
        expect(&rt, addr, map.touches_text(addr, len) == touches);
    }
    let none = TextMap::new(rt.alloc(), &Listed::new(rt.alloc()))?;
    assert!(rt; !none.is_text_word(0x4000_0000) && !none.touches_text(0, 255));
    Ok(())
}
