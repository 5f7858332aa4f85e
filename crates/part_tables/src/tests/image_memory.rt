use super::expect;
use lf_model::addresses::{is_in_ram, is_in_range, is_text_byte, is_text_word, touches_text};
use lf_model::control::Ctl;
use lf_model::image::{Image, Range, Segment};
use lf_model::listed::Listed;
use std::alloc::{AllocError, Global};
use std::test::Fail;

/// Addresses, and the byte at the start at each.
static BYTES: [(u32, u8); 10] = [
    (0x4000_0003, 0),
    (0x4000_0004, 0x11),
    (0x4000_000a, 0x77),
    (0x4000_000b, 0),
    (0x4000_000d, 0),
    (0x4000_000f, 0),
    (0x4000_0010, 0x88),
    (0x4000_0011, 0x99),
    (0x4000_0012, 0),
    (0x4000_0016, 0),
];

/// Addresses, and the word at the start at each.
static WORDS: [(u32, u32); 7] = [
    (0x4000_0000, 0),
    (0x4000_0004, 0x1122_3344),
    (0x4000_0008, 0x5566_7700),
    (0x4000_000c, 0),
    (0x4000_000e, 0x0000_8899),
    (0x4000_0010, 0x8899_0000),
    (0xffff_fffe, 0),
];

/// Addresses, and whether the byte at each is text.
static TEXT_BYTES: [(u32, bool); 4] = [
    (0x4000_0003, false),
    (0x4000_0004, true),
    (0x4000_000d, true),
    (0x4000_000e, false),
];

/// Addresses, and whether the word at each is text.
static TEXT_WORDS: [(u32, bool); 5] = [
    (0x4000_0000, false),
    (0x4000_0004, true),
    (0x4000_0008, true),
    (0x4000_000c, false),
    (0x4000_0010, false),
];

/// Addresses and numbers of bytes, and whether one of these bytes is text.
static TOUCHES: [(u32, u8, bool); 7] = [
    (0x4000_0000, 4, false),
    (0x4000_0000, 8, true),
    (0x4000_0003, 1, false),
    (0x4000_0003, 2, true),
    (0x4000_000c, 2, true),
    (0x4000_000d, 1, true),
    (0x4000_000e, 2, false),
];

/// Addresses and numbers of bytes, and whether all these bytes are in RAM of 65,536 bytes.
static IN_RAM: [(u32, u8, bool); 8] = [
    (0x3fff_ffff, 1, false),
    (0x3fff_fffc, 8, false),
    (0x4000_0000, 4, true),
    (0x4000_fff8, 8, true),
    (0x4000_ffff, 1, true),
    (0x4000_fffe, 4, false),
    (0x4001_0000, 1, false),
    (0xffff_fff8, 8, false),
];

/// The control state at reset with the entry 40000004.
const RESET: Ctl = Ctl {
    icc: 0,
    pil: 0,
    s: true,
    ps: false,
    et: false,
    cwp: 0,
    tbr: 0,
    pc: 0x4000_0004,
    npc: 0x4000_0008,
};

/// The text of that image.
const TEXT: Range = Range {
    first: 0x4000_0004,
    length: 10,
};

/// Text of 10 bytes, of which the file gives 7, and data of 6 bytes, of which the file gives 2.
fn two_segments(alloc: Global) -> Result<Image, AllocError> {
    let text = Segment {
        addr: 0x4000_0004,
        bytes: Listed::from_vec([0x11, 0x22, 0x33, 0x44, 0x55, 0x66, 0x77].to_vec(alloc)?),
        size: 10,
        write: false,
        exec: true,
    };
    let data = Segment {
        addr: 0x4000_0010,
        bytes: Listed::from_vec([0x88, 0x99].to_vec(alloc)?),
        size: 6,
        write: true,
        exec: false,
    };
    let mut segments = Listed::new(alloc);
    segments.push(text)?;
    segments.push(data)?;
    let mut ranges = Listed::new(alloc);
    ranges.push(TEXT)?;
    Ok(Image {
        entry: 0x4000_0004,
        segments,
        text: ranges,
    })
}

#[test]
fn memory_at_the_start(rt: HostRuntime) -> Result<(), Fail> {
    let image = two_segments(rt.alloc())?;
    for &(addr, byte) in &BYTES {
        expect(&rt, addr, image.initial_byte(u64::from(addr)) == byte);
    }
    assert!(rt; image.initial_byte(0x1_4000_0004) == 0);
    for &(addr, word) in &WORDS {
        expect(&rt, addr, image.word_at(addr) == word);
    }
    for segment in image.segments.as_slice() {
        assert!(rt; segment.covers(0x4000_000d) == segment.exec);
        assert!(rt; segment.covers(0x4000_0010) == segment.write);
        assert!(rt; !segment.covers(0x4000_000e));
    }
    Ok(())
}

#[test]
fn text_of_an_image(rt: HostRuntime) -> Result<(), Fail> {
    let image = two_segments(rt.alloc())?;
    let text = image.text.as_slice();
    for &(addr, is_text) in &TEXT_BYTES {
        expect(&rt, addr, is_text_byte(text, u64::from(addr)) == is_text);
        expect(&rt, addr, is_in_range(&TEXT, u64::from(addr)) == is_text);
    }
    for &(addr, is_text) in &TEXT_WORDS {
        expect(&rt, addr, is_text_word(text, addr) == is_text);
    }
    for &(addr, len, touches) in &TOUCHES {
        expect(&rt, addr, touches_text(text, addr, len) == touches);
    }
    Ok(())
}

#[test]
fn bytes_of_ram(rt: HostRuntime) {
    for &(addr, len, is_in) in &IN_RAM {
        expect(&rt, addr, is_in_ram(0x1_0000, addr, len) == is_in);
    }
}

#[test]
fn psr_of_a_control_state(rt: HostRuntime) {
    assert!(rt; RESET.psr() == 0xf300_0080);
    let in_user_mode = Ctl {
        icc: 0xb,
        pil: 0xd,
        s: false,
        ps: true,
        et: true,
        cwp: 5,
        ..RESET
    };
    assert!(rt; in_user_mode.psr() == 0xf3b0_0d65);
}

#[test]
fn a_list_keeps_its_items(rt: HostRuntime) -> Result<(), Fail> {
    let mut words = Listed::new(rt.alloc());
    assert!(rt; words.len() == 0);
    words.push(7u32)?;
    words.push(5)?;
    assert!(rt; words.len() == 2);
    let words = Listed::from_vec(words.into_vec());
    assert!(rt; words.as_slice() == [7, 5].as_slice());
    Ok(())
}
