use super::{expect, words_of};
use leon_main::plain_call;
use lf_io::{MemFiles, MemSink};
use std::test::Fail;

/// Words of the image of the program of start 7 and size 4000, by their places in the file: the program headers, start-up code, the
/// first instruction of each kind, and the end.
static IMAGE: [(usize, u32); 29] = [
    (56, 0x0000_0074),
    (60, 0x4000_0000),
    (68, 0x0000_3ea0),
    (72, 0x0000_3ea0),
    (76, 0x0000_0005),
    (88, 0x0000_3f14),
    (92, 0x4000_4000),
    (100, 0x0000_0000),
    (104, 0x0000_0400),
    (108, 0x0000_0006),
    // sethi of 40004000 to %g1, and add %o0, 0 to 5, %g2 to %g7
    (116, 0x0310_0010),
    (120, 0x8402_2000),
    (124, 0x8602_2001),
    (128, 0x8802_2002),
    (132, 0x8a02_2003),
    (136, 0x8c02_2004),
    (140, 0x8e02_2005),
    // stb, swap, three times xor, sub, add, ld
    (144, 0xc628_6019),
    (148, 0xce78_60c0),
    (152, 0x8c19_0004),
    (156, 0x8818_8005),
    (160, 0x8a19_c006),
    (164, 0x8c21_0004),
    (168, 0x8e01_4003),
    (172, 0xcc00_624c),
    // st, umul, ldstub, and at the end ta 0
    (200, 0xce20_6250),
    (204, 0x8c50_8002),
    (220, 0xce68_60f9),
    (16144, 0x91d0_2000),
];

/// The file has this word, big-endian, at this place.
fn has_word(file: &[u8], at: usize, word: u32) -> bool {
    match file.get(at..) {
        Some(rest) => rest.starts_with(&word.to_be_bytes()),
        None => false,
    }
}

#[test]
fn an_image_is_generated(rt: HostRuntime) -> Result<(), Fail> {
    let alloc = rt.alloc();
    let words = words_of(alloc, "leon3ft gen 7 4000")?;
    let mut files = MemFiles::new(alloc, &[])?;
    let mut out = MemSink::new(alloc, 20_000, &[])?;
    let status = plain_call(alloc, &words, &mut files, &mut out);
    assert!(rt; status == 0 && out.taken().len() == 16_148);
    for &(at, word) in &IMAGE {
        expect(&rt, at, has_word(out.taken(), at, word));
    }
    Ok(())
}
