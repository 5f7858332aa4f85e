use lf_model::flip::Flip;
use std::process::Abort;
use std::test::Fail;
use work_gen::{make, make_setup};

/// Words of the code of start 7 and size 4000, by their numbers: start-up code, the first instruction of each kind, and the end.
static CODE: [(usize, u32); 19] = [
    // sethi of 40004000 to %g1, and add %o0, 0 to 5, %g2 to %g7
    (0, 0x0310_0010),
    (1, 0x8402_2000),
    (2, 0x8602_2001),
    (3, 0x8802_2002),
    (4, 0x8a02_2003),
    (5, 0x8c02_2004),
    (6, 0x8e02_2005),
    // stb, swap, three times xor, sub, add, ld
    (7, 0xc628_6019),
    (8, 0xce78_60c0),
    (9, 0x8c19_0004),
    (10, 0x8818_8005),
    (11, 0x8a19_c006),
    (12, 0x8c21_0004),
    (13, 0x8e01_4003),
    (14, 0xcc00_624c),
    // st, umul, ldstub, and at the end ta 0
    (21, 0xce20_6250),
    (22, 0x8c50_8002),
    (26, 0xce68_60f9),
    (4007, 0x91d0_2000),
];

/// The row of a table, by its number, holds. (A message of its own in each loop would cost the prover three times as much.)
fn expect(rt: &impl Abort, row: usize, holds: bool) {
    assert!(rt; holds, "row {row}");
}

#[test]
fn an_image_is_made(rt: HostRuntime) -> Result<(), Fail> {
    let image = make(rt.alloc(), 7, 4000)?;
    let [code, data] = image.segments.as_slice() else {
        return Ok(assert!(rt; false));
    };
    let bytes = code.bytes.as_slice();
    assert!(rt; bytes.len() == 16_032 && data.addr == 0x4000_4000);
    for &(number, word) in &CODE {
        let place = 4 * number;
        expect(&rt, number, bytes[place..].starts_with(&word.to_be_bytes()));
    }
    Ok(())
}

/// The first flips of the drill of start 2^64 - 1 and size 16, whose draws begin at 0: of memory, a fetch cache, a load cache and its
/// tags, and the same again.
static FLIPS: [Flip; 8] = [
    Flip::Mem {
        turn: 1807,
        addr: 0x4000_0000,
        bit: 29,
    },
    Flip::Line {
        core: 0,
        step: 2,
        fetch: true,
        way: 1,
        set: 14,
        byte: 8,
        bit: 1,
    },
    Flip::Line {
        core: 1,
        step: 4,
        fetch: false,
        way: 1,
        set: 7,
        byte: 22,
        bit: 6,
    },
    Flip::Tag {
        core: 0,
        step: 13,
        fetch: false,
        way: 1,
        set: 1,
        byte: 2,
        bit: 2,
    },
    Flip::Mem {
        turn: 125,
        addr: 0x4000_0010,
        bit: 14,
    },
    Flip::Line {
        core: 3,
        step: 6,
        fetch: true,
        way: 1,
        set: 7,
        byte: 20,
        bit: 5,
    },
    Flip::Line {
        core: 0,
        step: 14,
        fetch: false,
        way: 0,
        set: 9,
        byte: 0,
        bit: 0,
    },
    Flip::Tag {
        core: 3,
        step: 1,
        fetch: false,
        way: 0,
        set: 7,
        byte: 1,
        bit: 0,
    },
];

/// The same flip.
fn is_same(flip: Flip, other: Flip) -> bool {
    match (flip, other) {
        (
            Flip::Mem { turn, addr, bit },
            Flip::Mem {
                turn: other_turn,
                addr: other_addr,
                bit: other_bit,
            },
        ) => turn == other_turn && addr == other_addr && bit == other_bit,
        (
            Flip::Tag {
                core,
                step,
                fetch,
                way,
                set,
                byte,
                bit,
            },
            Flip::Tag {
                core: other_core,
                step: other_step,
                fetch: other_fetch,
                way: other_way,
                set: other_set,
                byte: other_byte,
                bit: other_bit,
            },
        ) => core == other_core
            && step == other_step
            && fetch == other_fetch
            && way == other_way
            && set == other_set
            && byte == other_byte
            && bit == other_bit,
        (
            Flip::Line {
                core,
                step,
                fetch,
                way,
                set,
                byte,
                bit,
            },
            Flip::Line {
                core: other_core,
                step: other_step,
                fetch: other_fetch,
                way: other_way,
                set: other_set,
                byte: other_byte,
                bit: other_bit,
            },
        ) => core == other_core
            && step == other_step
            && fetch == other_fetch
            && way == other_way
            && set == other_set
            && byte == other_byte
            && bit == other_bit,
        _ => false,
    }
}

#[test]
fn a_drill_is_set_up(rt: HostRuntime) -> Result<(), Fail> {
    let setup = make_setup(rt.alloc(), u64::MAX, 16, 8)?;
    let config = &setup.config;
    assert!(rt; config.steps == 1128 && config.scrub.length == 5120);
    let flips = setup.flips.as_slice();
    assert!(rt; flips.len() == FLIPS.len());
    for (i, (flip, expected)) in flips.iter().zip(&FLIPS).enumerate() {
        expect(&rt, i, is_same(*flip, *expected));
    }
    Ok(())
}
