use super::expect;
use edac_code::{Read39, encode39, read39, syndrome39};

/// Words and their check bits.
static WORDS: [(u32, u64); 4] = [
    (0x0000_0000, 0x0c),
    (0xffff_ffff, 0x0c),
    (0x0000_0001, 0x43),
    (0x8000_0000, 0x79),
];

/// Cells of 5A, 77, DEADBEEF and FFFFFFFF with a data or check bit flipped, and with two; the syndrome and the answer.
static CELLS: [(u64, u8, Read39); 11] = [
    (0x1e_0000_005a, 0x00, Read39::Clean(0x0000_005a)),
    (0x1e_0000_005b, 0x4f, Read39::Fixed(0x0000_005a, 0)),
    (0x41_dead_be6f, 0x5d, Read39::Fixed(0xdead_beef, 7)),
    (0x41_5ead_beef, 0x75, Read39::Fixed(0xdead_beef, 31)),
    (0x1f_0000_005a, 0x01, Read39::Fixed(0x0000_005a, 32)),
    (0x4c_ffff_ffff, 0x40, Read39::Fixed(0xffff_ffff, 38)),
    (0x1e_0000_0059, 0x05, Read39::Bad(0x05)),
    (0x0f_0000_0074, 0x05, Read39::Bad(0x05)),
    (0x41_5ead_beee, 0x3a, Read39::Bad(0x3a)),
    (0x49_dead_bfef, 0x2b, Read39::Bad(0x2b)),
    (0x6c_0000_0000, 0x60, Read39::Bad(0x60)),
];

#[test]
fn check_bits(rt: HostRuntime) {
    for &(word, check_bits) in &WORDS {
        let cell = encode39(word);
        expect(&rt, word, cell >> 32 == check_bits);
        expect(&rt, word, read39(cell) == Read39::Clean(word));
    }
}

#[test]
fn flipped_bits(rt: HostRuntime) {
    for &(cell, syndrome, answer) in &CELLS {
        assert!(rt; cell < 1 << 39);
        let row = u32::from(syndrome);
        expect(&rt, row, syndrome39(cell) == syndrome);
        expect(&rt, row, read39(cell) == answer);
    }
}
