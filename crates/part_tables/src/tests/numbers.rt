use super::expect;
use lf_num::{bits, odd8, odd64, ones, sext};

/// SAVE %sp, -96, %sp; the highest and the lowest bit of op, op3, simm13 and the whole word, and each as a number.
static FIELDS: [(u32, u32, u32, u32); 4] = [
    (0x9de3_bfa0, 31, 30, 0x2),
    (0x9de3_bfa0, 24, 19, 0x3c),
    (0x9de3_bfa0, 12, 0, 0x1fa0),
    (0x9de3_bfa0, 31, 0, 0x9de3_bfa0),
];

#[test]
fn fields(rt: HostRuntime) {
    for &(word, hi, lo, field) in &FIELDS {
        assert!(rt; lo <= hi && hi < 32);
        expect(&rt, field, bits(word, hi, lo) == field);
    }
}

/// Numbers in two's complement, their widths in bits, and each as a word.
static SIGNED: [(u32, u32, u32); 4] = [
    (0x1fa0, 13, 0xffff_ffa0),
    (0x0fff, 13, 0x0000_0fff),
    (1, 1, 0xffff_ffff),
    (0x8000_0000, 32, 0x8000_0000),
];

#[test]
fn signed_numbers(rt: HostRuntime) {
    for &(number, width, word) in &SIGNED {
        assert!(rt; 1 <= width && width <= 32 && u64::from(number) < 1 << width);
        expect(&rt, word, sext(number, width) == word);
    }
}

/// Numbers, and how many of their bits are 1.
static COUNTS: [(u64, u32); 6] = [
    (0, 0),
    (0x7f, 7),
    (0xff, 8),
    (0x8000_0000_0000_0000, 1),
    (0x1234_5678_9abc_def1, 33),
    (u64::MAX, 64),
];

#[test]
fn counts(rt: HostRuntime) {
    for &(number, count) in &COUNTS {
        expect(&rt, count, ones(number) == count);
        expect(&rt, count, odd64(number) == (count % 2 == 1));
    }
}

/// Bytes, and whether the number of ones is odd.
static PARITIES: [(u8, bool); 5] = [
    (0x00, false),
    (0x80, true),
    (0xff, false),
    (0x7f, true),
    (0xf1, true),
];

#[test]
fn parities(rt: HostRuntime) {
    for &(byte, odd) in &PARITIES {
        expect(&rt, u32::from(byte), odd8(byte) == odd);
    }
}
