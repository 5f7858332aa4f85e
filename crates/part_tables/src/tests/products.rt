use super::expect;
use v8_alu::AluOut;
use v8_muldiv::{DivOut, MulOut, div, mul, mulscc, multiply_by_steps, tagged};

/// Of UMUL the factors; the product's low word, its high word and icc.
static UNSIGNED_PRODUCTS: [(u32, u32, u32, u32, u8); 13] = [
    (0x0000_0000, 0x7fff_ffff, 0x0000_0000, 0x0000_0000, 0b0100),
    (0x0000_0000, 0x8000_0000, 0x0000_0000, 0x0000_0000, 0b0100),
    (0x0000_0000, 0xffff_ffff, 0x0000_0000, 0x0000_0000, 0b0100),
    (0x0000_0001, 0x0000_0001, 0x0000_0001, 0x0000_0000, 0b0000),
    (0x0000_0001, 0x7fff_ffff, 0x7fff_ffff, 0x0000_0000, 0b0000),
    (0x0000_0001, 0x8000_0000, 0x8000_0000, 0x0000_0000, 0b1000),
    (0x0000_0001, 0xffff_ffff, 0xffff_ffff, 0x0000_0000, 0b1000),
    (0x7fff_ffff, 0x7fff_ffff, 0x0000_0001, 0x3fff_ffff, 0b0000),
    (0x7fff_ffff, 0x8000_0000, 0x8000_0000, 0x3fff_ffff, 0b1000),
    (0x7fff_ffff, 0xffff_ffff, 0x8000_0001, 0x7fff_fffe, 0b1000),
    (0x8000_0000, 0x8000_0000, 0x0000_0000, 0x4000_0000, 0b0100),
    (0x8000_0000, 0xffff_ffff, 0x8000_0000, 0x7fff_ffff, 0b1000),
    (0xffff_ffff, 0xffff_ffff, 0x0000_0001, 0xffff_fffe, 0b0000),
];

/// Of SMUL the factors; the product's low word, its high word and icc.
static SIGNED_PRODUCTS: [(u32, u32, u32, u32, u8); 13] = [
    (0x0000_0000, 0x7fff_ffff, 0x0000_0000, 0x0000_0000, 0b0100),
    (0x0000_0000, 0x8000_0000, 0x0000_0000, 0x0000_0000, 0b0100),
    (0x0000_0000, 0xffff_ffff, 0x0000_0000, 0x0000_0000, 0b0100),
    (0x0000_0001, 0x0000_0001, 0x0000_0001, 0x0000_0000, 0b0000),
    (0x0000_0001, 0x7fff_ffff, 0x7fff_ffff, 0x0000_0000, 0b0000),
    (0x0000_0001, 0x8000_0000, 0x8000_0000, 0xffff_ffff, 0b1000),
    (0x0000_0001, 0xffff_ffff, 0xffff_ffff, 0xffff_ffff, 0b1000),
    (0x7fff_ffff, 0x7fff_ffff, 0x0000_0001, 0x3fff_ffff, 0b0000),
    (0x7fff_ffff, 0x8000_0000, 0x8000_0000, 0xc000_0000, 0b1000),
    (0x7fff_ffff, 0xffff_ffff, 0x8000_0001, 0xffff_ffff, 0b1000),
    (0x8000_0000, 0x8000_0000, 0x0000_0000, 0x4000_0000, 0b0100),
    (0x8000_0000, 0xffff_ffff, 0x8000_0000, 0x0000_0000, 0b1000),
    (0xffff_ffff, 0xffff_ffff, 0x0000_0001, 0x0000_0000, 0b0000),
];

/// Of UDIV the word in Y, the first operand and the divisor; the quotient and icc.
static UNSIGNED_QUOTIENTS: [(u32, u32, u32, u32, u8); 8] = [
    (0x0000_0001, 0x0000_0000, 0x0000_0001, 0xffff_ffff, 0b1010),
    (0x0000_0000, 0x0000_0007, 0x0000_0002, 0x0000_0003, 0b0000),
    (0x0000_0000, 0xffff_ffff, 0x0000_0001, 0xffff_ffff, 0b1000),
    (0x0000_0001, 0x0000_0000, 0x0000_0002, 0x8000_0000, 0b1000),
    (0xffff_ffff, 0xffff_ffff, 0xffff_ffff, 0xffff_ffff, 0b1010),
    (0xffff_fffe, 0xffff_ffff, 0xffff_ffff, 0xffff_ffff, 0b1000),
    (0x7fff_ffff, 0x0000_0000, 0x8000_0000, 0xffff_fffe, 0b1000),
    (0x0000_0000, 0x0000_0001, 0xffff_ffff, 0x0000_0000, 0b0100),
];

/// Of SDIV the word in Y, the first operand and the divisor; the quotient and icc.
static SIGNED_QUOTIENTS: [(u32, u32, u32, u32, u8); 16] = [
    (0xffff_ffff, 0x8000_0000, 0xffff_ffff, 0x7fff_ffff, 0b0010),
    (0x0000_0000, 0x0000_0007, 0xffff_fffe, 0xffff_fffd, 0b1000),
    (0xffff_ffff, 0xffff_fff9, 0x0000_0002, 0xffff_fffd, 0b1000),
    (0xffff_ffff, 0xffff_fff9, 0xffff_fffe, 0x0000_0003, 0b0000),
    (0x0000_0000, 0x7fff_ffff, 0x0000_0001, 0x7fff_ffff, 0b0000),
    (0x0000_0000, 0x8000_0000, 0x0000_0001, 0x7fff_ffff, 0b0010),
    (0x0000_0000, 0x8000_0000, 0xffff_ffff, 0x8000_0000, 0b1000),
    (0x0000_0000, 0x8000_0001, 0xffff_ffff, 0x8000_0000, 0b1010),
    (0xffff_ffff, 0x8000_0000, 0x0000_0001, 0x8000_0000, 0b1000),
    (0xffff_ffff, 0x7fff_ffff, 0x0000_0001, 0x8000_0000, 0b1010),
    (0x8000_0000, 0x0000_0000, 0xffff_ffff, 0x7fff_ffff, 0b0010),
    (0x8000_0000, 0x0000_0000, 0x8000_0000, 0x7fff_ffff, 0b0010),
    (0xffff_ffff, 0xffff_ffff, 0x0000_0002, 0x0000_0000, 0b0100),
    (0x3fff_ffff, 0xffff_ffff, 0x8000_0000, 0x8000_0001, 0b1000),
    (0x4000_0000, 0x0000_0000, 0x8000_0000, 0x8000_0000, 0b1000),
    (0x4000_0000, 0x8000_0000, 0x8000_0000, 0x8000_0000, 0b1010),
];

/// Of MULScc the operands, icc and Y; the result, the new Y and the new icc.
static MULTIPLY_STEPS: [((u32, u32, u8, u32), (u32, u32, u8)); 12] = [
    (
        (0x0000_0000, 0x0000_0005, 0b0000, 0x0000_0001),
        (0x0000_0005, 0x0000_0000, 0b0000),
    ),
    (
        (0x0000_0000, 0x0000_0005, 0b0000, 0x0000_0002),
        (0x0000_0000, 0x0000_0001, 0b0100),
    ),
    (
        (0x0000_0003, 0x0000_0005, 0b0000, 0x0000_0003),
        (0x0000_0006, 0x8000_0001, 0b0000),
    ),
    (
        (0x8000_0000, 0x8000_0000, 0b1000, 0x0000_0001),
        (0x4000_0000, 0x0000_0000, 0b0011),
    ),
    (
        (0x7fff_ffff, 0x7fff_ffff, 0b0010, 0x0000_0001),
        (0x3fff_fffe, 0x8000_0000, 0b0001),
    ),
    (
        (0xffff_ffff, 0xffff_ffff, 0b1000, 0xffff_ffff),
        (0xffff_fffe, 0xffff_ffff, 0b1001),
    ),
    (
        (0x0000_0000, 0xffff_ffff, 0b1010, 0x0000_0001),
        (0xffff_ffff, 0x0000_0000, 0b1000),
    ),
    (
        (0x0000_0002, 0x0000_0000, 0b0000, 0x0000_0000),
        (0x0000_0001, 0x0000_0000, 0b0000),
    ),
    (
        (0x0000_0000, 0x0000_0000, 0b1111, 0x0000_0000),
        (0x0000_0000, 0x0000_0000, 0b0100),
    ),
    (
        (0x8000_0000, 0x8000_0000, 0b1010, 0x0000_0001),
        (0xc000_0000, 0x0000_0000, 0b1000),
    ),
    (
        (0x8000_0000, 0x7fff_ffff, 0b1101, 0x0000_0003),
        (0x3fff_ffff, 0x0000_0001, 0b0001),
    ),
    (
        (0xffff_ffff, 0x8000_0000, 0b0111, 0x0000_0001),
        (0x7fff_ffff, 0x8000_0000, 0b0011),
    ),
];

/// Y and the second operand of the steps; the product's high word, its low word and icc.
static PRODUCTS_BY_STEPS: [(u32, u32, u32, u32, u8); 6] = [
    (0x0000_0003, 0x0000_0005, 0x0000_0000, 0x0000_000f, 0b0100),
    (0xffff_ffff, 0xffff_ffff, 0xffff_ffff, 0x0000_0001, 0b1000),
    (0x8000_0000, 0x8000_0000, 0xc000_0000, 0x0000_0000, 0b1000),
    (0xffff_ffff, 0x7fff_ffff, 0x7fff_fffe, 0x8000_0001, 0b0000),
    (0x0000_0000, 0x8000_0000, 0x0000_0000, 0x0000_0000, 0b0100),
    (0x1234_5678, 0x9abc_def0, 0xf8cc_93d6, 0x242d_2080, 0b1000),
];

/// TSUBcc or TADDcc, and the operands; the result and icc.
static TAGGED: [(bool, u32, u32, u32, u8); 20] = [
    (false, 0x0000_0004, 0x0000_0008, 0x0000_000c, 0b0000),
    (false, 0x0000_0005, 0x0000_0008, 0x0000_000d, 0b0010),
    (false, 0x0000_0004, 0x0000_000a, 0x0000_000e, 0b0010),
    (false, 0x7fff_fffc, 0x0000_0004, 0x8000_0000, 0b1010),
    (false, 0x8000_0000, 0x0000_0004, 0x8000_0004, 0b1000),
    (false, 0x8000_0000, 0x8000_0000, 0x0000_0000, 0b0111),
    (false, 0xffff_fffc, 0x0000_0004, 0x0000_0000, 0b0101),
    (false, 0x0000_0003, 0x0000_0003, 0x0000_0006, 0b0010),
    (false, 0x0000_0000, 0x8000_0000, 0x8000_0000, 0b1000),
    (false, 0xffff_ffff, 0xffff_ffff, 0xffff_fffe, 0b1011),
    (true, 0x0000_0004, 0x0000_0008, 0xffff_fffc, 0b1001),
    (true, 0x0000_0005, 0x0000_0008, 0xffff_fffd, 0b1011),
    (true, 0x0000_0004, 0x0000_000a, 0xffff_fffa, 0b1011),
    (true, 0x7fff_fffc, 0x0000_0004, 0x7fff_fff8, 0b0000),
    (true, 0x8000_0000, 0x0000_0004, 0x7fff_fffc, 0b0010),
    (true, 0x8000_0000, 0x8000_0000, 0x0000_0000, 0b0100),
    (true, 0xffff_fffc, 0x0000_0004, 0xffff_fff8, 0b1000),
    (true, 0x0000_0003, 0x0000_0003, 0x0000_0000, 0b0110),
    (true, 0x0000_0000, 0x8000_0000, 0x8000_0000, 0b1011),
    (true, 0xffff_ffff, 0xffff_ffff, 0x0000_0000, 0b0110),
];

#[test]
fn unsigned_products(rt: HostRuntime) {
    for &(a, b, value, y, icc) in &UNSIGNED_PRODUCTS {
        expect(&rt, a, mul(false, a, b) == MulOut { value, y, icc });
    }
}

#[test]
fn signed_products(rt: HostRuntime) {
    for &(a, b, value, y, icc) in &SIGNED_PRODUCTS {
        expect(&rt, a, mul(true, a, b) == MulOut { value, y, icc });
    }
}

#[test]
fn unsigned_quotients(rt: HostRuntime) {
    for &(y, a, b, value, icc) in &UNSIGNED_QUOTIENTS {
        expect(&rt, a, div(false, y, a, b) == Some(DivOut { value, icc }));
    }
}

#[test]
fn signed_quotients(rt: HostRuntime) {
    for &(y, a, b, value, icc) in &SIGNED_QUOTIENTS {
        expect(&rt, a, div(true, y, a, b) == Some(DivOut { value, icc }));
    }
}

#[test]
fn divisors_of_0(rt: HostRuntime) {
    for signed in [false, true] {
        expect(&rt, 0, div(signed, 5, 5, 0).is_none());
    }
}

#[test]
fn multiply_steps(rt: HostRuntime) {
    for &((a, b, icc, y), (value, new_y, new_icc)) in &MULTIPLY_STEPS {
        let expected = MulOut {
            value,
            y: new_y,
            icc: new_icc,
        };
        expect(&rt, a, mulscc(a, b, icc, y) == expected);
    }
}

#[test]
fn products_by_steps(rt: HostRuntime) {
    for &(y, b, value, new_y, icc) in &PRODUCTS_BY_STEPS {
        let expected = MulOut {
            value,
            y: new_y,
            icc,
        };
        expect(&rt, y, multiply_by_steps(y, b) == expected);
    }
}

#[test]
fn tagged_sums_and_differences(rt: HostRuntime) {
    for &(sub, a, b, value, icc) in &TAGGED {
        expect(&rt, a, tagged(sub, a, b) == AluOut { value, icc });
    }
}
