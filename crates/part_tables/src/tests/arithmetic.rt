use super::expect;
use v8_alu::AluOp::{Add, And, AndN, Or, OrN, Sll, Sra, Srl, Sub, XNor, Xor};
use v8_alu::{AluOp, AluOut, alu};

/// Of ADDX the operands and the carry; the result and icc.
static SUMS: [(u32, u32, bool, u32, u8); 30] = [
    (0x0000_0000, 0x0000_0000, false, 0x0000_0000, 0b0100),
    (0x0000_0000, 0x0000_0001, false, 0x0000_0001, 0b0000),
    (0x0000_0000, 0x7fff_ffff, false, 0x7fff_ffff, 0b0000),
    (0x0000_0000, 0x8000_0000, false, 0x8000_0000, 0b1000),
    (0x0000_0000, 0xffff_ffff, false, 0xffff_ffff, 0b1000),
    (0x0000_0001, 0x0000_0001, false, 0x0000_0002, 0b0000),
    (0x0000_0001, 0x7fff_ffff, false, 0x8000_0000, 0b1010),
    (0x0000_0001, 0x8000_0000, false, 0x8000_0001, 0b1000),
    (0x0000_0001, 0xffff_ffff, false, 0x0000_0000, 0b0101),
    (0x7fff_ffff, 0x7fff_ffff, false, 0xffff_fffe, 0b1010),
    (0x7fff_ffff, 0x8000_0000, false, 0xffff_ffff, 0b1000),
    (0x7fff_ffff, 0xffff_ffff, false, 0x7fff_fffe, 0b0001),
    (0x8000_0000, 0x8000_0000, false, 0x0000_0000, 0b0111),
    (0x8000_0000, 0xffff_ffff, false, 0x7fff_ffff, 0b0011),
    (0xffff_ffff, 0xffff_ffff, false, 0xffff_fffe, 0b1001),
    (0x0000_0000, 0x0000_0000, true, 0x0000_0001, 0b0000),
    (0x0000_0000, 0x0000_0001, true, 0x0000_0002, 0b0000),
    (0x0000_0000, 0x7fff_ffff, true, 0x8000_0000, 0b1010),
    (0x0000_0000, 0x8000_0000, true, 0x8000_0001, 0b1000),
    (0x0000_0000, 0xffff_ffff, true, 0x0000_0000, 0b0101),
    (0x0000_0001, 0x0000_0001, true, 0x0000_0003, 0b0000),
    (0x0000_0001, 0x7fff_ffff, true, 0x8000_0001, 0b1010),
    (0x0000_0001, 0x8000_0000, true, 0x8000_0002, 0b1000),
    (0x0000_0001, 0xffff_ffff, true, 0x0000_0001, 0b0001),
    (0x7fff_ffff, 0x7fff_ffff, true, 0xffff_ffff, 0b1010),
    (0x7fff_ffff, 0x8000_0000, true, 0x0000_0000, 0b0101),
    (0x7fff_ffff, 0xffff_ffff, true, 0x7fff_ffff, 0b0001),
    (0x8000_0000, 0x8000_0000, true, 0x0000_0001, 0b0011),
    (0x8000_0000, 0xffff_ffff, true, 0x8000_0000, 0b1001),
    (0xffff_ffff, 0xffff_ffff, true, 0xffff_ffff, 0b1001),
];

/// Of SUBX the operands and the carry; the result and icc.
static DIFFERENCES: [(u32, u32, bool, u32, u8); 35] = [
    (0x0000_0000, 0x0000_0000, false, 0x0000_0000, 0b0100),
    (0x0000_0000, 0x7fff_ffff, false, 0x8000_0001, 0b1001),
    (0x0000_0000, 0x8000_0000, false, 0x8000_0000, 0b1011),
    (0x0000_0000, 0xffff_ffff, false, 0x0000_0001, 0b0001),
    (0x7fff_ffff, 0x0000_0000, false, 0x7fff_ffff, 0b0000),
    (0x7fff_ffff, 0x7fff_ffff, false, 0x0000_0000, 0b0100),
    (0x7fff_ffff, 0x8000_0000, false, 0xffff_ffff, 0b1011),
    (0x7fff_ffff, 0xffff_ffff, false, 0x8000_0000, 0b1011),
    (0x8000_0000, 0x0000_0000, false, 0x8000_0000, 0b1000),
    (0x8000_0000, 0x7fff_ffff, false, 0x0000_0001, 0b0010),
    (0x8000_0000, 0x8000_0000, false, 0x0000_0000, 0b0100),
    (0x8000_0000, 0xffff_ffff, false, 0x8000_0001, 0b1001),
    (0xffff_ffff, 0x0000_0000, false, 0xffff_ffff, 0b1000),
    (0xffff_ffff, 0x7fff_ffff, false, 0x8000_0000, 0b1000),
    (0xffff_ffff, 0x8000_0000, false, 0x7fff_ffff, 0b0000),
    (0xffff_ffff, 0xffff_ffff, false, 0x0000_0000, 0b0100),
    (0x0000_0000, 0x0000_0000, true, 0xffff_ffff, 0b1001),
    (0x0000_0000, 0x7fff_ffff, true, 0x8000_0000, 0b1001),
    (0x0000_0000, 0x8000_0000, true, 0x7fff_ffff, 0b0001),
    (0x0000_0000, 0xffff_ffff, true, 0x0000_0000, 0b0101),
    (0x7fff_ffff, 0x0000_0000, true, 0x7fff_fffe, 0b0000),
    (0x7fff_ffff, 0x7fff_ffff, true, 0xffff_ffff, 0b1001),
    (0x7fff_ffff, 0x8000_0000, true, 0xffff_fffe, 0b1011),
    (0x7fff_ffff, 0xffff_ffff, true, 0x7fff_ffff, 0b0001),
    (0x8000_0000, 0x0000_0000, true, 0x7fff_ffff, 0b0010),
    (0x8000_0000, 0x7fff_ffff, true, 0x0000_0000, 0b0110),
    (0x8000_0000, 0x8000_0000, true, 0xffff_ffff, 0b1001),
    (0x8000_0000, 0xffff_ffff, true, 0x8000_0000, 0b1001),
    (0xffff_ffff, 0x0000_0000, true, 0xffff_fffe, 0b1000),
    (0xffff_ffff, 0x7fff_ffff, true, 0x7fff_ffff, 0b0010),
    (0xffff_ffff, 0x8000_0000, true, 0x7fff_fffe, 0b0000),
    (0xffff_ffff, 0xffff_ffff, true, 0xffff_ffff, 0b1001),
    (0x0000_0001, 0x0000_0001, true, 0xffff_ffff, 0b1001),
    (0x0000_0000, 0x0000_0001, false, 0xffff_ffff, 0b1001),
    (0x8000_0000, 0x0000_0001, false, 0x7fff_ffff, 0b0010),
];

/// An operation that takes no carry in, and its operands; the result and icc.
static OTHERS: [(AluOp, u32, u32, u32, u8); 35] = [
    (Add, 0x7fff_ffff, 0x0000_0000, 0x7fff_ffff, 0b0000),
    (Add, 0x0000_0000, 0x0000_0000, 0x0000_0000, 0b0100),
    (Add, 0xffff_ffff, 0x0000_0001, 0x0000_0000, 0b0101),
    (Add, 0x8000_0000, 0x8000_0000, 0x0000_0000, 0b0111),
    (Sub, 0x7fff_ffff, 0x0000_0000, 0x7fff_ffff, 0b0000),
    (Sub, 0x0000_0000, 0x0000_0000, 0x0000_0000, 0b0100),
    (Sub, 0xffff_ffff, 0x0000_0001, 0xffff_fffe, 0b1000),
    (Sub, 0x8000_0000, 0x8000_0000, 0x0000_0000, 0b0100),
    (And, 0x0ff0_0ff0, 0x00ff_ff00, 0x00f0_0f00, 0b0000),
    (And, 0xffff_ffff, 0xffff_ffff, 0xffff_ffff, 0b1000),
    (AndN, 0x0ff0_0ff0, 0x00ff_ff00, 0x0f00_00f0, 0b0000),
    (AndN, 0xffff_ffff, 0xffff_ffff, 0x0000_0000, 0b0100),
    (Or, 0x0ff0_0ff0, 0x00ff_ff00, 0x0fff_fff0, 0b0000),
    (Or, 0xffff_ffff, 0xffff_ffff, 0xffff_ffff, 0b1000),
    (OrN, 0x0ff0_0ff0, 0x00ff_ff00, 0xfff0_0fff, 0b1000),
    (OrN, 0xffff_ffff, 0xffff_ffff, 0xffff_ffff, 0b1000),
    (Xor, 0x0ff0_0ff0, 0x00ff_ff00, 0x0f0f_f0f0, 0b0000),
    (Xor, 0xffff_ffff, 0xffff_ffff, 0x0000_0000, 0b0100),
    (XNor, 0x0ff0_0ff0, 0x00ff_ff00, 0xf0f0_0f0f, 0b1000),
    (XNor, 0xffff_ffff, 0xffff_ffff, 0xffff_ffff, 0b1000),
    (Sll, 0x8000_0001, 0x0000_0000, 0x8000_0001, 0b0000),
    (Sll, 0x8000_0001, 0x0000_0001, 0x0000_0002, 0b0000),
    (Sll, 0x8000_0000, 0x0000_001f, 0x0000_0000, 0b0000),
    (Sll, 0x7fff_ffff, 0x0000_001f, 0x8000_0000, 0b0000),
    (Sll, 0x8765_4321, 0xffff_ffe4, 0x7654_3210, 0b0000),
    (Srl, 0x8000_0001, 0x0000_0000, 0x8000_0001, 0b0000),
    (Srl, 0x8000_0001, 0x0000_0001, 0x4000_0000, 0b0000),
    (Srl, 0x8000_0000, 0x0000_001f, 0x0000_0001, 0b0000),
    (Srl, 0x7fff_ffff, 0x0000_001f, 0x0000_0000, 0b0000),
    (Srl, 0x8765_4321, 0xffff_ffe4, 0x0876_5432, 0b0000),
    (Sra, 0x8000_0001, 0x0000_0000, 0x8000_0001, 0b0000),
    (Sra, 0x8000_0001, 0x0000_0001, 0xc000_0000, 0b0000),
    (Sra, 0x8000_0000, 0x0000_001f, 0xffff_ffff, 0b0000),
    (Sra, 0x7fff_ffff, 0x0000_001f, 0x0000_0000, 0b0000),
    (Sra, 0x8765_4321, 0xffff_ffe4, 0xf876_5432, 0b0000),
];

#[test]
fn sums(rt: HostRuntime) {
    for &(a, b, carry, value, icc) in &SUMS {
        expect(
            &rt,
            a,
            alu(AluOp::AddX, a, b, carry) == AluOut { value, icc },
        );
    }
}

#[test]
fn differences(rt: HostRuntime) {
    for &(a, b, carry, value, icc) in &DIFFERENCES {
        expect(
            &rt,
            a,
            alu(AluOp::SubX, a, b, carry) == AluOut { value, icc },
        );
    }
}

#[test]
fn other_operations(rt: HostRuntime) {
    for &(op, a, b, value, icc) in &OTHERS {
        expect(&rt, a, alu(op, a, b, true) == AluOut { value, icc });
    }
}
