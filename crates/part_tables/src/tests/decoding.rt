use super::expect;
use v8_word::{
    CalcName, Instr, MemName, Reads, Src, StateName, decode, reads, supervisor, takes_rd,
};

/// Words of programs that calculate; the name, rd, rs1 and the second operand.
static CALCULATIONS: [(u32, CalcName, u8, u8, Src); 14] = [
    (0x9010_2041, CalcName::Or, 8, 0, Src::Imm(0x41)),
    (0x9210_2077, CalcName::Or, 9, 0, Src::Imm(0x77)),
    (0x9010_2005, CalcName::Or, 8, 0, Src::Imm(5)),
    (0x852a_2005, CalcName::Sll, 2, 8, Src::Imm(5)),
    (0x8618_a020, CalcName::Xor, 3, 2, Src::Imm(0x20)),
    (0x8810_2001, CalcName::Or, 4, 0, Src::Imm(1)),
    (0x80a2_2000, CalcName::SubCc, 0, 8, Src::Imm(0)),
    (0x9410_2064, CalcName::Or, 10, 0, Src::Imm(0x64)),
    (0x80a2_6001, CalcName::SubCc, 0, 9, Src::Imm(1)),
    (0x9642_e000, CalcName::AddX, 11, 11, Src::Imm(0)),
    (0x94a2_a001, CalcName::SubCc, 10, 10, Src::Imm(1)),
    (0x8200_6001, CalcName::Add, 1, 1, Src::Imm(1)),
    (0x9010_2003, CalcName::Or, 8, 0, Src::Imm(3)),
    (0x90a2_2001, CalcName::SubCc, 8, 8, Src::Imm(1)),
];

/// Words of programs that load and store, and a store of two registers; the name, rd, rs1 and the second operand.
static ACCESSES: [(u32, MemName, u8, u8, Src); 18] = [
    (0xd020_6100, MemName::St, 8, 1, Src::Imm(0x100)),
    (0xd000_6000, MemName::Ld, 8, 1, Src::Imm(0)),
    (0xd020_a100, MemName::St, 8, 2, Src::Imm(0x100)),
    (0xd228_6000, MemName::Stb, 9, 1, Src::Imm(0)),
    (0xd408_6000, MemName::Ldub, 10, 1, Src::Imm(0)),
    (0xd420_a100, MemName::St, 10, 2, Src::Imm(0x100)),
    (0xd220_6000, MemName::St, 9, 1, Src::Imm(0)),
    (0xd200_4003, MemName::Ld, 9, 1, Src::Reg(3)),
    (0xc820_4002, MemName::St, 4, 1, Src::Reg(2)),
    (0xd400_4003, MemName::Ld, 10, 1, Src::Reg(3)),
    (0xc820_6000, MemName::St, 4, 1, Src::Imm(0)),
    (0xc820_6020, MemName::St, 4, 1, Src::Imm(0x20)),
    (0xd200_6000, MemName::Ld, 9, 1, Src::Imm(0)),
    (0xd400_6020, MemName::Ld, 10, 1, Src::Imm(0x20)),
    (0xd600_6000, MemName::Ld, 11, 1, Src::Imm(0)),
    (0xd268_6000, MemName::Ldstub, 9, 1, Src::Imm(0)),
    (0xd620_a100, MemName::St, 11, 2, Src::Imm(0x100)),
    (0xc43a_6008, MemName::Std, 2, 9, Src::Imm(8)),
];

/// Other words of programs, the forms without fields, and words beside the rows of the tables of opcodes; what each decodes to.
static WORDS: [(u32, Instr); 31] = [
    (
        0x0320_0000,
        Instr::Sethi {
            rd: 1,
            imm22: 0x200000,
        },
    ),
    (
        0x91d0_2000,
        Instr::Ticc {
            cond: 8,
            rs1: 0,
            src: Src::Imm(0),
        },
    ),
    (0x0100_0000, Instr::Sethi { rd: 0, imm22: 0 }),
    (
        0x0310_0004,
        Instr::Sethi {
            rd: 1,
            imm22: 0x100004,
        },
    ),
    (
        0x0520_0000,
        Instr::Sethi {
            rd: 2,
            imm22: 0x200000,
        },
    ),
    (
        0x81e0_2000,
        Instr::Save {
            rd: 0,
            rs1: 0,
            src: Src::Imm(0),
        },
    ),
    (
        0x8198_6000,
        Instr::WriteState {
            name: StateName::Tbr,
            rs1: 1,
            src: Src::Imm(0),
        },
    ),
    (
        0x8188_20a0,
        Instr::WriteState {
            name: StateName::Psr,
            rs1: 0,
            src: Src::Imm(0xa0),
        },
    ),
    (
        0x1280_0005,
        Instr::Bicc {
            cond: 9,
            a: false,
            disp22: 5,
        },
    ),
    (
        0x12bf_fffc,
        Instr::Bicc {
            cond: 9,
            a: false,
            disp22: 0x3ffffc,
        },
    ),
    (
        0x12bf_ffff,
        Instr::Bicc {
            cond: 9,
            a: false,
            disp22: 0x3fffff,
        },
    ),
    // The forms without fields, and words beside the rows of the tables.
    (0x0000_0000, Instr::Illegal),
    (0xc080_2000, Instr::AltIllegal),
    (0x81a0_0000, Instr::FpOff),
    (0x81b0_0000, Instr::CpOff),
    (0xc130_0000, Instr::FpQueue),
    (0xc1b0_0000, Instr::CpQueue),
    (0x8143_c000, Instr::Stbar),
    (0x8343_c000, Instr::Illegal),
    (0x9144_4000, Instr::ReadAsr { rd: 8, rs1: 17 }),
    (0x9144_8000, Instr::Illegal),
    (
        0xa380_4002,
        Instr::WriteAsr {
            rd: 17,
            rs1: 1,
            src: Src::Reg(2),
        },
    ),
    (0xa580_4002, Instr::Illegal),
    (
        0x9148_0000,
        Instr::ReadState {
            name: StateName::Psr,
            rd: 8,
        },
    ),
    (
        0x81cf_e008,
        Instr::Rett {
            rs1: 31,
            src: Src::Imm(8),
        },
    ),
    (
        0x81d8_0001,
        Instr::Flush {
            rs1: 0,
            src: Src::Reg(1),
        },
    ),
    (
        0x7fff_ffff,
        Instr::Call {
            disp30: 0x3fff_ffff,
        },
    ),
    (0xc63a_6008, Instr::Illegal),
    (
        0xc4ba_5003,
        Instr::Alternate {
            name: MemName::Std,
            rd: 2,
            rs1: 9,
            rs2: 3,
            asi: 0x80,
        },
    ),
    (0xc6ba_5003, Instr::AltIllegal),
    (
        0xd0fa_4143,
        Instr::Alternate {
            name: MemName::Swap,
            rd: 8,
            rs1: 9,
            rs2: 3,
            asi: 0x0a,
        },
    ),
];

/// Words, the registers that each reads, how many they are, and whether the instruction is privileged.
static READS: [(u32, [u8; 4], u8, bool); 24] = [
    (0x0000_0000, [0, 0, 0, 0], 0, false),
    (0x0320_0000, [0, 0, 0, 0], 0, false),
    (0x12bf_fffc, [0, 0, 0, 0], 0, false),
    (0x8143_c000, [0, 0, 0, 0], 0, false),
    (0x9144_4000, [0, 0, 0, 0], 0, false),
    (0x9148_0000, [0, 0, 0, 0], 0, true),
    (0x9642_e000, [11, 0, 0, 0], 1, false),
    (0xd200_4003, [1, 3, 0, 0], 2, false),
    (0x91d0_2000, [0, 0, 0, 0], 1, false),
    (0x8198_6000, [1, 0, 0, 0], 1, true),
    (0xa380_4002, [1, 2, 0, 0], 2, false),
    (0x81d8_0001, [0, 1, 0, 0], 2, false),
    (0x81cf_e008, [31, 0, 0, 0], 1, true),
    (0xd268_6000, [1, 0, 0, 0], 1, false),
    (0xd020_6100, [1, 8, 0, 0], 2, false),
    (0xc820_4002, [1, 2, 4, 0], 3, false),
    (0xc43a_6008, [9, 2, 3, 0], 3, false),
    (0xc43a_4003, [9, 3, 2, 3], 4, false),
    (0xc4ba_5003, [9, 3, 2, 3], 4, true),
    (0xd0fa_4143, [9, 3, 8, 0], 3, true),
    (0xc080_2000, [0, 0, 0, 0], 0, true),
    (0xc130_0000, [0, 0, 0, 0], 0, true),
    (0xc1b0_0000, [0, 0, 0, 0], 0, true),
    (0x81a0_0000, [0, 0, 0, 0], 0, false),
];

#[test]
fn calculations(rt: HostRuntime) {
    for &(word, name, rd, rs1, src) in &CALCULATIONS {
        expect(
            &rt,
            word,
            decode(word) == Instr::Calc { name, rd, rs1, src },
        );
    }
}

#[test]
fn accesses(rt: HostRuntime) {
    for &(word, name, rd, rs1, src) in &ACCESSES {
        expect(&rt, word, decode(word) == Instr::Mem { name, rd, rs1, src });
    }
}

#[test]
fn other_words(rt: HostRuntime) {
    for &(word, instruction) in &WORDS {
        expect(&rt, word, decode(word) == instruction);
    }
}

#[test]
fn registers_and_privilege(rt: HostRuntime) {
    for &(word, regs, count, privileged) in &READS {
        let instruction = decode(word);
        expect(&rt, word, reads(&instruction) == Reads { regs, count });
        expect(&rt, word, supervisor(&instruction) == privileged);
    }
}

#[test]
fn even_destinations(rt: HostRuntime) {
    for (name, rd, takes) in [
        (MemName::Std, 2, true),
        (MemName::Ldd, 3, false),
        (MemName::Ld, 3, true),
    ] {
        expect(&rt, u32::from(rd), takes_rd(name, rd) == takes);
    }
}
