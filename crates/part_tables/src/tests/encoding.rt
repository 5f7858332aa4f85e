use super::expect;
use v8_encode::encode;
use v8_word::{CalcName, Instr, MemName, Src, decode};

/// The words of programs, and one of each other form.
static WORDS: [u32; 58] = [
    0x0320_0000,
    0x9010_2041,
    0xd020_6100,
    0x91d0_2000,
    0x0100_0000,
    0x0310_0004,
    0x0520_0000,
    0xd000_6000,
    0xd020_a100,
    0x9210_2077,
    0xd228_6000,
    0xd408_6000,
    0xd420_a100,
    0xd220_6000,
    0x81e0_2000,
    0x8198_6000,
    0x8188_20a0,
    0x9010_2005,
    0x852a_2005,
    0x8618_a020,
    0xd200_4003,
    0x8810_2001,
    0xc820_4002,
    0xd400_4003,
    0x80a2_2000,
    0x1280_0005,
    0xc820_6000,
    0xc820_6020,
    0xd200_6000,
    0xd400_6020,
    0xd600_6000,
    0x9410_2064,
    0xd268_6000,
    0x80a2_6001,
    0x9642_e000,
    0x94a2_a001,
    0x12bf_fffc,
    0x8200_6001,
    0xd620_a100,
    0x9010_2003,
    0x90a2_2001,
    0x12bf_ffff,
    0x0000_0000,
    0xc080_2000,
    0x81a0_0000,
    0x81b0_0000,
    0xc130_0000,
    0xc1b0_0000,
    0x8143_c000,
    0x9144_4000,
    0xa380_4002,
    0x9148_0000,
    0x81cf_e008,
    0x81d8_0001,
    0x7fff_ffff,
    0xc43a_6008,
    0xc4ba_5003,
    0xd0fa_4143,
];

/// Instructions of which a field is out of its range.
static OUT_OF_RANGE: [Instr; 11] = [
    Instr::Call { disp30: 1 << 30 },
    Instr::Sethi { rd: 32, imm22: 0 },
    Instr::Bicc {
        cond: 16,
        a: false,
        disp22: 0,
    },
    Instr::Bicc {
        cond: 8,
        a: true,
        disp22: 1 << 22,
    },
    Instr::Calc {
        name: CalcName::Add,
        rd: 1,
        rs1: 1,
        src: Src::Imm(1 << 13),
    },
    Instr::Calc {
        name: CalcName::Add,
        rd: 1,
        rs1: 32,
        src: Src::Imm(1),
    },
    Instr::Rett {
        rs1: 1,
        src: Src::Reg(32),
    },
    Instr::Mem {
        name: MemName::Ldd,
        rd: 3,
        rs1: 1,
        src: Src::Imm(0),
    },
    Instr::Alternate {
        name: MemName::Std,
        rd: 5,
        rs1: 1,
        rs2: 0,
        asi: 0x0a,
    },
    Instr::ReadAsr { rd: 1, rs1: 18 },
    Instr::WriteAsr {
        rd: 16,
        rs1: 1,
        src: Src::Reg(2),
    },
];

#[test]
fn words_come_back(rt: HostRuntime) {
    for &word in &WORDS {
        expect(&rt, word, encode(&decode(word)) == Some(word));
    }
}

#[test]
fn fields_out_of_range(rt: HostRuntime) {
    for instruction in &OUT_OF_RANGE {
        assert!(rt; encode(instruction).is_none());
    }
}
