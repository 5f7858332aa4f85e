//! The words of SPARC V8 instructions: `encode` is the way back from `v8_word::decode`. No call takes
//! memory.
#![tactic(auto)]

ghost use Rattle.std.specs.Prelude.{◌≡◌, IfSome, is_some};
ghost use Rattle.lf_model.specs.Instructions.{instruction_of, in_range};
ghost use Rattle.v8_encode.specs.Words.{UnnamedAreZero, fieldless_word};

mod format;
mod opcode;
mod words;

use crate::format::format3;
use crate::opcode::{ARITHMETIC, calc_op3};
use v8_word::Instr;

/// A word of an instruction, None exactly where a field is out of its range: a register number of 32
/// and more, a condition of 16 and more, an immediate value or displacement with more bits than the word
/// has for it, an odd rd of LDD, STD and their alternate forms, an ancillary state register other than 17
/// and 19 (SPARC V8, appendix F, opcodes and condition codes). `decode` of the word is the instruction
/// again. The bits that the instruction does not name are 0, and of the forms that many words are, each
/// has one: UNIMP 0, LDA with an immediate operand, FPop1, CPop1, STDFQ and STDCQ.
#[tactic(auto, unfolding(lf_model::specs::Instructions::instruction_of, lf_model::specs::Instructions::branch, lf_model::specs::Instructions::arithmetic, lf_model::specs::Instructions::memory))]
pub fn encode(i: &Instr) -> Option<u32>
    ensures range { is_some result ≡ in_range i.now }
    ensures back { IfSome result (λ w. instruction_of w ≡ i.now) }
    ensures unnamed { IfSome result (UnnamedAreZero i.now) }
    ensures fieldless { IfSome (fieldless_word i.now) (λ w. result ≡ Some w) }
{
    match *i {
        Instr::Illegal => Some(0x0000_0000),
        Instr::AltIllegal => Some(0xc080_2000),
        Instr::FpOff => Some(0x81a0_0000),
        Instr::CpOff => Some(0x81b0_0000),
        Instr::FpQueue => Some(0xc130_0000),
        Instr::CpQueue => Some(0xc1b0_0000),
        Instr::Stbar => Some(0x8143_c000),
        Instr::Call { disp30 } => words::call(disp30),
        Instr::Sethi { rd, imm22 } => words::sethi(rd, imm22),
        Instr::Bicc { cond, a, disp22 } => words::branch(cond, a, disp22),
        Instr::Calc { name, rd, rs1, src } => format3(ARITHMETIC, rd, calc_op3(name), rs1, src),
        Instr::Ticc { cond, rs1, src } => words::trap(cond, rs1, src),
        Instr::ReadState { name, rd } => words::read_state(name, rd),
        Instr::ReadAsr { rd, rs1 } => words::read_asr(rd, rs1),
        Instr::WriteState { name, rs1, src } => words::write_state(name, rs1, src),
        Instr::WriteAsr { rd, rs1, src } => words::write_asr(rd, rs1, src),
        Instr::Jmpl { rd, rs1, src } => format3(ARITHMETIC, rd, 0x38, rs1, src),
        Instr::Rett { rs1, src } => format3(ARITHMETIC, 0, 0x39, rs1, src),
        Instr::Flush { rs1, src } => format3(ARITHMETIC, 0, 0x3b, rs1, src),
        Instr::Save { rd, rs1, src } => format3(ARITHMETIC, rd, 0x3c, rs1, src),
        Instr::Restore { rd, rs1, src } => format3(ARITHMETIC, rd, 0x3d, rs1, src),
        Instr::Mem { name, rd, rs1, src } => words::access(name, rd, rs1, src),
        Instr::Alternate {
            name,
            rd,
            rs1,
            rs2,
            asi,
        } => { words::alternate_access(name, rd, rs1, rs2, asi) }
    }
}
