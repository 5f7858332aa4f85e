//! The words of instructions with fields of their own: displacements, conditions, state registers and
//! even registers.

ghost use Rattle.std.specs.Prelude.{◌≡◌, IfSome, is_some};
ghost use Rattle.lf_model.specs.Instructions.{instruction_of, in_range};
ghost use Rattle.v8_encode.specs.Words.{UnnamedAreZero};

use crate::format::{format3, register_form};
use crate::opcode::{ARITHMETIC, MEMORY, mem_op3};
use v8_word::{Instr, MemName, Src, StateName, takes_rd};

/// The second operand of an instruction that has none.
const NO_OPERAND: Src = Src::Reg(0);

/// CALL.
#[tactic(auto, unfolding(lf_model::specs::Instructions::instruction_of))]
pub fn call(disp30: u32) -> Option<u32>
    ensures range { is_some result ≡ in_range (Instr.Call disp30) }
    ensures back { IfSome result (λ w. instruction_of w ≡ Instr.Call disp30) }
{
    if disp30 < 1 << 30 {
        Some(1 << 30 | disp30)
    } else {
        None
    }
}

/// SETHI.
#[tactic(auto, unfolding(lf_model::specs::Instructions::instruction_of, lf_model::specs::Instructions::branch))]
pub fn sethi(rd: u8, imm22: u32) -> Option<u32>
    ensures range { is_some result ≡ in_range (Instr.Sethi rd imm22) }
    ensures back { IfSome result (λ w. instruction_of w ≡ Instr.Sethi rd imm22) }
{
    if imm22 < 1 << 22 && rd < 32 {
        Some(u32::from(rd) << 25 | (4 << 22 | imm22))
    } else {
        None
    }
}

/// Bicc.
#[tactic(auto, unfolding(lf_model::specs::Instructions::instruction_of, lf_model::specs::Instructions::branch))]
pub fn branch(cond: u8, a: bool, disp22: u32) -> Option<u32>
    ensures range { is_some result ≡ in_range (Instr.Bicc cond a disp22) }
    ensures back { IfSome result (λ w. instruction_of w ≡ Instr.Bicc cond a disp22) }
{
    if cond < 16 && disp22 < 1 << 22 {
        Some(u32::from(a) << 29 | (u32::from(cond) << 25 | (2 << 22 | disp22)))
    } else {
        None
    }
}

/// Ticc.
#[tactic(auto, unfolding(lf_model::specs::Instructions::instruction_of, lf_model::specs::Instructions::arithmetic))]
pub fn trap(cond: u8, rs1: u8, src: Src) -> Option<u32>
    ensures range { is_some result ≡ in_range (Instr.Ticc cond rs1 src) }
    ensures back { IfSome result (λ w. instruction_of w ≡ Instr.Ticc cond rs1 src) }
    ensures unnamed { IfSome result (UnnamedAreZero (Instr.Ticc cond rs1 src)) }
{
    if cond < 16 {
        format3(ARITHMETIC, cond, 0x3a, rs1, src)
    } else {
        None
    }
}

/// RDY, RDPSR, RDWIM and RDTBR.
#[tactic(auto, unfolding(lf_model::specs::Instructions::instruction_of, lf_model::specs::Instructions::arithmetic))]
pub fn read_state(name: StateName, rd: u8) -> Option<u32>
    ensures range { is_some result ≡ in_range (Instr.ReadState name rd) }
    ensures back { IfSome result (λ w. instruction_of w ≡ Instr.ReadState name rd) }
    ensures unnamed { IfSome result (UnnamedAreZero (Instr.ReadState name rd)) }
{
    match name {
        StateName::Y => format3(ARITHMETIC, rd, 0x28, 0, NO_OPERAND),
        StateName::Psr => format3(ARITHMETIC, rd, 0x29, 0, NO_OPERAND),
        StateName::Wim => format3(ARITHMETIC, rd, 0x2a, 0, NO_OPERAND),
        StateName::Tbr => format3(ARITHMETIC, rd, 0x2b, 0, NO_OPERAND),
    }
}

/// RDASR.
#[tactic(auto, unfolding(lf_model::specs::Instructions::instruction_of, lf_model::specs::Instructions::arithmetic))]
pub fn read_asr(rd: u8, rs1: u8) -> Option<u32>
    ensures range { is_some result ≡ in_range (Instr.ReadAsr rd rs1) }
    ensures back { IfSome result (λ w. instruction_of w ≡ Instr.ReadAsr rd rs1) }
    ensures unnamed { IfSome result (UnnamedAreZero (Instr.ReadAsr rd rs1)) }
{
    match rs1 {
        17 | 19 => format3(ARITHMETIC, rd, 0x28, rs1, NO_OPERAND),
        _ => None,
    }
}

/// WRY, WRPSR, WRWIM and WRTBR.
#[tactic(auto, unfolding(lf_model::specs::Instructions::instruction_of, lf_model::specs::Instructions::arithmetic))]
pub fn write_state(name: StateName, rs1: u8, src: Src) -> Option<u32>
    ensures range { is_some result ≡ in_range (Instr.WriteState name rs1 src) }
    ensures back { IfSome result (λ w. instruction_of w ≡ Instr.WriteState name rs1 src) }
    ensures unnamed { IfSome result (UnnamedAreZero (Instr.WriteState name rs1 src)) }
{
    match name {
        StateName::Y => format3(ARITHMETIC, 0, 0x30, rs1, src),
        StateName::Psr => format3(ARITHMETIC, 0, 0x31, rs1, src),
        StateName::Wim => format3(ARITHMETIC, 0, 0x32, rs1, src),
        StateName::Tbr => format3(ARITHMETIC, 0, 0x33, rs1, src),
    }
}

/// WRASR.
#[tactic(auto, unfolding(lf_model::specs::Instructions::instruction_of, lf_model::specs::Instructions::arithmetic))]
pub fn write_asr(rd: u8, rs1: u8, src: Src) -> Option<u32>
    ensures range { is_some result ≡ in_range (Instr.WriteAsr rd rs1 src) }
    ensures back { IfSome result (λ w. instruction_of w ≡ Instr.WriteAsr rd rs1 src) }
    ensures unnamed { IfSome result (UnnamedAreZero (Instr.WriteAsr rd rs1 src)) }
{
    match rd {
        17 | 19 => format3(ARITHMETIC, rd, 0x30, rs1, src),
        _ => None,
    }
}

/// A load, store or atomic.
#[tactic(auto, unfolding(lf_model::specs::Instructions::instruction_of, lf_model::specs::Instructions::memory))]
pub fn access(name: MemName, rd: u8, rs1: u8, src: Src) -> Option<u32>
    ensures range { is_some result ≡ in_range (Instr.Mem name rd rs1 src) }
    ensures back { IfSome result (λ w. instruction_of w ≡ Instr.Mem name rd rs1 src) }
    ensures unnamed { IfSome result (UnnamedAreZero (Instr.Mem name rd rs1 src)) }
{
    if takes_rd(name, rd) {
        format3(MEMORY, rd, mem_op3(name), rs1, src)
    } else {
        None
    }
}

/// A load, store or atomic of an alternate space.
#[tactic(auto, unfolding(lf_model::specs::Instructions::instruction_of, lf_model::specs::Instructions::memory))]
pub fn alternate_access(name: MemName, rd: u8, rs1: u8, rs2: u8, asi: u8) -> Option<u32>
    ensures range { is_some result ≡ in_range (Instr.Alternate name rd rs1 rs2 asi) }
    ensures back { IfSome result (λ w. instruction_of w ≡ Instr.Alternate name rd rs1 rs2 asi) }
{
    if takes_rd(name, rd) && rd < 32 && rs1 < 32 && rs2 < 32 {
        Some(register_form(MEMORY, rd, mem_op3(name) + 16, rs1, rs2, asi))
    } else {
        None
    }
}
