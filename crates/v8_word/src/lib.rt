//! The SPARC V8 instruction word: what instruction a word is, which registers an instruction reads, and
//! whether it is privileged (SPARC V8, appendix F, opcodes and condition codes). No call takes memory.
#![tactic(auto)]

ghost use Rattle.std.specs.Prelude.{◌≡◌, ◌-◌, ◌<◌, ◌++◌, IsTrue, length, replicate};
ghost use Rattle.lf_model.specs.Instructions.{registers_fit, registers_read, stored_registers, operand_registers, is_privileged};

mod common;
mod decoder;
mod fields;
mod registers;

pub use common::{
    Access, Branch, Calculation, HighBits, access_of, branch_of, calculation_of, high_bits_of,
};
pub use decoder::{decode, takes_rd};
pub use lf_model::instruction::{CalcName, Instr, MemName, Src, StateName};
pub use registers::Reads;

/// The registers of the operands: rs1, then rs2 where the second operand is a register.
fn operand_reads(rs1: u8, src: Src) -> Reads
    ensures registers { result.regs ≡ operand_registers rs1 src ++ replicate (4 - result.count) 0 }
    ensures count { result.count ≡ length (operand_registers rs1 src) }
{
    match src {
        Src::Reg(rs2) => Reads {
            regs: [rs1, rs2, 0, 0],
            count: 2,
        },
        Src::Imm(_) => Reads {
            regs: [rs1, 0, 0, 0],
            count: 1,
        },
    }
}

/// The registers that a load, store or atomic with these fields reads.
fn memory_reads(name: MemName, rd: u8, rs1: u8, src: Src) -> Reads
    requires { rd < 32 }
    ensures registers { result.regs ≡
        operand_registers rs1 src ++ stored_registers name rd ++ replicate (4 - result.count) 0 }
    ensures count { result.count ≡ length (operand_registers rs1 src ++ stored_registers name rd) }
{
    match (name, src) {
        (MemName::Std, Src::Reg(rs2)) => Reads {
            regs: [rs1, rs2, rd, rd + 1],
            count: 4,
        },
        (MemName::Std, Src::Imm(_)) => Reads {
            regs: [rs1, rd, rd + 1, 0],
            count: 3,
        },
        (MemName::St | MemName::Stb | MemName::Sth | MemName::Swap, Src::Reg(rs2)) => {
            Reads {
                regs: [rs1, rs2, rd, 0],
                count: 3,
            }
        }
        (MemName::St | MemName::Stb | MemName::Sth | MemName::Swap, Src::Imm(_)) => {
            Reads {
                regs: [rs1, rd, 0, 0],
                count: 2,
            }
        }
        _ => operand_reads(rs1, src),
    }
}

/// The registers that an instruction reads, in order: rs1, then rs2 where the second operand is a
/// register, then rd of a store and of SWAP, and rd and rd + 1 of a doubleword store. Register 0 is
/// among them where a field names it.
pub fn reads(i: &Instr) -> Reads
    requires { IsTrue (registers_fit i.now) }
    ensures registers { result.regs ≡ registers_read i.now ++ replicate (4 - result.count) 0 }
    ensures count { result.count ≡ length (registers_read i.now) }
{
    match *i {
        Instr::Calc { rs1, src, .. }
        | Instr::Ticc { rs1, src, .. }
        | Instr::WriteState { rs1, src, .. }
        | Instr::WriteAsr { rs1, src, .. }
        | Instr::Jmpl { rs1, src, .. }
        | Instr::Rett { rs1, src }
        | Instr::Flush { rs1, src }
        | Instr::Save { rs1, src, .. }
        | Instr::Restore { rs1, src, .. } => operand_reads(rs1, src),
        Instr::Mem { name, rd, rs1, src } => memory_reads(name, rd, rs1, src),
        Instr::Alternate {
            name,
            rd,
            rs1,
            rs2,
            ..
        } => memory_reads(name, rd, rs1, Src::Reg(rs2)),
        _ => Reads {
            regs: [0; 4],
            count: 0,
        },
    }
}

/// Whether an instruction is privileged: in user mode it traps `privileged_instruction`.
pub fn supervisor(i: &Instr) -> bool
    ensures { result ≡ is_privileged i.now }
{
    match *i {
        Instr::AltIllegal
        | Instr::FpQueue
        | Instr::CpQueue
        | Instr::Rett { .. }
        | Instr::Alternate { .. } => true,
        Instr::ReadState { name, .. } | Instr::WriteState { name, .. } => {
            !matches!(name, StateName::Y)
        }
        _ => false,
    }
}
