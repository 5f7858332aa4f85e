//! The instruction of a word, by the opcode tables (SPARC V8, appendix F, opcodes and condition codes).

ghost use Rattle.std.specs.Prelude.{◌≡◌, ◌≤◌, IsTrue};
ghost use Rattle.lf_model.specs.Fields.{op3_of, rs1_of, rd_of};
ghost use Rattle.lf_model.specs.Instructions.{instruction_of, branch, arithmetic, memory, by_field, read_rows, write_rows, calc, ticc, read_state, write_state, mem, alternate, rd_fits, in_range};

use crate::fields::{annul, asi, cond, disp22, disp30, i, imm22, op, op2, op3, rd, rs1, rs2, src};
use lf_model::instruction::{CalcName, Instr, MemName, StateName};

/// op = 0: branches and SETHI.
#[tactic(auto, unfolding(lf_model::specs::Instructions::branch))]
fn decode_branch(w: u32) -> Instr
    ensures row { result ≡ branch w }
    ensures range { IsTrue (in_range result) }
{
    match op2(w) {
        2 => Instr::Bicc {
            cond: cond(w),
            a: annul(w),
            disp22: disp22(w),
        },
        4 => Instr::Sethi {
            rd: rd(w),
            imm22: imm22(w),
        },
        6 => Instr::FpOff,
        7 => Instr::CpOff,
        _ => Instr::Illegal,
    }
}

fn calculation(w: u32, name: CalcName) -> Instr
    ensures row { result ≡ calc name w }
    ensures range { IsTrue (in_range result) }
{
    let (rd, rs1, src) = (rd(w), rs1(w), src(w));
    Instr::Calc { name, rd, rs1, src }
}

fn state_read(w: u32, name: StateName) -> Instr
    ensures row { result ≡ read_state name w }
    ensures range { IsTrue (in_range result) }
{
    Instr::ReadState { name, rd: rd(w) }
}

fn state_write(w: u32, name: StateName) -> Instr
    ensures row { result ≡ write_state name w }
    ensures range { IsTrue (in_range result) }
{
    let (rs1, src) = (rs1(w), src(w));
    Instr::WriteState { name, rs1, src }
}

fn decode_trap(w: u32) -> Instr
    ensures row { result ≡ ticc w }
    ensures range { IsTrue (in_range result) }
{
    let (cond, rs1, src) = (cond(w), rs1(w), src(w));
    Instr::Ticc { cond, rs1, src }
}

/// RDY, STBAR and RDASR: the instructions of op3 = 0x28, which rs1 tells apart.
fn decode_read(w: u32) -> Instr
    ensures row { result ≡ by_field rs1_of read_rows w }
    ensures range { IsTrue (in_range result) }
{
    let (rd, rs1) = (rd(w), rs1(w));
    match rs1 {
        0 => state_read(w, StateName::Y),
        15 if rd == 0 => Instr::Stbar,
        17 | 19 => Instr::ReadAsr { rd, rs1 },
        _ => Instr::Illegal,
    }
}

/// WRY and WRASR: the instructions of op3 = 0x30, which rd tells apart.
fn decode_write(w: u32) -> Instr
    ensures row { result ≡ by_field rd_of write_rows w }
    ensures range { IsTrue (in_range result) }
{
    let (rd, rs1, src) = (rd(w), rs1(w), src(w));
    match rd {
        0 => state_write(w, StateName::Y),
        17 | 19 => Instr::WriteAsr { rd, rs1, src },
        _ => Instr::Illegal,
    }
}

/// op = 2 and op3 from 0x28 on: state registers, jumps, traps, FLUSH and windows.
#[tactic(auto, unfolding(lf_model::specs::Instructions::arithmetic))]
fn decode_control(w: u32) -> Instr
    requires { 0x28 ≤ op3_of w }
    ensures row { result ≡ arithmetic w }
    ensures range { IsTrue (in_range result) }
{
    let (rd, rs1, src) = (rd(w), rs1(w), src(w));
    match op3(w) {
        0x28 => decode_read(w),
        0x29 => state_read(w, StateName::Psr),
        0x2a => state_read(w, StateName::Wim),
        0x2b => state_read(w, StateName::Tbr),
        0x30 => decode_write(w),
        0x31 => state_write(w, StateName::Psr),
        0x32 => state_write(w, StateName::Wim),
        0x33 => state_write(w, StateName::Tbr),
        0x34 | 0x35 => Instr::FpOff,
        0x36 | 0x37 => Instr::CpOff,
        0x38 => Instr::Jmpl { rd, rs1, src },
        0x39 => Instr::Rett { rs1, src },
        0x3a => decode_trap(w),
        0x3b => Instr::Flush { rs1, src },
        0x3c => Instr::Save { rd, rs1, src },
        0x3d => Instr::Restore { rd, rs1, src },
        _ => Instr::Illegal,
    }
}

/// op = 2: arithmetic and control.
#[tactic(auto, unfolding(lf_model::specs::Instructions::arithmetic))]
fn decode_arithmetic(w: u32) -> Instr
    ensures row { result ≡ arithmetic w }
    ensures range { IsTrue (in_range result) }
{
    match op3(w) {
        0x00 => calculation(w, CalcName::Add),
        0x01 => calculation(w, CalcName::And),
        0x02 => calculation(w, CalcName::Or),
        0x03 => calculation(w, CalcName::Xor),
        0x04 => calculation(w, CalcName::Sub),
        0x05 => calculation(w, CalcName::AndN),
        0x06 => calculation(w, CalcName::OrN),
        0x07 => calculation(w, CalcName::XNor),
        0x08 => calculation(w, CalcName::AddX),
        0x0a => calculation(w, CalcName::UMul),
        0x0b => calculation(w, CalcName::SMul),
        0x0c => calculation(w, CalcName::SubX),
        0x0e => calculation(w, CalcName::UDiv),
        0x0f => calculation(w, CalcName::SDiv),
        0x10 => calculation(w, CalcName::AddCc),
        0x11 => calculation(w, CalcName::AndCc),
        0x12 => calculation(w, CalcName::OrCc),
        0x13 => calculation(w, CalcName::XorCc),
        0x14 => calculation(w, CalcName::SubCc),
        0x15 => calculation(w, CalcName::AndNCc),
        0x16 => calculation(w, CalcName::OrNCc),
        0x17 => calculation(w, CalcName::XNorCc),
        0x18 => calculation(w, CalcName::AddXCc),
        0x1a => calculation(w, CalcName::UMulCc),
        0x1b => calculation(w, CalcName::SMulCc),
        0x1c => calculation(w, CalcName::SubXCc),
        0x1e => calculation(w, CalcName::UDivCc),
        0x1f => calculation(w, CalcName::SDivCc),
        0x20 => calculation(w, CalcName::TAddCc),
        0x21 => calculation(w, CalcName::TSubCc),
        0x22 => calculation(w, CalcName::TAddCcTv),
        0x23 => calculation(w, CalcName::TSubCcTv),
        0x24 => calculation(w, CalcName::MulScc),
        0x25 => calculation(w, CalcName::Sll),
        0x26 => calculation(w, CalcName::Srl),
        0x27 => calculation(w, CalcName::Sra),
        0x28.. => decode_control(w),
        _ => Instr::Illegal,
    }
}

/// Whether a load, store or atomic may have this number in its field rd: the doubleword forms, LDD and STD,
/// take an even register, all others any (SPARC V8, appendix B, load and store instructions).
pub fn takes_rd(name: MemName, rd: u8) -> bool
    ensures { result ≡ rd_fits name rd }
{
    match name {
        MemName::Ldd | MemName::Std => rd % 2 == 0,
        _ => true,
    }
}

fn plain_access(w: u32, name: MemName) -> Instr
    ensures row { result ≡ mem name w }
    ensures range { IsTrue (in_range result) }
{
    let (rd, rs1, src) = (rd(w), rs1(w), src(w));
    if takes_rd(name, rd) {
        Instr::Mem { name, rd, rs1, src }
    } else {
        Instr::Illegal
    }
}

fn alternate_access(w: u32, name: MemName) -> Instr
    ensures row { result ≡ alternate name w }
    ensures range { IsTrue (in_range result) }
{
    if i(w) == 0 && takes_rd(name, rd(w)) {
        Instr::Alternate {
            name,
            rd: rd(w),
            rs1: rs1(w),
            rs2: rs2(w),
            asi: asi(w),
        }
    } else {
        Instr::AltIllegal
    }
}

/// op = 3: loads, stores and atomics.
#[tactic(auto, unfolding(lf_model::specs::Instructions::memory))]
fn decode_memory(w: u32) -> Instr
    ensures row { result ≡ memory w }
    ensures range { IsTrue (in_range result) }
{
    match op3(w) {
        0x00 => plain_access(w, MemName::Ld),
        0x01 => plain_access(w, MemName::Ldub),
        0x02 => plain_access(w, MemName::Lduh),
        0x03 => plain_access(w, MemName::Ldd),
        0x04 => plain_access(w, MemName::St),
        0x05 => plain_access(w, MemName::Stb),
        0x06 => plain_access(w, MemName::Sth),
        0x07 => plain_access(w, MemName::Std),
        0x09 => plain_access(w, MemName::Ldsb),
        0x0a => plain_access(w, MemName::Ldsh),
        0x0d => plain_access(w, MemName::Ldstub),
        0x0f => plain_access(w, MemName::Swap),
        0x10 => alternate_access(w, MemName::Ld),
        0x11 => alternate_access(w, MemName::Ldub),
        0x12 => alternate_access(w, MemName::Lduh),
        0x13 => alternate_access(w, MemName::Ldd),
        0x14 => alternate_access(w, MemName::St),
        0x15 => alternate_access(w, MemName::Stb),
        0x16 => alternate_access(w, MemName::Sth),
        0x17 => alternate_access(w, MemName::Std),
        0x19 => alternate_access(w, MemName::Ldsb),
        0x1a => alternate_access(w, MemName::Ldsh),
        0x1d => alternate_access(w, MemName::Ldstub),
        0x1f => alternate_access(w, MemName::Swap),
        0x20 | 0x21 | 0x23..=0x25 | 0x27 => Instr::FpOff,
        0x26 => Instr::FpQueue,
        0x30 | 0x31 | 0x33..=0x35 | 0x37 => Instr::CpOff,
        0x36 => Instr::CpQueue,
        _ => Instr::Illegal,
    }
}

/// The instruction that a word is (SPARC V8, appendix F, opcodes and condition codes). Bits that the
/// instruction does not name are ignored. Its fields are in their ranges: register numbers below 32,
/// conditions below 16, immediate operands below 2 to the 13, displacements and `imm22` below 2 to their
/// number of bits, an even rd of LDD, STD and their alternate forms, and 17 or 19 as the number of an
/// ancillary state register.
#[tactic(auto, unfolding(lf_model::specs::Instructions::instruction_of))]
pub fn decode(w: u32) -> Instr
    ensures row { result ≡ instruction_of w }
    ensures range { IsTrue (in_range result) }
{
    match op(w) {
        0 => decode_branch(w),
        1 => Instr::Call { disp30: disp30(w) },
        2 => decode_arithmetic(w),
        _ => decode_memory(w),
    }
}
