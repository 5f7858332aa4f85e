//! The numbers of op and op3 (SPARC V8, appendix F, opcodes and condition codes).

ghost use Rattle.std.specs.Prelude.{◌≡◌, ◌+◌, ◌<◌};
ghost use Rattle.lf_model.specs.Instructions.{row, arithmetic_rows, memory_rows, calc, mem, alternate};

use v8_word::{CalcName, MemName};

/// op of the arithmetic, control and state register instructions.
pub const ARITHMETIC: u32 = 2;

/// op of the loads, stores and atomics.
pub const MEMORY: u32 = 3;

/// op3 of an instruction that calculates.
pub fn calc_op3(name: CalcName) -> u32
    ensures row { row arithmetic_rows result ≡ Some (calc name) }
    ensures small { result < 64 }
{
    match name {
        CalcName::Add => 0x00,
        CalcName::And => 0x01,
        CalcName::Or => 0x02,
        CalcName::Xor => 0x03,
        CalcName::Sub => 0x04,
        CalcName::AndN => 0x05,
        CalcName::OrN => 0x06,
        CalcName::XNor => 0x07,
        CalcName::AddX => 0x08,
        CalcName::UMul => 0x0a,
        CalcName::SMul => 0x0b,
        CalcName::SubX => 0x0c,
        CalcName::UDiv => 0x0e,
        CalcName::SDiv => 0x0f,
        CalcName::AddCc => 0x10,
        CalcName::AndCc => 0x11,
        CalcName::OrCc => 0x12,
        CalcName::XorCc => 0x13,
        CalcName::SubCc => 0x14,
        CalcName::AndNCc => 0x15,
        CalcName::OrNCc => 0x16,
        CalcName::XNorCc => 0x17,
        CalcName::AddXCc => 0x18,
        CalcName::UMulCc => 0x1a,
        CalcName::SMulCc => 0x1b,
        CalcName::SubXCc => 0x1c,
        CalcName::UDivCc => 0x1e,
        CalcName::SDivCc => 0x1f,
        CalcName::TAddCc => 0x20,
        CalcName::TSubCc => 0x21,
        CalcName::TAddCcTv => 0x22,
        CalcName::TSubCcTv => 0x23,
        CalcName::MulScc => 0x24,
        CalcName::Sll => 0x25,
        CalcName::Srl => 0x26,
        CalcName::Sra => 0x27,
    }
}

/// op3 of a load, store or atomic; that of its alternate form is 16 more.
pub fn mem_op3(name: MemName) -> u32
    ensures row { row memory_rows result ≡ Some (mem name) }
    ensures alternate { row memory_rows (result + 16) ≡ Some (alternate name) }
    ensures small { result < 16 }
{
    match name {
        MemName::Ld => 0x00,
        MemName::Ldub => 0x01,
        MemName::Lduh => 0x02,
        MemName::Ldd => 0x03,
        MemName::St => 0x04,
        MemName::Stb => 0x05,
        MemName::Sth => 0x06,
        MemName::Std => 0x07,
        MemName::Ldsb => 0x09,
        MemName::Ldsh => 0x0a,
        MemName::Ldstub => 0x0d,
        MemName::Swap => 0x0f,
    }
}
