//! The instructions of a generated program.

ghost use Rattle.std.specs.Prelude.{◌≡◌, ◌<◌, ◌+◌, ◌%◌, ◌^◌, ℕ, true};
ghost use Rattle.lf_model.specs.Instructions.{rd_fits};
ghost use Rattle.work_gen.specs.Program.{result_of, left_of, right_of, place_of, calculation, word_access, byte_access, atomic, body_instruction, set_data, set_number};
ghost use Rattle.work_gen.specs.Encoding.{IsEncodable};

use v8_word::{CalcName, Instr, MemName, Src};

/// %g1, which holds the address of the data.
const DATA_REGISTER: u8 = 1;

/// The first of the registers %g2 to %g7, on which the body works.
const FIRST_REGISTER: u8 = 2;

/// %o0.
const NUMBER_REGISTER: u8 = 8;

/// `ta 0`, which ends a core's run.
pub const TRAP_ALWAYS: Instr = Instr::Ticc {
    cond: 8,
    rs1: 0,
    src: Src::Imm(0),
};

/// One of the registers of the body, by a field of a draw.
fn register(field: u32) -> u8
    ensures { result ≡ 2 + field % 6 }
{
    FIRST_REGISTER + (field % 6) as u8
}

/// The register of the result, or of what is stored.
fn result_of(draw: u32) -> u8
    ensures { result ≡ result_of draw }
{
    register(draw / 8)
}

/// The number of a word or byte of the data.
fn place_of(draw: u32) -> u32
    ensures { result ≡ place_of draw }
{
    draw / 4096 % 256
}

/// A calculation with two registers.
fn calculation(name: CalcName, draw: u32) -> Instr
    ensures instruction { result ≡ calculation name draw }
    ensures encodable { IsEncodable result }
{
    Instr::Calc {
        name,
        rd: result_of(draw),
        rs1: register(draw / 64),
        src: Src::Reg(register(draw / 512)),
    }
}

/// An access to a word of the data.
fn word_access(name: MemName, draw: u32) -> Instr
    requires single { (rd : ℕ) → rd_fits name rd ≡ true }
    ensures instruction { result ≡ word_access name draw }
    ensures encodable { IsEncodable result }
{
    Instr::Mem {
        name,
        rd: result_of(draw),
        rs1: DATA_REGISTER,
        src: Src::Imm(4 * place_of(draw)),
    }
}

/// An access to a byte of the data.
fn byte_access(name: MemName, draw: u32) -> Instr
    requires single { (rd : ℕ) → rd_fits name rd ≡ true }
    ensures instruction { result ≡ byte_access name draw }
    ensures encodable { IsEncodable result }
{
    Instr::Mem {
        name,
        rd: result_of(draw),
        rs1: DATA_REGISTER,
        src: Src::Imm(place_of(draw)),
    }
}

/// An atomic, of a word or of a byte.
fn atomic(draw: u32) -> Instr
    ensures instruction { result ≡ atomic draw }
    ensures encodable { IsEncodable result }
{
    if place_of(draw) % 2 == 0 {
        word_access(MemName::Swap, draw)
    } else {
        byte_access(MemName::Ldstub, draw)
    }
}

/// The instruction that a draw makes.
#[tactic(auto, unfolding(crate::specs::Program::body_instruction))]
pub fn body_instruction(draw: u32) -> Instr
    ensures instruction { result ≡ body_instruction draw }
    ensures encodable { IsEncodable result }
{
    match draw % 8 {
        0 => calculation(CalcName::Add, draw),
        1 => calculation(CalcName::Xor, draw),
        2 => calculation(CalcName::UMul, draw),
        3 => calculation(CalcName::Sub, draw),
        4 => word_access(MemName::Ld, draw),
        5 => word_access(MemName::St, draw),
        6 => byte_access(MemName::Stb, draw),
        _ => atomic(draw),
    }
}

/// SETHI of the address of the data, a multiple of 4096, to %g1.
pub fn set_data(address: u32) -> Instr
    ensures instruction { result ≡ set_data address }
    ensures encodable { IsEncodable result }
{
    Instr::Sethi {
        rd: DATA_REGISTER,
        imm22: address >> 10,
    }
}

/// Adds a number to %o0 and puts the sum into the register of the body with that number.
pub fn set_number(n: u8) -> Instr
    requires { n < 6 }
    ensures instruction { result ≡ set_number n }
    ensures encodable { IsEncodable result }
{
    Instr::Calc {
        name: CalcName::Add,
        rd: FIRST_REGISTER + n,
        rs1: NUMBER_REGISTER,
        src: Src::Imm(u32::from(n)),
    }
}
