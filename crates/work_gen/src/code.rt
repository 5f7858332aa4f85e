//! The bytes of a generated program.

ghost use Rattle.std.specs.Prelude.{◌≡◌, ◌≤◌, ◌^◌, ◌<◌, ◌++◌, [], ◌∷◌, OnOk, IfOk, All};
ghost use Rattle.work_gen.specs.Program.{start_up, body, program};
ghost use Rattle.work_gen.specs.Encoding.{bytes_of, IsEncodable, IsEncoded};

use crate::draws::Draws;
use crate::program::{TRAP_ALWAYS, body_instruction, set_data, set_number};
use std::alloc::{AllocError, Global};
use v8_encode::encode;
use v8_word::Instr;

/// The instructions of start-up code and of the end, each of 4 bytes.
const FRAME: usize = 8;

/// Adds the word of an instruction, big-endian.
fn push(code: &mut Vec<u8>, instruction: &Instr) -> Result<(), AllocError>
    requires { IsEncodable instruction.now }
    ensures bytes { OnOk result (code.new.items ≡ code.old.items ++ bytes_of (instruction.now ∷ [])) }
    ensures encoded { OnOk result (IsEncoded instruction.now) }
{
    let word = encode(instruction).unwrap();
    code.extend_from_slice(&word.to_be_bytes())?;
    Ok(())
}

/// Adds the start-up code of a program whose data lie at this address.
fn push_start_up(code: &mut Vec<u8>, address: u32) -> Result<(), AllocError>
    ensures bytes { OnOk result (code.new.items ≡ code.old.items ++ bytes_of (start_up address)) }
    ensures encoded { OnOk result (All IsEncoded (start_up address)) }
{
    push(code, &set_data(address))?;
    for n in 0..6 {
        push(code, &set_number(n))?;
    }
    Ok(())
}

/// Adds the body of a program: an instruction for each draw.
fn push_body(code: &mut Vec<u8>, start: u64, size: u32) -> Result<(), AllocError>
    ensures bytes { OnOk result (code.new.items ≡ code.old.items ++ bytes_of (body start size)) }
    ensures encoded { OnOk result (All IsEncoded (body start size)) }
{
    let mut draws = Draws::new(start);
    for _i in 0..size {
        push(code, &body_instruction(draws.draw()))?;
    }
    Ok(())
}

/// The code of a program, in memory that is reserved before.
pub fn code_of(alloc: Global, address: u32, start: u64, size: u32) -> Result<Vec<u8>, AllocError>
    requires { size ≤ 100000 }
    ensures bytes { IfOk result (λ code. code.items ≡ bytes_of (program address start size)) }
    ensures encoded { OnOk result (All IsEncoded (program address start size)) }
{
    let mut code = Vec::with_capacity(alloc, 4 * (size as usize + FRAME))?;
    push_start_up(&mut code, address)?;
    push_body(&mut code, start, size)?;
    push(&mut code, &TRAP_ALWAYS)?;
    Ok(code)
}
