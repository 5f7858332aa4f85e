ghost use Rattle.std.specs.Prelude.{◌≡◌, ◌*◌, ◌^◌, ◌<◌, ◌≤◌, ◌++◌, fold, IfOk, IfErr};
ghost use Rattle.lf_num.specs.Bits.{sign_extended};
ghost use Rattle.lf_model.specs.Course.Touches.{write_touches};
ghost use Rattle.lf_model.specs.Effect.{cell_written};
ghost use Rattle.lf_model.specs.Instructions.{operand_registers, src_registers, stored_registers};
ghost use Rattle.lf_model.specs.Memory.{size_of, stored_number};
ghost use Rattle.lf_model.specs.State.{with_register};
ghost use Rattle.lf_model.specs.Step.{state_of};
ghost use Rattle.v8_exec.specs.Accesses.{ReadsNumber, ReadsRequest};
ghost use Rattle.v8_exec.specs.Reading.{IsSource, HasPair, ReadsRegister, ReadsSource, ReadsOperands};
ghost use Rattle.v8_exec.specs.Touching.{read_of, reads_of};

use crate::ports::Ports;
use lf_model::control::Arch;
use lf_model::instruction::{MemName, Src};
use lf_model::step::RegBad;
use v8_windows::cell;

/// The values of the two operands.
#[derive(Clone, Copy)]
pub struct Operands {
    pub a: u32,
    pub b: u32,
}

/// simm13 with its sign extended.
fn extended(simm13: u32) -> u32
    requires { simm13 < 8192 }
    ensures { result ≡ sign_extended simm13 13 }
{
    lf_num::sext(simm13, 13)
}

/// Register `n` of the current window, where register 0 is 0.
#[tactic(auto, unfolding(crate::specs::Touching::read_of))]
#[inline(always)]
pub fn read_register<P: Ports>(a: &Arch, n: u8, p: &mut P) -> Result<u32, RegBad>
    requires window { a.now.ctl.cwp < 8 }
    requires register { n < 32 }
    ensures within { IfErr result (λ bad. bad.cell < 136) }
    ensures read { ReadsRegister (P.answers (P.state p.old)) (state_of a.now (P.seen p.old)) n result }
    ensures seen { P.seen p.new ≡ P.seen p.old }
    ensures parts { P.answers (P.state p.new) ≡ P.answers (P.state p.old) }
    ensures touches { P.state p.new ≡ fold P.touch (P.state p.old) (read_of a.now.ctl.cwp n) }
    ensures room { P.room p.old ≤ P.room p.new }
{
    if n == 0 {
        return Ok(0);
    }
    p.reg(cell(a.ctl.cwp, n))
}

/// The value of the second operand.
#[inline(always)]
fn read_source<P: Ports>(a: &Arch, src: Src, p: &mut P) -> Result<u32, RegBad>
    requires window { a.now.ctl.cwp < 8 }
    requires fields { IsSource src }
    ensures within { IfErr result (λ bad. bad.cell < 136) }
    ensures read { ReadsSource (P.answers (P.state p.old)) (state_of a.now (P.seen p.old)) src result }
    ensures seen { P.seen p.new ≡ P.seen p.old }
    ensures parts { P.answers (P.state p.new) ≡ P.answers (P.state p.old) }
    ensures touches { P.state p.new ≡ fold P.touch (P.state p.old) (reads_of (P.answers (P.state p.old)) a.now.ctl.cwp (src_registers src)) }
    ensures room { P.room p.old ≤ P.room p.new }
{
    match src {
        Src::Reg(n) => read_register(a, n, p),
        Src::Imm(simm13) => Ok(extended(simm13)),
    }
}

/// The values of the operands, rs1 first.
#[inline(always)]
pub fn read_operands<P: Ports>(a: &Arch, rs1: u8, src: Src, p: &mut P) -> Result<Operands, RegBad>
    requires window { a.now.ctl.cwp < 8 }
    requires register { rs1 < 32 }
    requires fields { IsSource src }
    ensures within { IfErr result (λ bad. bad.cell < 136) }
    ensures read { ReadsOperands (P.answers (P.state p.old)) (state_of a.now (P.seen p.old)) rs1 src result }
    ensures seen { P.seen p.new ≡ P.seen p.old }
    ensures parts { P.answers (P.state p.new) ≡ P.answers (P.state p.old) }
    ensures touches { P.state p.new ≡ fold P.touch (P.state p.old) (reads_of (P.answers (P.state p.old)) a.now.ctl.cwp (operand_registers rs1 src)) }
    ensures room { P.room p.old ≤ P.room p.new }
{
    let first = read_register(a, rs1, p)?;
    let second = read_source(a, src, p)?;
    Ok(Operands {
        a: first,
        b: second,
    })
}

/// Writes register `n` of the current window; register 0 has no effect.
#[inline(always)]
pub fn write_register<P: Ports>(a: &Arch, n: u8, value: u32, p: &mut P)
    requires window { a.now.ctl.cwp < 8 }
    requires register { n < 32 }
    ensures state { state_of a.now (P.seen p.new) ≡ with_register n value (state_of a.now (P.seen p.old)) }
    ensures site { (P.seen p.new).site ≡ (P.seen p.old).site }
    ensures ops { (P.seen p.new).ops ≡ (P.seen p.old).ops }
    ensures touches { P.state p.new ≡ fold P.touch (P.state p.old) (write_touches (cell_written (state_of a.now (P.seen p.old)) n)) }
    ensures room { P.room p.old ≤ P.room p.new }
{
    if n != 0 {
        p.set_reg(cell(a.ctl.cwp, n), value);
    }
}

/// What an access reads from registers: its address, and the number that it stores, 0 for a load.
#[derive(Clone, Copy)]
pub struct Request {
    pub addr: u32,
    pub value: u64,
}

/// The number that an access stores: from register `rd`, and then from the one after it.
fn read_number<P: Ports>(a: &Arch, name: MemName, rd: u8, p: &mut P) -> Result<u64, RegBad>
    requires window { a.now.ctl.cwp < 8 }
    requires register { rd < 32 }
    requires pair { HasPair name rd }
    ensures within { IfErr result (λ bad. bad.cell < 136) }
    ensures read { ReadsNumber (P.answers (P.state p.old)) (state_of a.now (P.seen p.old)) (stored_registers name rd) (stored_number name rd (state_of a.now (P.seen p.old))) result }
    ensures fits { IfOk result (λ value. value < 2 ^ (8 * size_of name)) }
    ensures seen { P.seen p.new ≡ P.seen p.old }
    ensures parts { P.answers (P.state p.new) ≡ P.answers (P.state p.old) }
    ensures touches { P.state p.new ≡ fold P.touch (P.state p.old) (reads_of (P.answers (P.state p.old)) a.now.ctl.cwp (stored_registers name rd)) }
    ensures room { P.room p.old ≤ P.room p.new }
{
    match name {
        MemName::Stb => Ok(u64::from(read_register(a, rd, p)? % 256)),
        MemName::Sth => Ok(u64::from(read_register(a, rd, p)? % 65536)),
        MemName::St | MemName::Swap => Ok(u64::from(read_register(a, rd, p)?)),
        MemName::Std => {
            let first = u64::from(read_register(a, rd, p)?);
            let second = u64::from(read_register(a, rd + 1, p)?);
            Ok((first << 32) + second)
        }
        MemName::Ldstub => Ok(0xff),
        MemName::Ld
        | MemName::Ldub
        | MemName::Lduh
        | MemName::Ldd
        | MemName::Ldsb
        | MemName::Ldsh => Ok(0),
    }
}

/// What an access reads, in the order rs1, rs2, `rd` and the register after it.
pub fn read_request<P: Ports>(
    a: &Arch,
    name: MemName,
    rd: u8,
    rs1: u8,
    src: Src,
    p: &mut P,
) -> Result<Request, RegBad>
    requires window { a.now.ctl.cwp < 8 }
    requires registers { (rd < 32) × (rs1 < 32) }
    requires fields { IsSource src }
    requires pair { HasPair name rd }
    ensures within { IfErr result (λ bad. bad.cell < 136) }
    ensures read { ReadsRequest (P.answers (P.state p.old)) (state_of a.now (P.seen p.old)) name rd rs1 src result }
    ensures fits { IfOk result (λ x. x.value < 2 ^ (8 * size_of name)) }
    ensures seen { P.seen p.new ≡ P.seen p.old }
    ensures parts { P.answers (P.state p.new) ≡ P.answers (P.state p.old) }
    ensures touches { P.state p.new ≡ fold P.touch (P.state p.old) (reads_of (P.answers (P.state p.old)) a.now.ctl.cwp (operand_registers rs1 src ++ stored_registers name rd)) }
    ensures room { P.room p.old ≤ P.room p.new }
{
    let operands = read_operands(a, rs1, src, p)?;
    let value = read_number(a, name, rd, p)?;
    Ok(Request {
        addr: operands.a.wrapping_add(operands.b),
        value,
    })
}
