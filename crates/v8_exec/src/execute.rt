ghost use Rattle.std.specs.Prelude.{◌≡◌, ◌<◌, ◌+◌, ◌^◌, fold, IfOk, IfErr};
ghost use Rattle.lf_model.specs.Effects.{effect};
ghost use Rattle.lf_model.specs.Instructions.{instruction_of, registers_read};
ghost use Rattle.lf_model.specs.Traps.{fetch_trap};
ghost use Rattle.lf_model.specs.Step.{IsSound, state_of, run_seen, first_bad, counted, Does};
ghost use Rattle.v8_exec.specs.Accesses.{Asks, IsAccessing};
ghost use Rattle.v8_exec.specs.Frame.{bad_in, Performs, Keeps, Refuses, Counts};
ghost use Rattle.v8_exec.specs.Reading.{IsInstruction};
ghost use Rattle.v8_exec.specs.Touching.{Touches, touches_of};

use crate::ports::Ports;
use crate::words::{access_of, branch_of, calculation_of, decoded, high_bits_of};
use crate::{barrier, branch, calculate, common, memory, refuse, state_register, trap, windows};
use lf_model::control::Arch;
use lf_model::instruction::Instr;
use lf_model::step::{Did, RegBad};
use v8_traps::INSTRUCTION_ACCESS_EXCEPTION;

/// Reads an instruction's registers and makes its effect, or answers the first of them that is bad.
fn perform<P: Ports>(a: &mut Arch, instr: Instr, p: &mut P) -> Result<Did, RegBad>
    requires sound { IsSound a.old }
    requires core { a.old.core ≡ (P.seen p.old).site.core }
    requires count { a.old.k + 1 < 2 ^ 32 }
    requires fields { IsInstruction instr }
    requires room { 0 < P.room p.old }
    ensures read { first_bad (P.answers (P.state p.old)) a.old.ctl.cwp (registers_read instr) ≡ bad_in result }
    ensures does { IfOk result (λ did. Performs instr (P.answers (P.state p.old)) did a.old a.new (P.seen p.old) (P.seen p.new)) }
    ensures touches { Touches P.touch instr (P.answers (P.state p.old)) result a.old (P.seen p.old) (P.state p.old) (P.state p.new) }
    ensures keeps { IfOk result (λ did. Keeps did a.old a.new (P.seen p.old) (P.seen p.new) (P.room p.old) (P.room p.new)) }
    ensures refuses { IfErr result (λ bad. Refuses bad a.old a.new (P.seen p.old) (P.seen p.new) (P.answers (P.state p.old)) (P.answers (P.state p.new)) (P.room p.old) (P.room p.new)) }
    ensures turn { IsAccessing instr → IfOk result (λ did. Asks (P.seen p.old).site did) }
{
    match instr {
        Instr::Illegal => Ok(refuse::illegal(a, p)),
        Instr::AltIllegal => Ok(refuse::illegal_alternate(a, p)),
        Instr::FpOff => Ok(refuse::floating_point(a, p)),
        Instr::CpOff => Ok(refuse::coprocessor(a, p)),
        Instr::FpQueue => Ok(refuse::floating_point_queue(a, p)),
        Instr::CpQueue => Ok(refuse::coprocessor_queue(a, p)),
        Instr::Stbar => Ok(barrier::store_barrier(a, p)),
        Instr::Flush { rs1, src } => barrier::flush(a, rs1, src, p),
        Instr::Call { disp30 } => Ok(branch::call(a, disp30, p)),
        Instr::Bicc {
            cond,
            a: annul,
            disp22,
        } => Ok(branch::branch(a, cond, annul, disp22, p)),
        Instr::Jmpl { rd, rs1, src } => branch::jump(a, rd, rs1, src, p),
        Instr::Ticc { cond, rs1, src } => branch::software_trap(a, cond, rs1, src, p),
        Instr::Sethi { rd, imm22 } => Ok(calculate::sethi(a, rd, imm22, p)),
        Instr::Calc { name, rd, rs1, src } => calculate::calculate(a, name, rd, rs1, src, p),
        Instr::ReadState { name, rd } => Ok(state_register::read(a, name, rd, p)),
        Instr::ReadAsr { rd, rs1 } => Ok(state_register::read_asr(a, rd, rs1, p)),
        Instr::WriteState { name, rs1, src } => state_register::write(a, name, rs1, src, p),
        Instr::WriteAsr { rd, rs1, src } => state_register::write_asr(a, rd, rs1, src, p),
        Instr::Mem { name, rd, rs1, src } => memory::access(a, name, rd, rs1, src, p),
        Instr::Alternate {
            name,
            rd,
            rs1,
            rs2,
            asi,
        } => memory::alternate(a, name, rd, rs1, rs2, asi, p),
        Instr::Save { rd, rs1, src } => windows::save(a, rd, rs1, src, p),
        Instr::Restore { rd, rs1, src } => windows::restore(a, rd, rs1, src, p),
        Instr::Rett { rs1, src } => windows::return_from_trap(a, rs1, src, p),
    }
}

/// Performs an instruction word of any kind.
#[inline(never)]
fn perform_any<P: Ports>(a: &mut Arch, w: u32, p: &mut P) -> Result<Did, RegBad>
    requires sound { IsSound a.old }
    requires core { a.old.core ≡ (P.seen p.old).site.core }
    requires count { a.old.k + 1 < 2 ^ 32 }
    requires room { 0 < P.room p.old }
    ensures read { first_bad (P.answers (P.state p.old)) a.old.ctl.cwp (registers_read (instruction_of w)) ≡ bad_in result }
    ensures does { IfOk result (λ did. Performs (instruction_of w) (P.answers (P.state p.old)) did a.old a.new (P.seen p.old) (P.seen p.new)) }
    ensures touches { Touches P.touch (instruction_of w) (P.answers (P.state p.old)) result a.old (P.seen p.old) (P.state p.old) (P.state p.new) }
    ensures keeps { IfOk result (λ did. Keeps did a.old a.new (P.seen p.old) (P.seen p.new) (P.room p.old) (P.room p.new)) }
    ensures refuses { IfErr result (λ bad. Refuses bad a.old a.new (P.seen p.old) (P.seen p.new) (P.answers (P.state p.old)) (P.answers (P.state p.new)) (P.room p.old) (P.room p.new)) }
    ensures turn { IsAccessing (instruction_of w) → IfOk result (λ did. Asks (P.seen p.old).site did) }
{
    perform(a, decoded(w), p)
}

/// Performs an instruction word: the common kinds by their fields, all others by what they are decoded to.
fn perform_word<P: Ports>(a: &mut Arch, w: u32, p: &mut P) -> Result<Did, RegBad>
    requires sound { IsSound a.old }
    requires core { a.old.core ≡ (P.seen p.old).site.core }
    requires count { a.old.k + 1 < 2 ^ 32 }
    requires room { 0 < P.room p.old }
    ensures read { first_bad (P.answers (P.state p.old)) a.old.ctl.cwp (registers_read (instruction_of w)) ≡ bad_in result }
    ensures does { IfOk result (λ did. Performs (instruction_of w) (P.answers (P.state p.old)) did a.old a.new (P.seen p.old) (P.seen p.new)) }
    ensures touches { Touches P.touch (instruction_of w) (P.answers (P.state p.old)) result a.old (P.seen p.old) (P.state p.old) (P.state p.new) }
    ensures keeps { IfOk result (λ did. Keeps did a.old a.new (P.seen p.old) (P.seen p.new) (P.room p.old) (P.room p.new)) }
    ensures refuses { IfErr result (λ bad. Refuses bad a.old a.new (P.seen p.old) (P.seen p.new) (P.answers (P.state p.old)) (P.answers (P.state p.new)) (P.room p.old) (P.room p.new)) }
    ensures turn { IsAccessing (instruction_of w) → IfOk result (λ did. Asks (P.seen p.old).site did) }
{
    if let Some(x) = calculation_of(w) {
        return common::calculate_common(a, x.name, x.rd, x.rs1, x.src, p);
    }
    if let Some(x) = access_of(w) {
        return memory::access(a, x.name, x.rd, x.rs1, x.src, p);
    }
    if let Some(x) = high_bits_of(w) {
        return Ok(calculate::sethi(a, x.rd, x.imm22, p));
    }
    if let Some(x) = branch_of(w) {
        return Ok(branch::branch(a, x.cond, x.annul, x.disp22, p));
    }
    perform_any(a, w, p)
}

/// How much an answer adds to the count of instructions.
fn count(did: Did) -> u32
    ensures { result ≡ counted did }
{
    match did {
        Did::Retired | Did::Halt(_) => 1,
        Did::Turned | Did::Need(_) | Did::Stop { .. } => 0,
    }
}

/// The instruction word `w` at PC, which retires or is answered as the parts of the core ask. It reads its registers in
/// order, up to the first that is bad; then a load looks its bytes up. Only an instruction that retires changes state, output
/// or operations, updates or empties a cache, or writes a register; it is counted then, and where it halts the core.
pub fn exec<P: Ports>(a: &mut Arch, w: u32, p: &mut P) -> Did
    requires sound { IsSound a.old }
    requires core { a.old.core ≡ (P.seen p.old).site.core }
    requires instructions { a.old.n + 1 < 2 ^ 32 }
    requires operations { a.old.k + 1 < 2 ^ 32 }
    requires room { 0 < P.room p.old }
    ensures does { Does (P.seen p.old).site.core (P.answers (P.state p.old)) (effect (P.seen p.old).site (state_of a.old (P.seen p.old)) (instruction_of w)) result (run_seen a.old (P.seen p.old)) (run_seen a.new (P.seen p.new)) }
    ensures touches { P.state p.new ≡ fold P.touch (P.state p.old) (touches_of (P.answers (P.state p.old)) a.old.ctl.cwp (effect (P.seen p.old).site (state_of a.old (P.seen p.old)) (instruction_of w)) result) }
    ensures counts { Counts result a.old a.new (P.seen p.old) (P.seen p.new) (P.room p.old) (P.room p.new) }
    ensures turn { Asks (P.seen p.old).site result }
{
    let did = match perform_word(a, w, p) {
        Ok(did) => did,
        Err(bad) => return trap::stop(bad, p),
    };
    a.n += count(did);
    did
}

/// The trap of a PC that is no text word, which is counted as an instruction.
pub fn fetch_trap<P: Ports>(a: &mut Arch, p: &mut P) -> Did
    requires sound { IsSound a.old }
    requires instructions { a.old.n + 1 < 2 ^ 32 }
    ensures does { Does (P.seen p.old).site.core (P.answers (P.state p.old)) (fetch_trap (state_of a.old (P.seen p.old))) result (run_seen a.old (P.seen p.old)) (run_seen a.new (P.seen p.new)) }
    ensures touches { P.state p.new ≡ fold P.touch (P.state p.old) (touches_of (P.answers (P.state p.old)) a.old.ctl.cwp (fetch_trap (state_of a.old (P.seen p.old))) result) }
    ensures counts { Counts result a.old a.new (P.seen p.old) (P.seen p.new) (P.room p.old) (P.room p.new) }
    ensures turn { Asks (P.seen p.old).site result }
{
    let did = trap::take(a, INSTRUCTION_ACCESS_EXCEPTION, p);
    a.n += count(did);
    did
}
