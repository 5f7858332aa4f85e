ghost use Rattle.std.specs.Prelude.{◌≡◌, ◌<◌, ◌+◌, ◌%◌, ◌^◌, IfOk, IfErr, Ok};
ghost use Rattle.lf_model.specs.Instructions.{registers_read};
ghost use Rattle.lf_model.specs.Conditions.{condition_holds};
ghost use Rattle.lf_model.specs.Traps.{when};
ghost use Rattle.lf_model.specs.Step.{IsSound, first_bad};
ghost use Rattle.lf_model.specs.declared.instruction.Instr.TheVariants.{Call, Jmpl, Bicc, Ticc};
ghost use Rattle.v8_exec.specs.Frame.{bad_in, Performs, Keeps, Refuses};
ghost use Rattle.v8_exec.specs.Reading.{IsSource};
ghost use Rattle.v8_exec.specs.Touching.{Touches};

use crate::conditions::holds;
use crate::operands::{read_operands, write_register};
use crate::ports::Ports;
use crate::program_counter::{advance, annul, displaced, transfer};
use crate::trap;
use lf_model::control::Arch;
use lf_model::instruction::Src;
use lf_model::step::{Did, RegBad};
use lf_model::trap::Checks;
use v8_traps::first_trap;

/// The register that CALL writes, %o7.
const LINK: u8 = 15;

/// The condition of BA.
const ALWAYS: u8 = 8;

/// CALL: PC goes to register 15, and the instruction at the target comes after that in the delay slot.
#[tactic(auto, unfolding(lf_model::specs::Effects::effect))]
pub fn call<P: Ports>(a: &mut Arch, disp30: u32, p: &mut P) -> Did
    requires sound { IsSound a.old }
    ensures does { Performs (Call disp30) (P.answers (P.state p.old)) result a.old a.new (P.seen p.old) (P.seen p.new) }
    ensures touches { Touches P.touch (Call disp30) (P.answers (P.state p.old)) (Ok result) a.old (P.seen p.old) (P.state p.old) (P.state p.new) }
    ensures keeps { Keeps result a.old a.new (P.seen p.old) (P.seen p.new) (P.room p.old) (P.room p.new) }
{
    write_register(a, LINK, a.ctl.pc, p);
    transfer(a, displaced(a.ctl.pc, disp30));
    Did::Retired
}

/// JMPL: PC goes to register `rd`, and the sum of the operands is the target; it traps where that is no multiple
/// of 4.
#[tactic(auto, unfolding(lf_model::specs::Effects::effect))]
pub fn jump<P: Ports>(a: &mut Arch, rd: u8, rs1: u8, src: Src, p: &mut P) -> Result<Did, RegBad>
    requires sound { IsSound a.old }
    requires registers { (rd < 32) × (rs1 < 32) }
    requires fields { IsSource src }
    ensures read { first_bad (P.answers (P.state p.old)) a.old.ctl.cwp (registers_read (Jmpl rd rs1 src)) ≡ bad_in result }
    ensures does { IfOk result (λ did. Performs (Jmpl rd rs1 src) (P.answers (P.state p.old)) did a.old a.new (P.seen p.old) (P.seen p.new)) }
    ensures touches { Touches P.touch (Jmpl rd rs1 src) (P.answers (P.state p.old)) result a.old (P.seen p.old) (P.state p.old) (P.state p.new) }
    ensures keeps { IfOk result (λ did. Keeps did a.old a.new (P.seen p.old) (P.seen p.new) (P.room p.old) (P.room p.new)) }
    ensures refuses { IfErr result (λ bad. Refuses bad a.old a.new (P.seen p.old) (P.seen p.new) (P.answers (P.state p.old)) (P.answers (P.state p.new)) (P.room p.old) (P.room p.new)) }
{
    let x = read_operands(a, rs1, src, p)?;
    let target = x.a.wrapping_add(x.b);
    let checks = Checks {
        align: target % 4 != 0,
        ..Checks::default()
    };
    if let Some(tt) = first_trap(&checks) {
        return Ok(trap::take(a, tt, p));
    }
    write_register(a, rd, a.ctl.pc, p);
    transfer(a, target);
    Ok(Did::Retired)
}

/// Bicc: a delayed transfer where the condition holds. The annul bit annuls the delay slot where it does not hold,
/// and that of BA.
#[tactic(auto, unfolding(lf_model::specs::Effects::effect))]
pub fn branch<P: Ports>(a: &mut Arch, cond: u8, annul_bit: bool, disp22: u32, p: &P) -> Did
    requires sound { IsSound a.old }
    requires displacement { disp22 < 2 ^ 22 }
    ensures does { Performs (Bicc cond annul_bit disp22) (P.answers (P.state p.now)) result a.old a.new (P.seen p.now) (P.seen p.now) }
    ensures touches { Touches P.touch (Bicc cond annul_bit disp22) (P.answers (P.state p.now)) (Ok result) a.old (P.seen p.now) (P.state p.now) (P.state p.now) }
    ensures keeps { Keeps result a.old a.new (P.seen p.now) (P.seen p.now) (P.room p.now) (P.room p.now) }
{
    let target = displaced(a.ctl.pc, lf_num::sext(disp22, 22));
    if holds(cond, a.ctl.icc) {
        if annul_bit && cond == ALWAYS {
            annul(a, target);
        } else {
            transfer(a, target);
        }
    } else if annul_bit {
        annul(a, a.ctl.npc.wrapping_add(4));
    } else {
        advance(a);
    }
    Did::Retired
}

/// The trap type of Ticc by the sum of its operands, where its condition holds.
fn trap_type(cond: u8, icc: u8, sum: u32) -> Option<u8>
    ensures { result ≡ when (condition_holds cond icc) (128 + sum % 128) }
{
    if holds(cond, icc) {
        Some(128 + (sum % 128) as u8)
    } else {
        None
    }
}

/// Ticc: where the condition holds a software trap, of type 80 to FF hex by the sum of the operands.
#[tactic(auto, unfolding(lf_model::specs::Effects::effect))]
pub fn software_trap<P: Ports>(
    a: &mut Arch,
    cond: u8,
    rs1: u8,
    src: Src,
    p: &mut P,
) -> Result<Did, RegBad>
    requires sound { IsSound a.old }
    requires register { rs1 < 32 }
    requires fields { IsSource src }
    ensures read { first_bad (P.answers (P.state p.old)) a.old.ctl.cwp (registers_read (Ticc cond rs1 src)) ≡ bad_in result }
    ensures does { IfOk result (λ did. Performs (Ticc cond rs1 src) (P.answers (P.state p.old)) did a.old a.new (P.seen p.old) (P.seen p.new)) }
    ensures touches { Touches P.touch (Ticc cond rs1 src) (P.answers (P.state p.old)) result a.old (P.seen p.old) (P.state p.old) (P.state p.new) }
    ensures keeps { IfOk result (λ did. Keeps did a.old a.new (P.seen p.old) (P.seen p.new) (P.room p.old) (P.room p.new)) }
    ensures refuses { IfErr result (λ bad. Refuses bad a.old a.new (P.seen p.old) (P.seen p.new) (P.answers (P.state p.old)) (P.answers (P.state p.new)) (P.room p.old) (P.room p.new)) }
{
    let x = read_operands(a, rs1, src, p)?;
    let sum = x.a.wrapping_add(x.b);
    let checks = Checks {
        ticc: trap_type(cond, a.ctl.icc, sum),
        ..Checks::default()
    };
    if let Some(tt) = first_trap(&checks) {
        return Ok(trap::take(a, tt, p));
    }
    advance(a);
    Ok(Did::Retired)
}
