ghost use Rattle.std.specs.Prelude.{◌≡◌, ◌<◌, fold, IfOk, IfErr, OnOk, None, Some};
ghost use Rattle.lf_model.specs.Effect.{sets};
ghost use Rattle.lf_model.specs.Instructions.{registers_read};
ghost use Rattle.lf_model.specs.Traps.{traps_in_order};
ghost use Rattle.lf_model.specs.Traps.{first_trap as first_of};
ghost use Rattle.lf_model.specs.Windows.{in_window, window_after_restore};
ghost use Rattle.lf_model.specs.Step.{IsSound, state_of, first_bad};
ghost use Rattle.lf_model.specs.declared.instruction.Instr.TheVariants.{Save, Restore, Rett};
ghost use Rattle.v8_exec.specs.Frame.{bad_in, Makes, Performs, Keeps, Refuses};
ghost use Rattle.v8_exec.specs.Reading.{IsSource};
ghost use Rattle.v8_exec.specs.Returning.{return_checks};
ghost use Rattle.v8_exec.specs.Touching.{acts_of, Touches};

use crate::operands::{read_operands, write_register};
use crate::ports::Ports;
use crate::program_counter::{advance, transfer};
use crate::trap;
use lf_model::control::Arch;
use lf_model::instruction::Src;
use lf_model::step::{Did, RegBad};
use lf_model::trap::Checks;
use v8_traps::{WINDOW_OVERFLOW, WINDOW_UNDERFLOW, first_trap};

/// Register `rd` of another window, which becomes the current one, gets the sum of the operands.
fn enter<P: Ports>(a: &mut Arch, window: u8, rd: u8, sum: u32, p: &mut P) -> Did
    requires sound { IsSound a.old }
    requires window { window < 8 }
    requires register { rd < 32 }
    ensures does { Makes (sets rd sum (in_window window (state_of a.old (P.seen p.old)))) (P.answers (P.state p.old)) result a.old a.new (P.seen p.old) (P.seen p.new) }
    ensures touches { P.state p.new ≡ fold P.touch (P.state p.old) (acts_of (sets rd sum (in_window window (state_of a.old (P.seen p.old)))) result) }
    ensures keeps { Keeps result a.old a.new (P.seen p.old) (P.seen p.new) (P.room p.old) (P.room p.new) }
{
    a.ctl.cwp = window;
    write_register(a, rd, sum, p);
    advance(a);
    Did::Retired
}

/// SAVE: the sum of the operands goes to register `rd` of the window below.
#[tactic(auto, unfolding(lf_model::specs::Effects::effect))]
pub fn save<P: Ports>(a: &mut Arch, rd: u8, rs1: u8, src: Src, p: &mut P) -> Result<Did, RegBad>
    requires sound { IsSound a.old }
    requires registers { (rd < 32) × (rs1 < 32) }
    requires fields { IsSource src }
    ensures read { first_bad (P.answers (P.state p.old)) a.old.ctl.cwp (registers_read (Save rd rs1 src)) ≡ bad_in result }
    ensures does { IfOk result (λ did. Performs (Save rd rs1 src) (P.answers (P.state p.old)) did a.old a.new (P.seen p.old) (P.seen p.new)) }
    ensures touches { Touches P.touch (Save rd rs1 src) (P.answers (P.state p.old)) result a.old (P.seen p.old) (P.state p.old) (P.state p.new) }
    ensures keeps { IfOk result (λ did. Keeps did a.old a.new (P.seen p.old) (P.seen p.new) (P.room p.old) (P.room p.new)) }
    ensures refuses { IfErr result (λ bad. Refuses bad a.old a.new (P.seen p.old) (P.seen p.new) (P.answers (P.state p.old)) (P.answers (P.state p.new)) (P.room p.old) (P.room p.new)) }
{
    let x = read_operands(a, rs1, src, p)?;
    let sum = x.a.wrapping_add(x.b);
    match v8_windows::save(a.ctl.cwp, a.wim) {
        Ok(window) => Ok(enter(a, window, rd, sum, p)),
        Err(_) => Ok(trap::take(a, WINDOW_OVERFLOW, p)),
    }
}

/// RESTORE: the sum of the operands goes to register `rd` of the window above.
#[tactic(auto, unfolding(lf_model::specs::Effects::effect))]
pub fn restore<P: Ports>(a: &mut Arch, rd: u8, rs1: u8, src: Src, p: &mut P) -> Result<Did, RegBad>
    requires sound { IsSound a.old }
    requires registers { (rd < 32) × (rs1 < 32) }
    requires fields { IsSource src }
    ensures read { first_bad (P.answers (P.state p.old)) a.old.ctl.cwp (registers_read (Restore rd rs1 src)) ≡ bad_in result }
    ensures does { IfOk result (λ did. Performs (Restore rd rs1 src) (P.answers (P.state p.old)) did a.old a.new (P.seen p.old) (P.seen p.new)) }
    ensures touches { Touches P.touch (Restore rd rs1 src) (P.answers (P.state p.old)) result a.old (P.seen p.old) (P.state p.old) (P.state p.new) }
    ensures keeps { IfOk result (λ did. Keeps did a.old a.new (P.seen p.old) (P.seen p.new) (P.room p.old) (P.room p.new)) }
    ensures refuses { IfErr result (λ bad. Refuses bad a.old a.new (P.seen p.old) (P.seen p.new) (P.answers (P.state p.old)) (P.answers (P.state p.new)) (P.room p.old) (P.room p.new)) }
{
    let x = read_operands(a, rs1, src, p)?;
    let sum = x.a.wrapping_add(x.b);
    match v8_windows::restore(a.ctl.cwp, a.wim) {
        Ok(window) => Ok(enter(a, window, rd, sum, p)),
        Err(_) => Ok(trap::take(a, WINDOW_UNDERFLOW, p)),
    }
}

/// The window to which RETT returns, or the type of the trap that it takes instead.
fn window_of_return(a: &Arch, target: u32) -> Result<u8, u8>
    requires { a.now.ctl.cwp < 8 }
    ensures window { IfOk result (λ window. window ≡ window_after_restore a.now.ctl.cwp) }
    ensures no_trap { OnOk result (first_of (traps_in_order (return_checks a.now target)) ≡ None) }
    ensures trap { IfErr result (λ tt_. first_of (traps_in_order (return_checks a.now target)) ≡ Some tt_) }
{
    let above = v8_windows::restore(a.ctl.cwp, a.wim);
    let checks = Checks {
        privileged: !a.ctl.s,
        illegal: a.ctl.et && a.ctl.s,
        under: above.is_err(),
        align: target % 4 != 0,
        ..Checks::default()
    };
    match (first_trap(&checks), above) {
        (Some(tt), _) => Err(tt),
        (None, Ok(window)) => Ok(window),
        (None, Err(_)) => unreachable!(),
    }
}

/// RETT: a delayed transfer to the sum of the operands, into the window above and the mode before the trap, with traps
/// enabled.
#[tactic(auto, unfolding(lf_model::specs::Effects::effect))]
pub fn return_from_trap<P: Ports>(a: &mut Arch, rs1: u8, src: Src, p: &mut P) -> Result<Did, RegBad>
    requires sound { IsSound a.old }
    requires register { rs1 < 32 }
    requires fields { IsSource src }
    ensures read { first_bad (P.answers (P.state p.old)) a.old.ctl.cwp (registers_read (Rett rs1 src)) ≡ bad_in result }
    ensures does { IfOk result (λ did. Performs (Rett rs1 src) (P.answers (P.state p.old)) did a.old a.new (P.seen p.old) (P.seen p.new)) }
    ensures touches { Touches P.touch (Rett rs1 src) (P.answers (P.state p.old)) result a.old (P.seen p.old) (P.state p.old) (P.state p.new) }
    ensures keeps { IfOk result (λ did. Keeps did a.old a.new (P.seen p.old) (P.seen p.new) (P.room p.old) (P.room p.new)) }
    ensures refuses { IfErr result (λ bad. Refuses bad a.old a.new (P.seen p.old) (P.seen p.new) (P.answers (P.state p.old)) (P.answers (P.state p.new)) (P.room p.old) (P.room p.new)) }
{
    let x = read_operands(a, rs1, src, p)?;
    let target = x.a.wrapping_add(x.b);
    let window = match window_of_return(a, target) {
        Ok(window) => window,
        Err(tt) => return Ok(trap::take(a, tt, p)),
    };
    a.ctl.cwp = window;
    a.ctl.s = a.ctl.ps;
    a.ctl.et = true;
    transfer(a, target);
    Ok(Did::Retired)
}
