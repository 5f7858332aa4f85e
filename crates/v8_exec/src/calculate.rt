ghost use Rattle.std.specs.Prelude.{◌≡◌, ◌^◌, ◌<◌, IfOk, IfErr, Ok};
ghost use Rattle.lf_model.specs.Instructions.{registers_read};
ghost use Rattle.lf_model.specs.Step.{IsSound, first_bad};
ghost use Rattle.lf_model.specs.declared.instruction.Instr.TheVariants.{Sethi, Calc};
ghost use Rattle.v8_exec.specs.Frame.{bad_in, Performs, Keeps, Refuses};
ghost use Rattle.v8_exec.specs.Reading.{IsSource};
ghost use Rattle.v8_exec.specs.Touching.{Touches};

use crate::calculation::{Inputs, calculation};
use crate::operands::{read_operands, write_register};
use crate::ports::Ports;
use crate::program_counter::advance;
use crate::trap;
use lf_model::control::Arch;
use lf_model::instruction::{CalcName, Src};
use lf_model::step::{Did, RegBad};

/// SETHI: register `rd` gets imm22 in its high bits.
#[tactic(auto, unfolding(lf_model::specs::Effects::effect))]
pub fn sethi<P: Ports>(a: &mut Arch, rd: u8, imm22: u32, p: &mut P) -> Did
    requires sound { IsSound a.old }
    requires register { rd < 32 }
    requires value { imm22 < 2 ^ 22 }
    ensures does { Performs (Sethi rd imm22) (P.answers (P.state p.old)) result a.old a.new (P.seen p.old) (P.seen p.new) }
    ensures touches { Touches P.touch (Sethi rd imm22) (P.answers (P.state p.old)) (Ok result) a.old (P.seen p.old) (P.state p.old) (P.state p.new) }
    ensures keeps { Keeps result a.old a.new (P.seen p.old) (P.seen p.new) (P.room p.old) (P.room p.new) }
{
    write_register(a, rd, imm22 << 10, p);
    advance(a);
    Did::Retired
}

/// An instruction that calculates: register `rd` gets its result, and icc and Y change as it says; or it traps.
#[tactic(auto, unfolding(lf_model::specs::Effects::effect))]
pub fn calculate<P: Ports>(
    a: &mut Arch,
    name: CalcName,
    rd: u8,
    rs1: u8,
    src: Src,
    p: &mut P,
) -> Result<Did, RegBad>
    requires sound { IsSound a.old }
    requires registers { (rd < 32) × (rs1 < 32) }
    requires fields { IsSource src }
    ensures read { first_bad (P.answers (P.state p.old)) a.old.ctl.cwp (registers_read (Calc name rd rs1 src)) ≡ bad_in result }
    ensures does { IfOk result (λ did. Performs (Calc name rd rs1 src) (P.answers (P.state p.old)) did a.old a.new (P.seen p.old) (P.seen p.new)) }
    ensures touches { Touches P.touch (Calc name rd rs1 src) (P.answers (P.state p.old)) result a.old (P.seen p.old) (P.state p.old) (P.state p.new) }
    ensures keeps { IfOk result (λ did. Keeps did a.old a.new (P.seen p.old) (P.seen p.new) (P.room p.old) (P.room p.new)) }
    ensures refuses { IfErr result (λ bad. Refuses bad a.old a.new (P.seen p.old) (P.seen p.new) (P.answers (P.state p.old)) (P.answers (P.state p.new)) (P.room p.old) (P.room p.new)) }
{
    let x = read_operands(a, rs1, src, p)?;
    let inputs = Inputs {
        a: x.a,
        b: x.b,
        icc: a.ctl.icc,
        y: a.y,
    };
    let out = match calculation(name, inputs) {
        Ok(out) => out,
        Err(tt) => return Ok(trap::take(a, tt, p)),
    };
    a.ctl.icc = out.icc;
    a.y = out.y;
    write_register(a, rd, out.value, p);
    advance(a);
    Ok(Did::Retired)
}
