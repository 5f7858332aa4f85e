//! The calculations that programs have most, none of which traps or reads icc or Y.

ghost use Rattle.std.specs.Prelude.{◌≡◌, ◌<◌, IsTrue, IfOk, IfErr};
ghost use Rattle.lf_model.specs.Instructions.{registers_read};
ghost use Rattle.lf_model.specs.Step.{IsSound, first_bad};
ghost use Rattle.lf_model.specs.declared.instruction.Instr.TheVariants.{Calc};
ghost use Rattle.v8_exec.specs.Frame.{bad_in, Performs, Keeps, Refuses};
ghost use Rattle.v8_exec.specs.Reading.{IsSource};
ghost use Rattle.v8_exec.specs.Touching.{Touches};
ghost use Rattle.v8_word.specs.Common.{is_common};

use crate::calculation::{Inputs, common_calculation};
use crate::operands::{read_operands, write_register};
use crate::ports::Ports;
use crate::program_counter::advance;
use lf_model::control::Arch;
use lf_model::instruction::{CalcName, Src};
use lf_model::step::{Did, RegBad};

/// A sum, a difference, a logical operation or a shift: register `rd` gets its result, and icc changes as it says.
#[tactic(auto, unfolding(lf_model::specs::Effects::effect))]
pub fn calculate_common<P: Ports>(
    a: &mut Arch,
    name: CalcName,
    rd: u8,
    rs1: u8,
    src: Src,
    p: &mut P,
) -> Result<Did, RegBad>
    requires sound { IsSound a.old }
    requires registers { (rd < 32) × (rs1 < 32) }
    requires fields { IsSource src }
    requires common { IsTrue (is_common name) }
    ensures read { first_bad (P.answers (P.state p.old)) a.old.ctl.cwp (registers_read (Calc name rd rs1 src)) ≡ bad_in result }
    ensures does { IfOk result (λ did. Performs (Calc name rd rs1 src) (P.answers (P.state p.old)) did a.old a.new (P.seen p.old) (P.seen p.new)) }
    ensures touches { Touches P.touch (Calc name rd rs1 src) (P.answers (P.state p.old)) result a.old (P.seen p.old) (P.state p.old) (P.state p.new) }
    ensures keeps { IfOk result (λ did. Keeps did a.old a.new (P.seen p.old) (P.seen p.new) (P.room p.old) (P.room p.new)) }
    ensures refuses { IfErr result (λ bad. Refuses bad a.old a.new (P.seen p.old) (P.seen p.new) (P.answers (P.state p.old)) (P.answers (P.state p.new)) (P.room p.old) (P.room p.new)) }
{
    let x = read_operands(a, rs1, src, p)?;
    let inputs = Inputs {
        a: x.a,
        b: x.b,
        icc: a.ctl.icc,
        y: a.y,
    };
    let out = common_calculation(name, inputs);
    a.ctl.icc = out.icc;
    a.y = out.y;
    write_register(a, rd, out.value, p);
    advance(a);
    Ok(Did::Retired)
}
