ghost use Rattle.std.specs.Prelude.{◌≡◌, ◌<◌, IfOk, IfErr, Ok};
ghost use Rattle.lf_model.specs.Instructions.{registers_read};
ghost use Rattle.lf_model.specs.Step.{IsSound, first_bad};
ghost use Rattle.lf_model.specs.declared.instruction.Instr.TheVariants.{Stbar, Flush};
ghost use Rattle.v8_exec.specs.Frame.{bad_in, Performs, Keeps, Refuses};
ghost use Rattle.v8_exec.specs.Reading.{IsSource};
ghost use Rattle.v8_exec.specs.Touching.{Touches};

use crate::operands::read_operands;
use crate::ports::Ports;
use crate::program_counter::advance;
use lf_model::bus::Why;
use lf_model::control::Arch;
use lf_model::instruction::Src;
use lf_model::step::{Did, RegBad, Turn};

/// STBAR: it waits until no store waits.
#[tactic(auto, unfolding(lf_model::specs::Effects::effect))]
pub fn store_barrier<P: Ports>(a: &mut Arch, p: &P) -> Did
    requires sound { IsSound a.old }
    ensures does { Performs Stbar (P.answers (P.state p.now)) result a.old a.new (P.seen p.now) (P.seen p.now) }
    ensures touches { Touches P.touch Stbar (P.answers (P.state p.now)) (Ok result) a.old (P.seen p.now) (P.state p.now) (P.state p.now) }
    ensures keeps { Keeps result a.old a.new (P.seen p.now) (P.seen p.now) (P.room p.now) (P.room p.now) }
{
    if p.waiting() {
        return Did::Need(Turn::Drain(Why::Stbar));
    }
    advance(a);
    Did::Retired
}

/// FLUSH: once no store waits, both caches are emptied. Its operands are read, though the whole caches go.
#[tactic(auto, unfolding(lf_model::specs::Effects::effect))]
pub fn flush<P: Ports>(a: &mut Arch, rs1: u8, src: Src, p: &mut P) -> Result<Did, RegBad>
    requires sound { IsSound a.old }
    requires register { rs1 < 32 }
    requires fields { IsSource src }
    ensures read { first_bad (P.answers (P.state p.old)) a.old.ctl.cwp (registers_read (Flush rs1 src)) ≡ bad_in result }
    ensures does { IfOk result (λ did. Performs (Flush rs1 src) (P.answers (P.state p.old)) did a.old a.new (P.seen p.old) (P.seen p.new)) }
    ensures touches { Touches P.touch (Flush rs1 src) (P.answers (P.state p.old)) result a.old (P.seen p.old) (P.state p.old) (P.state p.new) }
    ensures keeps { IfOk result (λ did. Keeps did a.old a.new (P.seen p.old) (P.seen p.new) (P.room p.old) (P.room p.new)) }
    ensures refuses { IfErr result (λ bad. Refuses bad a.old a.new (P.seen p.old) (P.seen p.new) (P.answers (P.state p.old)) (P.answers (P.state p.new)) (P.room p.old) (P.room p.new)) }
{
    read_operands(a, rs1, src, p)?;
    if p.waiting() {
        return Ok(Did::Need(Turn::Drain(Why::Flush)));
    }
    p.flush();
    advance(a);
    Ok(Did::Retired)
}
