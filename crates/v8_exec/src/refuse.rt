//! Instructions that always trap.

ghost use Rattle.std.specs.Prelude.{◌≡◌, not, Ok};
ghost use Rattle.lf_model.specs.Traps.{no_checks};
ghost use Rattle.lf_model.specs.Step.{IsSound};
ghost use Rattle.lf_model.specs.declared.instruction.Instr.TheVariants.{Illegal, AltIllegal, FpOff, CpOff, FpQueue, CpQueue};
ghost use Rattle.v8_exec.specs.Frame.{Performs, Keeps};
ghost use Rattle.v8_exec.specs.Touching.{Touches};

use crate::ports::Ports;
use crate::trap;
use lf_model::control::Arch;
use lf_model::step::Did;
use lf_model::trap::Checks;

/// No trap but `privileged_instruction`, in user mode.
fn privileged(a: &Arch) -> Checks
    ensures { result ≡ record no_checks { privileged = not a.now.ctl.s } }
{
    Checks {
        privileged: !a.ctl.s,
        ..Checks::default()
    }
}

/// A word that is no instruction.
#[tactic(auto, unfolding(lf_model::specs::Effects::effect))]
pub fn illegal<P: Ports>(a: &mut Arch, p: &mut P) -> Did
    requires sound { IsSound a.old }
    ensures does { Performs Illegal (P.answers (P.state p.old)) result a.old a.new (P.seen p.old) (P.seen p.new) }
    ensures touches { Touches P.touch Illegal (P.answers (P.state p.old)) (Ok result) a.old (P.seen p.old) (P.state p.old) (P.state p.new) }
    ensures keeps { Keeps result a.old a.new (P.seen p.old) (P.seen p.new) (P.room p.old) (P.room p.new) }
{
    let checks = Checks {
        illegal: true,
        ..Checks::default()
    };
    trap::refuse(a, checks, p)
}

/// An alternate form that is no instruction.
#[tactic(auto, unfolding(lf_model::specs::Effects::effect))]
pub fn illegal_alternate<P: Ports>(a: &mut Arch, p: &mut P) -> Did
    requires sound { IsSound a.old }
    ensures does { Performs AltIllegal (P.answers (P.state p.old)) result a.old a.new (P.seen p.old) (P.seen p.new) }
    ensures touches { Touches P.touch AltIllegal (P.answers (P.state p.old)) (Ok result) a.old (P.seen p.old) (P.state p.old) (P.state p.new) }
    ensures keeps { Keeps result a.old a.new (P.seen p.old) (P.seen p.new) (P.room p.old) (P.room p.new) }
{
    let checks = Checks {
        illegal: true,
        ..privileged(a)
    };
    trap::refuse(a, checks, p)
}

/// A floating-point instruction: there is no floating-point unit.
#[tactic(auto, unfolding(lf_model::specs::Effects::effect))]
pub fn floating_point<P: Ports>(a: &mut Arch, p: &mut P) -> Did
    requires sound { IsSound a.old }
    ensures does { Performs FpOff (P.answers (P.state p.old)) result a.old a.new (P.seen p.old) (P.seen p.new) }
    ensures touches { Touches P.touch FpOff (P.answers (P.state p.old)) (Ok result) a.old (P.seen p.old) (P.state p.old) (P.state p.new) }
    ensures keeps { Keeps result a.old a.new (P.seen p.old) (P.seen p.new) (P.room p.old) (P.room p.new) }
{
    let checks = Checks {
        fp_off: true,
        ..Checks::default()
    };
    trap::refuse(a, checks, p)
}

/// STDFQ, which is privileged.
#[tactic(auto, unfolding(lf_model::specs::Effects::effect))]
pub fn floating_point_queue<P: Ports>(a: &mut Arch, p: &mut P) -> Did
    requires sound { IsSound a.old }
    ensures does { Performs FpQueue (P.answers (P.state p.old)) result a.old a.new (P.seen p.old) (P.seen p.new) }
    ensures touches { Touches P.touch FpQueue (P.answers (P.state p.old)) (Ok result) a.old (P.seen p.old) (P.state p.old) (P.state p.new) }
    ensures keeps { Keeps result a.old a.new (P.seen p.old) (P.seen p.new) (P.room p.old) (P.room p.new) }
{
    let checks = Checks {
        fp_off: true,
        ..privileged(a)
    };
    trap::refuse(a, checks, p)
}

/// A coprocessor instruction: there is no coprocessor.
#[tactic(auto, unfolding(lf_model::specs::Effects::effect))]
pub fn coprocessor<P: Ports>(a: &mut Arch, p: &mut P) -> Did
    requires sound { IsSound a.old }
    ensures does { Performs CpOff (P.answers (P.state p.old)) result a.old a.new (P.seen p.old) (P.seen p.new) }
    ensures touches { Touches P.touch CpOff (P.answers (P.state p.old)) (Ok result) a.old (P.seen p.old) (P.state p.old) (P.state p.new) }
    ensures keeps { Keeps result a.old a.new (P.seen p.old) (P.seen p.new) (P.room p.old) (P.room p.new) }
{
    let checks = Checks {
        cp_off: true,
        ..Checks::default()
    };
    trap::refuse(a, checks, p)
}

/// STDCQ, which is privileged.
#[tactic(auto, unfolding(lf_model::specs::Effects::effect))]
pub fn coprocessor_queue<P: Ports>(a: &mut Arch, p: &mut P) -> Did
    requires sound { IsSound a.old }
    ensures does { Performs CpQueue (P.answers (P.state p.old)) result a.old a.new (P.seen p.old) (P.seen p.new) }
    ensures touches { Touches P.touch CpQueue (P.answers (P.state p.old)) (Ok result) a.old (P.seen p.old) (P.state p.old) (P.state p.new) }
    ensures keeps { Keeps result a.old a.new (P.seen p.old) (P.seen p.new) (P.room p.old) (P.room p.new) }
{
    let checks = Checks {
        cp_off: true,
        ..privileged(a)
    };
    trap::refuse(a, checks, p)
}
