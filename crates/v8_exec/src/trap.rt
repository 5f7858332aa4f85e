ghost use Rattle.std.specs.Prelude.{◌≡◌, ◌<◌, [], fold, ℕ, Some, IsSome};
ghost use Rattle.lf_model.specs.Traps.{trap_effect, traps_in_order, unless_trap};
ghost use Rattle.lf_model.specs.Traps.{first_trap as first_of};
ghost use Rattle.lf_model.specs.Step.{IsSound, state_of, drains_first};
ghost use Rattle.lf_model.specs.declared.bus.Why.TheVariants.{End};
ghost use Rattle.lf_model.specs.Effect.{Site, Effect, advances};
ghost use Rattle.v8_exec.specs.Accesses.{Asks};
ghost use Rattle.v8_exec.specs.Frame.{Makes, Keeps};
ghost use Rattle.v8_exec.specs.Touching.{acts_of, retires_of};

use crate::ports::Ports;
use lf_model::bus::Why;
use lf_model::control::Arch;
use lf_model::step::{Did, RegBad, Turn};
use lf_model::trap::Checks;
use v8_traps::{Entered, first_trap};
use v8_windows::cell;

/// Trap type of a bad register: `r_register_access_error`.
const REGISTER_ERROR: u8 = 0x20;

/// Where a store waits, its drain comes before this end.
fn end_of<P: Ports>(did: Did, p: &P) -> Did
    ensures { result ≡ drains_first (P.answers (P.state p.now)) End did }
{
    if p.waiting() {
        Did::Need(Turn::Drain(Why::End))
    } else {
        did
    }
}

/// A register read is bad: the core stops, or drains first.
pub fn stop<P: Ports>(bad: RegBad, p: &P) -> Did
    requires { bad.cell < 136 }
    ensures stop { result ≡ drains_first (P.answers (P.state p.now)) End (Did.Stop 0x20 bad.cell bad.syn) }
    ensures unretired { (e : Effect) → retires_of e result ≡ [] }
{
    let stop = Did::Stop {
        tt: REGISTER_ERROR,
        place: bad.cell as u32,
        syn: bad.syn,
    };
    end_of(stop, p)
}

/// An ordinary trap: entry into its handler, or error mode where traps are disabled. The registers that the
/// instruction read were good.
pub fn take<P: Ports>(a: &mut Arch, tt: u8, p: &mut P) -> Did
    requires sound { IsSound a.old }
    ensures does { Makes (trap_effect tt (state_of a.old (P.seen p.old))) (P.answers (P.state p.old)) result a.old a.new (P.seen p.old) (P.seen p.new) }
    ensures touches { P.state p.new ≡ fold P.touch (P.state p.old) (acts_of (trap_effect tt (state_of a.old (P.seen p.old))) result) }
    ensures keeps { Keeps result a.old a.new (P.seen p.old) (P.seen p.new) (P.room p.old) (P.room p.new) }
    ensures turn { (site : Site) → Asks site result }
{
    match v8_traps::enter(&mut a.ctl, tt) {
        Entered::Vectored { window, pc, npc } => {
            p.set_reg(cell(window, 17), pc);
            p.set_reg(cell(window, 18), npc);
            Did::Retired
        }
        Entered::ErrorMode => end_of(Did::Halt(tt), p),
    }
}

/// The trap of an instruction that reads no register and always traps.
pub fn refuse<P: Ports>(a: &mut Arch, checks: Checks, p: &mut P) -> Did
    requires sound { IsSound a.old }
    requires trap { IsSome (first_of (traps_in_order checks)) }
    ensures does { (tt_ : ℕ) → first_of (traps_in_order checks) ≡ Some tt_ → Makes (trap_effect tt_ (state_of a.old (P.seen p.old))) (P.answers (P.state p.old)) result a.old a.new (P.seen p.old) (P.seen p.new) }
    ensures touches { P.state p.new ≡ fold P.touch (P.state p.old) (acts_of (unless_trap (first_of (traps_in_order checks)) (state_of a.old (P.seen p.old)) (advances (state_of a.old (P.seen p.old)))) result) }
    ensures keeps { Keeps result a.old a.new (P.seen p.old) (P.seen p.new) (P.room p.old) (P.room p.new) }
{
    match first_trap(&checks) {
        Some(tt) => take(a, tt, p),
        None => unreachable!(),
    }
}
