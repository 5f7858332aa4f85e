ghost use Rattle.std.specs.Prelude.{◌≡◌, ◌+◌, ◌^◌, ◌<◌, ◌≤◌, nat_le, List, false, true};
ghost use Rattle.core_parts.specs.CanRun.{CanRun};
ghost use Rattle.core_parts.specs.Inside.{state_in, seen_in, room_in, value_of};
ghost use Rattle.core_parts.specs.IsCore.{IsCore};
ghost use Rattle.core_parts.specs.Work.{work_answers};
ghost use Rattle.core_parts.specs.declared.phase.Phase.TheVariants.{Begun};
ghost use Rattle.core_steps.specs.RunsAfter.{RunsAfter};
ghost use Rattle.core_steps.specs.Tries.{Tries};
ghost use Rattle.core_steps.specs.Works.{Works};
ghost use Rattle.lf_model.specs.Start.{is_text_word};
ghost use Rattle.lf_model.specs.Step.{drains_first};
ghost use Rattle.lf_model.specs.declared.trace.Word2.{Word2};
ghost use Rattle.v8_exec.specs.Accesses.{Asks};
ghost use Rattle.v8_exec.specs.Frame.{Counts};

use core_parts::Parts;
use lf_model::bus::Why;
use lf_model::control::Arch;
use lf_model::step::{Did, Look, Turn};
use v8_exec::{exec, fetch_trap};

/// The step needs a turn: where a store waits, its drain comes first, for this cause.
fn needs(parts: &Parts, why: Why, turn: Turn) -> Did
    ensures { result ≡ drains_first (work_answers (state_in parts.now)) why (Did.Need turn) }
{
    if parts.has_waiting() {
        Did::Need(Turn::Drain(why))
    } else {
        Did::Need(turn)
    }
}

/// Fetches the text word at PC through the fetch cache, and makes its instruction.
fn fetch(arch: &mut Arch, parts: &mut Parts) -> Did
    requires core { IsCore arch.old parts.old }
    requires runs { CanRun (parts.old.record.steps + 1) 0 parts.old }
    requires left { parts.old.record.steps < parts.old.site.config.steps }
    requires limit { parts.old.site.config.steps < 2 ^ 32 }
    requires counted { arch.old.n ≤ parts.old.record.steps }
    requires operations { arch.old.k ≤ parts.old.record.steps }
    requires text { is_text_word parts.old.site.image.text arch.old.ctl.pc ≡ true }
    ensures works { Works false result arch.old arch.new (seen_in parts.old) (seen_in parts.new) (state_in parts.old) (state_in parts.new) }
    ensures counts { Counts result arch.old arch.new (seen_in parts.old) (seen_in parts.new) (room_in parts.old) (room_in parts.new) }
    ensures turn { Asks (seen_in parts.old).site result }
    ensures runs { RunsAfter result parts.old parts.new }
{
    let pc = arch.ctl.pc;
    match parts.arrays.fetch_cache.look(pc, 4) {
        Look::Hit { value, .. } => exec(arch, value as u32, parts),
        Look::Miss(why) => {
            let line = pc - pc % 32;
            needs(parts, Why::Miss, Turn::Fetch { line, why })
        }
    }
}

/// Tries the instruction at PC, unless the window of steps without a turn is over.
fn try_instruction(arch: &mut Arch, parts: &mut Parts, quiet: u32, window: u32) -> Did
    requires core { IsCore arch.old parts.old }
    requires window { window ≡ parts.old.site.config.window }
    requires runs { CanRun (parts.old.record.steps + 1) 0 parts.old }
    requires left { parts.old.record.steps < parts.old.site.config.steps }
    requires limit { parts.old.site.config.steps < 2 ^ 32 }
    requires counted { arch.old.n ≤ parts.old.record.steps }
    requires operations { arch.old.k ≤ parts.old.record.steps }
    ensures works { Works (nat_le parts.old.site.config.window quiet) result arch.old arch.new (seen_in parts.old) (seen_in parts.new) (state_in parts.old) (state_in parts.new) }
    ensures counts { Counts result arch.old arch.new (seen_in parts.old) (seen_in parts.new) (room_in parts.old) (room_in parts.new) }
    ensures turn { Asks (seen_in parts.old).site result }
    ensures runs { RunsAfter result parts.old parts.new }
{
    if quiet >= window {
        return needs(parts, Why::Window, Turn::Snoop);
    }
    if !parts.site.is_text_word(arch.ctl.pc) {
        return fetch_trap(arch, parts);
    }
    fetch(arch, parts)
}

/// Tries the instruction at PC in a step whose flips have struck, of a core that made `quiet` steps since its last turn and may
/// make `window` without one.
///
/// It retires or puts the core into error mode, and is counted then. Else nothing but the arrays that it looked at changes: the
/// step needs a turn on the bus, or a bad register cell stops the core.
pub fn attempt(arch: &mut Arch, parts: &mut Parts, quiet: u32, window: u32) -> Did
    requires core { IsCore arch.old parts.old }
    requires window { window ≡ parts.old.site.config.window }
    requires runs { CanRun (parts.old.record.steps + 1) 0 parts.old }
    requires left { parts.old.record.steps < parts.old.site.config.steps }
    requires limit { parts.old.site.config.steps < 2 ^ 32 }
    requires counted { arch.old.n ≤ parts.old.record.steps }
    requires operations { arch.old.k ≤ parts.old.record.steps }
    ensures tries { (named : List Word2) → Tries result (value_of arch.old parts.old quiet named Begun) (value_of arch.new parts.new quiet named Begun) }
    ensures counts { Counts result arch.old arch.new (seen_in parts.old) (seen_in parts.new) (room_in parts.old) (room_in parts.new) }
    ensures turn { Asks (seen_in parts.old).site result }
    ensures core { IsCore arch.new parts.new }
    ensures runs { RunsAfter result parts.old parts.new }
{
    let did = try_instruction(arch, parts, quiet, window);
    parts.record.fits();
    did
}
