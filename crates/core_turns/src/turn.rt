ghost use Rattle.std.specs.Prelude.{◌≡◌, ◌≤◌, ℕ, List, true, drop, length};
ghost use Rattle.std.specs.List.{AllByRecursion};
ghost use Rattle.ahb_bus.specs.Asks.{IsCoreTurn};
ghost use Rattle.ahb_bus.specs.BusOk.{BusOk};
ghost use Rattle.core_parts.specs.CanRun.{CanRun};
ghost use Rattle.core_parts.specs.Inside.{value_of};
ghost use Rattle.core_parts.specs.IsCore.{IsCore};
ghost use Rattle.core_parts.specs.declared.phase.Phase.{Phase as CorePhase};
ghost use Rattle.lf_model.specs.declared.control.Arch.{Arch};
ghost use Rattle.lf_model.specs.declared.trace.Word2.{Word2 as NamedWord};
ghost use Rattle.order_log.specs.LogState.{IsLogEntry};
ghost use Rattle.core_turns.specs.AfterTurn.{snooping};
ghost use Rattle.core_turns.specs.AskedTurn.{transfer_of, turn_answer};
ghost use Rattle.core_turns.specs.CanTurn.{CanTurn, HasEntryFor, who_in, steps_ended, turn_over, looked_before};
ghost use Rattle.core_turns.specs.CatchingUp.{caught_up_parts};
ghost use Rattle.core_turns.specs.MakesTurn.{core_after, bus_after};
ghost use Rattle.core_turns.specs.Transfers.{Transfers};

use crate::atomics::atomic;
use crate::fills::{fetch, load};
use crate::stores::drain;
use ahb_bus::{Bus, Who};
use core_parts::Parts;
use lf_model::bus::{Bad, Pending};
use lf_model::control::Arch;
use lf_model::step::{Did, Turn};
use order_log::Log;

/// The data cache snoops what others stored since the core's last turn.
fn catch_up(parts: &mut Parts, log: &Log)
    requires { parts.old.«record».seen ≤ length log.now.entries }
    ensures parts { parts.new ≡ caught_up_parts log.now.entries parts.old }
    ensures entries { AllByRecursion IsLogEntry (drop parts.old.«record».seen log.now.entries) }
    ensures core { (arch : Arch) → IsCore arch parts.old → IsCore arch parts.new }
    ensures can { (turn : Turn) (arch : Arch) → CanTurn turn arch parts.old → CanTurn turn arch parts.new }
    ensures runs { (begun looked : ℕ) → CanRun begun looked parts.old → CanRun begun looked parts.new }
{
    let seen = snoop::catch_up(&mut parts.arrays.data_cache, log, parts.record.seen());
    parts.record.see(seen);
}

/// Makes the transfer of a core's turn, once the core has caught up with the log.
///
/// # Errors
///
/// The lowest bad word of those that the turn wants.
fn transfer(arch: &mut Arch, parts: &mut Parts, bus: &mut Bus, turn: Turn) -> Result<Did, Bad>
    requires begun { bus.old.begun ≡ true }
    requires turn { IsCoreTurn (who_in arch.old parts.old) bus.old }
    requires ok { BusOk bus.old }
    requires entry { HasEntryFor turn (who_in arch.old parts.old) bus.old }
    requires setup { bus.old.setup ≡ parts.old.site }
    requires seen { parts.old.«record».seen ≡ length bus.old.log }
    requires core { IsCore arch.old parts.old }
    requires can { CanTurn turn arch.old parts.old }
    requires runs { CanRun (steps_ended parts.old) (looked_before turn) parts.old }
    ensures { Transfers turn arch.old arch.new parts.old parts.new bus.old bus.new result }
{
    let who = Who {
        master: arch.core,
        step: parts.record.steps(),
    };
    match turn {
        Turn::Fetch { line: _, why } => fetch(arch.ctl.pc, who, parts, bus, why),
        Turn::Load { addr, len, why } => load(who, parts, bus, addr, len, why),
        Turn::Atomic { addr, len, new, rd } => {
            let asked = Pending {
                value: u64::from(new),
                addr,
                k: arch.k,
                step: who.step,
                len,
            };
            atomic(arch, who, parts, bus, &asked, rd)
        }
        Turn::Drain(why) => drain(who, parts, bus, why),
        Turn::Snoop => {
            bus.snooped(who);
            Ok(Did::Turned)
        }
    }
}

/// Makes a core's turn on the bus, which is begun: the core catches up with the log, and its transfer is made. The caller ends the
/// step.
///
/// # Errors
///
/// The lowest bad word of those that the turn wants: of the instruction, of the load, of the atomic, or of a store of a byte or half.
pub fn make_turn(arch: &mut Arch, parts: &mut Parts, bus: &mut Bus, turn: Turn) -> Result<Did, Bad>
    requires begun { bus.old.begun ≡ true }
    requires turn { IsCoreTurn (who_in arch.old parts.old) bus.old }
    requires ok { BusOk bus.old }
    requires entry { HasEntryFor turn (who_in arch.old parts.old) bus.old }
    requires setup { bus.old.setup ≡ parts.old.site }
    requires seen { parts.old.«record».seen ≤ length bus.old.log }
    requires core { IsCore arch.old parts.old }
    requires can { CanTurn turn arch.old parts.old }
    requires runs { CanRun (steps_ended parts.old) (looked_before turn) parts.old }
    ensures core { (quiet : ℕ) (named : List NamedWord) (phase : CorePhase) → value_of arch.new parts.new quiet named phase ≡
        core_after bus.old turn parts.old.buffer.waiting (value_of arch.old parts.old quiet named phase) }
    ensures bus { (quiet : ℕ) (named : List NamedWord) (phase : CorePhase) → bus.new ≡ bus_after bus.old turn parts.old.buffer.waiting (value_of arch.old parts.old quiet named phase) }
    ensures answer { (quiet : ℕ) (named : List NamedWord) (phase : CorePhase) →
        result ≡ turn_answer arch.old.ctl.pc turn (transfer_of (snooping bus.old.log (value_of arch.old parts.old quiet named phase)) bus.old turn) }
    // What others stored since the core's last turn lies in one line each.
    ensures entries { AllByRecursion IsLogEntry (drop parts.old.«record».seen bus.old.log) }
    ensures ok { BusOk bus.new }
    ensures keeps { IsCore arch.new parts.new }
    ensures runs { CanRun (steps_ended parts.old) 0 (turn_over parts.new) }
{
    catch_up(parts, bus.log());
    transfer(arch, parts, bus, turn)
}
