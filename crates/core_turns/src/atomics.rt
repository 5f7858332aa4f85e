ghost use Rattle.std.specs.Prelude.{◌≡◌, ◌≤◌, ℕ, ◌+◌, ◌*◌, ◌%◌, ◌^◌, ◌<◌, ◌||◌, ◌==◌, List, true, length, IsTrue, if◌then◌else◌};
ghost use Rattle.ahb_bus.specs.Asks.{IsCoreTurn, HasEntryLeft};
ghost use Rattle.ahb_bus.specs.BusOk.{BusOk};
ghost use Rattle.ahb_bus.specs.BusState.{memory_of, part_of, asked_by, answered, exchanged_by};
ghost use Rattle.bus_memory.specs.MemoryState.{value_at};
ghost use Rattle.core_parts.specs.CanRun.{CanRun};
ghost use Rattle.core_parts.specs.Inside.{value_of};
ghost use Rattle.core_parts.specs.IsCore.{IsCore};
ghost use Rattle.core_parts.specs.declared.phase.Phase.{Phase as CorePhase};
ghost use Rattle.lf_model.specs.Bus.Words.{word_of};
ghost use Rattle.lf_model.specs.Course.Syndromes.{enters_log};
ghost use Rattle.lf_model.specs.declared.bus.TurnKind.TheVariants.{Atomic};
ghost use Rattle.lf_model.specs.declared.bus.Why.TheVariants as whys;
ghost use Rattle.lf_model.specs.declared.step.Turn.TheVariants as turns;
ghost use Rattle.lf_model.specs.declared.trace.Word2.{Word2 as NamedWord};
ghost use Rattle.core_turns.specs.AfterTurn.{exchanged};
ghost use Rattle.core_turns.specs.AskedTurn.{turn_answer};
ghost use Rattle.core_turns.specs.CanTurn.{CanRetire, steps_ended, turn_over};
ghost use Rattle.core_turns.specs.Exchanging.{entry_seen, exchanged_if};

use ahb_bus::{Bus, Who};
use core_parts::{Operation, Parts};
use lf_model::bus::{Bad, OpKind, Pending};
use lf_model::control::Arch;
use lf_model::step::Did;

/// The number that an atomic of this length reads of its word: the byte at its address (LDSTUB), or the word (SWAP).
fn number_read(word: u32, addr: u32, len: u8) -> u32
    requires length { IsTrue (len == 1 || len == 4) }
    requires aligned { addr % len ≡ 0 }
    ensures { result ≡ part_of word addr len }
{
    if len == 4 {
        return word;
    }
    u32::from(word.to_be_bytes()[(addr % 4) as usize])
}

/// The core sees its own entry of the log, and drops the line that it changed.
fn see_entry(parts: &mut Parts, addr: u32, seen: u32)
    requires { seen ≡ parts.old.«record».seen + 1 }
    ensures seen { parts.new ≡ entry_seen addr parts.old }
    ensures uses { parts.new.arrays.data_cache.cache.uses ≤ parts.old.arrays.data_cache.cache.uses }
{
    parts.record.see(seen);
    parts.arrays.data_cache.drop_line(addr);
}

/// An atomic that read this number retires its instruction, and its entry is seen.
fn retire_atomic(arch: &mut Arch, parts: &mut Parts, asked: &Pending, rd: u8, got: u32, seen: u32)
    requires core { IsCore arch.old parts.old }
    requires can { CanRetire asked.now rd arch.old parts.old }
    requires runs { CanRun (steps_ended parts.old) 1 parts.old }
    requires number { got < 2 ^ (8 * asked.now.len) }
    requires seen { seen ≡ parts.old.«record».seen + 1 }
    ensures core { (quiet : ℕ) (named : List NamedWord) (phase : CorePhase) → value_of arch.new parts.new quiet named phase ≡ exchanged asked.now.addr asked.now.len asked.now.value rd got (value_of arch.old parts.old quiet named phase) }
    ensures keeps { IsCore arch.new parts.new }
    ensures runs { CanRun (steps_ended parts.old) 0 (turn_over parts.new) }
{
    see_entry(parts, asked.addr, seen);
    v8_exec::finish_atomic(arch, rd, got, parts);
    parts.record.retire(Operation {
        kind: OpKind::Atomic,
        addr: asked.addr,
        len: asked.len,
        got: u64::from(got),
        put: asked.value,
        way: 0,
    });
    parts.record.fits();
}

/// Makes LDSTUB or SWAP, as it is asked for, in one turn. It retires its instruction.
///
/// # Errors
///
/// Its word is bad; then the core is as before.
pub fn atomic(
    arch: &mut Arch,
    who: Who,
    parts: &mut Parts,
    bus: &mut Bus,
    asked: &Pending,
    rd: u8,
) -> Result<Did, Bad>
    requires begun { bus.old.begun ≡ true }
    requires turn { IsCoreTurn who bus.old }
    requires ok { BusOk bus.old }
    requires entry { HasEntryLeft who bus.old }
    requires setup { bus.old.setup ≡ parts.old.site }
    requires seen { parts.old.«record».seen ≡ length bus.old.log }
    requires core { IsCore arch.old parts.old }
    requires can { CanRetire asked.now rd arch.old parts.old }
    requires runs { CanRun (steps_ended parts.old) 1 parts.old }
    ensures core { (quiet : ℕ) (named : List NamedWord) (phase : CorePhase) → value_of arch.new parts.new quiet named phase ≡ exchanged_if
        (enters_log (answered bus.old (asked_by bus.old who Atomic whys.None asked.now.addr 0 asked.now.len)))
        asked.now rd (part_of (value_at (memory_of bus.old) (word_of asked.now.addr)) asked.now.addr asked.now.len) (value_of arch.old parts.old quiet named phase) }
    ensures made { bus.new ≡ exchanged_by who asked.now bus.old }
    ensures answer { (pc : ℕ) → result ≡ turn_answer pc (turns.Atomic asked.now.addr asked.now.len asked.now.value rd) (answered bus.old (asked_by bus.old who Atomic whys.None asked.now.addr 0 asked.now.len)) }
    ensures ok { BusOk bus.new }
    ensures keeps { IsCore arch.new parts.new }
    ensures runs { CanRun (steps_ended parts.old) 0 (turn_over parts.new) }
{
    let got = bus.atomic(who, asked)?;
    let number = number_read(got.value, asked.addr, asked.len);
    retire_atomic(arch, parts, asked, rd, number, bus.log().len());
    Ok(Did::Retired)
}
