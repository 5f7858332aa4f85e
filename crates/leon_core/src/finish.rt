ghost use Rattle.std.specs.Prelude.{◌≡◌, ◌<◌, ◌^◌, true, [], ℕ, List, length, map, slice_index, vec_len};
ghost use Rattle.std.specs.List.{list_all, range_with_len};
ghost use Rattle.std.specs.Vec.{vec_capacity};
ghost use Rattle.core_parts.specs.Inside.{value_of};
ghost use Rattle.core_parts.specs.Phases.{state_of_core};
ghost use Rattle.core_parts.specs.Strikes.{arrays_of, IsFor, Came};
ghost use Rattle.core_parts.specs.declared.phase.CoreState.TheVariants as states;
ghost use Rattle.core_parts.specs.declared.phase.Phase.{Phase};
ghost use Rattle.core_course.specs.Calls.{Joins};
ghost use Rattle.leon_core.specs.Ends.{IsEnded, Leaves};
ghost use Rattle.core_course.specs.Result.{cell_shown, register_shown};
ghost use Rattle.lf_model.specs.Ledger.FlipFate.{flip_fates};
ghost use Rattle.lf_model.specs.Promise.Regular.{value_fits, end_fits};
ghost use Rattle.lf_model.specs.Promise.RegularTransfer.{fits_byte};
ghost use Rattle.lf_model.specs.Records.CoreRecord.{of_core_alone, RecordOk};
ghost use Rattle.lf_model.specs.State.{cell};
ghost use Rattle.lf_model.specs.declared.bus.Entry.{Entry};
ghost use Rattle.lf_model.specs.declared.bus.Transfer.{Transfer};
ghost use Rattle.lf_model.specs.declared.flip.Flip.{Flip};
ghost use Rattle.lf_model.specs.declared.trace.Word2.{Word2};

use crate::one_core::Core;
use crate::room::Room;
use core_parts::{Arrays, CoreState, Parts};
use lf_model::control::Arch;
use lf_model::listed::Listed;
use lf_model::record::CoreRecord;
use lf_model::trace::{CoreEnd, CoreResult, Fate};
use v8_windows::cell;

/// The value of register `n`, from 1 to 31, in the current window; `None` where its cell is bad.
fn cell_value(arch: &Arch, parts: &Parts, n: u8) -> Option<u32>
    requires window { arch.now.ctl.cwp < 8 }
    requires register { n < 32 }
    ensures shown { (quiet : ℕ) (named : List Word2) (phase : Phase) → result ≡ cell_shown (value_of arch.now parts.now quiet named phase) (cell arch.now.ctl.cwp n) }
    ensures fits { value_fits result ≡ true }
{
    parts.arrays.registers.peek(cell(arch.ctl.cwp, n))
}

/// The value of register `n`, below 32, in the current window; `None` where its cell is bad. Register 0 is 0.
fn register(arch: &Arch, parts: &Parts, n: u8) -> Option<u32>
    requires window { arch.now.ctl.cwp < 8 }
    requires register { n < 32 }
    ensures shown { (quiet : ℕ) (named : List Word2) (phase : Phase) → result ≡ register_shown (value_of arch.now parts.now quiet named phase) n }
    ensures fits { value_fits result ≡ true }
{
    if n == 0 {
        return Some(0);
    }
    cell_value(arch, parts, n)
}

/// Puts the 32 registers of the current window into the room that was reserved for them.
fn put_registers(regs: &mut Vec<Option<u32>>, arch: &Arch, parts: &Parts)
    requires window { arch.now.ctl.cwp < 8 }
    requires none { regs.old.items ≡ [] }
    requires used { vec_len regs.old ≡ 0 }
    requires room { vec_capacity regs.old ≡ 32 }
    ensures shown { (quiet : ℕ) (named : List Word2) (phase : Phase)
        → regs.new.items ≡ map (register_shown (value_of arch.now parts.now quiet named phase)) (range_with_len 0 32) }
    ensures fit { list_all value_fits regs.new.items ≡ true }
{
    for n in 0..32u8 {
        regs.push_reserved(register(arch, parts, n));
    }
}

/// Puts the fates of so many flips of a script, which struck core number `core` before this step, into the room that was reserved.
fn put_fates(fates: &mut Vec<Fate>, arrays: &Arrays, flips: u32)
    requires none { fates.old.items ≡ [] }
    requires used { vec_len fates.old ≡ 0 }
    requires room { vec_capacity fates.old ≡ flips }
    requires registers { arrays.now.registers.flips ≡ flips }
    requires fetch_cache { arrays.now.fetch_cache.flips ≡ flips }
    requires data_cache { arrays.now.data_cache.flips ≡ flips }
    ensures { (script : List Flip) (core step : ℕ) → IsFor core script arrays.now → Came script core step (arrays_of arrays.now) → length script ≡ flips
        → fates.new.items ≡ flip_fates script [] (of_core_alone core (arrays_of arrays.now)) }
{
    for number in 0..flips {
        fates.push_reserved(arrays.fate(number));
    }
}

/// For contracts alone: the items of a list of bytes are bytes.
fn are_bytes(_bytes: &Vec<u8>)
    ensures { (k : ℕ) → slice_index _bytes.now.items k < 2 ^ 8 }
{}

/// The bytes of the output word, as a list of the result.
fn output(bytes: Vec<u8>) -> Listed<u8>
    ensures items { result ≡ bytes.items }
    ensures fit { list_all fits_byte result ≡ true }
{
    are_bytes(&bytes);
    Listed::from_vec(bytes)
}

/// For contracts alone: the words of a result are words.
fn are_words(_n: u32, _steps: u32, _psr: u32, _wim: u32, _tbr: u32, _y: u32, _pc: u32, _npc: u32)
    ensures n { _n < 2 ^ 32 }
    ensures steps { _steps < 2 ^ 32 }
    ensures psr { _psr < 2 ^ 32 }
    ensures wim { _wim < 2 ^ 32 }
    ensures tbr { _tbr < 2 ^ 32 }
    ensures y { _y < 2 ^ 32 }
    ensures pc { _pc < 2 ^ 32 }
    ensures npc { _npc < 2 ^ 32 }
{}

impl Core {
    /// How the core, which has ended, did so.
    fn end(&self) -> CoreEnd
        requires { IsEnded (state_of_core self.now) }
        ensures ended { state_of_core self.now ≡ states.Ended result }
        ensures fits { end_fits result ≡ true }
    {
        match self.state() {
            CoreState::Ended(end) => end,
            CoreState::Running | CoreState::Draining => unreachable!(),
        }
    }

    /// What the core, which has ended, leaves of its run. No memory is taken.
    pub fn finish(self) -> CoreRecord
        requires { IsEnded (state_of_core self) }
        ensures leaves { Leaves self result }
        ensures ok { (log : List Entry) (transfers : List Transfer) → Joins self log transfers → RecordOk self.setup self.arch.core result log transfers }
    {
        let end = self.end();
        let Core {
            arch,
            parts,
            room,
            flips,
            ..
        } = self;
        let Room {
            mut regs,
            mut fates,
            named,
        } = room;
        put_registers(&mut regs, &arch, &parts);
        put_fates(&mut fates, &parts.arrays, flips);
        let parity = parts.arrays.parity();
        let steps = parts.record.steps();
        let psr = arch.ctl.psr();
        are_words(
            arch.n,
            steps,
            psr,
            arch.wim,
            arch.ctl.tbr,
            arch.y,
            arch.ctl.pc,
            arch.ctl.npc,
        );
        let completed = parts.record.into_completed();
        CoreRecord {
            result: CoreResult {
                end,
                n: arch.n,
                steps,
                out: output(parts.out),
                regs: Listed::from_vec(regs),
                psr,
                wim: arch.wim,
                tbr: arch.ctl.tbr,
                y: arch.y,
                pc: arch.ctl.pc,
                npc: arch.ctl.npc,
                parity,
            },
            ops: Listed::from_vec(completed.ops),
            seen: Listed::from_vec(completed.seen_by),
            named: Listed::from_vec(named),
            fates: Listed::from_vec(fates),
        }
    }
}
