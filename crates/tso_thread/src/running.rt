ghost use Rattle.std.specs.Prelude.{◌≡◌, ◌↔◌, ◌<◌, ◌≤◌, ◌+◌, ◌-◌, ◌*◌, ◌^◌, true, false, ℕ, List, IsTrue, IfOk, Some, None};
ghost use Rattle.lf_model.specs.Run.{effect_at_pc};
ghost use Rattle.lf_model.specs.State.{reset_control};
ghost use Rattle.lf_model.specs.Step.{IsSound, Does, state_of, run_seen};
ghost use Rattle.lf_model.specs.declared.setup.Setup.{Setup};
ghost use Rattle.lf_model.specs.declared.trace.Op.{Op};
ghost use Rattle.tso_thread.specs.ReplayInside.{answering_in, seen_in, room_in};
ghost use Rattle.tso_thread.specs.ReplayState.{ReadsFit, replay_answers, is_atomic, read_next, got_next};
ghost use Rattle.tso_thread.specs.ThreadState.{setup_in, IsThreadOf, IsAt, HasNoThread, MakesAll, Exchanges};
ghost use Rattle.v8_exec.specs.Accesses.{Asks, is_atomic_size};
ghost use Rattle.v8_exec.specs.Frame.{Counts};

use crate::program::Program;
use crate::replay::Replay;
use lf_model::bus::OpKind;
use lf_model::control::{Arch, Ctl};
use lf_model::step::{Did, Turn};
use lf_model::trace::Op;
use std::alloc::{AllocError, Global};
use v8_exec::{exec, fetch_trap, finish_atomic};

/// A core whose instructions are made again, with what the loads read as its operations in a trace say.
#[derive(Drop)]
pub(crate) struct Thread<'a> {
    pub(crate) arch: Arch,
    pub(crate) replay: Replay<'a>,
    /// The trap type by which it entered error mode.
    pub(crate) halt: Option<u8>,
}

/// The state registers of a core at reset.
fn reset_arch(entry: u32, core: u32) -> Arch
    ensures control { result.ctl ≡ reset_control entry }
    ensures rest { (result.wim ≡ 2) × (result.y ≡ 0) × (result.core ≡ core) × (result.n ≡ 0) × (result.k ≡ 0) }
{
    Arch {
        ctl: Ctl {
            icc: 0,
            pil: 0,
            s: true,
            ps: false,
            et: false,
            cwp: 0,
            tbr: 0,
            pc: entry,
            npc: entry.wrapping_add(4),
        },
        wim: 2,
        y: 0,
        core,
        n: 0,
        k: 0,
    }
}

/// The instruction at PC, or the trap of a PC that is no text word.
#[tactic(auto, unfolding(lf_model::specs::Run::effect_at_pc))]
fn instruction(arch: &mut Arch, replay: &mut Replay) -> Did
    requires sound { IsSound arch.old }
    requires core { arch.old.core ≡ replay.old.core }
    requires instructions { arch.old.n + 1 < 2 ^ 32 }
    requires operations { arch.old.k + 1 < 2 ^ 32 }
    requires room { 0 < room_in replay.old }
    ensures does { Does replay.old.core (replay_answers (answering_in replay.old))
        (effect_at_pc replay.old.program.now.setup.now replay.old.core (state_of arch.old (seen_in replay.old)))
        result (run_seen arch.old (seen_in replay.old)) (run_seen arch.new (seen_in replay.new)) }
    ensures ops { replay.new.ops.now ≡ replay.old.ops.now }
    ensures counts { Counts result arch.old arch.new (seen_in replay.old) (seen_in replay.new) (room_in replay.old) (room_in replay.new) }
    ensures asks { Asks (seen_in replay.old).site result }
{
    let program = replay.program;
    match program.fetch(arch.ctl.pc) {
        Some(word) => exec(arch, word, replay),
        None => fetch_trap(arch, replay),
    }
}

impl<'a> Thread<'a> {
    /// A core at reset, with room for so many instructions.
    ///
    /// # Errors
    ///
    /// Memory ran out.
    pub(crate) fn new(
        alloc: Global,
        program: &'a Program<'a>,
        ops: &'a [Op],
        core: u32,
        room: u32,
    ) -> Result<Thread<'a>, AllocError>
        requires fit { ReadsFit ops.now }
        requires core { core < 8 }
        requires room { room < 2 ^ 32 - 1 }
        ensures reset { IfOk result (IsAt program.entry.now.setup.now core ops.entry.now 0 room) }
        ensures setup { IfOk result (λ thread. setup_in thread ≡ program.entry.now.setup.now) }
        ensures ops { IfOk result (λ thread. thread.replay.ops.now ≡ ops.entry.now) }
        ensures core { IfOk result (λ thread. thread.replay.core ≡ core) }
    {
        Ok(Thread {
            arch: reset_arch(program.setup.image.entry, core),
            replay: Replay::new(alloc, program, ops, core, room)?,
            halt: None,
        })
    }

    /// LDSTUB or SWAP, which reads what the next operation of the trace read, if that is an atomic on these bytes.
    fn exchange(&mut self, addr: u32, len: u8, new: u32, rd: u8) -> bool
        requires sound { IsSound self.old.arch }
        requires instructions { self.old.arch.n + 1 < 2 ^ 32 }
        requires operations { self.old.arch.k + 1 < 2 ^ 32 }
        requires room { 0 < room_in self.old.replay }
        requires size { is_atomic_size len ≡ true }
        requires register { rd < 32 }
        ensures unlike { result ≡ false → read_next is_atomic (answering_in self.old.replay) addr len ≡ None }
        ensures like { result ≡ true → read_next is_atomic (answering_in self.old.replay) addr len ≡ Some (got_next (answering_in self.old.replay)) }
        ensures made { result ≡ true → Exchanges addr len new rd (got_next (answering_in self.old.replay))
            self.old.arch self.new.arch (seen_in self.old.replay) (seen_in self.new.replay) }
        ensures ops { self.new.replay.ops.now ≡ self.old.replay.ops.now }
        ensures room { room_in self.old.replay ≤ room_in self.new.replay + 1 }
        ensures halt { self.new.halt ≡ self.old.halt }
    {
        let Some(got) = self.replay.next_atomic(addr, len) else {
            return false;
        };
        finish_atomic(&mut self.arch, rd, got as u32, &mut self.replay);
        self.replay
            .note(OpKind::Atomic, addr, len, got, u64::from(new));
        true
    }

    /// Makes one more instruction. False: its operation is not the next one of the trace.
    fn step(&mut self) -> bool
        requires ready { IsThreadOf (setup_in self.old) self.old.replay.core self.old.replay.ops.now 1 self.old }
        requires going { self.old.halt ≡ None }
        ensures goes { result ≡ true → (setup : Setup) (core : ℕ) (ops : List Op) (n left : ℕ)
            → IsAt setup core ops n (left + 1) self.old → IsAt setup core ops (n + 1) left self.new }
        ensures apart { result ≡ false → (setup : Setup) (core : ℕ) (ops : List Op) (n left : ℕ)
            → IsAt setup core ops n (left + 1) self.old → HasNoThread setup core ops (n + 1) }
    {
        match instruction(&mut self.arch, &mut self.replay) {
            Did::Retired => self.replay.agrees(),
            Did::Halt(tt) => {
                self.halt = Some(tt);
                true
            }
            Did::Need(Turn::Atomic { addr, len, new, rd }) => {
                self.exchange(addr, len, new, rd) && self.replay.agrees()
            }
            Did::Need(Turn::Load { .. }) => false,
            Did::Need(Turn::Fetch { .. }) => false,
            Did::Need(Turn::Drain(_)) => false,
            Did::Need(Turn::Snoop) => false,
            Did::Turned => false,
            Did::Stop { .. } => false,
        }
    }

    /// Makes so many instructions. True: the core gets so far, and makes just its operations of the trace.
    pub(crate) fn run(&mut self, n: u32) -> bool
        requires reset { IsAt (setup_in self.old) self.old.replay.core self.old.replay.ops.now 0 n self.old }
        ensures makes { IsTrue result ↔ MakesAll (setup_in self.old) self.old.replay.core self.old.replay.ops.now n }
        ensures ran { result ≡ true → IsAt (setup_in self.old) self.old.replay.core self.old.replay.ops.now n 0 self.new }
    {
        for _ in 0..n {
            if self.halt.is_some() {
                return false;
            }
            if !self.step() {
                return false;
            }
        }
        self.replay.is_whole()
    }
}
