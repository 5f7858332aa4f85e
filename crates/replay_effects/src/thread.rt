ghost use Rattle.std.specs.Prelude.{◌≡◌, ◌<◌, ◌+◌, ◌^◌, length, slice_index, None, true};
ghost use Rattle.std.specs.Int.{from_bool};
ghost use Rattle.lf_model.specs.Run.{reads_of};
ghost use Rattle.lf_model.specs.Start.{is_text_word};
ghost use Rattle.lf_model.specs.State.{reset_control};
ghost use Rattle.lf_model.specs.Step.{IsSound, came_to, state_of};
ghost use Rattle.lf_model.specs.declared.step.Did.TheVariants.{Need};
ghost use Rattle.lf_model.specs.declared.step.Turn.TheVariants.{Drain};
ghost use Rattle.replay_effects.specs.Footprints.{IsFootprint};
ghost use Rattle.replay_effects.specs.Noted.{nothing_noted, trial_answers};
ghost use Rattle.replay_effects.specs.Running.{start, next_effect, FitsAnswer, retired};
ghost use Rattle.replay_effects.specs.TrialInside.{seen_in};
ghost use Rattle.replay_effects.specs.Tries.{IsTried};

use crate::footprint::Footprint;
use crate::made::{Made, Nothing, Output};
use crate::trial::Trial;
use crate::tried::{Tried, drain_of, exchange_of, halt_of, instruction};
use arrayvec::ArrayVec;
use ghost_value::Ghost;
use lf_model::bus::Why;
use lf_model::control::{Arch, Ctl};
use std::marker::Model;
use tso_thread::Program;

/// The run of a core so far, which reads the numbers that it is given.
#[derive(Drop)]
pub struct Thread<'a> {
    program: &'a Program<'a>,
    answers: &'a [u64],
    arch: Arch,
    cells: [u32; 136],
    /// How many of the answers were read.
    read: usize,
    /// The trap type by which it entered error mode.
    halt: Option<u8>,
    out: Ghost<Output>,
    made: Ghost<Made>,
}

/// The state registers of a core at reset.
fn reset_arch(entry: u32, core: u32) -> Arch
    requires { core < 8 }
    ensures control { result.ctl ≡ reset_control entry }
    ensures rest { (result.wim ≡ 2) × (result.y ≡ 0) × (result.core ≡ core) }
    ensures sound { IsSound result }
{
    Arch {
        ctl: Ctl {
            icc: 0,
            pil: 0,
            s: true,
            ps: false,
            et: false,
            cwp: 0,
            tbr: 0,
            pc: entry,
            npc: entry.wrapping_add(4),
        },
        wim: 2,
        y: 0,
        core,
        n: 0,
        k: 0,
    }
}

impl<'a> Model for Thread<'a> {
    ghost use Rattle.replay_effects.specs.Running.{Running};

    ghost Value = { Running };

    ghost use Rattle.replay_effects.specs.ThreadInside.{running, IsThread};

    ghost view = { running };

    ghost invariant = { IsThread };
}

impl<'a> Thread<'a> {
    /// The run of a core at reset, which reads these numbers.
    #[tactic(auto, unfolding(lf_model::specs::State::reset))]
    pub fn new(program: &'a Program<'a>, answers: &'a [u64], core: u32) -> Thread<'a>
        requires { core < 8 }
        ensures { result ≡ start program.entry.now.setup.now core answers.entry.now }
    {
        let entry = program.setup.image.entry;
        let mut cells = [0; 136];
        cells[8] = core;
        Thread {
            program,
            answers,
            arch: reset_arch(entry, core),
            cells,
            read: 0,
            halt: None,
            out: Ghost::of(&Nothing),
            made: Ghost::of(&Nothing),
        }
    }

    /// PC.
    pub fn pc(&self) -> u32
        ensures { result ≡ self.now.run.state.ctl.pc }
    {
        self.arch.ctl.pc
    }

    /// PC is a text word.
    pub fn is_text(&self) -> bool
        ensures { result ≡ is_text_word self.now.setup.image.text self.now.run.state.ctl.pc }
    {
        self.program.fetch(self.arch.ctl.pc).is_some()
    }

    /// Traps are enabled.
    pub fn traps_enabled(&self) -> bool
        ensures { result ≡ self.now.run.state.ctl.et }
    {
        self.arch.ctl.et
    }

    /// The instruction at PC is tried on a copy of the core, where a load reads this number, and a store waits or doesn't.
    fn tried(&self, got: u64, waiting: bool) -> Tried<'a>
        requires going { self.now.run.state.halt ≡ None }
        ensures { IsTried self.now.setup self.now.core got waiting (next_effect self.now) self.now.run result }
    {
        let mut arch = Arch {
            n: 0,
            k: 0,
            ..self.arch
        };
        let mut trial = Trial {
            program: self.program,
            core: self.arch.core,
            cells: self.cells,
            got,
            waiting,
            reads: ArrayVec::new(),
            writes: ArrayVec::new(),
            access: None,
            out: Ghost::of(&self.out),
            made: Ghost::of(&self.made),
        };
        let did = instruction(&mut arch, &mut trial);
        Tried { did, arch, trial }
    }

    /// The footprint of an instruction before which a store that waits has to drain.
    fn footprint_behind_drain(&self, why: Why) -> Footprint
        requires going { self.now.run.state.halt ≡ None }
        requires drains { came_to (trial_answers (nothing_noted 0 true)) self.now.run.state (next_effect self.now) ≡ Need (Drain why) }
        ensures { IsFootprint self.now.run.state.ctl.cwp (next_effect self.now) result }
    {
        let mut tried = self.tried(0, false);
        match exchange_of(tried.did) {
            Some(exchange) => tried.exchange(self.arch.ctl.cwp, exchange),
            None if halt_of(tried.did).is_some() => tried.footprint(true, None),
            None => tried.footprint(false, Some(why)),
        }
    }

    /// What the next instruction reads, accesses and writes.
    pub fn footprint(&self) -> Footprint
        requires going { self.now.run.state.halt ≡ None }
        ensures { IsFootprint self.now.run.state.ctl.cwp (next_effect self.now) result }
    {
        let mut tried = self.tried(0, true);
        match drain_of(tried.did) {
            Some(why) => self.footprint_behind_drain(why),
            None => {
                let trap = tried.shows_trap(self.arch.ctl.et);
                tried.footprint(trap, None)
            }
        }
    }

    /// The next number that a load or an atomic reads, 0 where none is left.
    fn next_answer(&self) -> u64
        ensures { result ≡ slice_index self.now.answers (reads_of self.now.run.ops) }
    {
        match self.answers.get(self.read) {
            Some(got) => *got,
            None => 0,
        }
    }

    /// The run is as an instruction that was tried leaves it, whose operation reads memory or doesn't.
    fn keep(&mut self, tried: &Tried<'a>, reads: bool)
        requires sound { IsSound tried.now.arch }
        requires number { tried.now.arch.core ≡ self.old.core }
        requires counted { reads_of tried.now.trial.made ≡ reads_of self.old.run.ops + from_bool reads }
        requires operations { length self.old.run.ops + 1 < 2 ^ 32 }
        ensures { self.new ≡ record self.old {
          run = record {
            state = record (state_of tried.now.arch (seen_in tried.now.trial)) { halt = self.old.run.state.halt };
            ops = tried.now.trial.made;
          };
        } }
    {
        self.arch = tried.arch;
        self.cells = tried.trial.cells;
        self.out = Ghost::of(&tried.trial.out);
        self.made = Ghost::of(&tried.trial.made);
        self.read += usize::from(reads);
    }

    /// Makes the next instruction, whose load or atomic reads the next number that the core is given.
    pub fn retire(&mut self)
        requires going { self.old.run.state.halt ≡ None }
        requires operations { length self.old.run.ops + 1 < 2 ^ 32 }
        requires answer { FitsAnswer self.old.answers self.old.run.ops (next_effect self.old).access }
        ensures { self.new ≡ retired self.old }
    {
        let got = self.next_answer();
        let mut tried = self.tried(got, false);
        if let Some(tt) = halt_of(tried.did) {
            self.halt = Some(tt);
            return;
        }
        let reads = tried.reads_memory();
        tried.complete(got);
        self.keep(&tried, reads);
    }
}
