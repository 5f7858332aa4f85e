ghost use Rattle.std.specs.Prelude.{◌≡◌, ◌<◌, ◌≤◌, ◌+◌, ◌^◌, ℕ, All, Some, IfSome};
ghost use Rattle.lf_model.specs.Course.Arrays.{register_cells};
ghost use Rattle.lf_model.specs.Course.Attempt.{comes_to, attempt};
ghost use Rattle.lf_model.specs.Course.LocalStep.{flush_by, retired_arrays, named_cell, way_hit, register_errors};
ghost use Rattle.lf_model.specs.Course.Progress.{Progress};
ghost use Rattle.lf_model.specs.Course.Turn.{caught_up};
ghost use Rattle.lf_model.specs.Effect.{Effect};
ghost use Rattle.lf_model.specs.Names.{same_why};
ghost use Rattle.lf_model.specs.declared.bus.Why.TheVariants.{Flush};
ghost use Rattle.replay_course.specs.Outcomes.{found_of, bad_cell, need_of, stop_cell};
ghost use Rattle.replay_course.specs.Progresses.{errors_of};
ghost use Rattle.replay_course.specs.Retiring.{store_of};
ghost use Rattle.replay_effects.specs.Attempts.{look_up_of, outcome_of};
ghost use Rattle.replay_effects.specs.Footprints.{IsFootprint};
ghost use Rattle.replay_effects.specs.Running.{next_effect};

use crate::need::Need;
use crate::progress::ErrorTrap;
use lf_model::bus::Why;
use replay_arrays::Arrays;
use replay_caches::LookUp as Found;
use replay_effects::{Access, AccessKind, Footprint, LookUp, LookUps, Outcome, Thread, attempt};

/// The error trap of a bad register cell.
const REGISTER_ACCESS_ERROR: u8 = 0x20;

/// The arrays of a core, over which its instructions are tried and made.
#[derive(Drop)]
pub struct CoreArrays {
    pub arrays: Arrays,
}

/// What a look-up of a cache answers.
fn look_up_of(found: Found) -> LookUp
    ensures { look_up_of result ≡ found_of found }
{
    match found {
        Found::Hit { slot } => LookUp::Hit(slot),
        Found::Miss(why) => LookUp::Miss(why),
    }
}

/// The barrier is FLUSH.
fn is_flush(barrier: Why) -> bool
    ensures { result ≡ same_why barrier Flush }
{
    matches!(barrier, Why::Flush)
}

impl LookUps for CoreArrays {
    ghost use Rattle.replay_course.specs.CoreArrays.{Rest, rest_of, left_of};

    ghost arrays = { λ a. a.arrays.arrays };

    ghost left = { left_of };

    ghost Rest = { Rest };

    ghost rest = { rest_of };

    fn look_fetch(&mut self, addr: u32) -> LookUp {
        look_up_of(self.arrays.look_fetch(addr))
    }

    fn read(&mut self, cells: &[u8]) -> Option<u8> {
        self.arrays.read(cells)
    }

    fn look_data(&mut self, addr: u32, len: u8) -> LookUp {
        look_up_of(self.arrays.look_data(addr, len))
    }
}

impl CoreArrays {
    ghost use Rattle.replay_course.specs.CoreArrays.{rest_of, uses_of, with_arrays};

    /// The next instruction of a core, which has this footprint, is tried.
    pub fn attempt(&mut self, thread: &Thread, footprint: &Footprint) -> Outcome
        requires footprint { IsFootprint thread.now.run.state.ctl.cwp (next_effect thread.now) footprint.now }
        requires room { uses_of self.old + 4 ≤ 2 ^ 64 }
        ensures comes { comes_to (outcome_of result) self.new.arrays.arrays
            ≡ attempt thread.now.setup.image thread.now.run.state (next_effect thread.now) self.old.arrays.arrays }
        ensures cell { IfSome (bad_cell result) (λ cell. cell < register_cells) }
        ensures rest { rest_of self.new ≡ rest_of self.old }
        ensures uses { uses_of self.new ≤ uses_of self.old + 2 }
    {
        attempt(thread.is_text(), thread.pc(), footprint, self)
    }

    /// The way that a load hit.
    pub fn way_hit(&self, outcome: Outcome) -> Option<u8>
        ensures { result ≡ way_hit self.now.arrays.arrays.data_cache (outcome_of outcome) }
    {
        if let Outcome::LoadHit(slot) = outcome {
            return Some(self.arrays.data_cache().way_of(slot));
        }
        None
    }

    /// The error trap that is met by a step without a turn, where it needs the stop by a register cell.
    pub fn register_error(&self, steps: u32, need: Need) -> Option<ErrorTrap>
        requires cell { IfSome (stop_cell need) (λ cell. cell < register_cells) }
        requires steps { steps + 1 < 2 ^ 32 }
        ensures { (k : Progress) → k.steps ≡ steps → errors_of result ≡ register_errors self.now.arrays.arrays k (need_of need) }
    {
        if let Need::RegisterStop { cell } = need {
            return Some(ErrorTrap {
                trap_type: REGISTER_ACCESS_ERROR,
                place: u32::from(cell),
                syndrome: self.arrays.cells().syndrome(cell),
                steps: steps + 1,
                turns: None,
            });
        }
        None
    }

    // ---- an instruction retires

    /// An operation: a store updates the data cache.
    fn access(&mut self, x: Access)
        requires { uses_of self.old + 1 < 2 ^ 64 }
        ensures stored { self.new ≡ with_arrays (store_of (Some x) self.old.arrays.arrays) self.old }
        ensures uses { uses_of self.new ≤ uses_of self.old + 1 }
    {
        match x.kind {
            AccessKind::Store => self.arrays.update(x.addr, x.len),
            AccessKind::Load | AccessKind::Atomic => {}
        }
    }

    /// The operation of an instruction, if it has one.
    fn store(&mut self, operation: Option<Access>)
        requires { uses_of self.old + 1 < 2 ^ 64 }
        ensures stored { self.new ≡ with_arrays (store_of operation self.old.arrays.arrays) self.old }
        ensures uses { uses_of self.new ≤ uses_of self.old + 1 }
    {
        if let Some(x) = operation {
            self.access(x);
        }
    }

    /// FLUSH empties both caches.
    fn flush(&mut self, barrier: Option<Why>)
        ensures flushed { self.new ≡ with_arrays (flush_by barrier self.old.arrays.arrays) self.old }
        ensures uses { uses_of self.new ≤ uses_of self.old }
    {
        if let Some(why) = barrier {
            if is_flush(why) {
                self.arrays.flush();
            }
        }
    }

    /// An instruction with this footprint retires.
    pub fn retire(&mut self, footprint: &Footprint)
        requires cells { All (λ cell. cell < register_cells) footprint.now.writes.items }
        requires room { uses_of self.old + 1 < 2 ^ 64 }
        ensures retired { (window : ℕ) (e : Effect) → IsFootprint window e footprint.now
            → self.new ≡ with_arrays (retired_arrays e self.old.arrays.arrays) self.old }
        ensures uses { uses_of self.new ≤ uses_of self.old + 1 }
    {
        self.store(footprint.access);
        self.flush(footprint.barrier);
        self.arrays.write(footprint.writes.as_slice());
    }

    /// A step comes to a stop: the error trap names the bad register cell.
    pub fn name_cell(&mut self, outcome: Outcome)
        requires { IfSome (bad_cell outcome) (λ cell. cell < register_cells) }
        ensures named { self.new ≡ with_arrays (named_cell (outcome_of outcome) self.old.arrays.arrays) self.old }
        ensures uses { uses_of self.new ≡ uses_of self.old }
    {
        if let Outcome::BadRegister(cell) = outcome {
            self.arrays.name(cell);
        }
    }

    // ---- a turn

    /// The data cache snoops stores at these addresses, in order.
    pub fn catch_up(&mut self, unseen: &[u32])
        ensures caught { self.new ≡ with_arrays (caught_up unseen.now self.old.arrays.arrays) self.old }
        ensures uses { uses_of self.new ≤ uses_of self.old }
    {
        for addr in unseen {
            self.arrays.snoop(*addr);
        }
    }
}
