ghost use Rattle.std.specs.Prelude.{◌≡◌, ◌<◌, ◌≤◌, ◌+◌, All, Some};
ghost use Rattle.lf_model.specs.Caches.Look.{look};
ghost use Rattle.lf_model.specs.Course.Arrays.{register_cells, read_cells};
ghost use Rattle.lf_model.specs.Course.Attempt.{comes_to, barrier_attempt, attempt};
ghost use Rattle.lf_model.specs.Effect.{Effect};
ghost use Rattle.lf_model.specs.Start.{is_text_word};
ghost use Rattle.lf_model.specs.State.{State};
ghost use Rattle.lf_model.specs.declared.image.Image.{Image};
ghost use Rattle.replay_effects.specs.Attempts.{outcome_of, access_by, operation_by, trap_by, read_by, looked_by, attempt_by};
ghost use Rattle.replay_effects.specs.Footprints.{IsFootprint};

use crate::footprint::{Access, AccessKind, Footprint};
use crate::look_ups::{LookUp, LookUps};
use crate::outcome::Outcome;
use lf_model::bus::Why;

/// A load, store or atomic: a load looks its bytes up in the data cache.
fn access<A: LookUps>(x: Access, arrays: &mut A) -> Outcome
    requires { 0 < A.left arrays.old }
    ensures comes { comes_to (outcome_of result) (A.arrays arrays.new) ≡ access_by x (A.arrays arrays.old) x.kind }
    ensures left { A.left arrays.old ≤ A.left arrays.new + 1 }
    ensures rest { A.rest arrays.new ≡ A.rest arrays.old }
{
    match x.kind {
        AccessKind::Load => match arrays.look_data(x.addr, x.len) {
            LookUp::Hit(slot) => Outcome::LoadHit(slot),
            LookUp::Miss(why) => Outcome::LoadMiss(why),
        },
        AccessKind::Store => Outcome::Store,
        AccessKind::Atomic => Outcome::Atomic,
    }
}

/// STBAR or FLUSH, or another instruction without an operation.
fn barrier(barrier: Option<Why>) -> Outcome
    ensures { (a : Rattle.lf_model.specs.Course.Arrays.Arrays) → comes_to (outcome_of result) a ≡ barrier_attempt a barrier }
{
    match barrier {
        Some(why) => Outcome::Barrier(why),
        None => Outcome::Other,
    }
}

/// The instruction, once its word is fetched and its registers are read.
fn operation<A: LookUps>(footprint: &Footprint, arrays: &mut A) -> Outcome
    requires { 0 < A.left arrays.old }
    ensures comes { comes_to (outcome_of result) (A.arrays arrays.new) ≡ trap_by footprint.now (A.arrays arrays.old) footprint.now.trap }
    ensures left { A.left arrays.old ≤ A.left arrays.new + 1 }
    ensures rest { A.rest arrays.new ≡ A.rest arrays.old }
{
    if footprint.trap {
        return Outcome::OrdinaryTrap;
    }
    match footprint.access {
        Some(x) => access(x, arrays),
        None => barrier(footprint.barrier),
    }
}

/// The instruction, once its word is fetched: it reads its registers.
fn registers<A: LookUps>(footprint: &Footprint, arrays: &mut A) -> Outcome
    requires left { 0 < A.left arrays.old }
    requires cells { All (λ cell. cell < register_cells) footprint.now.reads.items }
    ensures comes { comes_to (outcome_of result) (A.arrays arrays.new)
        ≡ read_by footprint.now (A.arrays arrays.old) (read_cells footprint.now.reads.items (A.arrays arrays.old).cells) }
    ensures left { A.left arrays.old ≤ A.left arrays.new + 1 }
    ensures rest { A.rest arrays.new ≡ A.rest arrays.old }
{
    match arrays.read(footprint.reads.as_slice()) {
        Some(cell) => Outcome::BadRegister(cell),
        None => operation(footprint, arrays),
    }
}

/// The instruction at a PC that is a text word.
fn fetched<A: LookUps>(pc: u32, footprint: &Footprint, arrays: &mut A) -> Outcome
    requires left { 1 < A.left arrays.old }
    requires cells { All (λ cell. cell < register_cells) footprint.now.reads.items }
    ensures comes { comes_to (outcome_of result) (A.arrays arrays.new)
        ≡ looked_by footprint.now (A.arrays arrays.old) (look pc 4 (A.arrays arrays.old).fetch_cache) }
    ensures left { A.left arrays.old ≤ A.left arrays.new + 2 }
    ensures rest { A.rest arrays.new ≡ A.rest arrays.old }
{
    match arrays.look_fetch(pc) {
        LookUp::Hit(_) => registers(footprint, arrays),
        LookUp::Miss(why) => Outcome::FetchMiss(why),
    }
}

/// Tries the instruction at PC, which has this footprint: it is fetched through the fetch cache, its registers are read, and a load
/// looks its bytes up in the data cache, in this order, up to the first of these that stops it.
pub fn attempt<A: LookUps>(is_text: bool, pc: u32, footprint: &Footprint, arrays: &mut A) -> Outcome
    requires left { 1 < A.left arrays.old }
    requires cells { All (λ cell. cell < register_cells) footprint.now.reads.items }
    ensures comes { (image : Image) (s : State) (e : Effect) → is_text_word image.text pc ≡ is_text → s.ctl.pc ≡ pc → IsFootprint s.ctl.cwp e footprint.now
        → comes_to (outcome_of result) (A.arrays arrays.new) ≡ attempt image s e (A.arrays arrays.old) }
    ensures left { A.left arrays.old ≤ A.left arrays.new + 2 }
    ensures rest { A.rest arrays.new ≡ A.rest arrays.old }
{
    if is_text {
        fetched(pc, footprint, arrays)
    } else {
        Outcome::NoText
    }
}
