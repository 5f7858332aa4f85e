ghost use Rattle.std.specs.Prelude.{◌≡◌, ◌<◌, ◌+◌, ◌-◌, ◌++◌, ◌^◌, [], nat_lt, nat_le, None, length, map, vec_len, vec_capacity, OnOk};
ghost use Rattle.lf_model.specs.Course.Outcome.{step_needs};
ghost use Rattle.replay_course.specs.Outcomes.{came_to, need_of};
ghost use Rattle.replay_course.specs.Progresses.{completion_of, error_of, errors_of, completions_with, stores_with, owed_by, HasRoom, KeepsNotes};
ghost use Rattle.replay_effects.specs.Running.{FitsAnswer, next_effect, retired};

use crate::need::{Need, step_needs};
use crate::progress::{Completion, Counts, ErrorTrap};
use replay_effects::{Access, AccessKind, Outcome, Thread};
use std::alloc::{AllocError, Global};

/// What is noted of the course of a core.
#[derive(Drop)]
pub(crate) struct Notes {
    /// The addresses at which others stored since its last turn.
    pub(crate) unseen: Vec<u32>,
    /// Those of its operations, in program order.
    pub(crate) completions: Vec<Completion>,
    /// Those that it met.
    pub(crate) errors: Vec<ErrorTrap>,
}

/// The course of a core so far, but for its arrays.
#[derive(Drop)]
pub(crate) struct Course<'a> {
    pub(crate) thread: Thread<'a>,
    pub(crate) counts: Counts,
    pub(crate) notes: Notes,
}

/// How many stores an instruction with this operation makes.
fn stores_with(operation: Option<Access>) -> u32
    ensures { result ≡ stores_with operation }
{
    match operation {
        Some(x) => match x.kind {
            AccessKind::Store => 1,
            AccessKind::Load | AccessKind::Atomic => 0,
        },
        None => 0,
    }
}

/// How many turns a step owes that needs this.
fn owed_by(need: Need) -> u32
    ensures { result ≡ owed_by need }
{
    match need {
        Need::Turn { .. } => 1,
        Need::NoTurn | Need::RegisterStop { .. } => 0,
    }
}

impl Counts {
    /// As at reset.
    pub(crate) fn new() -> Counts
        ensures { result ≡ record { steps = 0; turns = 0; quiet = 0; retired = 0; stored = 0; drained = 0; seen = 0; owed = 0 } }
    {
        Counts {
            steps: 0,
            turns: 0,
            quiet: 0,
            retired: 0,
            stored: 0,
            drained: 0,
            seen: 0,
            owed: 0,
        }
    }

    /// What the next step needs, whose instruction came to this or was not tried, where traps are enabled or not. The core may make a
    /// window of so many steps without a turn, and its store buffer holds so many stores.
    pub(crate) fn next_needs(
        &self,
        window: u32,
        buffer: u32,
        et: bool,
        outcome: Option<Outcome>,
    ) -> Need
        ensures { need_of result ≡ step_needs (nat_le window self.now.quiet) et (nat_lt self.now.drained self.now.stored)
            (nat_le buffer (self.now.stored - self.now.drained)) (came_to outcome) }
    {
        let waits = self.drained < self.stored;
        let full = buffer <= self.stored.saturating_sub(self.drained);
        step_needs(window <= self.quiet, et, waits, full, outcome)
    }

    /// A step that makes no turn ends, and owes the turn that it needs.
    pub(crate) fn end_step(&mut self, need: Need)
        requires steps { self.old.steps + 1 < 2 ^ 32 }
        requires quiet { self.old.quiet + 1 < 2 ^ 32 }
        requires owed { self.old.owed + 1 < 2 ^ 32 }
        ensures { self.new ≡ record self.old { steps = self.old.steps + 1; quiet = self.old.quiet + 1; owed = self.old.owed + owed_by need } }
    {
        self.steps += 1;
        self.quiet += 1;
        self.owed += owed_by(need);
    }
}

impl Notes {
    /// Nothing is noted.
    pub(crate) fn new(alloc: Global) -> Notes
        ensures unseen { result.unseen.items ≡ [] }
        ensures completions { result.completions.items ≡ [] }
        ensures errors { result.errors.items ≡ [] }
    {
        Notes {
            unseen: Vec::new(alloc),
            completions: Vec::new(alloc),
            errors: Vec::new(alloc),
        }
    }

    /// Makes room for one more completion and one more error trap.
    ///
    /// # Errors
    ///
    /// Memory ran out.
    pub(crate) fn make_room(&mut self) -> Result<(), AllocError>
        ensures room { OnOk result (HasRoom self.new) }
        ensures same { KeepsNotes self.old self.new }
    {
        self.completions.reserve(1)?;
        self.errors.reserve(1)
    }

    /// Notes an error trap, if one was met.
    pub(crate) fn meet(&mut self, error: Option<ErrorTrap>)
        requires { HasRoom self.old }
        ensures errors { map error_of self.new.errors.items ≡ map error_of self.old.errors.items ++ errors_of error }
        ensures others { (self.new.unseen ≡ self.old.unseen) × (self.new.completions ≡ self.old.completions) }
    {
        if let Some(error) = error {
            self.errors.push_reserved(error);
        }
    }

    /// Notes the operation that retires with an instruction, if it makes one.
    pub(crate) fn complete(
        &mut self,
        step: u32,
        way: Option<u8>,
        seen: u32,
        operation: Option<Access>,
    )
        requires { vec_len self.old.completions < vec_capacity self.old.completions }
        ensures completions { map completion_of self.new.completions.items
            ≡ map completion_of self.old.completions.items ++ completions_with step way seen operation }
        ensures others { (self.new.unseen ≡ self.old.unseen) × (self.new.errors ≡ self.old.errors) }
    {
        if operation.is_some() {
            self.completions
                .push_reserved(Completion { step, way, seen });
        }
    }
}

impl<'a> Course<'a> {
    /// The next instruction retires, with this operation or none.
    pub(crate) fn retire(&mut self, operation: Option<Access>, way: Option<u8>, seen: u32)
        requires going { self.old.thread.run.state.halt ≡ None }
        requires operations { length self.old.thread.run.ops + 1 < 2 ^ 32 }
        requires answer { FitsAnswer self.old.thread.answers self.old.thread.run.ops (next_effect self.old.thread).access }
        requires retired { self.old.counts.retired + 1 < 2 ^ 32 }
        requires stored { self.old.counts.stored + 1 < 2 ^ 32 }
        requires room { vec_len self.old.notes.completions < vec_capacity self.old.notes.completions }
        ensures thread { self.new.thread ≡ retired self.old.thread }
        ensures counts { self.new.counts ≡ record self.old.counts { retired = self.old.counts.retired + 1; stored = self.old.counts.stored + stores_with operation } }
        ensures completions { map completion_of self.new.notes.completions.items
            ≡ map completion_of self.old.notes.completions.items ++ completions_with self.old.counts.steps way seen operation }
        ensures others { (self.new.notes.unseen ≡ self.old.notes.unseen) × (self.new.notes.errors ≡ self.old.notes.errors) }
    {
        self.thread.retire();
        self.notes.complete(self.counts.steps, way, seen, operation);
        self.counts.retired += 1;
        self.counts.stored += stores_with(operation);
    }
}
