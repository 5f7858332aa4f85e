ghost use Rattle.std.specs.Prelude.{ℕ, ◌≡◌, ◌<◌, true, fold, length};
ghost use Rattle.core_parts.specs.Phases.{state_of_core};
ghost use Rattle.core_parts.specs.declared.phase.CoreState.TheVariants.{Running, Draining};
ghost use Rattle.lf_model.specs.Promise.Follows.{scheduled};
ghost use Rattle.lf_model.specs.Promise.Turns.{event_made, scrubbed};
ghost use Rattle.lf_model.specs.declared.setup.Actor.TheVariants as actors;
ghost use Rattle.machine_play.specs.Moved.{IsSound, IsMoved, GoesRound, round_of, IsCoreOver, scrubber_over, is_over, Advances};
ghost use Rattle.machine_play.specs.OneCore.{IsBeside, StepsWithTurn, DrainsAtEnd, MakesStep, MovesCore, DrainsCore};

use crate::machine::{Machine, has_ended};
use ahb_bus::Bus;
use core_parts::CoreState;
use leon_core::Core;
use lf_model::bus::Why;
use lf_model::setup::{Actor, Event};
use lf_model::step::{Did, Turn};

/// A core makes its next step, with the turn on the bus that the step needs.
fn step(core: &mut Core, bus: &mut Bus)
    requires beside { IsBeside core.old bus.old }
    requires runs { state_of_core core.old ≡ Running }
    ensures { MakesStep core.old core.new bus.old bus.new }
{
    if let Did::Need(turn) = core.local_step() {
        core.bus_step(bus, turn);
    }
}

/// A core makes a step whose turn on the bus is a drain that the schedule asks for.
fn scheduled_drain(core: &mut Core, bus: &mut Bus)
    requires beside { IsBeside core.old bus.old }
    requires runs { state_of_core core.old ≡ Running }
    requires waits { 0 < length core.old.ports.waiting }
    ensures { StepsWithTurn true core.old core.new bus.old bus.new }
{
    core.start_step();
    core.bus_step(bus, Turn::Drain(Why::Sched));
}

/// A core that has made its last step drains a store.
fn last_drain(core: &mut Core, bus: &mut Bus)
    requires beside { IsBeside core.old bus.old }
    requires drains { state_of_core core.old ≡ Draining }
    ensures { DrainsAtEnd core.old core.new bus.old bus.new }
{
    core.bus_step(bus, Turn::Drain(Why::End));
}

/// A core makes its next step, or its next drain after the last one. Where it has ended it makes nothing.
fn move_core(core: &mut Core, bus: &mut Bus)
    requires { IsBeside core.old bus.old }
    ensures { MovesCore core.old core.new bus.old bus.new }
{
    match core.state() {
        CoreState::Running => step(core, bus),
        CoreState::Draining => last_drain(core, bus),
        CoreState::Ended(_) => {}
    }
}

/// A core drains a store, in its next step or after its last one. Where none waits it makes nothing.
fn drain_core(core: &mut Core, bus: &mut Bus)
    requires { IsBeside core.old bus.old }
    ensures { DrainsCore core.old core.new bus.old bus.new }
{
    if !core.waiting() {
        return;
    }
    match core.state() {
        CoreState::Running => scheduled_drain(core, bus),
        CoreState::Draining => last_drain(core, bus),
        CoreState::Ended(_) => {}
    }
}

impl Machine {
    /// An event of core `number`, if there is one.
    fn core_event(&mut self, number: usize)
        requires { IsSound self.old }
        ensures moved { IsMoved (λ a. event_made number a actors.Core) self.old self.new }
        ensures advances { Advances (IsCoreOver number self.old) self.old self.new }
    {
        if number < self.cores.len() {
            move_core(&mut self.cores[number], &mut self.bus);
        }
    }

    /// A drain of core `number`, if there is one.
    fn drain_event(&mut self, number: usize)
        requires { IsSound self.old }
        ensures { IsMoved (λ a. event_made number a actors.Drain) self.old self.new }
    {
        if number < self.cores.len() {
            drain_core(&mut self.cores[number], &mut self.bus);
        }
    }

    /// The scrubber makes its next turn, if one is left.
    #[inline(always)]
    fn scrub_event(&mut self)
        requires { IsSound self.old }
        ensures moved { IsMoved scrubbed self.old self.new }
        ensures advances { Advances (scrubber_over self.old ≡ true) self.old self.new }
    {
        if self.scrubber.turns_left() > 0 {
            self.scrubber.step(&mut self.bus);
        }
    }

    /// One event of an actor, of core `number` if it is a core.
    fn event(&mut self, actor: Actor, number: u32)
        requires { IsSound self.old }
        ensures { IsMoved (λ a. event_made number a actor) self.old self.new }
    {
        match actor {
            Actor::Core => self.core_event(number as usize),
            Actor::Drain => self.drain_event(number as usize),
            Actor::Scrub => self.scrub_event(),
        }
    }

    /// An event of core `number` makes nothing: there is no such core, or it has ended.
    fn core_is_over(&self, number: usize) -> bool
        requires { IsSound self.now }
        ensures { result ≡ true → IsMoved (λ a. event_made number a actors.Core) self.now self.now }
    {
        if number < self.cores.len() {
            has_ended(&self.cores[number])
        } else {
            true
        }
    }

    /// A drain of core `number` makes nothing: there is no such core, it has ended, or no store waits in it.
    fn none_drains(&self, number: usize) -> bool
        requires { IsSound self.now }
        ensures { result ≡ true → IsMoved (λ a. event_made number a actors.Drain) self.now self.now }
    {
        if number < self.cores.len() {
            has_ended(&self.cores[number]) || !self.cores[number].waiting()
        } else {
            true
        }
    }

    /// One event of an actor, of core `number` if it is a core, makes nothing here, and neither do any number of them.
    fn passes_over(&self, actor: Actor, number: u32) -> bool
        requires { IsSound self.now }
        ensures { result ≡ true → IsMoved (λ a. event_made number a actor) self.now self.now }
    {
        match actor {
            Actor::Core => self.core_is_over(number as usize),
            Actor::Drain => self.none_drains(number as usize),
            Actor::Scrub => self.scrubber.turns_left() == 0,
        }
    }

    /// An event of a schedule, as often as it counts. Once it is passed over, so is all that is left of the count.
    fn scheduled(&mut self, e: &Event)
        requires { IsSound self.old }
        ensures { IsMoved (λ a. scheduled a e.now) self.old self.new }
    {
        for _ in 0..e.count {
            if self.passes_over(e.actor, e.core) {
                return;
            }
            self.event(e.actor, e.core);
        }
    }

    /// The events of a schedule, in turn.
    pub(crate) fn follow(&mut self, events: &[Event])
        requires { IsSound self.old }
        ensures { IsMoved (λ a. fold scheduled a events.now) self.old self.new }
    {
        for e in events {
            self.scheduled(e);
        }
    }

    /// A round: an event of each core, in the order of their numbers, and then one of the scrubber.
    fn round(&mut self)
        requires { IsSound self.old }
        ensures moved { IsMoved (round_of (length self.old.cores)) self.old self.new }
        ensures advances { Advances (is_over self.old ≡ true) self.old self.new }
    {
        for number in 0..self.cores.len() {
            self.core_event(number);
        }
        self.scrub_event();
    }

    /// Rounds, until all cores and the scrubber have ended.
    pub(crate) fn go_round(&mut self)
        requires { IsSound self.old }
        ensures rounds { (count : ℕ) × GoesRound count self.old self.new }
        ensures ended { is_over self.new ≡ true }
    {
        while !self.has_ended() {
            self.round();
        }
    }
}
