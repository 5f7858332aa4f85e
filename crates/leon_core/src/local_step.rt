ghost use Rattle.std.specs.Prelude.{◌≡◌, ◌+◌, ◌^◌, ◌<◌, List, length};
ghost use Rattle.core_course.specs.Calls.{MayStep, Answers};
ghost use Rattle.core_course.specs.CoreOk.{CoreOk};
ghost use Rattle.core_course.specs.Settled.{started, phase_after, Settles};
ghost use Rattle.core_parts.specs.declared.phase.Phase.TheVariants.{Begun};
ghost use Rattle.leon_core.specs.LocalStep.{named_after, NamesCellIn, ends_after};
ghost use Rattle.leon_core.specs.Moves.{Moves};
ghost use Rattle.lf_model.specs.Course.Arrays.{register_cells};
ghost use Rattle.lf_model.specs.declared.bus.Entry.{Entry};
ghost use Rattle.lf_model.specs.declared.bus.Transfer.{Transfer};

use crate::one_core::{Core, is_word};
use core_parts::{Phase, Record};
use core_steps::attempt;
use ft_regfile::RegFile;
use lf_model::step::Did;
use lf_model::trace::CoreEnd;

/// The phase of a core whose step came to this.
pub(crate) fn phase_after(did: Did) -> Phase
    ensures { result ≡ phase_after did }
{
    match did {
        Did::Retired | Did::Turned => Phase::Between,
        Did::Need(turn) => Phase::Needs(turn),
        Did::Halt(tt) => Phase::Ended(CoreEnd::Halt(tt)),
        Did::Stop { tt, place, syn } => Phase::Ended(CoreEnd::Stop { tt, place, syn }),
    }
}

/// A core whose step came to this enters its next phase. Each answer writes its phase by itself, since most steps retire, and that phase has
/// nothing but its name.
fn enter_phase(phase: &mut Phase, did: Did)
    ensures { phase.new ≡ phase_after did }
{
    match did {
        Did::Retired | Did::Turned => *phase = Phase::Between,
        Did::Need(turn) => *phase = Phase::Needs(turn),
        Did::Halt(tt) => *phase = Phase::Ended(CoreEnd::Halt(tt)),
        Did::Stop { tt, place, syn } => {
            *phase = Phase::Ended(CoreEnd::Stop { tt, place, syn });
        }
    }
}

/// The error trap that stops a core names its bad register cell.
fn name_cell(registers: &mut RegFile, did: Did)
    requires { NamesCellIn register_cells did }
    ensures { registers.new ≡ record registers.old { histories = named_after did registers.old.histories } }
{
    if let Did::Stop { place, .. } = did {
        registers.name(place as usize);
    }
}

/// A step that came to this ends, unless it needs a turn on the bus. `quiet` counts the steps without a turn.
fn end_step(made: &mut Record, quiet: &mut u32, did: Did)
    requires steps { made.old.steps + 1 < 2 ^ 32 }
    requires quiet { quiet.old + 1 < 2 ^ 32 }
    ensures ended { made.new ≡ record made.old { steps = made.old.steps + ends_after did } }
    ensures quiet { quiet.new ≡ quiet.old + ends_after did }
{
    if !matches!(did, Did::Need(_)) {
        made.end_step();
        *quiet += 1;
    }
}

impl Core {
    /// Begins a step: the script's flips for it strike the arrays of the core.
    #[inline(always)]
    pub fn start_step(&mut self)
        requires { MayStep self.old }
        ensures started { self.new ≡ started self.old }
        ensures ok { (log : List Entry) (transfers : List Transfer) → CoreOk self.old log transfers → CoreOk self.new log transfers }
    {
        self.parts.begin_step(&mut self.plan);
        self.phase = Phase::Begun;
    }

    /// Tries the instruction at PC in the step that is begun.
    fn settle_step(&mut self) -> Did
        requires { self.old.phase ≡ Begun }
        ensures settles { Settles result self.old self.new }
        ensures numbered { self.new.arch.k ≡ length self.new.ops }
        ensures ok { (log : List Entry) (transfers : List Transfer) → CoreOk self.old log transfers → CoreOk self.new log transfers }
        ensures answer { (log : List Entry) (transfers : List Transfer) → CoreOk self.old log transfers → Answers self.old transfers result }
    {
        is_word(self.limit);
        let did = attempt(&mut self.arch, &mut self.parts, self.quiet, self.window);
        name_cell(&mut self.parts.arrays.registers, did);
        end_step(&mut self.parts.record, &mut self.quiet, did);
        enter_phase(&mut self.phase, did);
        did
    }

    /// Makes a step up to a turn on the bus: the script's flips for it strike, and then the instruction at PC is tried.
    ///
    /// The step ends where its instruction retires or puts the core into error mode (SPARC V8, chapter 7), and where a bad register
    /// cell stops the core. Else it stays begun, and needs the turn that is answered.
    pub fn local_step(&mut self) -> Did
        requires { MayStep self.old }
        ensures settles { Settles result (started self.old) self.new }
        ensures numbered { self.new.arch.k ≡ length self.new.ops }
        ensures moves { Moves (ends_after result) (phase_after result) self.old self.new }
        ensures ok { (log : List Entry) (transfers : List Transfer) → CoreOk self.old log transfers → CoreOk self.new log transfers }
        ensures answer { (log : List Entry) (transfers : List Transfer) → CoreOk self.old log transfers → Answers self.old transfers result }
    {
        self.start_step();
        self.settle_step()
    }
}
