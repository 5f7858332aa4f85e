ghost use Rattle.std.specs.Prelude.{◌≡◌, ◌<◌, ◌+◌, ◌^◌, fold, None, Some, IfSome, false};
ghost use Rattle.lf_model.specs.Run.{effect_at_pc};
ghost use Rattle.lf_model.specs.Step.{IsSound, Does, state_of, run_seen};
ghost use Rattle.replay_effects.specs.Exchanges.{Exchanges};
ghost use Rattle.replay_effects.specs.Noted.{trial_answers, trial_touch};
ghost use Rattle.replay_effects.specs.Shows.{shows_trap, drain_of, exchange_of, halt_of, cell_of_register, is_load, reads_memory};
ghost use Rattle.replay_effects.specs.TrialInside.{noted_in, seen_in, room_in};
ghost use Rattle.v8_exec.specs.Accesses.{Asks};
ghost use Rattle.v8_exec.specs.Frame.{Counts};
ghost use Rattle.v8_exec.specs.Touching.{touches_of};

use crate::footprint::{Access, AccessKind, Footprint};
use crate::made::Operation;
use crate::trial::Trial;
use arrayvec::ArrayVec;
use lf_model::bus::{OpKind, Why};
use lf_model::control::Arch;
use lf_model::step::{Did, Turn};
use v8_exec::{cell, exec, fetch_trap, finish_atomic};

/// An instruction that was tried: what it came to, and the state registers and the parts of the core then.
#[derive(Drop)]
pub(crate) struct Tried<'a> {
    pub(crate) did: Did,
    pub(crate) arch: Arch,
    pub(crate) trial: Trial<'a>,
}

/// An atomic that needs its turn on the bus, and the register that gets what it reads.
#[derive(Clone, Copy, Debug)]
pub(crate) struct Exchange {
    pub(crate) access: Access,
    pub(crate) rd: u8,
}

/// The cause for which a store that waits has to drain first.
pub(crate) fn drain_of(did: Did) -> Option<Why>
    ensures { result ≡ drain_of did }
{
    match did {
        Did::Need(Turn::Drain(why)) => Some(why),
        _ => None,
    }
}

/// The atomic that needs its turn.
pub(crate) fn exchange_of(did: Did) -> Option<Exchange>
    ensures { result ≡ exchange_of did }
{
    match did {
        Did::Need(Turn::Atomic { addr, len, new, rd }) => Some(Exchange {
            access: Access {
                kind: AccessKind::Atomic,
                addr,
                len,
                put: u64::from(new),
            },
            rd,
        }),
        _ => None,
    }
}

/// The trap type by which the core entered error mode.
pub(crate) fn halt_of(did: Did) -> Option<u8>
    ensures { result ≡ halt_of did }
{
    match did {
        Did::Halt(tt) => Some(tt),
        _ => None,
    }
}

/// It is a load.
fn is_load(access: Option<Access>) -> bool
    ensures { result ≡ is_load access }
{
    matches!(
        access,
        Some(Access {
            kind: AccessKind::Load,
            ..
        })
    )
}

/// The cell of a register of a window; register 0 has none.
fn cells_of_register(window: u8, rd: u8) -> ArrayVec<u8, 2>
    requires window { window < 8 }
    requires register { rd < 32 }
    ensures { result.items ≡ cell_of_register window rd }
{
    let mut cells = ArrayVec::new();
    if rd != 0 {
        cells.push(cell(window, rd) as u8);
    }
    cells
}

impl<'a> Tried<'a> {
    /// It took a trap, if traps were enabled before it or not.
    pub(crate) fn shows_trap(&self, before: bool) -> bool
        ensures { result ≡ shows_trap before self.now.arch.ctl.et self.now.trial.writes.items }
    {
        before && !self.arch.ctl.et && !self.trial.writes.is_empty()
    }

    /// The footprint of an instruction that is no atomic, with its trap or barrier. What is noted is taken.
    pub(crate) fn footprint(&mut self, trap: bool, barrier: Option<Why>) -> Footprint
        ensures reads { result.reads.items ≡ self.old.trial.reads.items }
        ensures given { (result.trap ≡ trap) × (result.barrier ≡ barrier) }
        ensures access { result.access ≡ self.old.trial.access }
        ensures writes { result.writes.items ≡ self.old.trial.writes.items }
    {
        Footprint {
            reads: self.trial.reads.take(),
            trap,
            access: self.trial.access,
            barrier,
            writes: self.trial.writes.take(),
        }
    }

    /// Its operation reads memory.
    pub(crate) fn reads_memory(&self) -> bool
        ensures { result ≡ reads_memory self.now.did self.now.trial.access }
    {
        exchange_of(self.did).is_some() || is_load(self.trial.access)
    }

    /// An atomic is made, which reads this number.
    fn exchange_made(&mut self, exchange: Exchange, got: u64)
        requires sound { IsSound self.old.arch }
        requires register { exchange.rd < 32 }
        requires word { got < 2 ^ 32 }
        ensures { Exchanges exchange got self.old self.new }
    {
        let core = self.trial.core;
        self.arch.n = 0;
        self.arch.k = 0;
        finish_atomic(&mut self.arch, exchange.rd, got as u32, &mut self.trial);
        self.trial.make(&Operation {
            core,
            kind: OpKind::Atomic,
            addr: exchange.access.addr,
            len: exchange.access.len,
            got,
            put: exchange.access.put,
        });
    }

    /// An atomic is made, if it is one, which reads this number.
    pub(crate) fn complete(&mut self, got: u64)
        requires sound { IsSound self.old.arch }
        requires exchange { IfSome (exchange_of self.old.did) (λ x. (x.rd < 32) × (got < 2 ^ 32)) }
        ensures same { exchange_of self.old.did ≡ None → (self.new.arch ≡ self.old.arch) × (seen_in self.new.trial ≡ seen_in self.old.trial) }
        ensures made { IfSome (exchange_of self.old.did) (λ x. Exchanges x got self.old self.new) }
    {
        if let Some(exchange) = exchange_of(self.did) {
            self.exchange_made(exchange, got);
        }
    }

    /// The footprint of an atomic. What is noted is taken.
    pub(crate) fn exchange(&mut self, window: u8, exchange: Exchange) -> Footprint
        requires window { window < 8 }
        requires register { exchange.rd < 32 }
        ensures reads { result.reads.items ≡ self.old.trial.reads.items }
        ensures bare { (result.trap ≡ false) × (result.barrier ≡ None) }
        ensures access { result.access ≡ Some exchange.access }
        ensures writes { result.writes.items ≡ cell_of_register window exchange.rd }
    {
        Footprint {
            reads: self.trial.reads.take(),
            trap: false,
            access: Some(exchange.access),
            barrier: None,
            writes: cells_of_register(window, exchange.rd),
        }
    }
}

/// Tries the instruction at PC, or the trap of a PC that is no text word.
#[tactic(auto, unfolding(lf_model::specs::Run::effect_at_pc))]
pub(crate) fn instruction(arch: &mut Arch, trial: &mut Trial) -> Did
    requires sound { IsSound arch.old }
    requires core { arch.old.core ≡ trial.old.core }
    requires instructions { arch.old.n + 1 < 2 ^ 32 }
    requires operations { arch.old.k + 1 < 2 ^ 32 }
    ensures does { Does trial.old.core (trial_answers (noted_in trial.old))
        (effect_at_pc trial.old.program.now.setup.now trial.old.core (state_of arch.old (seen_in trial.old)))
        result (run_seen arch.old (seen_in trial.old)) (run_seen arch.new (seen_in trial.new)) }
    ensures touches { noted_in trial.new ≡ fold trial_touch (noted_in trial.old)
        (touches_of (trial_answers (noted_in trial.old)) arch.old.ctl.cwp
        (effect_at_pc trial.old.program.now.setup.now trial.old.core (state_of arch.old (seen_in trial.old))) result) }
    ensures counts { Counts result arch.old arch.new (seen_in trial.old) (seen_in trial.new) (room_in trial.old) (room_in trial.new) }
    ensures asks { Asks (seen_in trial.old).site result }
{
    let program = trial.program;
    match program.fetch(arch.ctl.pc) {
        Some(word) => exec(arch, word, trial),
        None => fetch_trap(arch, trial),
    }
}
