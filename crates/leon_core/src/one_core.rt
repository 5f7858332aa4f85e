ghost use Rattle.std.specs.Prelude.{◌≡◌, ℕ, ◌+◌, ◌%◌, ◌^◌, ◌<◌, ◌≤◌, [], length, nat_lt, IfOk};
ghost use Rattle.std.specs.List.{AllByRecursion};
ghost use Rattle.ahb_bus.specs.BusState.{most_transfers};
ghost use Rattle.core_course.specs.CoreOk.{CoreOk};
ghost use Rattle.core_parts.specs.CoreValue.{start_value};
ghost use Rattle.core_parts.specs.Phases.{state_of_core};
ghost use Rattle.core_parts.specs.Strikes.{AimsAt};
ghost use Rattle.lf_model.specs.Course.Arrays.{reset_arrays};
ghost use Rattle.lf_model.specs.Caches.Cache.{IsCacheShape};
ghost use Rattle.lf_model.specs.Start.{ram_first, initial_byte, IsLoadable};
ghost use Rattle.lf_model.specs.State.{reset_control};

use crate::room::Room;
use core_parts::{CoreState, Parts, Phase};
use flip_ledger::{FlipPlan, Owner};
use lf_model::control::{Arch, Ctl};
use lf_model::setup::Setup;
use lf_model::trace::CoreEnd;
use std::alloc::{AllocError, Global};
use std::marker::Model;

/// One core. Contracts see it as `CoreValue`.
#[derive(Drop)]
pub struct Core {
    pub(crate) arch: Arch,
    pub(crate) parts: Parts,
    /// The flips of the script that are still to strike it.
    pub(crate) plan: FlipPlan,
    pub(crate) phase: Phase,
    /// Its steps since its last turn on the bus.
    pub(crate) quiet: u32,
    /// The steps that it may make without a turn.
    pub(crate) window: u32,
    /// The steps that it may make.
    pub(crate) limit: u32,
    /// How many flips the script has.
    pub(crate) flips: u32,
    pub(crate) room: Room,
}

impl Model for Core {
    ghost use Rattle.core_parts.specs.CoreValue.{CoreValue};

    ghost Value = { CoreValue };

    ghost use Rattle.leon_core.specs.CoreInside.{core_seen, IsKept};

    ghost view = { core_seen };

    ghost invariant = { IsKept };
}

/// The state registers of core number `core` at reset.
fn reset_arch(core: u32, entry: u32) -> Arch
    ensures { result ≡ record { ctl = reset_control entry; wim = 2; y = 0; core = core; n = 0; k = 0 } }
{
    Arch {
        ctl: Ctl {
            icc: 0,
            pil: 0,
            s: true,
            ps: false,
            et: false,
            cwp: 0,
            tbr: 0,
            pc: entry,
            npc: entry.wrapping_add(4),
        },
        wim: 2,
        y: 0,
        core,
        n: 0,
        k: 0,
    }
}

/// For contracts alone: a word is below 2^32.
pub(crate) fn is_word(_word: u32)
    ensures { _word < 2 ^ 32 }
{}

impl Core {
    /// Core number `number` of a setup at reset. All its records are reserved.
    ///
    /// # Errors
    ///
    /// Memory ran out.
    pub fn new(alloc: Global, number: u32, s: &Setup) -> Result<Core, AllocError>
        requires number { number < s.now.config.cores }
        requires cores { s.now.config.cores ≤ 8 }
        requires fetch_cache { IsCacheShape s.now.config.fetch_cache }
        requires data_cache { IsCacheShape s.now.config.load_cache }
        requires least_depth { 1 ≤ s.now.config.buffer }
        requires most_depth { s.now.config.buffer ≤ 8 }
        requires flips { length s.now.flips < 2 ^ 32 }
        requires image { IsLoadable s.now.config.ram s.now.image }
        requires bytes { (a : ℕ) → initial_byte s.now.image a < 2 ^ 8 }
        requires ram { s.now.config.ram % 32 ≡ 0 }
        requires ram_end { ram_first + s.now.config.ram ≤ 2 ^ 32 }
        requires transfers { most_transfers s.now.config < 2 ^ 32 }
        requires aims { AllByRecursion (AimsAt number (reset_arrays s.now.config)) s.now.flips }
        ensures reset { IfOk result (λ core. core ≡ start_value s.now number) }
        ensures ok { IfOk result (λ core. CoreOk core [] []) }
    {
        is_word(s.config.steps);
        let parts = Parts::new(alloc, number, s)?;
        let plan = FlipPlan::new(alloc, s.flips.as_slice(), Owner::Core(number))?;
        let flips = s.flips.len() as u32;
        let room = Room::new(alloc, flips)?;
        Ok(Core {
            arch: reset_arch(number, s.image.entry),
            parts,
            plan,
            phase: Phase::Between,
            quiet: 0,
            window: s.config.window,
            limit: s.config.steps,
            flips,
            room,
        })
    }

    /// A store waits for the bus.
    pub fn waiting(&self) -> bool
        ensures { result ≡ nat_lt 0 (length self.now.ports.waiting) }
    {
        self.parts.has_waiting()
    }

    /// Whether the core goes on.
    pub fn state(&self) -> CoreState
        ensures { result ≡ state_of_core self.now }
    {
        if let Phase::Ended(end) = self.phase {
            return CoreState::Ended(end);
        }
        if self.parts.record.steps() < self.limit {
            return CoreState::Running;
        }
        if self.waiting() {
            CoreState::Draining
        } else {
            CoreState::Ended(CoreEnd::Limit)
        }
    }
}
