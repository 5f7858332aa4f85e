ghost use Rattle.std.specs.Prelude.{◌≡◌, map, IfOk};
ghost use Rattle.std.specs.List.{list_all, range_with_len};
ghost use Rattle.ahb_bus.specs.BusOk.{HasBytes};
ghost use Rattle.core_parts.specs.CoreValue.{start_value};
ghost use Rattle.machine_play.specs.MachineMade.{ComesTo};
ghost use Rattle.machine_play.specs.Moved.{IsSound, core_ended, is_over};
ghost use Rattle.machine_play.specs.Playable.{IsPlayable};

use ahb_bus::Bus;
use core_parts::CoreState;
use leon_core::Core;
use lf_model::setup::Setup;
use scrubber::Scrubber;
use std::alloc::{AllocError, Global};
use std::marker::Model;

/// The machine of a setup. Contracts see it as `MachineValue`.
#[derive(Drop)]
pub(crate) struct Machine {
    /// The cores, by their numbers.
    pub(crate) cores: Vec<Core>,
    /// The bus with the memory behind it.
    pub(crate) bus: Bus,
    pub(crate) scrubber: Scrubber,
}

impl Model for Machine {
    ghost use Rattle.machine_play.specs.MachineValue.{MachineValue};

    ghost Value = { MachineValue };

    ghost use Rattle.machine_play.specs.MachineInside.{seen};

    ghost view = { seen };
}

/// The core has ended.
pub(crate) fn has_ended(core: &Core) -> bool
    ensures { result ≡ core_ended core.now }
{
    match core.state() {
        CoreState::Running | CoreState::Draining => false,
        CoreState::Ended(_) => true,
    }
}

/// All these cores have ended.
fn have_all_ended(cores: &[Core]) -> bool
    ensures { result ≡ list_all core_ended cores.now }
{
    for core in cores {
        if !has_ended(core) {
            return false;
        }
    }
    true
}

/// All cores of a setup at reset.
///
/// # Errors
///
/// Memory ran out.
fn cores_at_reset(alloc: Global, s: &Setup) -> Result<Vec<Core>, AllocError>
    requires playable { IsPlayable s.now }
    requires bytes { HasBytes s.now.image }
    ensures { IfOk result (λ cores. cores.items ≡ map (start_value s.now) (range_with_len 0 s.now.config.cores)) }
{
    let mut cores = Vec::new(alloc);
    for number in 0..s.config.cores {
        cores.push(Core::new(alloc, number, s)?)?;
    }
    Ok(cores)
}

impl Machine {
    /// The machine of a setup before its first event.
    ///
    /// # Errors
    ///
    /// Memory ran out.
    pub(crate) fn new(alloc: Global, s: &Setup) -> Result<Machine, AllocError>
        requires { IsPlayable s.now }
        ensures setup { IfOk result (λ m. m.bus.setup ≡ s.now) }
        ensures machine { IfOk result IsSound }
        // No event has brought the actors anywhere yet.
        ensures none { IfOk result (ComesTo s.now (λ a. a)) }
    {
        let bus = Bus::new(alloc, s)?;
        Ok(Machine {
            cores: cores_at_reset(alloc, s)?,
            bus,
            scrubber: Scrubber::new(&s.config),
        })
    }

    /// All cores have ended, and the scrubber has made its turns.
    pub(crate) fn has_ended(&self) -> bool
        requires { IsSound self.now }
        ensures { result ≡ is_over self.now }
    {
        have_all_ended(&self.cores) && self.scrubber.turns_left() == 0
    }
}
