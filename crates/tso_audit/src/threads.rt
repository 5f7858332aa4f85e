ghost use Rattle.std.specs.Prelude.{◌≡◌, ◌<◌, ◌≤◌, ◌-◌, ◌^◌, length, IfOk};
ghost use Rattle.lf_model.specs.Once.{OnceAtCore};
ghost use Rattle.lf_model.specs.Places.{FailsNowhere};
ghost use Rattle.lf_model.specs.Records.CoreRules.{ThreadAt};
ghost use Rattle.lf_model.specs.Start.{IsLoadable};
ghost use Rattle.tso_audit.specs.FirstPlaces.{LieInRam, HaveEightBytes, WatchRam, ThreadFailsFirst, ResultFailsFirst};
ghost use Rattle.tso_thread.specs.ReplayState.{ReadsFit};

use crate::watched::watched_words;
use lf_model::place::Place;
use lf_model::setup::Setup;
use lf_model::trace::Trace;
use std::alloc::{AllocError, Global};

/// The first place at which Thread fails, of a trace in which each operation of a core has its number once, and each number that one
/// reads fits its bytes: each core's instructions, from reset, with what its loads and atomics read as the trace says, make just the
/// core's operations of the trace, and are no more than the steps that are allowed.
///
/// It takes time by instructions and operations, and memory by the operations of one core, the instructions of one core, and RAM.
///
/// # Errors
///
/// Memory ran out.
pub fn thread(alloc: Global, setup: &Setup, trace: &Trace) -> Result<Option<Place>, AllocError>
    requires cores { setup.now.config.cores ≤ 8 }
    requires ram { setup.now.config.ram ≤ 2 ^ 24 }
    requires steps { setup.now.config.steps < 2 ^ 32 - 1 }
    requires image { IsLoadable setup.now.config.ram setup.now.image }
    requires numbered { FailsNowhere setup.now.config.cores (OnceAtCore trace.now.order) }
    requires fit { ReadsFit trace.now.order }
    ensures first { IfOk result (ThreadFailsFirst setup.now trace.now) }
{
    match tso_thread::thread(alloc, setup, trace)? {
        Some(core) => Ok(Some(Place::Core(core))),
        None => Ok(None),
    }
}

/// The first place at which Result fails, of a trace whose operations are numbered and lie in RAM, and in which Thread holds: what
/// each core's result shows is the state that its instructions leave, its steps are enough for them, and each watched word is that of
/// memory at the end.
///
/// It takes time by instructions, operations and, for each core, transfers, and memory by the operations of one core, the instructions
/// of one core, and five times RAM.
///
/// # Errors
///
/// Memory ran out.
pub fn results(alloc: Global, setup: &Setup, trace: &Trace) -> Result<Option<Place>, AllocError>
    requires cores { setup.now.config.cores ≤ 8 }
    requires ram { setup.now.config.ram ≤ 2 ^ 24 }
    requires steps { setup.now.config.steps < 2 ^ 32 - 1 }
    requires image { IsLoadable setup.now.config.ram setup.now.image }
    requires numbered { FailsNowhere setup.now.config.cores (OnceAtCore trace.now.order) }
    requires fit { ReadsFit trace.now.order }
    requires thread { FailsNowhere setup.now.config.cores (ThreadAt setup.now trace.now) }
    requires few_operations { length trace.now.order < 2 ^ 32 }
    requires addresses { LieInRam setup.now.config.ram trace.now.order }
    requires lengths { HaveEightBytes trace.now.order }
    requires watch { WatchRam setup.now.config.ram trace.now.watch }
    ensures first { IfOk result (ResultFailsFirst setup.now trace.now) }
{
    if let Some(core) = tso_thread::results_of_cores(alloc, setup, trace)? {
        return Ok(Some(Place::Core(core)));
    }
    if watched_words(alloc, setup, trace)? {
        Ok(None)
    } else {
        Ok(Some(Place::Final))
    }
}
