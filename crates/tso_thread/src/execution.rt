ghost use Rattle.std.specs.Prelude.{◌≡◌, ◌↔◌, ◌<◌, ◌≤◌, ◌-◌, ◌^◌, length, IsTrue, IfOk};
ghost use Rattle.lf_model.specs.Once.{OnceAtCore};
ghost use Rattle.lf_model.specs.Places.{FailsFirst, FailsNowhere};
ghost use Rattle.lf_model.specs.Records.CoreRules.{HasThread, ThreadAt, core_in_trace};
ghost use Rattle.lf_model.specs.Start.{IsLoadable};
ghost use Rattle.tso_thread.specs.ReplayState.{ReadsFit};

use crate::program::Program;
use crate::program_order::program_order;
use crate::running::Thread;
use lf_model::setup::Setup;
use lf_model::trace::{CoreResult, Trace};
use std::alloc::{AllocError, Global};

/// Thread holds at a core: it makes no more instructions than steps are allowed, and its instructions make just its operations.
fn has_thread(
    alloc: Global,
    program: &Program,
    trace: &Trace,
    core: u32,
    shown: &CoreResult,
) -> Result<bool, AllocError>
    requires core { core < 8 }
    requires steps { program.now.setup.now.config.steps < 2 ^ 32 - 1 }
    requires numbered { OnceAtCore trace.now.order core }
    requires fit { ReadsFit trace.now.order }
    ensures { IfOk result (λ holds. IsTrue holds ↔ HasThread program.now.setup.now (core_in_trace trace.now core shown.now)) }
{
    if shown.n > program.setup.config.steps {
        return Ok(false);
    }
    let ops = program_order(alloc, trace.order.as_slice(), core)?;
    let mut thread = Thread::new(alloc, program, &ops, core, shown.n)?;
    Ok(thread.run(shown.n))
}

/// The first core at which Thread fails.
fn first_core_without_thread(
    alloc: Global,
    program: &Program,
    trace: &Trace,
    cores: u32,
) -> Result<Option<u32>, AllocError>
    requires cores { cores ≤ 8 }
    requires steps { program.now.setup.now.config.steps < 2 ^ 32 - 1 }
    requires numbered { FailsNowhere cores (OnceAtCore trace.now.order) }
    requires fit { ReadsFit trace.now.order }
    ensures { IfOk result (FailsFirst cores (ThreadAt program.now.setup.now trace.now)) }
{
    let results = trace.cores.as_slice();
    for core in 0..cores {
        let Some(shown) = results.get(core as usize) else {
            continue;
        };
        if !has_thread(alloc, program, trace, core, shown)? {
            return Ok(Some(core));
        }
    }
    Ok(None)
}

/// The first core at which the rule Thread fails, of a trace in which each operation of a core has its number once, and each number
/// that one reads fits its bytes: each core's instructions, from reset, with what its loads and atomics read as the trace says, make
/// just the core's operations of the trace, and are no more than the steps that are allowed.
///
/// It takes time by instructions and operations, and memory by the operations of one core, the instructions of one core, and RAM.
///
/// # Errors
///
/// Memory ran out.
pub fn thread(alloc: Global, setup: &Setup, trace: &Trace) -> Result<Option<u32>, AllocError>
    requires cores { setup.now.config.cores ≤ 8 }
    requires ram { setup.now.config.ram ≤ 2 ^ 24 }
    requires steps { setup.now.config.steps < 2 ^ 32 - 1 }
    requires image { IsLoadable setup.now.config.ram setup.now.image }
    requires numbered { FailsNowhere setup.now.config.cores (OnceAtCore trace.now.order) }
    requires fit { ReadsFit trace.now.order }
    ensures first { IfOk result (FailsFirst setup.now.config.cores (ThreadAt setup.now trace.now)) }
{
    let program = Program::new(alloc, setup)?;
    first_core_without_thread(alloc, &program, trace, setup.config.cores)
}
