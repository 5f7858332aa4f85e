ghost use Rattle.std.specs.Prelude.{◌≡◌, ◌↔◌, ◌<◌, ◌≤◌, ◌+◌, ◌-◌, ◌^◌, ◌==◌, ◌⊎◌, ℕ, List, length, slice_index, count_by, if◌then◌else◌, IsTrue, IfOk, IfSome, slice_get};
ghost use Rattle.lf_model.specs.Once.{OnceAtCore};
ghost use Rattle.lf_model.specs.Operation.{is_lost};
ghost use Rattle.lf_model.specs.Places.{FailsFirst, FailsNowhere};
ghost use Rattle.lf_model.specs.Records.CoreRules.{HasThread, ThreadAt, ShowsState, ShowsResult, ResultAt, core_in_trace};
ghost use Rattle.lf_model.specs.Results.{halt_of, idle_steps, is_in_steps, IsEnd, LosesStores};
ghost use Rattle.lf_model.specs.Start.{IsLoadable};
ghost use Rattle.lf_model.specs.State.{cell, psr_of};
ghost use Rattle.lf_model.specs.Step.{IsSound};
ghost use Rattle.tso_thread.specs.ReplayState.{ReadsFit};
ghost use Rattle.tso_thread.specs.Shown.{register_in, ShowsCells, ShowsControl, ShowsEnd, ShowsSteps};
ghost use Rattle.tso_thread.specs.ThreadState.{run_in};

use crate::program::Program;
use crate::program_order::program_order;
use crate::running::Thread;
use lf_model::bus::{OpKind, Transfer};
use lf_model::control::Arch;
use lf_model::setup::Setup;
use lf_model::trace::{CoreEnd, CoreResult, Op, Trace};
use std::alloc::{AllocError, Global};
use v8_exec::cell;

/// The value of register `n` in a window; register 0 is 0.
fn register(cells: &[u32; 136], window: u8, n: u8) -> u32
    requires window { window < 8 }
    requires register { n < 32 }
    ensures { result ≡ register_in cells.now window n }
{
    if n == 0 { 0 } else { cells[cell(window, n)] }
}

/// Each register that has a value has that of the window.
fn shows_registers(cells: &[u32; 136], window: u8, shown: &[Option<u32>]) -> bool
    requires window { window < 8 }
    ensures { IsTrue result ↔ ShowsCells cells.now window shown.now }
{
    for n in 0..32u8 {
        match shown.get(usize::from(n)) {
            Some(Some(value)) if *value != register(cells, window, n) => return false,
            _ => {}
        }
    }
    true
}

/// The state registers are those of the core.
fn shows_control(arch: &Arch, shown: &CoreResult) -> bool
    requires sound { IsSound arch.now }
    ensures { IsTrue result ↔ ShowsControl arch.now shown.now }
{
    shown.psr == arch.ctl.psr()
        && shown.wim == arch.wim
        && shown.tbr == arch.ctl.tbr
        && shown.y == arch.y
        && shown.pc == arch.ctl.pc
        && shown.npc == arch.ctl.npc
}

/// The trap type by which an end enters error mode.
fn halt_of(end: CoreEnd) -> Option<u8>
    ensures { result ≡ halt_of end }
{
    match end {
        CoreEnd::Halt(tt) => Some(tt),
        CoreEnd::Stop { .. } | CoreEnd::Limit => None,
    }
}

/// How many last steps retired nothing and made no transfer.
fn idle_steps(end: CoreEnd) -> u64
    ensures { result ≡ idle_steps end }
{
    match end {
        CoreEnd::Stop { tt: 0x20, .. } => 1,
        CoreEnd::Stop { .. } | CoreEnd::Halt(_) | CoreEnd::Limit => 0,
    }
}

/// The limit comes after all steps.
fn is_end(setup: &Setup, steps: u32, end: CoreEnd) -> bool
    ensures { IsTrue result ↔ IsEnd setup.now steps end }
{
    match end {
        CoreEnd::Limit => steps == setup.config.steps,
        CoreEnd::Halt(_) | CoreEnd::Stop { .. } => true,
    }
}

/// A part store met a bad word, by which stores are lost.
fn loses_stores(end: CoreEnd) -> bool
    ensures { IsTrue result ↔ LosesStores end }
{
    matches!(end, CoreEnd::Stop { tt: 0x2b, .. })
}

/// How many transfers a core made in its first steps.
fn transfers_in_steps(transfers: &[Transfer], core: u32, steps: u32) -> usize
    ensures { result ≡ count_by (is_in_steps core steps) transfers.now }
{
    transfers
        .iter()
        .filter(|transfer| transfer.master == core && transfer.step < steps)
        .count()
}

/// How many stores were lost.
fn lost_stores(ops: &[Op]) -> usize
    ensures { result ≡ count_by is_lost ops.now }
{
    ops.iter()
        .filter(|op| matches!(op.kind, OpKind::Lost))
        .count()
}

/// The steps are enough, and no more than they may be.
fn shows_steps(setup: &Setup, transfers: &[Transfer], core: u32, shown: &CoreResult) -> bool
    ensures { IsTrue result ↔ ShowsSteps setup.now transfers.now core shown.now }
{
    let made = transfers_in_steps(transfers, core, shown.steps);
    is_end(setup, shown.steps, shown.end)
        && shown.steps <= setup.config.steps
        && u64::from(shown.steps) <= u64::from(shown.n) + made as u64 + idle_steps(shown.end)
}

/// The output is that of the core.
fn shows_output(out: &[u8], shown: &[u8]) -> bool
    ensures { IsTrue result ↔ shown.now ≡ out.now }
{
    shown == out
}

/// The way in which a core ended is that of the core: its trap type, and which end loses stores.
fn shows_end(halt: Option<u8>, ops: &[Op], end: CoreEnd) -> bool
    ensures { IsTrue result ↔ ShowsEnd halt ops.now end }
{
    halt == halt_of(end) && (loses_stores(end) || lost_stores(ops) == 0)
}

/// A result shows the state of a core after its instructions.
fn shows_state(
    setup: &Setup,
    transfers: &[Transfer],
    thread: &Thread,
    core: u32,
    shown: &CoreResult,
) -> bool
    requires sound { IsSound thread.now.arch }
    ensures { IsTrue result ↔ ShowsState setup.now
        (record { core = core; result = shown.now; ops = thread.now.replay.ops.now; transfers = transfers.now })
        (run_in thread.now).state }
{
    let replay = &thread.replay;
    shows_output(replay.out.as_slice(), shown.out.as_slice())
        && shows_control(&thread.arch, shown)
        && shows_registers(&replay.cells, thread.arch.ctl.cwp, shown.regs.as_slice())
        && shows_end(thread.halt, replay.ops, shown.end)
        && shows_steps(setup, transfers, core, shown)
}

/// Result holds at a core at which Thread does.
fn has_result(
    alloc: Global,
    program: &Program,
    trace: &Trace,
    core: u32,
    shown: &CoreResult,
) -> Result<bool, AllocError>
    requires core { core < 8 }
    requires steps { program.now.setup.now.config.steps < 2 ^ 32 - 1 }
    requires numbered { OnceAtCore trace.now.order core }
    requires fit { ReadsFit trace.now.order }
    requires thread { HasThread program.now.setup.now (core_in_trace trace.now core shown.now) }
    ensures { IfOk result (λ holds. IsTrue holds ↔ ShowsResult program.now.setup.now (core_in_trace trace.now core shown.now)) }
{
    let ops = program_order(alloc, trace.order.as_slice(), core)?;
    let mut thread = Thread::new(alloc, program, &ops, core, shown.n)?;
    let ran = thread.run(shown.n);
    Ok(
        ran && shows_state(
            program.setup,
            trace.transfers.as_slice(),
            &thread,
            core,
            shown,
        ),
    )
}

/// The first core at which Result fails.
fn first_core_without_result(
    alloc: Global,
    program: &Program,
    trace: &Trace,
    cores: u32,
) -> Result<Option<u32>, AllocError>
    requires cores { cores ≤ 8 }
    requires steps { program.now.setup.now.config.steps < 2 ^ 32 - 1 }
    requires numbered { FailsNowhere cores (OnceAtCore trace.now.order) }
    requires fit { ReadsFit trace.now.order }
    requires thread { FailsNowhere cores (ThreadAt program.now.setup.now trace.now) }
    ensures { IfOk result (FailsFirst cores (ResultAt program.now.setup.now trace.now)) }
{
    let results = trace.cores.as_slice();
    for core in 0..cores {
        let Some(shown) = results.get(core as usize) else {
            continue;
        };
        if !has_result(alloc, program, trace, core, shown)? {
            return Ok(Some(core));
        }
    }
    Ok(None)
}

/// The first core at which the rule Result fails, of a trace in which each operation of a core has its number once, and in which Thread
/// holds: what each core's result shows is the state that its instructions leave, and its steps are enough for them.
///
/// It takes time by instructions, operations and, for each core, transfers, and memory by the operations of one core, the instructions
/// of one core, and RAM.
///
/// # Errors
///
/// Memory ran out.
pub fn results_of_cores(
    alloc: Global,
    setup: &Setup,
    trace: &Trace,
) -> Result<Option<u32>, AllocError>
    requires cores { setup.now.config.cores ≤ 8 }
    requires ram { setup.now.config.ram ≤ 2 ^ 24 }
    requires steps { setup.now.config.steps < 2 ^ 32 - 1 }
    requires image { IsLoadable setup.now.config.ram setup.now.image }
    requires numbered { FailsNowhere setup.now.config.cores (OnceAtCore trace.now.order) }
    requires fit { ReadsFit trace.now.order }
    requires thread { FailsNowhere setup.now.config.cores (ThreadAt setup.now trace.now) }
    ensures first { IfOk result (FailsFirst setup.now.config.cores (ResultAt setup.now trace.now)) }
{
    let program = Program::new(alloc, setup)?;
    first_core_without_result(alloc, &program, trace, setup.config.cores)
}
