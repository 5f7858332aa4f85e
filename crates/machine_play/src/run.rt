ghost use Rattle.std.specs.Prelude.{IfOk};
ghost use Rattle.lf_model.specs.Ledger.Rule.{KeepsLedger};
ghost use Rattle.lf_model.specs.Promise.Follows.{Follows};
ghost use Rattle.lf_model.specs.Promise.Headline.{Headline};
ghost use Rattle.lf_model.specs.Promise.Regular.{IsRegular};
ghost use Rattle.machine_play.specs.Bounds.{AllBounded};
ghost use Rattle.machine_play.specs.Playable.{IsPlayable};

use crate::machine::Machine;
use lf_model::setup::{Event, Setup};
use lf_model::trace::Trace;
use std::alloc::{AllocError, Global};

/// Runs the machine of a setup, from reset to its end, and gives the trace.
///
/// The events of the schedule are made in turn, each as often as it counts. An event of an actor that has ended is passed over, and so
/// is one of a core that the machine does not have, and a drain where no store waits. Then all cores and the scrubber go round, in
/// the order of their numbers, one event each, until all have ended.
///
/// # Errors
///
/// Memory ran out.
pub fn play(alloc: Global, s: &Setup, events: &[Event]) -> Result<Trace, AllocError>
    requires { IsPlayable s.now }
    // The trace is a total-store-order execution of the image's code, and reports that execution's results.
    ensures headline { IfOk result (Headline s.now) }

    // All that it reports is what the course of its cores and the run of its bus give.
    ensures ledger { IfOk result (KeepsLedger s.now) }

    // Its transfers come in the order of the schedule.
    ensures follows { IfOk result (Follows s.now events.now) }

    // Each core makes as many steps at most as the setup allows, and then at most eight drains.
    ensures bounded { IfOk result (AllBounded s.now) }

    // A report can show it.
    ensures regular { IfOk result IsRegular }
{
    let mut machine = Machine::new(alloc, s)?;
    machine.follow(events);
    machine.go_round();
    machine.into_trace(alloc, s)
}
