//! The report of a run: its text, written from the trace that the run leaves.
#![tactic(auto)]

mod cores;
pub mod fields;
mod outcome;
mod stream;
mod transfers;

ghost use Rattle.std.specs.Prelude.{◌≡◌, ◌≤◌, OnOk, OnErr};
ghost use Rattle.lf_io.specs.Count.{Rose};
ghost use Rattle.lf_io.specs.Taken.{Takes, TakesPrefix};
ghost use Rattle.lf_model.specs.Report.{report};
ghost use Rattle.report_text.specs.Written.{Writes, progress};

use cores::write_cores;
use lf_io::{Failed, Sink};
use lf_model::trace::Trace;
use outcome::{write_ahb, write_flips, write_order, write_watch};
pub use report_reader::{ReportErr, read_report};
use stream::Stream;
use transfers::write_transfers;

/// Writes the report of a trace, each line of it ended by a line feed, and takes no memory. The sink is given pieces of at
/// most 4,096 bytes.
///
/// # Errors
///
/// The sink failed: then it has taken a part of the report, and nothing was written after the fault.
pub fn write_report<K: Sink>(trace: &Trace, out: &mut K) -> Result<(), Failed>
    ensures whole { OnOk result (Takes (K.taken out.old) (K.taken out.new) (report trace.now)) }
    ensures part { OnErr result (TakesPrefix (K.taken out.old) (K.taken out.new) (report trace.now)) }
    ensures cause { OnErr result (Rose (K.faults out.old) (K.faults out.new)) }
    ensures never_falls { K.faults out.old ≤ K.faults out.new }
{
    let mut text = Stream::new();
    write_lines(&mut text, out, trace);
    text.flush(out);
    text.result()
}

/// Writes the lines of a report.
fn write_lines<K: Sink>(text: &mut Stream, out: &mut K, trace: &Trace)
    ensures written { Writes (progress (K.taken out.old) (K.faults out.old) text.old)
        (progress (K.taken out.new) (K.faults out.new) text.new) (report trace.now) }
{
    write_cores(text, out, trace.cores.as_slice());
    write_ahb(text, out, trace.ahb_addr, trace.ahb_status);
    write_transfers(text, out, trace);
    write_order(text, out, trace.order.as_slice());
    write_flips(text, out, trace.fates.as_slice());
    write_watch(text, out, trace.watch.as_slice());
    text.append(out, b"end\n");
}
