ghost use Rattle.std.specs.Prelude.{◌≡◌, ◌++◌, IfOk};
ghost use Rattle.lf_model.specs.declared.trace.Trace.{Trace};
ghost use Rattle.lf_model.specs.Promise.Regular.{IsRegular};
ghost use Rattle.lf_model.specs.Report.{report};
ghost use Rattle.report_reader.specs.Dashes.{report_at};
ghost use Rattle.report_reader.specs.Answer.{Tells};
ghost use Rattle.report_reader.specs.Laws.{EqualTextsEqualTraces, NoReportBeginsAnother};

use crate::dashes::strict;
use crate::error::ReportErr;
use lf_model::trace::Trace;
use std::alloc::Global;

/// The trace of which the bytes are the report.
///
/// A text is a report exactly where it is that of a regular trace: one with every number in the range of its field,
/// every field that no line shows 0, and at most 4,000,000 steps of all cores. Else the answer is the first line that
/// does not fit, `--` and `----` both fitting, and where all lines fit, the first transfer with the wrong dashes.
/// Reading takes time and memory in proportion to the bytes, whatever numbers of lines the text tells.
pub fn read_report(alloc: Global, bytes: &[u8]) -> Result<Trace, ReportErr>
    ensures found { IfOk result (λ trace. IsRegular trace × (bytes.now ≡ report trace)) }
    ensures only { (trace : Trace) → IsRegular trace → bytes.now ≡ report trace → Tells result (Ok trace) }
    ensures exact { Tells result (report_at bytes.now) }
{
    strict(alloc, bytes)
}

/// Regular traces with equal reports are equal. It does nothing: its clause is the law.
pub fn equal_texts_have_equal_traces()
    ensures law { EqualTextsEqualTraces }
{}

/// No report is the beginning of another. It does nothing: its clause is the law.
pub fn no_report_begins_another()
    ensures law { NoReportBeginsAnother }
{}
