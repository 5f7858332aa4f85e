ghost use Rattle.std.specs.Prelude.{◌≡◌, Ok, OnOk, OnErr};
ghost use Rattle.lf_io.specs.Count.{Rose};
ghost use Rattle.lf_io.specs.Taken.{Takes, TakesPrefix};
ghost use Rattle.leon_main.specs.Ends.{is_stop, is_limit, some_end, status_of_cores};
ghost use Rattle.leon_main.specs.Call.{status_of, text_of};

use crate::fault::Fault;
use crate::verdict::{verdict_line, verdict_status};
use lf_io::{Failed, Sink, put_all};
use lf_model::image::Bytes;
use lf_model::trace::{CoreEnd, CoreResult, Trace};
use report_text::fields::{LINE_FEED, Piece, put_hex_field};
use report_text::write_report;
use tso_audit::Verdict;

/// The result of a call.
#[derive(Debug, Drop)]
pub enum Answer {
    /// The image ran.
    Report(Trace),
    /// The report of a run was audited.
    Audited(Verdict),
    /// The file of the image of a generated program.
    ImageFile(Bytes),
    /// The seven check bits of a word.
    CheckBits(u8),
}

/// A core was stopped by an error trap.
fn has_stop(cores: &[CoreResult]) -> bool
    ensures { result ≡ some_end is_stop cores.now }
{
    cores
        .iter()
        .any(|core| matches!(core.end, CoreEnd::Stop { .. }))
}

/// A core reached its limit of steps.
fn has_limit(cores: &[CoreResult]) -> bool
    ensures { result ≡ some_end is_limit cores.now }
{
    cores.iter().any(|core| matches!(core.end, CoreEnd::Limit))
}

/// The exit status of a run, by the ends of its cores.
fn status_of_cores(cores: &[CoreResult]) -> u8
    ensures { result ≡ status_of_cores cores.now }
{
    if has_stop(cores) {
        10
    } else if has_limit(cores) {
        11
    } else {
        0
    }
}

/// Two hexadecimal digits, and the end of a line.
fn check_bits_line(bits: u8) -> Piece
    ensures { result.items ≡ text_of (Ok (Answer.CheckBits bits)) }
{
    let mut piece = Piece::new();
    put_hex_field(&mut piece, LINE_FEED, 2, u64::from(bits));
    piece
}

/// The exit status of what a call came to.
pub fn status_of(outcome: &Result<Answer, Fault>) -> u8
    ensures { result ≡ status_of outcome.now }
{
    match outcome {
        Ok(Answer::Report(trace)) => status_of_cores(trace.cores.as_slice()),
        Ok(Answer::Audited(verdict)) => verdict_status(*verdict),
        Ok(Answer::ImageFile(_)) => 0,
        Ok(Answer::CheckBits(_)) => 0,
        Err(fault) => fault.status(),
    }
}

/// Writes the report, the image or the line that tells what a call came to, and takes no memory.
pub fn write_text<K: Sink>(outcome: &Result<Answer, Fault>, out: &mut K) -> Result<(), Failed>
    ensures whole { OnOk result (Takes (K.taken out.old) (K.taken out.new) (text_of outcome.now)) }
    ensures part { OnErr result (TakesPrefix (K.taken out.old) (K.taken out.new) (text_of outcome.now)) }
    ensures cause { OnErr result (Rose (K.faults out.old) (K.faults out.new)) }
{
    match outcome {
        Ok(Answer::Report(trace)) => write_report(trace, out),
        Ok(Answer::Audited(verdict)) => write_line(&verdict_line(*verdict), out),
        Ok(Answer::ImageFile(file)) => put_all(out, file.as_slice()),
        Ok(Answer::CheckBits(bits)) => write_line(&check_bits_line(*bits), out),
        Err(fault) => write_line(&fault.line(), out),
    }
}

/// Writes a line.
fn write_line<K: Sink>(line: &Piece, out: &mut K) -> Result<(), Failed>
    ensures whole { OnOk result (Takes (K.taken out.old) (K.taken out.new) line.now.items) }
    ensures part { OnErr result (TakesPrefix (K.taken out.old) (K.taken out.new) line.now.items) }
    ensures cause { OnErr result (Rose (K.faults out.old) (K.faults out.new)) }
{
    put_all(out, line.as_slice())
}
