ghost use Rattle.std.specs.Prelude.{◌≡◌, ◌≤◌, ℕ, List, IfOk, length};
ghost use Rattle.report_fields.specs.Parts.{Gives};
ghost use Rattle.report_reader.specs.Whole.{ending_part_at, body_at, lines_at, line_of, loose_at};
ghost use Rattle.report_reader.specs.Answer.{Tells};

use crate::error::ReportErr;
use crate::lines::counted;
use lf_model::bus::Transfer;
use lf_model::listed::Listed;
use lf_model::trace::{CoreResult, Fate, Fates, Op, Ops, Trace, Transfers, Word2, Words2};
use report_fields::{Unread, literal};
use report_lines::{fits, passed, status};
use std::alloc::Global;

/// What became of the flips, the watched words, and the last line.
#[tactic(auto, unfolding(crate::specs::Whole::ending_part_at))]
fn ending_part(alloc: Global, bytes: &[u8]) -> Result<((Fates, Words2), &[u8]), Unread>
    ensures read { Gives (λ x. (x.0, x.1.now)) result (ending_part_at bytes.now) }
{
    let (fates, rest) = counted::<Fate>(alloc, b"flips ", 0, 65_536, bytes)?;
    let (watch, rest) = counted::<Word2>(alloc, b"watch ", 0, 64, rest)?;
    let rest = passed(rest, literal(b"end\n", rest))?;
    Ok(((Listed::from_vec(fates), Listed::from_vec(watch)), rest))
}

/// The transfers, the operations, and what follows.
#[tactic(auto, unfolding(crate::specs::Whole::body_at))]
fn body(alloc: Global, bytes: &[u8]) -> Result<((Transfers, (Ops, (Fates, Words2))), &[u8]), Unread>
    ensures read { Gives (λ x. (x.0, x.1.now)) result (body_at bytes.now) }
    ensures few { IfOk result (λ x. length x.0.0 ≤ 5000064) }
{
    let (transfers, rest) = counted::<Transfer>(alloc, b"transfers ", 0, 5_000_064, bytes)?;
    let (order, rest) = counted::<Op>(alloc, b"order ", 0, 4_000_000, rest)?;
    let (ending, rest) = ending_part(alloc, rest)?;
    let order = Listed::from_vec(order);
    Ok(((Listed::from_vec(transfers), (order, ending)), rest))
}

/// The lines of a report, and what follows the last.
#[tactic(auto, unfolding(crate::specs::Whole::lines_at))]
fn lines(alloc: Global, bytes: &[u8]) -> Result<(Trace, &[u8]), Unread>
    ensures read { Gives (λ x. (x.0, x.1.now)) result (lines_at bytes.now) }
    ensures few_cores { IfOk result (λ x. length x.0.cores ≤ 8) }
    ensures few_transfers { IfOk result (λ x. length x.0.transfers ≤ 5000064) }
{
    let rest = passed(bytes, literal(b"leon3ft report 1\n", bytes))?;
    let (cores, rest) = counted::<CoreResult>(alloc, b"cores ", 1, 8, rest)?;
    let ((ahb_addr, ahb_status), rest) = fits(rest, status(rest))?;
    let ((transfers, (order, (fates, watch))), rest) = body(alloc, rest)?;
    let trace = Trace {
        cores: Listed::from_vec(cores),
        ahb_addr,
        ahb_status,
        transfers,
        order,
        fates,
        watch,
    };
    Ok((trace, rest))
}

/// The number, from 1, of the line at which so many bytes are left.
#[tactic(auto, unfolding(crate::specs::Whole::line_of))]
fn line_of(bytes: &[u8], left: usize) -> u64
    ensures line { result ≡ line_of bytes.now left }
{
    let before = &bytes[..bytes.len().saturating_sub(left)];
    1 + before.iter().filter(|b| **b == b'\n').count() as u64
}

/// The trace of a report whose lines all fit, or the first line that does not.
#[tactic(auto, unfolding(crate::specs::Whole::loose_at))]
pub fn loose(alloc: Global, bytes: &[u8]) -> Result<Trace, ReportErr>
    ensures read { Tells result (loose_at bytes.now) }
    ensures few_cores { IfOk result (λ trace. length trace.cores ≤ 8) }
    ensures few_transfers { IfOk result (λ trace. length trace.transfers ≤ 5000064) }
{
    match lines(alloc, bytes) {
        Ok((trace, rest)) => {
            if rest.is_empty() {
                Ok(trace)
            } else {
                Err(ReportErr::At {
                    line: line_of(bytes, rest.len()),
                })
            }
        }
        Err(Unread::Left(left)) => Err(ReportErr::At {
            line: line_of(bytes, left),
        }),
        Err(Unread::Memory) => Err(ReportErr::Memory),
    }
}
