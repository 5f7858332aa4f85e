ghost use Rattle.std.specs.Prelude.{◌≡◌, ◌≤◌, filter, map, length, IfSome, ◌<◌};
ghost use Rattle.lf_model.specs.Operation.{enters};
ghost use Rattle.report_reader.specs.Dashes.{dashes, wrong_at, transfer_line_number, bare, bare_trace, checked, report_at};
ghost use Rattle.report_reader.specs.Whole.{loose_at};
ghost use Rattle.report_reader.specs.Answer.{Tells};
ghost use Rattle.std.specs.Option.{option_map};

use crate::error::ReportErr;
use crate::whole::loose;
use lf_model::bus::{Transfer, TurnKind};
use lf_model::listed::Listed;
use lf_model::trace::{CoreResult, Op, Trace};
use report_fields::length_at;
use std::alloc::Global;

/// What the dashes of a transfer say whose entry has this length: 8 for four of them, else 0.
fn dashes_of(len: u8, transfer: &Transfer) -> u8
    ensures dashes { result ≡ dashes len transfer.now }
{
    if matches!(transfer.kind, TurnKind::Store) && transfer.words == 0 && len == 8 {
        8
    } else {
        0
    }
}

/// The first transfer whose dashes are not those of its entry.
fn first_wrong(cores: &[CoreResult], order: &[Op], transfers: &[Transfer]) -> Option<usize>
    ensures within { IfSome result (λ i. i < length transfers.now) }
    ensures wrong { result ≡ wrong_at cores.now (filter enters order.now) 0 transfers.now }
{
    let mut left = order;
    for (i, transfer) in transfers.iter().enumerate() {
        let (len, later) = length_at(cores, left, transfer);
        if transfer.len != dashes_of(len, transfer) {
            return Some(i);
        }
        left = later;
    }
    None
}

/// Sets the length of each transfer to 0.
fn clear(transfers: &mut [Transfer])
    ensures bare { transfers.new ≡ map bare transfers.old }
{
    for transfer in transfers.iter_mut() {
        transfer.len = 0;
    }
}

/// The trace with the length of each transfer 0.
fn undashed(trace: Trace) -> Trace
    ensures bare { result ≡ bare_trace trace }
{
    let mut transfers = trace.transfers.into_vec();
    clear(transfers.as_mut_slice());
    Trace {
        cores: trace.cores,
        ahb_addr: trace.ahb_addr,
        ahb_status: trace.ahb_status,
        transfers: Listed::from_vec(transfers),
        order: trace.order,
        fates: trace.fates,
        watch: trace.watch,
    }
}

/// The line of transfer `i`.
fn line_number(trace: &Trace, i: usize) -> u64
    requires few_cores { length trace.now.cores ≤ 8 }
    requires few_transfers { i ≤ 5000064 }
    ensures line { result ≡ transfer_line_number trace.now i }
{
    5 + 8 * trace.cores.len() as u64 + i as u64
}

/// The trace of a report, or the first line that does not fit.
#[tactic(auto, unfolding(crate::specs::Dashes::report_at))]
pub fn strict(alloc: Global, bytes: &[u8]) -> Result<Trace, ReportErr>
    ensures read { Tells result (report_at bytes.now) }
{
    let trace = loose(alloc, bytes)?;
    let wrong = first_wrong(
        trace.cores.as_slice(),
        trace.order.as_slice(),
        trace.transfers.as_slice(),
    );
    match wrong {
        Some(i) => Err(ReportErr::At {
            line: line_number(&trace, i),
        }),
        None => Ok(undashed(trace)),
    }
}
