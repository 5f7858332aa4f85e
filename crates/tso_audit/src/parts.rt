ghost use Rattle.std.specs.Prelude.{◌≡◌, ◌<◌, ◌≤◌, ◌↔◌, ◌^◌, ◌+◌, ◌-◌, if◌then◌else◌, ℕ, length, map, count_by, IsTrue, IfOk, All, slice_index};
ghost use Rattle.lf_model.specs.Operation.{of_core};
ghost use Rattle.lf_model.specs.Once.{is_number, address_of, OnceAtCore, OnceAtOrder, OnceAtTransfer, OnceAtFinal, HasMaster};
ghost use Rattle.lf_model.specs.Places.{FailsFirst, FailsFirstIn};
ghost use Rattle.tso_audit.specs.FirstPlaces.{OnceFailsFirst};

use lf_model::bus::{Transfer, TurnKind};
use lf_model::place::Place;
use lf_model::setup::Setup;
use lf_model::trace::{Op, Trace, Word2};
use std::alloc::{AllocError, Global};
use tso_thread::count_of;

/// Counts an operation of core `c` at its number, if that is among the numbers that are counted.
fn count_number(times: &mut [u32], op: &Op, c: u32)
    requires room { (k : ℕ) → k < length times.old → slice_index times.old k + 1 < 2 ^ 32 }
    ensures times { (k : ℕ) → k < length times.old → slice_index times.new k ≡ slice_index times.old k + (if is_number c k op.now then 1 else 0) }
{
    if op.core != c {
        return;
    }
    let k = op.k as usize;
    if k >= times.len() {
        return;
    }
    times[k] += 1;
}

/// How often each number below `n` stands among the operations of core `c`.
fn times_of_numbers(alloc: Global, order: &[Op], c: u32, n: usize) -> Result<Vec<u32>, AllocError>
    requires few { length order.now < 2 ^ 32 - 1 }
    ensures length { IfOk result (λ times. length times.items ≡ n) }
    ensures times { IfOk result (λ times. (k : ℕ) → k < n → slice_index times.items k ≡ count_by (is_number c k) order.now) }
{
    let mut times = vec![in alloc; 0u32; n]?;
    for op in order {
        count_number(&mut times, op, c);
    }
    Ok(times)
}

/// Each number stands once.
fn are_all_one(times: &[u32]) -> bool
    ensures { IsTrue result ↔ All (λ t. t ≡ 1) times.now }
{
    times.iter().all(|times| *times == 1)
}

/// The operations of core `c` are numbered 0, 1, 2 and so on.
fn is_numbered(alloc: Global, order: &[Op], c: u32) -> Result<bool, AllocError>
    requires few { length order.now < 2 ^ 32 - 1 }
    ensures { IfOk result (λ numbered. IsTrue numbered ↔ OnceAtCore order.now c) }
{
    let times = times_of_numbers(alloc, order, c, count_of(order, c))?;
    Ok(are_all_one(&times))
}

/// The first core whose operations are not numbered 0, 1, 2 and so on.
fn first_unnumbered_core(alloc: Global, order: &[Op], cores: u32) -> Result<Option<u32>, AllocError>
    requires few { length order.now < 2 ^ 32 - 1 }
    ensures { IfOk result (FailsFirst cores (OnceAtCore order.now)) }
{
    for c in 0..cores {
        if !is_numbered(alloc, order, c)? {
            return Ok(Some(c));
        }
    }
    Ok(None)
}

/// The first operation of no core of the setup.
fn first_foreign_operation(order: &[Op], cores: u32) -> Option<usize>
    ensures { FailsFirstIn (OnceAtOrder cores) order.now result }
{
    for (i, op) in order.iter().enumerate() {
        if op.core >= cores {
            return Some(i);
        }
    }
    None
}

/// A look or a fix of the scrubber, master 8, or another transfer of a core.
fn has_master(transfer: &Transfer, cores: u32) -> bool
    ensures { IsTrue result ↔ HasMaster cores transfer.now.master transfer.now.kind }
{
    match transfer.kind {
        TurnKind::Look | TurnKind::Fix => transfer.master == 8,
        _ => transfer.master < cores,
    }
}

/// The first transfer whose master is not one that makes such transfers.
fn first_foreign_transfer(transfers: &[Transfer], cores: u32) -> Option<usize>
    ensures { FailsFirst (length transfers.now) (OnceAtTransfer cores transfers.now) result }
{
    for (i, transfer) in transfers.iter().enumerate() {
        if !has_master(transfer, cores) {
            return Some(i);
        }
    }
    None
}

/// The words have these addresses, one after the other.
fn has_addresses(words: &[Word2], addresses: &[u32]) -> bool
    ensures { IsTrue result ↔ map address_of words.now ≡ addresses.now }
{
    if words.len() != addresses.len() {
        return false;
    }
    for (i, word) in words.iter().enumerate() {
        if word.addr != addresses[i] {
            return false;
        }
    }
    true
}

/// The trace has the setup's cores, flips and watched words.
fn has_the_parts(setup: &Setup, trace: &Trace) -> bool
    ensures { IsTrue result ↔ OnceAtFinal setup.now trace.now }
{
    if trace.cores.len() != setup.config.cores as usize {
        return false;
    }
    if trace.fates.len() != setup.flips.len() {
        return false;
    }
    has_addresses(trace.watch.as_slice(), setup.config.watch.as_slice())
}

/// The first place at which Once fails: each core's operations are numbered 0, 1, 2 and so on, each operation is of a core of the
/// setup, each transfer of a core or the scrubber, and the trace has the setup's cores, flips and watched words.
///
/// # Errors
///
/// Memory ran out.
pub fn once(alloc: Global, setup: &Setup, trace: &Trace) -> Result<Option<Place>, AllocError>
    requires few_operations { length trace.now.order < 2 ^ 32 - 1 }
    requires few_transfers { length trace.now.transfers < 2 ^ 32 }
    ensures first { IfOk result (OnceFailsFirst setup.now trace.now) }
{
    let cores = setup.config.cores;
    let order = trace.order.as_slice();
    match first_unnumbered_core(alloc, order, cores)? {
        Some(core) => return Ok(Some(Place::Core(core))),
        None => {}
    }
    match first_foreign_operation(order, cores) {
        Some(place) => return Ok(Some(Place::Order(place as u32))),
        None => {}
    }
    match first_foreign_transfer(trace.transfers.as_slice(), cores) {
        Some(turn) => return Ok(Some(Place::Transfer(turn as u32))),
        None => {}
    }
    if has_the_parts(setup, trace) {
        Ok(None)
    } else {
        Ok(Some(Place::Final))
    }
}
