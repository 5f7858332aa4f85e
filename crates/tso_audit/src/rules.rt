ghost use Rattle.std.specs.Prelude.{◌≡◌, ◌↔◌, IfOk};
ghost use Rattle.lf_model.specs.Promise.Regular.{IsRegular};
ghost use Rattle.tso_audit.specs.Audit.{CanAudit, IsVerdict, AllHold};
ghost use Rattle.tso_audit.specs.declared.verdict.Verdict.TheVariants.{Yes};

use crate::parts::once;
use crate::reading::value;
use crate::sequence::{load_op, store_store};
use crate::threads::{results, thread};
use crate::verdict::{Rule, Verdict};
use lf_model::setup::Setup;
use lf_model::trace::Trace;
use std::alloc::{AllocError, Global};

/// Tries the rules one after the other.
fn verdict_on(alloc: Global, setup: &Setup, trace: &Trace) -> Result<Verdict, AllocError>
    requires setup { CanAudit setup.now }
    requires regular { IsRegular trace.now }
    ensures { IfOk result (IsVerdict setup.now trace.now) }
{
    if let Some(place) = once(alloc, setup, trace)? {
        return Ok(Verdict::No(Rule::Once, place));
    }
    if let Some(place) = load_op(trace) {
        return Ok(Verdict::No(Rule::LoadOp, place));
    }
    if let Some(place) = store_store(trace) {
        return Ok(Verdict::No(Rule::StoreStore, place));
    }
    if let Some(place) = thread(alloc, setup, trace)? {
        return Ok(Verdict::No(Rule::Thread, place));
    }
    if let Some(place) = results(alloc, setup, trace)? {
        return Ok(Verdict::No(Rule::Result, place));
    }
    if let Some(place) = value(alloc, setup, trace)? {
        return Ok(Verdict::No(Rule::Value, place));
    }
    Ok(Verdict::Yes)
}

/// The audit of a regular trace: Yes exactly where Once, LoadOp, StoreStore, Thread, Result and Value fail nowhere, else the first of
/// them, in this order, that fails, with its first place. The rule Ledger is not tried yet.
///
/// It takes time by instructions and, for each core, operations and transfers.
///
/// # Errors
///
/// Memory ran out.
pub fn audit(alloc: Global, setup: &Setup, trace: &Trace) -> Result<Verdict, AllocError>
    requires setup { CanAudit setup.now }
    requires regular { IsRegular trace.now }
    ensures verdict { IfOk result (IsVerdict setup.now trace.now) }
    ensures yes { IfOk result (λ verdict. verdict ≡ Yes ↔ AllHold setup.now trace.now) }
{
    verdict_on(alloc, setup, trace)
}
