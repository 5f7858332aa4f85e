ghost use Rattle.std.specs.Prelude.{◌≡◌, IfOk, map};
ghost use Rattle.lf_model.specs.Ledger.Account.{without_length};
ghost use Rattle.run_trace.specs.Gathered.{result_kept};

use lf_model::bus::Transfer;
use lf_model::record::CoreRecord;
use lf_model::trace::CoreResult;
use std::alloc::{AllocError, Global};

/// The transfers as a trace has them, without their lengths.
pub fn without_lengths(alloc: Global, transfers: &[Transfer]) -> Result<Vec<Transfer>, AllocError>
    ensures { IfOk result (λ ts. ts.items ≡ map without_length transfers.now) }
{
    let mut reported = Vec::with_capacity(alloc, transfers.len())?;
    for &transfer in transfers {
        reported.push(Transfer { len: 0, ..transfer })?;
    }
    Ok(reported)
}

/// The results of the cores, whose records are given up.
pub fn results_of(alloc: Global, records: Vec<CoreRecord>) -> Result<Vec<CoreResult>, AllocError>
    ensures { IfOk result (λ results. results.items ≡ map result_kept records.items) }
{
    let mut results = Vec::with_capacity(alloc, records.len())?;
    for kept in records {
        results.push(kept.result)?;
    }
    Ok(results)
}
