ghost use Rattle.std.specs.Prelude.{◌≡◌, IfOk, slice_index_or};
ghost use Rattle.lf_model.specs.declared.trace.Fate.TheVariants.{Late};
ghost use Rattle.run_trace.specs.Fates.{core_fate, fate_recorded, fates_recorded};

use lf_model::flip::Flip;
use lf_model::record::CoreRecord;
use lf_model::trace::Fate;
use std::alloc::{AllocError, Global};

/// The fate of flip `i` by a list of fates, `Late` past its end.
fn fate_at(fates: &[Fate], i: usize) -> Fate
    ensures { result ≡ slice_index_or fates.now i Late }
{
    if i < fates.len() {
        fates[i]
    } else {
        Fate::Late
    }
}

/// The fate of flip `i` as its core records it, `Late` without that core.
fn core_fate(records: &[CoreRecord], core: u32, i: usize) -> Fate
    ensures { result ≡ core_fate records.now core i }
{
    let c = core as usize;
    if c < records.len() {
        fate_at(records[c].fates.as_slice(), i)
    } else {
        Fate::Late
    }
}

/// The fate of flip `i`: of a flip of memory as the bus records it, and of others as their core does.
fn fate_of(flip: &Flip, records: &[CoreRecord], bus: &[Fate], i: usize) -> Fate
    ensures { result ≡ fate_recorded records.now bus.now i flip.now }
{
    match *flip {
        Flip::Mem { .. } => fate_at(bus, i),
        Flip::Reg { core, .. } => core_fate(records, core, i),
        Flip::Tag { core, .. } => core_fate(records, core, i),
        Flip::Line { core, .. } => core_fate(records, core, i),
    }
}

/// The fates of all flips of the script.
pub fn fates_of(
    alloc: Global,
    script: &[Flip],
    records: &[CoreRecord],
    bus: &[Fate],
) -> Result<Vec<Fate>, AllocError>
    ensures { IfOk result (λ fates. fates.items ≡ fates_recorded records.now bus.now 0 script.now) }
{
    let mut fates = Vec::with_capacity(alloc, script.len())?;
    for i in 0..script.len() {
        fates.push(fate_of(&script[i], records, bus, i))?;
    }
    Ok(fates)
}
