ghost use Rattle.std.specs.Prelude.{◌≡◌, ◌<◌, ◌^◌, true, IfOk};
ghost use Rattle.std.specs.List.{list_all};
ghost use Rattle.lf_model.specs.Ledger.Rule.{KeepsLedger};
ghost use Rattle.lf_model.specs.Promise.Headline.{Headline};
ghost use Rattle.lf_model.specs.Promise.Regular.{is_regular_word, IsRegular};
ghost use Rattle.run_trace.specs.Gathered.{gathered, IsGatherable};

use crate::fates::fates_of;
use crate::order::order_of;
use crate::parts::{results_of, without_lengths};
use crate::record::Records;
use ahb_bus::BusRecord;
use lf_model::setup::Setup;
use lf_model::trace::{Fates, Ops, Results, Trace, Transfers, Word2, Words2};
use std::alloc::{AllocError, Global};

/// The value itself, of which contracts see that 32 bits hold it.
fn word(value: u32) -> u32
    ensures same { result ≡ value }
    ensures fits { result < 2 ^ 32 }
{
    value
}

/// The watched word itself, of which contracts see that 32 bits hold its address and its value.
fn watched(named: Word2) -> Word2
    ensures same { result ≡ named }
    ensures fits { is_regular_word result ≡ true }
{
    Word2 {
        addr: word(named.addr),
        value: match named.value {
            Some(value) => Some(word(value)),
            None => None,
        },
    }
}

/// The list itself, of which contracts see that 32 bits hold each number in it. The loop changes nothing: it shows this of
/// each word in turn.
fn all_watched(watch: Words2) -> Words2
    ensures same { result ≡ watch }
    ensures fits { list_all is_regular_word result ≡ true }
{
    for &named in watch.as_slice() {
        watched(named);
    }
    watch
}

/// The parts of the trace, each from what the records have of it.
fn assembled(
    alloc: Global,
    s: &Setup,
    cores: Records,
    bus: BusRecord,
    watch: Words2,
) -> Result<Trace, AllocError>
    requires records { IsGatherable s.now cores bus watch }
    ensures gathered { IfOk result (λ trace. trace ≡ gathered s.now cores bus watch) }
    ensures fits { IfOk result (λ trace. (trace.ahb_addr < 2 ^ 32) × (trace.ahb_status < 2 ^ 32)) }
    ensures words { IfOk result (λ trace. list_all is_regular_word trace.watch ≡ true) }
{
    let records = cores.into_vec();
    let order = order_of(alloc, &records, &bus.log)?;
    let fates = fates_of(alloc, s.flips.as_slice(), &records, bus.fates.as_slice())?;
    let transfers = without_lengths(alloc, bus.transfers.as_slice())?;
    let results = results_of(alloc, records)?;
    Ok(Trace {
        cores: Results::from_vec(results),
        ahb_addr: word(bus.ahb_addr),
        ahb_status: word(bus.ahb_status),
        transfers: Transfers::from_vec(transfers),
        order: Ops::from_vec(order),
        fates: Fates::from_vec(fates),
        watch: all_watched(watch),
    })
}

/// The trace of a run from the records of its cores and of its bus, and the watched words at the end.
///
/// # Errors
///
/// Memory ran out.
pub fn gather(
    alloc: Global,
    s: &Setup,
    cores: Records,
    bus: BusRecord,
    watch: Words2,
) -> Result<Trace, AllocError>
    requires records { IsGatherable s.now cores bus watch }
    ensures gathered { IfOk result (λ trace. trace ≡ gathered s.now cores bus watch) }
    ensures regular { IfOk result IsRegular }
    ensures headline { IfOk result (Headline s.now) }
    ensures ledger { IfOk result (KeepsLedger s.now) }
{
    assembled(alloc, s, cores, bus, watch)
}
