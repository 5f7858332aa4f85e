ghost use Rattle.std.specs.Prelude.{ℕ, ◌≡◌, true, List, map, fold, IfOk};
ghost use Rattle.std.specs.List.{AllByRecursion};
ghost use Rattle.lf_model.specs.Ledger.Rule.{KeepsLedger};
ghost use Rattle.lf_model.specs.Promise.Follows.{scheduled, rounds, Follows};
ghost use Rattle.lf_model.specs.Promise.Headline.{Headline};
ghost use Rattle.lf_model.specs.Promise.Regular.{IsRegular};
ghost use Rattle.lf_model.specs.declared.setup.Event.{Event};
ghost use Rattle.leon_core.specs.Ends.{IsEnded};
ghost use Rattle.core_parts.specs.Phases.{state_of_core};
ghost use Rattle.machine_play.specs.Ending.{watched_on, named_of, AllLeave};
ghost use Rattle.machine_play.specs.MachineMade.{ComesTo};
ghost use Rattle.machine_play.specs.Moved.{IsSound, is_over};
ghost use Rattle.machine_play.specs.Playable.{IsWordOfRam, IsPlayable};

use crate::machine::Machine;
use ahb_bus::Bus;
use leon_core::Core;
use lf_model::record::CoreRecord;
use lf_model::setup::Setup;
use lf_model::trace::{Trace, Word2, Words2};
use run_trace::{Records, gather};
use std::alloc::{AllocError, Global};

/// The watched words at the end, each with its value; a bad word has none.
///
/// # Errors
///
/// Memory ran out.
fn watched_words(alloc: Global, addresses: &[u32], bus: &Bus) -> Result<Words2, AllocError>
    requires { AllByRecursion (IsWordOfRam bus.now.setup.config.ram) addresses.now }
    ensures { IfOk result (λ watch. watch ≡ map (watched_on bus.now) addresses.now) }
{
    let mut watch = Vec::with_capacity(alloc, addresses.len())?;
    for &addr in addresses {
        watch.push(Word2 {
            addr,
            value: bus.peek(addr),
        })?;
    }
    Ok(Words2::from_vec(watch))
}

/// The records of cores that have ended.
///
/// # Errors
///
/// Memory ran out.
fn records_of(alloc: Global, cores: Vec<Core>) -> Result<Vec<CoreRecord>, AllocError>
    requires { AllByRecursion (λ v. IsEnded (state_of_core v)) cores.items }
    ensures { IfOk result (λ records. AllLeave cores.items records.items) }
{
    let mut records = Vec::with_capacity(alloc, cores.len())?;
    for core in cores {
        records.push(core.finish())?;
    }
    Ok(records)
}

/// The words that the end of a core names.
///
/// # Errors
///
/// Memory ran out.
fn named_by(alloc: Global, kept: &CoreRecord) -> Result<Words2, AllocError>
    ensures { IfOk result (λ named. named ≡ named_of kept.now) }
{
    let mut named = Vec::new(alloc);
    for &word in kept.named.as_slice() {
        named.push(word)?;
    }
    Ok(Words2::from_vec(named))
}

/// For each core, the words that its end names.
///
/// # Errors
///
/// Memory ran out.
fn named_by_all(alloc: Global, records: &[CoreRecord]) -> Result<Vec<Words2>, AllocError>
    ensures { IfOk result (λ named. named.items ≡ map named_of records.now) }
{
    let mut named = Vec::with_capacity(alloc, records.len())?;
    for kept in records {
        named.push(named_by(alloc, kept)?)?;
    }
    Ok(named)
}

impl Machine {
    /// The trace of the machine of a setup, which has ended.
    ///
    /// # Errors
    ///
    /// Memory ran out.
    pub(crate) fn into_trace(self, alloc: Global, s: &Setup) -> Result<Trace, AllocError>
        requires playable { IsPlayable s.now }
        requires setup { self.bus.setup ≡ s.now }
        requires machine { IsSound self }
        requires ended { is_over self ≡ true }
        ensures headline { IfOk result (Headline s.now) }
        ensures ledger { IfOk result (KeepsLedger s.now) }
        ensures regular { IfOk result IsRegular }
        ensures follows { IfOk result (λ trace. (events : List Event) (count : ℕ)
            → ComesTo s.now (λ a. rounds count (fold scheduled a events)) self → Follows s.now events trace) }
    {
        let Machine { cores, bus, .. } = self;
        let watch = watched_words(alloc, s.config.watch.as_slice(), &bus)?;
        let records = records_of(alloc, cores)?;
        let named = named_by_all(alloc, &records)?;
        let bus = bus.finish(&named);
        gather(alloc, s, Records::from_vec(records), bus, watch)
    }
}
