ghost use Rattle.std.specs.Prelude.{◌≡◌, ◌^◌, ◌≤◌, length, ℕ, List};
ghost use Rattle.lf_model.specs.Ledger.FlipFate.{flip_fates};
ghost use Rattle.lf_model.specs.Records.BusMemory.{memory_after};
ghost use Rattle.lf_model.specs.Records.BusRecord.{no_arrays};
ghost use Rattle.lf_model.specs.declared.trace.Word2.{Word2};
ghost use Rattle.bus_memory.specs.Named.{IsNamed};

use ft_memory::Memory;
use lf_model::bus::Transfer;
use lf_model::flip::Flips;
use lf_model::trace::{Fate, Fates, Transfers};
use std::snapshot::Snapshot;

/// What memory leaves of a run: its transfers, and what became of the script's flips. Those of cores are late here.
#[derive(Drop)]
pub struct MemoryRecord {
    pub transfers: Transfers,
    pub fates: Fates,
}

/// What became of each flip of the script.
pub fn note_fates(
    fates: &mut Vec<Fate>,
    memory: &Memory,
    script: &Snapshot<Flips>,
    transfers: &[Transfer],
)
    requires count { length fates.old.items ≡ length script.now.value }
    requires flips { memory.now.flips ≡ length script.now.value }
    requires few { length script.now.value ≤ 2 ^ 32 }
    ensures { (count : ℕ) (named : List Word2) → IsNamed script.now.value transfers.now count named memory.now → fates.new.items ≡ flip_fates script.now.value (memory_after script.now.value named transfers.now).words no_arrays }
{
    for number in 0..fates.len() {
        fates[number] = memory.fate(number as u32);
    }
}
