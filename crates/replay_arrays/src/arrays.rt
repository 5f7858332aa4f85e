ghost use Rattle.std.specs.Prelude.{◌≡◌, ◌+◌, ◌^◌, ◌<◌, ℕ, true, All, length, IfOk, Some, slice_get};
ghost use Rattle.std.specs.List.{AllByRecursion};
ghost use Rattle.flip_ledger.specs.Follows.{has_struck};
ghost use Rattle.lf_model.specs.Caches.Cache.{IsCacheShape, slot_at};
ghost use Rattle.lf_model.specs.Caches.Change.{updated, snooped, filled, flushed};
ghost use Rattle.lf_model.specs.Caches.Look.{look};
ghost use Rattle.lf_model.specs.Caches.Slot.{history_at, befalls};
ghost use Rattle.lf_model.specs.Course.Arrays.{register_cells, reset_arrays, begun, read_cells, write_cells};
ghost use Rattle.lf_model.specs.Course.Core.{strikes_core};
ghost use Rattle.lf_model.specs.Fates.{fate_of};
ghost use Rattle.lf_model.specs.Flips.{byte_budget};
ghost use Rattle.lf_model.specs.Ledger.FlipFate.{cache_in};
ghost use Rattle.lf_model.specs.declared.trace.Fate.TheVariants.{Late};
ghost use Rattle.replay_arrays.specs.Aims.{own_flips, AimsAt};
ghost use Rattle.replay_arrays.specs.ArraysState.{UsesAtMost, HasFate};
ghost use Rattle.replay_caches.specs.CacheState.{answer_of};
ghost use Rattle.replay_caches.specs.SlotsState.{IsToCome};
ghost use Rattle.replay_units.specs.Units.{named};

use crate::cells::Cells;
use crate::parts::Parts;
use crate::strikes::strike_due;
use flip_ledger::{FlipPlan, Owner};
use lf_model::flip::{Flip, Flips};
use lf_model::setup::Setup;
use lf_model::trace::Fate;
use replay_caches::{Cache, LookUp};
use std::alloc::{AllocError, Global};
use std::marker::Model;
use std::snapshot::Snapshot;

/// The arrays of a core that flips strike, over its steps.
#[derive(Drop)]
pub struct Arrays {
    parts: Parts,
    /// The flips for the core that are still to come.
    plan: FlipPlan,
    core: u32,
    /// How many steps began.
    steps: u32,
    /// The script, for contracts alone.
    script: Snapshot<Flips>,
}

impl Model for Arrays {
    ghost use Rattle.replay_arrays.specs.ArraysState.{ArraysState};

    ghost Value = { ArraysState };

    ghost use Rattle.replay_arrays.specs.ArraysInside.{seen, IsArrays};

    ghost view = { seen };

    ghost invariant = { IsArrays };
}

impl Arrays {
    /// The arrays of a core at reset, before its first step.
    ///
    /// # Errors
    ///
    /// Memory ran out.
    pub fn new(alloc: Global, setup: &Setup, core: u32) -> Result<Arrays, AllocError>
        requires few { length setup.now.flips < 2 ^ 32 }
        requires fetch_cache { IsCacheShape setup.now.config.fetch_cache }
        requires data_cache { IsCacheShape setup.now.config.load_cache }
        requires aims { AllByRecursion (AimsAt core setup.now.config) setup.now.flips }
        ensures { IfOk result (λ arrays. arrays ≡ record { script = setup.now.flips; core = core; arrays = reset_arrays setup.now.config; steps = 0 }) }
    {
        let flips = setup.flips.as_slice();
        Ok(Arrays {
            parts: Parts::new(alloc, &setup.config, flips.len() as u32)?,
            plan: FlipPlan::new(alloc, flips, Owner::Core(core))?,
            core,
            steps: 0,
            script: Snapshot::of(&setup.flips),
        })
    }

    /// How many steps began.
    pub fn steps(&self) -> u32
        ensures { result ≡ self.now.steps }
    {
        self.steps
    }

    /// The register cells.
    pub fn cells(&self) -> &Cells
        ensures { result.now ≡ record { histories = self.now.arrays.cells; flips = length self.now.script } }
    {
        &self.parts.cells
    }

    /// The fetch cache.
    pub fn fetch_cache(&self) -> &Cache
        ensures { result.now ≡ record { cache = self.now.arrays.fetch_cache; flips = length self.now.script } }
    {
        &self.parts.fetch_cache
    }

    /// The data cache.
    pub fn data_cache(&self) -> &Cache
        ensures { result.now ≡ record { cache = self.now.arrays.data_cache; flips = length self.now.script } }
    {
        &self.parts.data_cache
    }

    /// The next step begins: the flips of the script for it strike, in the order of the script.
    pub fn begin(&mut self)
        requires { self.old.steps + 1 < 2 ^ 32 }
        ensures begun { self.new ≡ record self.old {
          arrays = begun (own_flips self.old.core self.old.script) self.old.steps self.old.arrays;
          steps = self.old.steps + 1;
        } }
        ensures uses { UsesAtMost 0 0 self.old.arrays self.new.arrays }
    {
        strike_due(
            &mut self.parts,
            &mut self.plan,
            &self.script,
            self.core,
            self.steps,
        );
        self.steps += 1;
    }

    /// What became so far of a flip of the script that strikes the core, by its number.
    pub fn fate(&self, number: u32, flip: Flip) -> Fate
        requires flip { slice_get self.now.script number ≡ Some flip }
        requires core { strikes_core self.now.core flip ≡ true }
        ensures { HasFate self.now number flip result }
    {
        match flip {
            Flip::Mem { .. } => Fate::Late,
            Flip::Reg { .. } => self.parts.cells.fate(number),
            Flip::Tag { fetch, .. } => self.fate_in(fetch, number),
            Flip::Line { fetch, .. } => self.fate_in(fetch, number),
        }
    }

    /// The same of a flip of a cache: late where it struck no byte.
    fn fate_in(&self, fetch: bool, number: u32) -> Fate
        requires { number < length self.now.script }
        ensures tag { (slot byte : ℕ) → has_struck number (history_at byte (slot_at slot (cache_in fetch self.now.arrays)).tag_histories) ≡ true
            → result ≡ fate_of byte_budget number (history_at byte (slot_at slot (cache_in fetch self.now.arrays)).tag_histories) }
        ensures line { (slot byte : ℕ) → has_struck number (history_at byte (slot_at slot (cache_in fetch self.now.arrays)).line_histories) ≡ true
            → result ≡ fate_of byte_budget number (history_at byte (slot_at slot (cache_in fetch self.now.arrays)).line_histories) }
        ensures late { IsToCome number (cache_in fetch self.now.arrays).slots → result ≡ Late }
    {
        if fetch {
            self.parts.fetch_cache.fate(number)
        } else {
            self.parts.data_cache.fate(number)
        }
    }

    // ---- register cells

    /// These cells are read, in order, up to and with the first bad one, which is given.
    pub fn read(&mut self, cells: &[u8]) -> Option<u8>
        requires { All (λ cell. cell < register_cells) cells.now }
        ensures bad { result ≡ (read_cells cells.now self.old.arrays.cells).bad }
        ensures read { self.new ≡ record self.old { arrays = record self.old.arrays { cells = (read_cells cells.now self.old.arrays.cells).cells } } }
    {
        self.parts.cells.read(cells)
    }

    /// These cells are written.
    pub fn write(&mut self, cells: &[u8])
        requires { All (λ cell. cell < register_cells) cells.now }
        ensures { self.new ≡ record self.old { arrays = write_cells cells.now self.old.arrays } }
    {
        self.parts.cells.write(cells);
    }

    /// An error trap names a cell.
    pub fn name(&mut self, cell: u8)
        requires { cell < register_cells }
        ensures { self.new ≡ record self.old { arrays = record self.old.arrays { cells = befalls named cell self.old.arrays.cells } } }
    {
        self.parts.cells.name(cell);
    }

    // ---- caches

    /// Looks a word of text up in the fetch cache.
    pub fn look_fetch(&mut self, addr: u32) -> LookUp
        requires { self.old.arrays.fetch_cache.uses + 1 < 2 ^ 64 }
        ensures answer { result ≡ answer_of (look addr 4 self.old.arrays.fetch_cache).answer }
        ensures looked { self.new ≡ record self.old { arrays = record self.old.arrays { fetch_cache = (look addr 4 self.old.arrays.fetch_cache).cache } } }
        ensures uses { UsesAtMost 1 0 self.old.arrays self.new.arrays }
    {
        self.parts.fetch_cache.look(addr, 4)
    }

    /// Looks the bytes of a load up in the data cache.
    pub fn look_data(&mut self, addr: u32, len: u8) -> LookUp
        requires { self.old.arrays.data_cache.uses + 1 < 2 ^ 64 }
        ensures answer { result ≡ answer_of (look addr len self.old.arrays.data_cache).answer }
        ensures looked { self.new ≡ record self.old { arrays = record self.old.arrays { data_cache = (look addr len self.old.arrays.data_cache).cache } } }
        ensures uses { UsesAtMost 0 1 self.old.arrays self.new.arrays }
    {
        self.parts.data_cache.look(addr, len)
    }

    /// An own store of so many bytes updates the data cache.
    pub fn update(&mut self, addr: u32, len: u8)
        requires { self.old.arrays.data_cache.uses + 1 < 2 ^ 64 }
        ensures updated { self.new ≡ record self.old { arrays = record self.old.arrays { data_cache = updated addr len self.old.arrays.data_cache } } }
        ensures uses { UsesAtMost 0 1 self.old.arrays self.new.arrays }
    {
        self.parts.data_cache.update(addr, len);
    }

    /// The data cache snoops a store at an address.
    pub fn snoop(&mut self, addr: u32)
        ensures snooped { self.new ≡ record self.old { arrays = record self.old.arrays { data_cache = snooped self.old.arrays.data_cache addr } } }
        ensures uses { UsesAtMost 0 0 self.old.arrays self.new.arrays }
    {
        self.parts.data_cache.snoop(addr);
    }

    /// Fills the line of an address into the fetch cache, with these valid bits, bit `j` for word `j`.
    pub fn fill_fetch(&mut self, addr: u32, valid: u8)
        requires { self.old.arrays.fetch_cache.uses + 1 < 2 ^ 64 }
        ensures filled { self.new ≡ record self.old { arrays = record self.old.arrays { fetch_cache = filled addr valid self.old.arrays.fetch_cache } } }
        ensures uses { UsesAtMost 1 0 self.old.arrays self.new.arrays }
    {
        self.parts.fetch_cache.fill(addr, valid);
    }

    /// Fills the line of an address into the data cache, with these valid bits, bit `j` for word `j`.
    pub fn fill_data(&mut self, addr: u32, valid: u8)
        requires { self.old.arrays.data_cache.uses + 1 < 2 ^ 64 }
        ensures filled { self.new ≡ record self.old { arrays = record self.old.arrays { data_cache = filled addr valid self.old.arrays.data_cache } } }
        ensures uses { UsesAtMost 0 1 self.old.arrays self.new.arrays }
    {
        self.parts.data_cache.fill(addr, valid);
    }

    /// Drops every line of both caches (FLUSH).
    pub fn flush(&mut self)
        ensures flushed { self.new ≡ record self.old {
          arrays = record self.old.arrays {
            fetch_cache = flushed self.old.arrays.fetch_cache;
            data_cache = flushed self.old.arrays.data_cache;
          };
        } }
        ensures uses { UsesAtMost 0 0 self.old.arrays self.new.arrays }
    {
        self.parts.fetch_cache.flush();
        self.parts.data_cache.flush();
    }
}
