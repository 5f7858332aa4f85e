ghost use Rattle.std.specs.Prelude.{◌≡◌, ◌<◌, ℕ, true, [], All, replicate, IfOk};
ghost use Rattle.flip_ledger.specs.Follows.{has_struck};
ghost use Rattle.lf_model.specs.Caches.Slot.{history_at, befalls, befalls_each, written};
ghost use Rattle.lf_model.specs.Course.Arrays.{register_cells, struck_by, read_back, read_cells};
ghost use Rattle.lf_model.specs.Fates.{fate_of};
ghost use Rattle.lf_model.specs.Flips.{is_bad_word, syndrome, word_bits, word_budget};
ghost use Rattle.lf_model.specs.declared.trace.Fate.TheVariants.{Late};
ghost use Rattle.replay_units.specs.Units.{named, IsToCome};

use lf_model::trace::Fate;
use replay_units::{How, Units};
use std::alloc::{AllocError, Global};
use std::marker::Model;

/// How many register cells a core has.
const COUNT: usize = 136;
/// How many flips a cell takes between two writes.
const BUDGET: u8 = 2;

/// The register cells of a core.
#[derive(Drop)]
pub struct Cells {
    units: Units,
}

impl Model for Cells {
    ghost use Rattle.replay_arrays.specs.CellsState.{CellsState};

    ghost Value = { CellsState };

    ghost use Rattle.replay_arrays.specs.CellsInside.{seen, IsCells};

    ghost view = { seen };

    ghost invariant = { IsCells };
}

impl Cells {
    /// The cells at reset, for a script of so many flips, none of which has come.
    ///
    /// # Errors
    ///
    /// Memory ran out.
    pub fn new(alloc: Global, flips: u32) -> Result<Cells, AllocError>
        ensures { IfOk result (λ cells. cells ≡ record { histories = replicate register_cells []; flips = flips }) }
    {
        Ok(Cells {
            units: Units::new(alloc, COUNT, BUDGET, flips)?,
        })
    }

    /// A flip of the script, by its number, strikes a bit, below 39, of a cell.
    pub fn strike(&mut self, number: u32, cell: u8, bit: u8)
        requires cell { cell < register_cells }
        requires bit { bit < word_bits }
        requires number { number < self.old.flips }
        requires once { IsToCome number self.old.histories }
        ensures { self.new ≡ record self.old { histories = befalls (struck_by number bit) cell self.old.histories } }
    {
        self.units.strike(number, usize::from(cell), bit);
    }

    /// A cell reads bad: two of its bits stand flipped.
    pub fn is_bad(&self, cell: u8) -> bool
        requires { cell < register_cells }
        ensures { result ≡ is_bad_word (history_at cell self.now.histories) }
    {
        self.units.is_bad(usize::from(cell))
    }

    /// The syndrome of a cell.
    pub fn syndrome(&self, cell: u8) -> u8
        requires { cell < register_cells }
        ensures { result ≡ syndrome (history_at cell self.now.histories) }
    {
        self.units.syndrome(usize::from(cell))
    }

    /// A read of a cell that puts it right writes it back.
    fn read_back(&mut self, cell: u8)
        requires { cell < register_cells }
        ensures { self.new ≡ record self.old { histories = befalls read_back cell self.old.histories } }
    {
        if self.units.is_fixed(usize::from(cell)) {
            self.units.write(usize::from(cell), How::ByReadBack);
        }
    }

    /// These cells are read, in order, up to and with the first bad one, which is given.
    pub fn read(&mut self, cells: &[u8]) -> Option<u8>
        requires { All (λ cell. cell < register_cells) cells.now }
        ensures bad { result ≡ (read_cells cells.now self.old.histories).bad }
        ensures cells { self.new ≡ record self.old { histories = (read_cells cells.now self.old.histories).cells } }
    {
        for i in 0..cells.len() {
            let bad = self.is_bad(cells[i]);
            self.read_back(cells[i]);
            if bad {
                return Some(cells[i]);
            }
        }
        None
    }

    /// A cell is written.
    fn write_one(&mut self, cell: u8)
        requires { cell < register_cells }
        ensures { self.new ≡ record self.old { histories = befalls written cell self.old.histories } }
    {
        self.units.write(usize::from(cell), How::Whole);
    }

    /// These cells are written.
    pub fn write(&mut self, cells: &[u8])
        requires { All (λ cell. cell < register_cells) cells.now }
        ensures { self.new ≡ record self.old { histories = befalls_each written cells.now self.old.histories } }
    {
        for i in 0..cells.len() {
            self.write_one(cells[i]);
        }
    }

    /// An error trap names a cell.
    pub fn name(&mut self, cell: u8)
        requires { cell < register_cells }
        ensures { self.new ≡ record self.old { histories = befalls named cell self.old.histories } }
    {
        self.units.name(usize::from(cell));
    }

    /// What became of a flip of the script so far, by its number: late where it struck no cell.
    pub fn fate(&self, number: u32) -> Fate
        requires number { number < self.now.flips }
        ensures struck { (cell : ℕ) → has_struck number (history_at cell self.now.histories) ≡ true
            → result ≡ fate_of word_budget number (history_at cell self.now.histories) }
        ensures late { IsToCome number self.now.histories → result ≡ Late }
    {
        self.units.fate(number)
    }
}
