ghost use Rattle.std.specs.Prelude.{◌≡◌, ◌∷◌, ◌<◌, true, ℕ, length, IfOk};
ghost use Rattle.coded_words.specs.WordState.{flip_answer};
ghost use Rattle.coded_words.specs.Words.{IsToCome};
ghost use Rattle.flip_ledger.specs.Follows.{has_struck};
ghost use Rattle.lf_model.specs.Caches.Slot.{history_at, befalls, written};
ghost use Rattle.lf_model.specs.Course.Arrays.{register_cells, read_back, struck_by};
ghost use Rattle.lf_model.specs.Fates.{fate_of};
ghost use Rattle.lf_model.specs.Flips.{word_budget, word_bits};
ghost use Rattle.lf_model.specs.Flips.Moment.{Named};
ghost use Rattle.lf_model.specs.declared.trace.Fate.TheVariants.{Late};
ghost use Rattle.ft_regfile.specs.Registers.{at_start, fresh_registers, answer_of_read, value_shown, with_value};

use coded_words::{CodedWords, How};
use edac_code::Read39;
use ft_cells::Flipped;
use lf_model::step::RegBad;
use lf_model::trace::Fate;
use std::alloc::{AllocError, Global};
use std::marker::Model;

/// How many register cells a core has.
pub const CELL_COUNT: usize = 136;

/// The register cells of a core, and what became of the flips of the script that are for them.
#[derive(Drop)]
pub struct RegFile {
    cells: CodedWords,
}

impl Model for RegFile {
    ghost use Rattle.ft_regfile.specs.Registers.{Registers};

    ghost Value = { Registers };

    ghost use Rattle.ft_regfile.specs.Kept.{seen, AreRegisters};

    ghost view = { seen };

    ghost invariant = { AreRegisters };
}

impl RegFile {
    /// The registers of a core at reset, each 0, for a script of so many flips.
    ///
    /// # Errors
    ///
    /// Memory ran out.
    pub fn new(alloc: Global, flips: u32) -> Result<RegFile, AllocError>
        ensures { IfOk result (λ registers. registers ≡ at_start flips) }
    {
        RegFile::with_values(alloc, &[0; CELL_COUNT], flips)
    }

    /// Registers that hold these values before the first step, for a script of so many flips. No write of a cell is recorded.
    ///
    /// # Errors
    ///
    /// Memory ran out.
    pub fn with_values(
        alloc: Global,
        values: &[u32; CELL_COUNT],
        flips: u32,
    ) -> Result<RegFile, AllocError>
        ensures { IfOk result (λ registers. registers ≡ fresh_registers values.now flips) }
    {
        Ok(RegFile {
            cells: CodedWords::new(alloc, values, flips)?,
        })
    }

    /// The value of a cell, below 136. A corrected value is written back.
    ///
    /// # Errors
    ///
    /// The cell is bad: two different bits of it are turned. Nothing changes.
    #[inline]
    pub fn read(&mut self, cell: usize) -> Result<u32, RegBad>
        requires { cell < register_cells }
        ensures answer { result ≡ answer_of_read self.old cell }
        ensures read_back { self.new ≡ record self.old { histories = befalls read_back cell self.old.histories } }
    {
        match self.cells.read(cell) {
            Read39::Clean(value) => Ok(value),
            Read39::Fixed(value, _) => {
                self.cells.write(cell, value, How::ByReadBack);
                Ok(value)
            }
            Read39::Bad(syn) => Err(RegBad { cell, syn }),
        }
    }

    /// Writes a value to a cell, below 136.
    #[inline]
    pub fn write(&mut self, cell: usize, v: u32)
        requires { cell < register_cells }
        ensures { self.new ≡ with_value cell v self.old }
    {
        self.cells.write(cell, v, How::Whole);
    }

    /// A flip of the script, by its number, strikes a bit, below 39, of a cell, below 136. It is declined where two flips were
    /// applied to the cell since it was written.
    pub fn flip(&mut self, number: u32, cell: usize, bit: u8) -> Flipped
        requires cell { cell < register_cells }
        requires bit { bit < word_bits }
        requires number { number < self.old.flips }
        requires once { IsToCome number self.old.histories }
        ensures answer { result ≡ flip_answer (history_at cell self.old.histories) }
        ensures struck { self.new ≡ record self.old { histories = befalls (struck_by number bit) cell self.old.histories } }
    {
        self.cells.flip(number, cell, bit)
    }

    /// The value of a cell, below 136; `None` exactly where it is bad.
    pub fn peek(&self, cell: usize) -> Option<u32>
        requires { cell < register_cells }
        ensures { result ≡ value_shown self.now cell }
    {
        match self.cells.read(cell) {
            Read39::Clean(value) => Some(value),
            Read39::Fixed(value, _) => Some(value),
            Read39::Bad(_) => None,
        }
    }

    /// An error trap names a cell, below 136.
    pub fn name(&mut self, cell: usize)
        requires { cell < register_cells }
        ensures { self.new ≡ record self.old { histories = befalls (λ h. Named ∷ h) cell self.old.histories } }
    {
        self.cells.name(cell);
    }

    /// What became of a flip of the script so far, by its number: late where it struck no cell.
    pub fn fate(&self, number: u32) -> Fate
        requires { number < self.now.flips }
        ensures struck { (cell : ℕ) → cell < register_cells → has_struck number (history_at cell self.now.histories) ≡ true
            → result ≡ fate_of word_budget number (history_at cell self.now.histories) }
        ensures late { IsToCome number self.now.histories → result ≡ Late }
    {
        self.cells.fate(number)
    }
}
