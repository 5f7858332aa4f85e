ghost use Rattle.std.specs.Prelude.{◌≡◌, ◌<◌, [], true, false, ℕ, nat_lt, length, replicate, IfOk};
ghost use Rattle.flip_ledger.specs.Follows.{has_struck};
ghost use Rattle.lf_model.specs.Caches.Slot.{history_at, checked_byte};
ghost use Rattle.lf_model.specs.Course.Arrays.{struck_by};
ghost use Rattle.lf_model.specs.Fates.{fate_of};
ghost use Rattle.lf_model.specs.Flips.{standing, word_budget, byte_budget, word_bits, is_bad_word, is_fixed_word, syndrome};
ghost use Rattle.lf_model.specs.declared.trace.Fate.TheVariants.{Late};
ghost use Rattle.replay_units.specs.Units.{written_by, found, named, befallen, IsToCome};
ghost use Rattle.replay_units.specs.Ways.{how_of};

use crate::bits::Bits;
use crate::history::{Finding, Fresh, Histories, How, Naming, Rewrite, Strike};
use crate::note::note_flip;
use flip_ledger::FlipLedger;
use ghost_value::Ghost;
use lf_model::trace::Fate;
use std::alloc::{AllocError, Global};
use std::marker::Model;

/// Units of one kind, numbered from 0, that take so many flips between two writes, and what became of the script's flips that are
/// for them.
#[derive(Drop)]
pub struct Units {
    /// How many flips a unit takes between two writes.
    budget: u8,
    /// The bits that the standing flips of each unit struck.
    bits: Vec<Bits>,
    ledger: FlipLedger,
    histories: Ghost<Histories>,
}

impl Model for Units {
    ghost use Rattle.replay_units.specs.Units.{Units};

    ghost Value = { Units };

    ghost use Rattle.replay_units.specs.Kept.{seen, IsKept};

    ghost view = { seen };

    ghost invariant = { IsKept };
}

impl Units {
    /// So many units to which nothing happened yet, for a script of so many flips, none of which has come.
    ///
    /// # Errors
    ///
    /// Memory ran out.
    pub fn new(alloc: Global, units: usize, budget: u8, flips: u32) -> Result<Units, AllocError>
        requires budget { budget < 3 }
        ensures { IfOk result (λ made. made ≡ record { budget = budget; histories = replicate units []; flips = flips }) }
    {
        Ok(Units {
            budget,
            bits: vec![in alloc; Bits::Empty; units]?,
            ledger: FlipLedger::new(alloc, units, flips)?,
            histories: Ghost::of(&Fresh { units }),
        })
    }

    /// A flip of the script, by its number, strikes a bit, below 39, of a unit. It is declined where as many flips stand in it as it
    /// takes.
    pub fn strike(&mut self, number: u32, unit: usize, bit: u8)
        requires unit { unit < length self.old.histories }
        requires bit { bit < word_bits }
        requires number { number < self.old.flips }
        requires once { IsToCome number self.old.histories }
        ensures { self.new ≡ befallen (struck_by number bit) unit self.old }
    {
        let bits = self.bits[unit];
        note_flip(&mut self.ledger, number, unit, bits.count(), self.budget);
        self.bits[unit] = bits.struck(bit, self.budget);
        self.histories.change(&Strike { number, unit, bit });
    }

    /// A unit is written.
    pub fn write(&mut self, unit: usize, how: How)
        requires unit { unit < length self.old.histories }
        ensures { self.new ≡ befallen (written_by (how_of how)) unit self.old }
    {
        self.ledger.written(unit, how.write());
        self.bits[unit] = Bits::Empty;
        self.histories.change(&Rewrite { unit, how });
    }

    /// A check found a unit struck, and dropped its line.
    pub fn find(&mut self, unit: usize)
        requires unit { unit < length self.old.histories }
        ensures { self.new ≡ befallen found unit self.old }
    {
        self.ledger.found(unit);
        self.histories.change(&Finding { unit });
    }

    /// An error trap names a unit.
    pub fn name(&mut self, unit: usize)
        requires unit { unit < length self.old.histories }
        ensures { self.new ≡ befallen named unit self.old }
    {
        self.ledger.named(unit);
        self.histories.change(&Naming { unit });
    }

    /// Flips stand in a unit.
    pub fn is_struck(&self, unit: usize) -> bool
        requires unit { unit < length self.now.histories }
        ensures { result ≡ nat_lt 0 (length (standing self.now.budget (history_at unit self.now.histories))) }
    {
        self.bits[unit].count() > 0
    }

    /// A word reads bad: two of its bits stand turned.
    pub fn is_bad(&self, unit: usize) -> bool
        requires word { self.now.budget ≡ word_budget }
        requires unit { unit < length self.now.histories }
        ensures { result ≡ is_bad_word (history_at unit self.now.histories) }
    {
        self.bits[unit].is_bad()
    }

    /// A word reads fixed: one of its bits stands turned.
    pub fn is_fixed(&self, unit: usize) -> bool
        requires word { self.now.budget ≡ word_budget }
        requires unit { unit < length self.now.histories }
        ensures { result ≡ is_fixed_word (history_at unit self.now.histories) }
    {
        self.bits[unit].is_fixed()
    }

    /// The syndrome of a word.
    pub fn syndrome(&self, unit: usize) -> u8
        requires word { self.now.budget ≡ word_budget }
        requires unit { unit < length self.now.histories }
        ensures { result ≡ syndrome (history_at unit self.now.histories) }
    {
        self.bits[unit].syndrome()
    }

    /// What became of a flip of the script so far, by its number: late where it struck no unit.
    pub fn fate(&self, number: u32) -> Fate
        requires number { number < self.now.flips }
        ensures struck { (unit : ℕ) → unit < length self.now.histories → has_struck number (history_at unit self.now.histories) ≡ true
            → result ≡ fate_of self.now.budget number (history_at unit self.now.histories) }
        ensures late { IsToCome number self.now.histories → result ≡ Late }
    {
        self.ledger.fate(number)
    }
}
