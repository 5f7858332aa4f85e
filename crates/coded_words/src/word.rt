ghost use Rattle.std.specs.Prelude.{◌≡◌, ◌<◌, ◌∷◌, [], length, nat_lt};
ghost use Rattle.lf_model.specs.Course.Arrays.{struck_by};
ghost use Rattle.lf_model.specs.Flips.{standing, word_budget, word_bits, syndrome};
ghost use Rattle.lf_model.specs.Flips.Moment.{Written, Named};
ghost use Rattle.lf_model.specs.Caches.Slot.{history_at};
ghost use Rattle.coded_words.specs.Past.{past_at, named_behind, GoesOn};
ghost use Rattle.coded_words.specs.Ways.{how_of};
ghost use Rattle.coded_words.specs.WordState.{answer_of, flip_answer, IsInBudget};

use crate::history::{Empty, History, How, Naming, Rewrite, Strike};
use crate::past::{NamingThen, Past};
use edac_code::Read39;
use ft_cells::{Cell, Flipped, Word39};
use ghost_value::Ghost;
use std::marker::Model;

/// A word under the code, with its history.
#[derive(Drop)]
pub(crate) struct Word {
    cell: Cell<Word39>,
    history: Ghost<History>,
}

impl Model for Word {
    ghost use Rattle.coded_words.specs.WordState.{WordState};

    ghost Value = { WordState };

    ghost use Rattle.ft_cells.specs.Histories.{IsCellOf};

    ghost view = { λ word. record { value = word.cell.value; history = word.history } };

    ghost invariant = { λ word. IsCellOf word.history word.cell };
}

impl Word {
    /// A word that was just written.
    pub(crate) fn new(v: u32) -> Word
        ensures { result ≡ record { value = v; history = [] } }
    {
        Word {
            cell: Cell::new(v),
            history: Ghost::of(&Empty),
        }
    }

    /// What it reads as. No code is computed where no flip stands in it.
    #[inline]
    pub(crate) fn read(&self) -> Read39
        ensures answer { result ≡ answer_of self.now }
        ensures budget { IsInBudget self.now.history }
    {
        self.cell.read()
    }

    /// Its syndrome.
    pub(crate) fn syndrome(&self) -> u8
        ensures { result ≡ syndrome self.now.history }
    {
        self.cell.bits().syndrome()
    }

    /// Whether flips stand in it.
    #[inline]
    pub(crate) fn is_struck(&self) -> bool
        ensures { result ≡ nat_lt 0 (length (standing word_budget self.now.history)) }
    {
        self.cell.is_struck()
    }

    /// Writes it.
    #[inline]
    pub(crate) fn write(&mut self, v: u32, how: How)
        ensures { self.new ≡ record { value = v; history = Written (how_of how) ∷ self.old.history } }
    {
        self.cell.write(v);
        self.history.change(&Rewrite { how });
    }

    /// A flip strikes a bit, below 39.
    pub(crate) fn flip(&mut self, number: u32, bit: u8) -> Flipped
        requires { bit < word_bits }
        ensures answer { result ≡ flip_answer self.old.history }
        ensures struck { self.new ≡ record self.old { history = struck_by number bit self.old.history } }
    {
        let answer = self.cell.flip(bit);
        self.history.change(&Strike { number, bit });
        answer
    }

    /// An error trap names it.
    pub(crate) fn name(&mut self)
        ensures { self.new ≡ record self.old { history = Named ∷ self.old.history } }
    {
        self.history.change(&Naming);
    }

    /// An error trap named it as an earlier turn ended.
    pub(crate) fn name_then(&mut self, past: &Ghost<Past>, place: usize, turn: u32)
        requires { GoesOn (history_at place (past_at turn past.now)) self.old.history }
        ensures { self.new ≡ record self.old { history = named_behind (history_at place (past_at turn past.now)) self.old.history } }
    {
        self.history.change(&NamingThen { past, place, turn });
    }
}
