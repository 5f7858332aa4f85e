ghost use Rattle.std.specs.Prelude.{◌≡◌, ◌+◌, ◌^◌, ◌<◌, ◌∷◌, [], true, ℕ, nat_lt, List, length, map, replicate, IfOk};
ghost use Rattle.flip_ledger.specs.Follows.{has_struck};
ghost use Rattle.lf_model.specs.Caches.Slot.{history_at, befalls};
ghost use Rattle.lf_model.specs.Course.Arrays.{struck_by};
ghost use Rattle.lf_model.specs.Fates.{fate_of};
ghost use Rattle.lf_model.specs.Flips.{standing, word_budget, word_bits, syndrome};
ghost use Rattle.lf_model.specs.Flips.Moment.{Named};
ghost use Rattle.lf_model.specs.declared.trace.Fate.TheVariants.{Late};
ghost use Rattle.coded_words.specs.WordState.{flip_answer, IsInBudget};
ghost use Rattle.coded_words.specs.Words.{answer_at, written, IsToCome, ended, named_in};
ghost use Rattle.coded_words.specs.Ways.{how_of};

use crate::history::How;
use crate::note::note_flip;
use crate::past::{NamingSince, NoPast, Past, TurnEnd};
use crate::word::Word;
use edac_code::Read39;
use flip_ledger::FlipLedger;
use ft_cells::Flipped;
use ghost_value::Ghost;
use lf_model::trace::Fate;
use std::alloc::{AllocError, Global};
use std::marker::Model;

/// Words under the code, and what became of the flips of the script that are for them.
///
/// A read changes nothing: a turned bit is corrected in the answer alone.
#[derive(Drop)]
pub struct CodedWords {
    words: Vec<Word>,
    ledger: FlipLedger,
    past: Ghost<Past>,
}

impl Model for CodedWords {
    ghost use Rattle.coded_words.specs.Words.{Words};

    ghost Value = { Words };

    ghost use Rattle.coded_words.specs.Kept.{seen, IsKept};

    ghost view = { seen };

    ghost invariant = { IsKept };
}

/// Words that were just written with these values.
fn fresh_words(alloc: Global, values: &[u32]) -> Result<Vec<Word>, AllocError>
    ensures { IfOk result (λ words. words.items ≡ map (λ v. record { value = v; history = [] }) values.now) }
{
    let mut words = Vec::with_capacity(alloc, values.len())?;
    for v in values {
        words.push(Word::new(*v))?;
    }
    Ok(words)
}

impl CodedWords {
    /// Words that were just written with these values, for a script of so many flips, none of which has come.
    ///
    /// # Errors
    ///
    /// Memory ran out.
    pub fn new(alloc: Global, values: &[u32], flips: u32) -> Result<CodedWords, AllocError>
        ensures { IfOk result (λ words. words ≡ record { values = values.now; histories = replicate (length values.now) []; past = []; flips = flips }) }
    {
        Ok(CodedWords {
            words: fresh_words(alloc, values)?,
            ledger: FlipLedger::new(alloc, values.len(), flips)?,
            past: Ghost::of(&NoPast),
        })
    }

    /// What the word at a place reads as.
    #[inline]
    pub fn read(&self, place: usize) -> Read39
        requires { place < length self.now.histories }
        ensures answer { result ≡ answer_at self.now place }
        ensures budget { IsInBudget (history_at place self.now.histories) }
    {
        self.words[place].read()
    }

    /// The syndrome of the word at a place.
    pub fn syndrome(&self, place: usize) -> u8
        requires { place < length self.now.histories }
        ensures { result ≡ syndrome (history_at place self.now.histories) }
    {
        self.words[place].syndrome()
    }

    /// Writes the word at a place.
    #[inline]
    pub fn write(&mut self, place: usize, v: u32, how: How)
        requires { place < length self.old.histories }
        ensures { self.new ≡ written (how_of how) place v self.old }
    {
        if self.words[place].is_struck() {
            self.write_struck(place, v, how);
            return;
        }
        self.words[place].write(v, how);
    }

    /// Writes a word in which flips stand.
    #[cold]
    #[inline(never)]
    fn write_struck(&mut self, place: usize, v: u32, how: How)
        requires { place < length self.old.histories }
        ensures { self.new ≡ written (how_of how) place v self.old }
    {
        self.ledger.written(place, how.write());
        self.words[place].write(v, how);
    }

    /// A flip of the script, by its number, strikes a bit, below 39, of the word at a place. It is declined where two flips were
    /// applied to the word since it was written.
    pub fn flip(&mut self, number: u32, place: usize, bit: u8) -> Flipped
        requires place { place < length self.old.histories }
        requires bit { bit < word_bits }
        requires number { number < self.old.flips }
        requires once { IsToCome number self.old.histories }
        ensures answer { result ≡ flip_answer (history_at place self.old.histories) }
        ensures struck { self.new ≡ record self.old { histories = befalls (struck_by number bit) place self.old.histories } }
    {
        let answer = self.words[place].flip(number, bit);
        note_flip(&mut self.ledger, number, place, answer);
        answer
    }

    /// An error trap names the word at a place.
    pub fn name(&mut self, place: usize)
        requires { place < length self.old.histories }
        ensures { self.new ≡ record self.old { histories = befalls (λ h. Named ∷ h) place self.old.histories } }
    {
        self.ledger.named(place);
        self.words[place].name();
    }

    /// A turn ends.
    pub fn end_turn(&mut self)
        requires { length self.old.past + 1 < 2 ^ 32 }
        ensures { self.new ≡ ended self.old }
    {
        self.ledger.begin(self.ledger.turn() + 1);
        self.past.change(&TurnEnd { words: &self.words });
    }

    /// An error trap named the word at a place as a turn ended.
    pub fn name_in(&mut self, place: usize, turn: u32)
        requires place { place < length self.old.histories }
        requires turn { turn < length self.old.past }
        ensures { self.new ≡ named_in place turn self.old }
    {
        self.ledger.named_in(place, turn);
        self.words[place].name_then(&self.past, place, turn);
        self.past.change(&NamingSince { place, turn });
    }

    /// What became of a flip of the script so far, by its number: late where it struck no word.
    pub fn fate(&self, number: u32) -> Fate
        requires { number < self.now.flips }
        ensures struck { (place : ℕ) → place < length self.now.histories → has_struck number (history_at place self.now.histories) ≡ true
            → result ≡ fate_of word_budget number (history_at place self.now.histories) }
        ensures late { IsToCome number self.now.histories → result ≡ Late }
    {
        self.ledger.fate(number)
    }
}
