ghost use Rattle.std.specs.Prelude.{◌≡◌, ◌+◌, ◌*◌, ◌^◌, ◌<◌, length, map, IfOk, IfSome, slice_get};
ghost use Rattle.std.specs.List.{AllByRecursion};
ghost use Rattle.lf_model.specs.Bus.Words.{words_struck, words_begun, word_history, words_of_line, answered, words_after};
ghost use Rattle.lf_model.specs.Flips.{is_bad_word, syndrome};
ghost use Rattle.replay_words.specs.Places.{IsAimed};
ghost use Rattle.replay_words.specs.WordsState.{HasFate};

use crate::places::Places;
use crate::read::{Read, read_of, with_line, with_none, with_word};
use crate::strike::strike_due;
use crate::write::{name_at, write_touched};
use flip_ledger::{FlipPlan, Owner};
use lf_model::bus::Transfer;
use lf_model::flip::Flips;
use lf_model::setup::Setup;
use lf_model::trace::Fate;
use replay_units::Units;
use std::alloc::{AllocError, Global};
use std::marker::Model;
use std::snapshot::Snapshot;

/// How many flips a word takes between two writes.
const BUDGET: u8 = 2;

/// The words that a script strikes, over the turns of the bus.
#[derive(Drop)]
pub struct Words {
    places: Places,
    units: Units,
    /// The flips that are still to come.
    plan: FlipPlan,
    /// How many turns began.
    turns: u32,
    /// The script, for contracts alone.
    script: Snapshot<Flips>,
}

impl Model for Words {
    ghost use Rattle.replay_words.specs.WordsState.{WordsState};

    ghost Value = { WordsState };

    ghost use Rattle.replay_words.specs.Inside.{seen, IsWords};

    ghost view = { seen };

    ghost invariant = { IsWords };
}

impl Words {
    /// The words of a setup, before the first turn.
    ///
    /// # Errors
    ///
    /// Memory ran out.
    pub fn new(alloc: Global, setup: &Setup) -> Result<Words, AllocError>
        requires few { length setup.now.flips < 2 ^ 32 }
        requires aimed { AllByRecursion (IsAimed setup.now.config.ram) setup.now.flips }
        ensures { IfOk result (λ words. words ≡ record { script = setup.now.flips; words = words_struck setup.now.flips; turns = 0 }) }
    {
        let flips = setup.flips.as_slice();
        let places = Places::new(alloc, setup.config.ram, flips)?;
        Ok(Words {
            units: Units::new(alloc, places.len(), BUDGET, flips.len() as u32)?,
            plan: FlipPlan::new(alloc, flips, Owner::Memory)?,
            places,
            turns: 0,
            script: Snapshot::of(&setup.flips),
        })
    }

    /// A turn begins: the flips of its number strike, in the order of the script.
    pub fn begin(&mut self)
        requires { self.old.turns + 1 < 2 ^ 32 }
        ensures { self.new ≡ record self.old { words = words_begun self.old.script self.old.turns self.old.words; turns = self.old.turns + 1 } }
    {
        strike_due(
            &mut self.units,
            &self.places,
            &mut self.plan,
            &self.script,
            self.turns,
        );
        self.turns += 1;
    }

    /// The syndrome of the word at an address: 0 where it reads clean.
    pub fn syndrome(&self, addr: u64) -> u8
        ensures { result ≡ syndrome (word_history self.now.words addr) }
    {
        match self.places.find(addr) {
            Some(place) => self.units.syndrome(place),
            None => 0,
        }
    }

    /// The word at an address reads bad: two of its bits stand flipped.
    pub fn is_bad(&self, addr: u64) -> bool
        ensures { result ≡ is_bad_word (word_history self.now.words addr) }
    {
        match self.places.find(addr) {
            Some(place) => self.units.is_bad(place),
            None => false,
        }
    }

    /// The syndrome of a word of a line, by its number.
    fn syndrome_in(&self, line: u32, word: u8) -> u8
        requires { word < 8 }
        ensures { result ≡ syndrome (word_history self.now.words (line + 4 * word)) }
    {
        self.syndrome(u64::from(line) + 4 * u64::from(word))
    }

    /// The syndromes of the words of a line.
    fn line_syndromes(&self, line: u32) -> [u8; 8]
        ensures { result ≡ map (λ addr. syndrome (word_history self.now.words addr)) (words_of_line line) }
    {
        [
            self.syndrome_in(line, 0),
            self.syndrome_in(line, 1),
            self.syndrome_in(line, 2),
            self.syndrome_in(line, 3),
            self.syndrome_in(line, 4),
            self.syndrome_in(line, 5),
            self.syndrome_in(line, 6),
            self.syndrome_in(line, 7),
        ]
    }

    /// The transfer with what memory answers: how many words it read, and their syndromes.
    pub fn answer(&self, asked: Transfer) -> Transfer
        ensures { result ≡ answered self.now.words asked }
    {
        match read_of(&asked) {
            Read::Nothing => with_none(asked),
            Read::Word(addr) => with_word(asked, self.syndrome(u64::from(addr))),
            Read::Line(line) => with_line(asked, self.line_syndromes(line)),
        }
    }

    /// A turn ends: its transfer writes the words that it touches, and an error trap names a word or none.
    pub fn end(&mut self, made: &Transfer, named: Option<u32>)
        ensures { self.new ≡ record self.old { words = words_after made.now named self.old.words } }
    {
        write_touched(&mut self.units, &self.places, made);
        if let Some(addr) = named {
            name_at(&mut self.units, &self.places, addr);
        }
    }

    /// What became of a flip of the script, by its number: late where it is for none of these words.
    pub fn fate(&self, number: u32) -> Fate
        requires { number < length self.now.script }
        ensures { HasFate self.now number result }
    {
        self.units.fate(number)
    }
}
