ghost use Rattle.std.specs.Prelude.{◌≡◌, ◌+◌, ◌%◌, ◌^◌, ◌<◌, ◌≤◌, ◌||◌, ◌==◌, ℕ, true, length, IsTrue, IsOk, IfOk};
ghost use Rattle.coded_words.specs.WordState.{flip_answer};
ghost use Rattle.coded_words.specs.Words.{IsToCome, ended, named_in, written};
ghost use Rattle.flip_ledger.specs.Follows.{has_struck};
ghost use Rattle.lf_model.specs.Bus.Words.{word_of};
ghost use Rattle.lf_model.specs.Caches.Slot.{befalls};
ghost use Rattle.lf_model.specs.Course.Arrays.{struck_by};
ghost use Rattle.lf_model.specs.Fates.{fate_of};
ghost use Rattle.lf_model.specs.Flips.{word_budget, word_bits};
ghost use Rattle.lf_model.specs.Flips.How.{Whole};
ghost use Rattle.lf_model.specs.Start.{is_in_ram};
ghost use Rattle.lf_model.specs.declared.trace.Fate.TheVariants.{Late};
ghost use Rattle.ram_words.specs.Parts.{is_part, merged, HasMergedBytes};
ghost use Rattle.ram_words.specs.Ram.{place_of, IsInRam};
ghost use Rattle.ft_memory.specs.Memory.{at_start, ram_of, value_at, history_of, is_bad_at, syndrome_at, answer_of_read, word_shown, line_of, value_shown, part_stored, answer_of_part, exchanged, fixed, answer_of_fix};

use coded_words::{CodedWords, How};
use edac_code::Read39;
use ft_cells::Flipped;
use lf_model::bus::{Bad, Line};
use lf_model::image::Image;
use lf_model::trace::Fate;
use ram_words::{Fixed, Got, initial_words, merged, place_of, word_of};
use std::alloc::{AllocError, Global};
use std::marker::Model;

/// The word that an atomic writes: with `len` 4 the number, with `len` 1 the word that was read with one byte replaced.
fn exchanged_word(word: u32, addr: u32, len: u8, v: u32) -> u32
    requires length { IsTrue (len == 1 || len == 4) }
    requires aligned { addr % len ≡ 0 }
    ensures { result ≡ merged word addr len v }
{
    if len == 4 {
        v
    } else {
        merged(word, addr, len, v)
    }
}

/// Coded RAM, from 40000000 hex on, and what became of the flips of the script that are for it.
///
/// A word reads as it was last written until two bits of it are flipped; then it is bad, until a store of words writes it.
#[derive(Drop)]
pub struct Memory {
    words: CodedWords,
}

impl Model for Memory {
    ghost use Rattle.coded_words.specs.Words.{Words};

    ghost Value = { Words };

    ghost view = { λ memory. memory.words };

    ghost use Rattle.ft_memory.specs.Inside.{IsWhole};

    ghost invariant = { IsWhole };
}

/// A word as a line of eight words shows it.
#[derive(Clone, Copy)]
struct Shown {
    /// The word last written, 0 for a bad one.
    word: u32,
    /// The syndrome.
    syn: u8,
    /// The word is bad.
    bad: bool,
}

impl Memory {
    /// RAM of `ram` bytes, a multiple of 4, with the bytes of an image, whose segments lie in it, and 0 elsewhere, for a script of
    /// so many flips, none of which has come.
    ///
    /// # Errors
    ///
    /// Memory ran out.
    pub fn new(alloc: Global, ram: u32, image: &Image, flips: u32) -> Result<Memory, AllocError>
        requires { IsInRam ram image.now }
        ensures { IfOk result (λ memory. memory ≡ at_start ram image.now flips) }
    {
        let values = initial_words(alloc, ram, image)?;
        Ok(Memory {
            words: CodedWords::new(alloc, &values, flips)?,
        })
    }

    /// The word at an address of RAM, a multiple of 4, and its syndrome.
    ///
    /// # Errors
    ///
    /// The word is bad: two different bits of it are flipped.
    #[inline]
    pub fn read_word(&self, addr: u32) -> Result<Got, Bad>
        requires in_ram { IsTrue (is_in_ram (ram_of self.now) addr 4) }
        requires aligned { addr % 4 ≡ 0 }
        ensures { result ≡ answer_of_read self.now addr }
    {
        let place = place_of(addr);
        match self.words.read(place) {
            Read39::Clean(value) => Ok(Got { value, syn: 0 }),
            Read39::Fixed(value, _) => Ok(Got {
                value,
                syn: self.words.syndrome(place),
            }),
            Read39::Bad(syn) => Err(Bad { addr, syn }),
        }
    }

    /// The word at an address of RAM, a multiple of 4, as a line shows it.
    #[inline]
    fn show(&self, addr: u32) -> Shown
        requires in_ram { IsTrue (is_in_ram (ram_of self.now) addr 4) }
        requires aligned { addr % 4 ≡ 0 }
        ensures word { result.word ≡ word_shown self.now addr }
        ensures syndrome { result.syn ≡ syndrome_at self.now addr }
        ensures bad { result.bad ≡ is_bad_at self.now addr }
    {
        match self.read_word(addr) {
            Ok(got) => Shown {
                word: got.value,
                syn: got.syn,
                bad: false,
            },
            Err(word) => Shown {
                word: 0,
                syn: word.syn,
                bad: true,
            },
        }
    }

    /// The line of eight words at an address of RAM, a multiple of 32: of each the word, 0 for a bad one, the syndrome, and
    /// whether it is bad.
    pub fn read_line(&self, line: u32) -> Line
        requires in_ram { IsTrue (is_in_ram (ram_of self.now) line 32) }
        requires aligned { line % 32 ≡ 0 }
        ensures { result ≡ line_of self.now line }
    {
        let mut words = [0; 8];
        let mut syn = [0; 8];
        let mut bad = [false; 8];
        for j in 0..8u32 {
            let shown = self.show(line + 4 * j);
            words[j as usize] = shown.word;
            syn[j as usize] = shown.syn;
            bad[j as usize] = shown.bad;
        }
        Line { words, syn, bad }
    }

    /// The value of the word at an address of RAM, a multiple of 4; `None` exactly where it is bad.
    pub fn peek(&self, addr: u32) -> Option<u32>
        requires in_ram { IsTrue (is_in_ram (ram_of self.now) addr 4) }
        requires aligned { addr % 4 ≡ 0 }
        ensures { result ≡ value_shown self.now addr }
    {
        match self.read_word(addr) {
            Ok(got) => Some(got.value),
            Err(_) => None,
        }
    }

    /// Writes the word at an address of RAM, a multiple of 4. The word is not read.
    #[inline]
    pub fn write_word(&mut self, addr: u32, v: u32)
        requires in_ram { IsTrue (is_in_ram (ram_of self.old) addr 4) }
        requires aligned { addr % 4 ≡ 0 }
        ensures { self.new ≡ written Whole (place_of addr) v self.old }
    {
        self.words.write(place_of(addr), v, How::Whole);
    }

    /// Writes a byte or half (`len` 1 or 2) at an address of RAM, a multiple of `len`: the low bytes of `v`. The word that it
    /// lies in is read, corrected, merged with it and written. Gives the syndrome that was read.
    ///
    /// # Errors
    ///
    /// The word is bad: two different bits of it are flipped. The error has the word's address, and nothing changes.
    pub fn write_part(&mut self, addr: u32, len: u8, v: u32) -> Result<u8, Bad>
        requires part { IsTrue (is_part len) }
        requires in_ram { IsTrue (is_in_ram (ram_of self.old) addr len) }
        requires aligned { addr % len ≡ 0 }
        ensures answer { result ≡ answer_of_part self.old addr }
        ensures stored { self.new ≡ part_stored addr len v self.old }
        ensures bytes { IsOk result → HasMergedBytes (value_at self.old (word_of addr)) addr len v (value_at self.new (word_of addr)) }
    {
        let word = word_of(addr);
        let got = self.read_word(word)?;
        let value = merged(got.value, addr, len, v);
        self.words.write(place_of(word), value, How::ByPartStore);
        Ok(got.syn)
    }

    /// An atomic: reads the word that an address of RAM, a multiple of `len`, lies in, and writes all of it (`len` 4, SWAP) or the
    /// byte at the address (`len` 1, LDSTUB) with the low bytes of `v`. Gives the word that was read, and its syndrome.
    ///
    /// # Errors
    ///
    /// The word is bad: two different bits of it are flipped. The error has the word's address, and nothing changes.
    pub fn exchange(&mut self, addr: u32, len: u8, v: u32) -> Result<Got, Bad>
        requires length { IsTrue (len == 1 || len == 4) }
        requires in_ram { IsTrue (is_in_ram (ram_of self.old) addr len) }
        requires aligned { addr % len ≡ 0 }
        ensures answer { result ≡ answer_of_read self.old (word_of addr) }
        ensures stored { self.new ≡ exchanged addr len v self.old }
    {
        let word = word_of(addr);
        let got = self.read_word(word)?;
        let value = exchanged_word(got.value, addr, len, v);
        self.words.write(place_of(word), value, How::ByAtomic);
        Ok(got)
    }

    /// Reads the word at an address of RAM, a multiple of 4, once, and writes it back where it can be corrected. A clean word and
    /// a bad one stay as they are. No word's value changes.
    pub fn fix(&mut self, addr: u32) -> Fixed
        requires in_ram { IsTrue (is_in_ram (ram_of self.old) addr 4) }
        requires aligned { addr % 4 ≡ 0 }
        ensures answer { result ≡ answer_of_fix self.old addr }
        ensures written_back { self.new ≡ fixed addr self.old }
        ensures values { self.new.values ≡ self.old.values }
    {
        let place = place_of(addr);
        match self.words.read(place) {
            Read39::Clean(_) => Fixed::Clean,
            Read39::Fixed(value, bit) => {
                let syn = self.words.syndrome(place);
                self.words.write(place, value, How::ByFix);
                Fixed::Corrected { bit, syn }
            }
            Read39::Bad(syn) => Fixed::Bad { syn },
        }
    }

    /// A flip of the script, by its number, strikes a bit, below 39, of the word at an address of RAM, a multiple of 4: bits 0 to
    /// 31 are the word, 32 to 38 check bits. It is declined where two flips were applied to the word since it was written.
    pub fn flip(&mut self, number: u32, addr: u32, bit: u8) -> Flipped
        requires in_ram { IsTrue (is_in_ram (ram_of self.old) addr 4) }
        requires aligned { addr % 4 ≡ 0 }
        requires bit { bit < word_bits }
        requires number { number < self.old.flips }
        requires once { IsToCome number self.old.histories }
        ensures answer { result ≡ flip_answer (history_of self.old addr) }
        ensures struck { self.new ≡ record self.old { histories = befalls (struck_by number bit) (place_of addr) self.old.histories } }
    {
        self.words.flip(number, place_of(addr), bit)
    }

    /// A turn of the bus ends.
    pub fn end_turn(&mut self)
        requires { length self.old.past + 1 < 2 ^ 32 }
        ensures { self.new ≡ ended self.old }
    {
        self.words.end_turn();
    }

    /// An error trap named the word at an address of RAM, a multiple of 4, as a turn ended.
    pub fn name_in(&mut self, addr: u32, turn: u32)
        requires in_ram { IsTrue (is_in_ram (ram_of self.old) addr 4) }
        requires aligned { addr % 4 ≡ 0 }
        requires turn { turn < length self.old.past }
        ensures { self.new ≡ named_in (place_of addr) turn self.old }
    {
        self.words.name_in(place_of(addr), turn);
    }

    /// What became of a flip of the script so far, by its number: late where it struck no word.
    pub fn fate(&self, number: u32) -> Fate
        requires { number < self.now.flips }
        ensures struck { (addr : ℕ) → IsTrue (is_in_ram (ram_of self.now) addr 4) → addr % 4 ≡ 0 → has_struck number (history_of self.now addr) ≡ true
            → result ≡ fate_of word_budget number (history_of self.now addr) }
        ensures late { IsToCome number self.now.histories → result ≡ Late }
    {
        self.words.fate(number)
    }
}
