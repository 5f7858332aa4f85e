ghost use Rattle.std.specs.Prelude.{◌≡◌, ◌+◌, ◌*◌, ◌/◌, ◌%◌, ◌<◌, ◌≤◌, true, ℕ, length, replicate, IfOk};
ghost use Rattle.std.specs.List.{list_any, range_with_len};
ghost use Rattle.flip_ledger.specs.Follows.{has_struck};
ghost use Rattle.lf_model.specs.Caches.Change.{stored_in};
ghost use Rattle.lf_model.specs.Caches.Slot.{empty_slot, history_at, written, checked_byte, is_present, holds, has_wanted_words, has_struck_byte, has_struck_tag, dropped, dropped_by_tag, dropped_by_byte, filled_slot};
ghost use Rattle.lf_model.specs.Course.Arrays.{struck_by};
ghost use Rattle.lf_model.specs.Fates.{fate_of};
ghost use Rattle.lf_model.specs.Flips.{byte_budget, is_struck_byte, word_bits};
ghost use Rattle.lf_model.specs.declared.trace.Fate.TheVariants.{Late};
ghost use Rattle.replay_caches.specs.Part.{size_of, most_slots, histories_in, befallen_in, each_in, all_in, with_tag, byte_stored, used_in};
ghost use Rattle.replay_caches.specs.SlotsState.{slot_in, changed, IsToCome};
ghost use Rattle.replay_caches.specs.declared.part.Part.{Part};

use crate::part::{Part, SLOT_UNITS};
use crate::stored::{EMPTY_TAG, Stored, tag_of};
use lf_model::trace::Fate;
use replay_units::{How, Units};
use std::alloc::{AllocError, Global};
use std::marker::Model;

/// How many flips a byte takes between two writes.
const BUDGET: u8 = 1;

/// The first byte of its line that an access wants.
fn wanted_first(addr: u32) -> usize
    ensures { result ≡ 4 * (addr / 4 % 8) }
{
    4 * (addr / 4 % 8) as usize
}

/// How many bytes of whole words it wants.
fn wanted_count(len: u8) -> usize
    ensures { result ≡ 4 * ((len + 3) / 4) }
{
    4 * ((usize::from(len) + 3) / 4)
}

/// The slots of a cache. Slots are numbered from 0.
#[derive(Drop)]
pub(crate) struct Slots {
    stored: Vec<Stored>,
    /// The four tag bytes and then the 32 bytes of the line of each slot.
    units: Units,
}

impl Model for Slots {
    ghost use Rattle.replay_caches.specs.SlotsState.{SlotsState};

    ghost Value = { SlotsState };

    ghost use Rattle.replay_caches.specs.SlotsInside.{seen, AreSlots};

    ghost view = { seen };

    ghost invariant = { AreSlots };
}

impl Slots {
    /// So many slots at reset, for a script of so many flips, none of which has come.
    ///
    /// # Errors
    ///
    /// Memory ran out.
    pub(crate) fn new(alloc: Global, count: usize, flips: u32) -> Result<Slots, AllocError>
        requires { count ≤ most_slots }
        ensures { IfOk result (λ slots. slots ≡ record { slots = replicate count empty_slot; flips = flips }) }
    {
        let empty = Stored {
            tag: EMPTY_TAG,
            used: 0,
        };
        Ok(Slots {
            stored: vec![in alloc; empty; count]?,
            units: Units::new(alloc, SLOT_UNITS * count, BUDGET, flips)?,
        })
    }

    // ---- one byte

    /// A byte is struck. None from the size of its part on is.
    fn is_struck(&self, i: usize, part: Part, byte: usize) -> bool
        requires { i < length self.now.slots }
        ensures { result ≡ is_struck_byte (history_at byte (histories_in part (slot_in i self.now))) }
    {
        let _ = &self.units;
        if byte >= part.size() {
            return false;
        }
        self.units.is_struck(part.unit(i, byte))
    }

    /// A flip of the script, by its number, strikes a bit of a byte. It is declined where one stands in it.
    pub(crate) fn strike(&mut self, number: u32, i: usize, part: Part, byte: usize, bit: u8)
        requires slot { i < length self.old.slots }
        requires byte { byte < size_of part }
        requires bit { bit < word_bits }
        requires number { number < self.old.flips }
        requires once { IsToCome number self.old.slots }
        ensures { self.new ≡ changed (befallen_in part (struck_by number bit) byte) i self.old }
    {
        self.units.strike(number, part.unit(i, byte), bit);
    }

    /// A byte is written.
    fn write(&mut self, i: usize, part: Part, byte: usize)
        requires { i < length self.old.slots }
        ensures { self.new ≡ changed (befallen_in part written byte) i self.old }
    {
        if byte < part.size() {
            self.units.write(part.unit(i, byte), How::Whole);
        }
    }

    /// A byte is checked: one that is struck is found so.
    fn check(&mut self, i: usize, part: Part, byte: usize)
        requires { i < length self.old.slots }
        ensures { self.new ≡ changed (befallen_in part checked_byte byte) i self.old }
    {
        if self.is_struck(i, part, byte) {
            self.units.find(part.unit(i, byte));
        }
    }

    // ---- bytes that follow each other

    /// One of so many bytes is struck.
    fn has_struck(&self, i: usize, part: Part, first: usize, count: usize) -> bool
        requires slot { i < length self.now.slots }
        requires few { first + count ≤ 512 }
        ensures { result ≡ list_any (λ byte. is_struck_byte (history_at byte (histories_in part (slot_in i self.now)))) (range_with_len first count) }
    {
        for k in 0..count {
            if self.is_struck(i, part, first + k) {
                return true;
            }
        }
        false
    }

    /// So many bytes are checked.
    fn check_bytes(&mut self, i: usize, part: Part, first: usize, count: usize)
        requires slot { i < length self.old.slots }
        requires few { first + count ≤ 512 }
        ensures { self.new ≡ changed (each_in part checked_byte (range_with_len first count)) i self.old }
    {
        for k in 0..count {
            self.check(i, part, first + k);
        }
    }

    /// All bytes of a part are checked.
    fn check_all(&mut self, i: usize, part: Part)
        requires { i < length self.old.slots }
        ensures { self.new ≡ changed (all_in part checked_byte) i self.old }
    {
        let _ = &self.units;
        self.check_bytes(i, part, 0, part.size());
    }

    /// So many bytes are written.
    fn write_bytes(&mut self, i: usize, part: Part, first: usize, count: usize)
        requires slot { i < length self.old.slots }
        requires few { first + count ≤ 512 }
        ensures { self.new ≡ changed (each_in part written (range_with_len first count)) i self.old }
    {
        for k in 0..count {
            self.write(i, part, first + k);
        }
    }

    /// All bytes of a part are written.
    fn write_all(&mut self, i: usize, part: Part)
        requires { i < length self.old.slots }
        ensures { self.new ≡ changed (all_in part written) i self.old }
    {
        let _ = &self.units;
        self.write_bytes(i, part, 0, part.size());
    }

    // ---- what a slot holds

    /// When it was last used.
    pub(crate) fn used(&self, i: usize) -> u64
        requires { i < length self.now.slots }
        ensures { result ≡ (slot_in i self.now).used }
    {
        self.stored[i].used
    }

    /// A line is present.
    pub(crate) fn is_present(&self, i: usize) -> bool
        requires { i < length self.now.slots }
        ensures { result ≡ is_present (slot_in i self.now) }
    {
        self.stored[i].is_present()
    }

    /// The line of this address is present.
    pub(crate) fn holds(&self, i: usize, addr: u32) -> bool
        requires { i < length self.now.slots }
        ensures { result ≡ holds addr (slot_in i self.now) }
    {
        self.stored[i].holds(addr)
    }

    /// The words that an access of so many bytes wants are valid.
    pub(crate) fn has_wanted_words(&self, i: usize, addr: u32, len: u8) -> bool
        requires { i < length self.now.slots }
        ensures { result ≡ has_wanted_words addr len (slot_in i self.now) }
    {
        self.stored[i].has_wanted_words(addr, len)
    }

    /// A byte of the words that an access wants is struck.
    pub(crate) fn has_struck_byte(&self, i: usize, addr: u32, len: u8) -> bool
        requires { i < length self.now.slots }
        ensures { result ≡ has_struck_byte addr len (slot_in i self.now) }
    {
        self.has_struck(i, Part::Line, wanted_first(addr), wanted_count(len))
    }

    /// A tag byte is struck.
    pub(crate) fn has_struck_tag(&self, i: usize) -> bool
        requires { i < length self.now.slots }
        ensures { result ≡ has_struck_tag (slot_in i self.now) }
    {
        let _ = &self.units;
        self.has_struck(i, Part::Tag, 0, 4)
    }

    // ---- what happens to a slot

    /// It is used.
    pub(crate) fn set_used(&mut self, i: usize, at: u64)
        requires { i < length self.old.slots }
        ensures { self.new ≡ changed (used_in at) i self.old }
    {
        self.stored[i].used = at;
    }

    /// Its tag becomes another.
    fn set_tag(&mut self, i: usize, tag: [u8; 4])
        requires { i < length self.old.slots }
        ensures { self.new ≡ changed (with_tag tag) i self.old }
    {
        self.stored[i].tag = tag;
    }

    /// Its line is dropped.
    pub(crate) fn drop_line(&mut self, i: usize)
        requires { i < length self.old.slots }
        ensures { self.new ≡ changed dropped i self.old }
    {
        self.set_tag(i, EMPTY_TAG);
        self.write_all(i, Part::Tag);
    }

    /// A tag check found a tag byte struck, and drops the line.
    pub(crate) fn drop_by_tag(&mut self, i: usize)
        requires { i < length self.old.slots }
        ensures { self.new ≡ changed dropped_by_tag i self.old }
    {
        self.check_all(i, Part::Tag);
        self.drop_line(i);
    }

    /// A look-up found a byte of the wanted words struck, and drops the line.
    pub(crate) fn drop_by_byte(&mut self, i: usize, addr: u32, len: u8)
        requires { i < length self.old.slots }
        ensures { self.new ≡ changed (dropped_by_byte addr len) i self.old }
    {
        self.check_bytes(i, Part::Line, wanted_first(addr), wanted_count(len));
        self.drop_line(i);
    }

    /// The line of an address is filled in, with these valid bits.
    pub(crate) fn fill(&mut self, i: usize, addr: u32, valid: u8)
        requires { i < length self.old.slots }
        ensures { self.new ≡ changed (filled_slot addr valid) i self.old }
    {
        self.set_tag(i, tag_of(addr, valid));
        self.write_all(i, Part::Tag);
        self.write_all(i, Part::Line);
    }

    /// An own store writes a byte of the line, where its word is valid.
    fn store_byte(&mut self, i: usize, byte: usize)
        requires { i < length self.old.slots }
        ensures { self.new ≡ changed (byte_stored byte) i self.old }
    {
        if self.stored[i].is_valid_word(byte / 4) {
            self.write(i, Part::Line, byte);
        }
    }

    /// An own store writes its bytes of the line: those of valid words.
    pub(crate) fn store(&mut self, i: usize, addr: u32, len: u8)
        requires { i < length self.old.slots }
        ensures { self.new ≡ changed (stored_in addr len) i self.old }
    {
        let first = (addr % 32) as usize;
        for k in 0..usize::from(len) {
            self.store_byte(i, first + k);
        }
    }

    /// What became of a flip of the script so far, by its number: late where it struck no byte.
    pub(crate) fn fate(&self, number: u32) -> Fate
        requires { number < self.now.flips }
        ensures struck { (i byte : ℕ) (part : Part) → has_struck number (history_at byte (histories_in part (slot_in i self.now))) ≡ true
            → result ≡ fate_of byte_budget number (history_at byte (histories_in part (slot_in i self.now))) }
        ensures late { IsToCome number self.now.slots → result ≡ Late }
    {
        self.units.fate(number)
    }
}
