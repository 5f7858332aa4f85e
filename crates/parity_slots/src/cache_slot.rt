ghost use Rattle.std.specs.Prelude.{◌≡◌, ◌+◌, ◌*◌, ◌/◌, ◌%◌, ◌^◌, ◌<◌, ◌≤◌, ◌==◌, false, ℕ, List, length, slice_index};
ghost use Rattle.std.specs.List.{range_with_len};
ghost use Rattle.flip_ledger.specs.Follows.{Gains, Follows, Keeps};
ghost use Rattle.lf_model.specs.Flips.Moment.{Struck};
ghost use Rattle.lf_model.specs.Caches.Change.{stored_in};
ghost use Rattle.lf_model.specs.Caches.Slot.{is_present, holds, is_valid_word, has_wanted_words, has_struck_byte, has_struck_tag, dropped, dropped_by_tag, dropped_by_byte, filled_slot, checked_byte, befalls_each};
ghost use Rattle.lf_model.specs.Flips.{Moment, byte_budget};
ghost use Rattle.parity_units.specs.Bytes.{byte_bits, answer_of};
ghost use Rattle.parity_slots.specs.SlotState.{empty_state, IsAccess, value_at, with_slot, tags_checked, bytes_checked, has_struck_in, flip_answer, filled_state, byte_stored, stored_state, tag_struck, line_struck, used_at};
ghost use Rattle.parity_slots.specs.Units.{slot_units, with_units, unit_of};

use crate::access::{byte_of, fresh_line, tag_of, wanted_count, wanted_first};
use crate::change::{
    ByteStored, BytesChecked, Dropped, Empty, Filled, LineStruck, State, TagStruck, TagsChecked,
    Used,
};
use crate::parity_word::{ParityWord, note_byte, note_word, note_words};
use flip_ledger::FlipLedger;
use ft_cells::Flipped;
use ghost_value::Ghost;
use parity_units::{Event, ParityByte};
use std::marker::Model;

/// One way of one set: a tag and a line.
///
/// Tag bytes 0 to 2 are bits 31 to 8 of the address, the most significant first. Bit `j` of tag byte 3 says whether word `j` of
/// the line is valid; a line is present where this byte is not 0.
#[derive(Drop)]
pub struct Slot {
    tag: ParityWord,
    line: [ParityWord; 8],
    used: u32,
    state: Ghost<State>,
}

impl Model for Slot {
    ghost use Rattle.parity_slots.specs.SlotState.{SlotState};

    ghost Value = { SlotState };

    ghost use Rattle.parity_slots.specs.Inside.{IsSlotOf};

    ghost view = { λ slot. slot.state };

    ghost invariant = { λ slot. IsSlotOf slot.state slot.tag slot.line slot.used };
}

impl Slot {
    /// A slot at reset: every byte of it is 0.
    pub(crate) fn new() -> Slot
        ensures { result ≡ empty_state }
    {
        Slot {
            tag: ParityWord::fresh(0),
            line: [ParityWord::fresh(0); 8],
            used: 0,
            state: Ghost::of(&Empty),
        }
    }

    // ---- what it holds

    /// When it was last used.
    #[inline]
    pub fn used(&self) -> u32
        ensures { result ≡ self.now.slot.used }
    {
        self.used
    }

    /// Whether a line is present.
    #[inline(always)]
    pub fn is_present(&self) -> bool
        requires { has_struck_tag self.now.slot ≡ false }
        ensures { result ≡ is_present self.now.slot }
    {
        self.tag.value() % 256 != 0
    }

    /// Whether the line of this address is present.
    #[inline(always)]
    pub fn holds(&self, addr: u32) -> bool
        requires { has_struck_tag self.now.slot ≡ false }
        ensures { result ≡ holds addr self.now.slot }
    {
        self.is_present() && self.tag.value() / 256 == addr / 256
    }

    /// Whether the parity of a tag byte is wrong.
    #[inline(always)]
    pub fn has_struck_tag(&self) -> bool
        ensures { result ≡ has_struck_tag self.now.slot }
    {
        self.tag.is_bad()
    }

    /// Whether word `place` of the line is valid.
    #[inline(always)]
    fn is_valid_word(&self, place: usize) -> bool
        requires place { place < 8 }
        requires unstruck { has_struck_tag self.now.slot ≡ false }
        ensures { result ≡ is_valid_word self.now.slot place }
    {
        (self.tag.value() >> place) % 2 == 1
    }

    /// Whether the words that an access wants are valid.
    #[inline(always)]
    pub fn has_wanted_words(&self, addr: u32, len: u8) -> bool
        requires access { IsAccess addr len }
        requires unstruck { has_struck_tag self.now.slot ≡ false }
        ensures { result ≡ has_wanted_words addr len self.now.slot }
    {
        let first = wanted_first(addr);
        self.is_valid_word(first) && (len < 8 || self.is_valid_word(first + 1))
    }

    /// Whether the parity of a byte of a word of the line is wrong.
    #[inline(always)]
    fn is_bad_word(&self, place: usize) -> bool
        requires { place < 8 }
        ensures { result ≡ has_struck_in (4 * place) 4 self.now.slot }
    {
        self.line[place].is_bad()
    }

    /// Whether the parity of a byte of the words that an access wants is wrong.
    #[inline(always)]
    pub fn has_struck_byte(&self, addr: u32, len: u8) -> bool
        requires { IsAccess addr len }
        ensures { result ≡ has_struck_byte addr len self.now.slot }
    {
        let first = wanted_first(addr);
        self.is_bad_word(first) || (len == 8 && self.is_bad_word(first + 1))
    }

    /// What an access reads: the bytes of the line at its address.
    #[inline(always)]
    pub fn value(&self, addr: u32, len: u8) -> u64
        requires access { IsAccess addr len }
        requires unstruck { has_struck_byte addr len self.now.slot ≡ false }
        ensures is { result ≡ value_at addr len self.now.bytes }
        ensures fits { result < 2 ^ (8 * len) }
    {
        let first = wanted_first(addr);
        let word = self.line[first].value();
        match len {
            8 => u64::from(word) * (1 << 32) + u64::from(self.line[first + 1].value()),
            4 => u64::from(word),
            2 => u64::from((word >> (16 - 8 * (addr % 4))) % (1 << 16)),
            _ => u64::from((word >> (24 - 8 * (addr % 4))) % (1 << 8)),
        }
    }

    // ---- what happens to it

    /// It is used.
    #[inline(always)]
    pub(crate) fn set_used(&mut self, at: u32)
        ensures { self.new ≡ used_at at self.old }
    {
        self.used = at;
        self.state.change(&Used { at });
    }

    /// Its tag bytes are checked.
    fn check_tag(&mut self, ledger: &mut FlipLedger, first: usize)
        requires units { first + slot_units ≤ length ledger.old.standing }
        requires fits { first + slot_units < 2 ^ 64 }
        ensures slot { self.new ≡ with_slot tags_checked self.old }
        ensures keeps { Keeps ledger.old ledger.new }
        ensures follows { (h : ℕ → List Moment) → Follows byte_budget (with_units first self.old.slot h) ledger.old
            → Follows byte_budget (with_units first (tags_checked self.old.slot) h) ledger.new }
    {
        note_word(ledger, first, self.tag, Event::Check);
        self.state.change(&TagsChecked);
    }

    /// The bytes of the words that an access wants are checked.
    fn check_bytes(&mut self, ledger: &mut FlipLedger, first: usize, addr: u32, len: u8)
        requires access { IsAccess addr len }
        requires units { first + slot_units ≤ length ledger.old.standing }
        requires fits { first + slot_units < 2 ^ 64 }
        ensures slot { self.new ≡ with_slot (bytes_checked addr len) self.old }
        ensures keeps { Keeps ledger.old ledger.new }
        ensures follows { (h : ℕ → List Moment) → Follows byte_budget (with_units first self.old.slot h) ledger.old
            → Follows byte_budget (with_units first (bytes_checked addr len self.old.slot) h) ledger.new }
    {
        let place = wanted_first(addr);
        let count = wanted_count(len);
        note_words(
            ledger,
            first + 4 + 4 * place,
            &self.line[place..place + count],
            Event::Check,
        );
        self.state.change(&BytesChecked { addr, len });
    }

    /// Its line is dropped: its tag bytes are written with 0.
    pub(crate) fn drop_line(&mut self, ledger: &mut FlipLedger, first: usize)
        requires units { first + slot_units ≤ length ledger.old.standing }
        requires fits { first + slot_units < 2 ^ 64 }
        ensures slot { self.new ≡ with_slot dropped self.old }
        ensures keeps { Keeps ledger.old ledger.new }
        ensures follows { (h : ℕ → List Moment) → Follows byte_budget (with_units first self.old.slot h) ledger.old
            → Follows byte_budget (with_units first (dropped self.old.slot) h) ledger.new }
    {
        note_word(ledger, first, self.tag, Event::Write);
        self.tag = ParityWord::fresh(0);
        self.state.change(&Dropped);
    }

    /// A tag check found a tag byte struck, and drops its line.
    pub(crate) fn drop_by_tag(&mut self, ledger: &mut FlipLedger, first: usize)
        requires units { first + slot_units ≤ length ledger.old.standing }
        requires fits { first + slot_units < 2 ^ 64 }
        ensures slot { self.new ≡ with_slot dropped_by_tag self.old }
        ensures keeps { Keeps ledger.old ledger.new }
        ensures follows { (h : ℕ → List Moment) → Follows byte_budget (with_units first self.old.slot h) ledger.old
            → Follows byte_budget (with_units first (dropped_by_tag self.old.slot) h) ledger.new }
    {
        self.check_tag(ledger, first);
        self.drop_line(ledger, first);
    }

    /// A look-up found a byte of the words that it wants struck, and drops its line.
    pub(crate) fn drop_by_byte(&mut self, ledger: &mut FlipLedger, first: usize, addr: u32, len: u8)
        requires access { IsAccess addr len }
        requires units { first + slot_units ≤ length ledger.old.standing }
        requires fits { first + slot_units < 2 ^ 64 }
        ensures slot { self.new ≡ with_slot (dropped_by_byte addr len) self.old }
        ensures keeps { Keeps ledger.old ledger.new }
        ensures follows { (h : ℕ → List Moment) → Follows byte_budget (with_units first self.old.slot h) ledger.old
            → Follows byte_budget (with_units first (dropped_by_byte addr len self.old.slot) h) ledger.new }
    {
        self.check_bytes(ledger, first, addr, len);
        self.drop_line(ledger, first);
    }

    /// The line of an address is filled in, with these valid bits, and eight words.
    pub(crate) fn fill(
        &mut self,
        ledger: &mut FlipLedger,
        first: usize,
        addr: u32,
        valid: u8,
        words: &[u32],
    )
        requires words { length words.now ≡ 8 }
        requires units { first + slot_units ≤ length ledger.old.standing }
        requires fits { first + slot_units < 2 ^ 64 }
        ensures slot { self.new ≡ filled_state addr valid words.now self.old }
        ensures keeps { Keeps ledger.old ledger.new }
        ensures follows { (h : ℕ → List Moment) → Follows byte_budget (with_units first self.old.slot h) ledger.old
            → Follows byte_budget (with_units first (filled_slot addr valid self.old.slot) h) ledger.new }
    {
        note_word(ledger, first, self.tag, Event::Write);
        note_words(ledger, first + 4, &self.line, Event::Write);
        self.tag = ParityWord::fresh(tag_of(addr, valid));
        self.line = fresh_line(words);
        self.state.change(&Filled { addr, valid, words });
    }

    /// A byte of the line is written.
    fn store_byte(&mut self, ledger: &mut FlipLedger, first: usize, place: usize, byte: u8)
        requires place { place < 32 }
        requires units { first + slot_units ≤ length ledger.old.standing }
        requires fits { first + slot_units < 2 ^ 64 }
        ensures slot { self.new ≡ byte_stored place byte self.old }
        ensures keeps { Keeps ledger.old ledger.new }
        ensures follows { (h : ℕ → List Moment) → Follows byte_budget (with_units first self.old.slot h) ledger.old
            → Follows byte_budget (with_units first (byte_stored place byte self.old).slot h) ledger.new }
    {
        let word = self.line[place / 4];
        note_byte(ledger, first + 4 + place, word, place % 4, Event::Write);
        self.line[place / 4] = word.with_byte(place % 4, ParityByte::fresh(byte));
        self.state.change(&ByteStored { place, byte });
    }

    /// A store of this core writes its bytes, in the words that are valid.
    pub(crate) fn store(
        &mut self,
        ledger: &mut FlipLedger,
        first: usize,
        addr: u32,
        len: u8,
        value: u64,
    )
        requires access { IsAccess addr len }
        requires unstruck { has_struck_tag self.old.slot ≡ false }
        requires units { first + slot_units ≤ length ledger.old.standing }
        requires fits { first + slot_units < 2 ^ 64 }
        ensures slot { self.new ≡ stored_state addr len value self.old }
        ensures keeps { Keeps ledger.old ledger.new }
        ensures follows { (h : ℕ → List Moment) → Follows byte_budget (with_units first self.old.slot h) ledger.old
            → Follows byte_budget (with_units first (stored_in addr len self.old.slot) h) ledger.new }
    {
        let at = (addr % 32) as usize;
        for i in 0..len {
            let place = at + usize::from(i);
            if self.is_valid_word(place / 4) {
                self.store_byte(ledger, first, place, byte_of(value, len, i));
            }
        }
    }

    /// A flip of the script strikes a bit, below 9, of a tag byte.
    pub(crate) fn flip_tag(&mut self, place: usize, number: u32, bit: u8) -> Flipped
        requires place { place < 4 }
        requires bit { bit < byte_bits }
        ensures answer { result ≡ flip_answer (unit_of self.old.slot place) }
        ensures struck { self.new ≡ tag_struck place number bit self.old }
        ensures gains { Gains place (Struck number bit) (unit_of self.old.slot) (unit_of self.new.slot) }
    {
        let mut byte = self.tag.byte(place);
        let answer = byte.flip(bit);
        self.tag = self.tag.with_byte(place, byte);
        self.state.change(&TagStruck { place, number, bit });
        answer
    }

    /// A flip of the script strikes a bit, below 9, of a byte of the line.
    pub(crate) fn flip_line(&mut self, place: usize, number: u32, bit: u8) -> Flipped
        requires place { place < 32 }
        requires bit { bit < byte_bits }
        ensures answer { result ≡ flip_answer (unit_of self.old.slot (place + 4)) }
        ensures struck { self.new ≡ line_struck place number bit self.old }
        ensures gains { Gains (place + 4) (Struck number bit) (unit_of self.old.slot) (unit_of self.new.slot) }
    {
        let word = self.line[place / 4];
        let mut byte = word.byte(place % 4);
        let answer = byte.flip(bit);
        self.line[place / 4] = word.with_byte(place % 4, byte);
        self.state.change(&LineStruck { place, number, bit });
        answer
    }
}
