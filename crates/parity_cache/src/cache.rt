ghost use Rattle.std.specs.Prelude.{◌≡◌, ◌+◌, ◌*◌, ◌/◌, ◌%◌, ◌^◌, ◌<◌, ◌≤◌, ◌==◌, true, false, not, ℕ, Some, None, fold, find, length, if◌then◌else◌, IfOk, IfSome};
ghost use Rattle.flip_ledger.specs.Follows.{has_struck};
ghost use Rattle.lf_model.specs.Caches.Cache.{Cache, slot_at, with_slot, set_of, matching, way_of, raised, used, IsCacheShape};
ghost use Rattle.lf_model.specs.Caches.Change.{older, victim, snooped, flushed};
ghost use Rattle.lf_model.specs.Caches.Look.{check_way, checked, look, look_in};
ghost use Rattle.lf_model.specs.Caches.Slot.{holds, is_present, has_struck_tag, dropped};
ghost use Rattle.lf_model.specs.Fates.{fate_of};
ghost use Rattle.lf_model.specs.Flips.{byte_budget};
ghost use Rattle.lf_model.specs.declared.trace.Fate.TheVariants.{Late};
ghost use Rattle.parity_cache.specs.CacheState.{reset_cache, with_cache, answer_of, filled_in, filled_cache, stored_by, stored_cache, victim_by, IsCleanSet};
ghost use Rattle.parity_cache.specs.CacheUnits.{IsUnit, slot_of_unit, history_of_unit, struck_at, IsToCome};
ghost use Rattle.parity_cache.specs.declared.unit.Unit.{Unit};
ghost use Rattle.parity_cache.specs.Keeps.{Keeps, FitsIn, StaysClean};
ghost use Rattle.parity_slots.specs.SlotState.{IsAccess, flip_answer};
ghost use Rattle.parity_units.specs.Bytes.{byte_bits};

use crate::unit::{Counts, Unit};
use ft_cells::Flipped;
use lf_model::bus::Why;
use lf_model::config::Shape;
use lf_model::step::Look;
use lf_model::trace::Fate;
use parity_slots::Slots;
use std::alloc::{AllocError, Global};
use std::marker::Model;

/// A counter of parity errors with one more: it stops at 3.
fn raised(count: u8) -> u8
    requires { count ≤ 3 }
    ensures count { result ≡ raised count }
    ensures few { result ≤ 3 }
{
    if count < 3 { count + 1 } else { count }
}

/// Why a look-up misses where no line matches: a tag where the check dropped a way.
fn absent_cause(dropped: bool) -> Why
    ensures { result ≡ (if dropped then Why.Tag else Why.Absent) }
{
    if dropped { Why::Tag } else { Why::Absent }
}

/// A parity cache, and what became of the flips of the script that are for it.
#[derive(Drop)]
pub struct ParityCache {
    shape: Shape,
    /// Way `w` of set `s` is slot `s * ways + w`.
    slots: Slots,
    /// The uses of slots so far.
    uses: u32,
    tag_errors: u8,
    byte_errors: u8,
    /// For each set whether a tag byte of it may be struck: where not, a look-up needs no check.
    may_be_struck: [bool; 256],
}

impl Model for ParityCache {
    ghost use Rattle.parity_cache.specs.CacheState.{CacheState};

    ghost Value = { CacheState };

    ghost use Rattle.parity_cache.specs.Kept.{seen, IsKept};

    ghost view = { seen };

    ghost invariant = { IsKept };
}

impl ParityCache {
    /// A cache at reset, for a script of so many flips, none of which has come.
    ///
    /// # Errors
    ///
    /// Memory ran out.
    pub fn new(alloc: Global, shape: Shape, flips: u32) -> Result<ParityCache, AllocError>
        requires { IsCacheShape shape }
        ensures { IfOk result (λ cache. cache ≡ reset_cache shape flips) }
    {
        Ok(ParityCache {
            shape,
            slots: Slots::new(alloc, (shape.ways * shape.sets) as usize, flips)?,
            uses: 0,
            tag_errors: 0,
            byte_errors: 0,
            may_be_struck: [false; 256],
        })
    }

    /// The set of an address. The sets are a power of two, so a mask gives it.
    #[inline(always)]
    fn set_of(&self, addr: u32) -> u32
        ensures { result ≡ addr / 32 % self.now.cache.shape.sets }
    {
        addr / 32 & (self.shape.sets - 1)
    }

    /// The slot of way 0 of the set of an address.
    #[inline(always)]
    fn first_slot(&self, addr: u32) -> usize
        ensures first { result ≡ addr / 32 % self.now.cache.shape.sets * self.now.cache.shape.ways }
        ensures within { result + self.now.cache.shape.ways ≤ length self.now.cache.slots }
        ensures some { 1 ≤ self.now.cache.shape.ways }
        ensures fits { result < 2 ^ 32 }
    {
        (self.set_of(addr) * self.shape.ways) as usize
    }

    // ---- the tag check

    /// A way is checked: where a tag byte is struck its line is dropped, and the counter rises.
    fn check_way(&mut self, i: usize) -> bool
        requires { i < length self.old.cache.slots }
        ensures struck { result ≡ has_struck_tag (slot_at i self.old.cache) }
        ensures checked { self.new ≡ with_cache (check_way (record { dropped = false; cache = self.old.cache }) i).cache self.old }
        ensures keeps { Keeps 0 self.old self.new }
    {
        let is_struck = self.slots.slot(i).has_struck_tag();
        if is_struck {
            self.slots.drop_by_tag(i);
            self.tag_errors = raised(self.tag_errors);
        }
        is_struck
    }

    /// The set of an address is checked, way by way. Answers whether a way was dropped.
    fn check_ways(&mut self, addr: u32) -> bool
        ensures dropped { result ≡ (checked addr self.old.cache).dropped }
        ensures checked { self.new ≡ with_cache (checked addr self.old.cache).cache self.old }
        ensures clean { IsCleanSet addr self.new.cache }
        ensures stays { StaysClean self.old.cache self.new.cache }
        ensures uses { self.new.cache.uses ≡ self.old.cache.uses }
        ensures keeps { Keeps 0 self.old self.new }
    {
        let first = self.first_slot(addr);
        let mut dropped = false;
        for way in 0..self.shape.ways as usize {
            if self.check_way(first + way) {
                dropped = true;
            }
        }
        dropped
    }

    /// Whether the set of an address needs no check: no tag byte of it is struck.
    #[inline(always)]
    fn is_clean_set(&self, addr: u32) -> bool
        ensures { result ≡ true → IsCleanSet addr self.now.cache }
    {
        !self.may_be_struck[self.set_of(addr) as usize]
    }

    /// The mark of the set of an address is cleared. No tag byte of it is struck.
    fn clear_mark(&mut self, addr: u32)
        requires { IsCleanSet addr self.old.cache }
        ensures { self.new ≡ self.old }
    {
        let set = self.set_of(addr) as usize;
        self.may_be_struck[set] = false;
    }

    /// The same as `check_ways`, and then the set is known to be clean.
    #[cold]
    #[inline(never)]
    fn check_marked(&mut self, addr: u32) -> bool
        ensures dropped { result ≡ (checked addr self.old.cache).dropped }
        ensures checked { self.new ≡ with_cache (checked addr self.old.cache).cache self.old }
        ensures clean { IsCleanSet addr self.new.cache }
        ensures stays { StaysClean self.old.cache self.new.cache }
        ensures uses { self.new.cache.uses ≡ self.old.cache.uses }
        ensures keeps { Keeps 0 self.old self.new }
    {
        let dropped = self.check_ways(addr);
        self.clear_mark(addr);
        dropped
    }

    /// The same, at no more cost than a test where no tag byte of the set is struck.
    #[inline(always)]
    fn check_set(&mut self, addr: u32) -> bool
        ensures dropped { result ≡ (checked addr self.old.cache).dropped }
        ensures checked { self.new ≡ with_cache (checked addr self.old.cache).cache self.old }
        ensures clean { IsCleanSet addr self.new.cache }
        ensures stays { StaysClean self.old.cache self.new.cache }
        ensures uses { self.new.cache.uses ≡ self.old.cache.uses }
        ensures keeps { Keeps 0 self.old self.new }
    {
        if self.is_clean_set(addr) {
            return false;
        }
        self.check_marked(addr)
    }

    // ---- the slots of a set

    /// The slot in which the line of an address is present. The set was checked.
    #[inline(always)]
    fn matching(&self, addr: u32) -> Option<usize>
        requires { IsCleanSet addr self.now.cache }
        ensures slot { result ≡ matching addr self.now.cache }
        ensures within { IfSome result (λ i. i < length self.now.cache.slots) }
        ensures clean { IfSome result (λ i. has_struck_tag (slot_at i self.now.cache) ≡ false) }
    {
        let first = self.first_slot(addr);
        for way in 0..self.shape.ways as usize {
            if self.slots.slot(first + way).holds(addr) {
                return Some(first + way);
            }
        }
        None
    }

    /// The lowest slot without a line.
    fn empty_slot(&self, addr: u32) -> Option<usize>
        requires { IsCleanSet addr self.now.cache }
        ensures slot { result ≡ find (λ i. not (is_present (slot_at i self.now.cache))) (set_of addr self.now.cache) }
        ensures within { IfSome result (λ i. i < length self.now.cache.slots) }
    {
        let first = self.first_slot(addr);
        for way in 0..self.shape.ways as usize {
            if !self.slots.slot(first + way).is_present() {
                return Some(first + way);
            }
        }
        None
    }

    /// The least recently used slot.
    fn oldest_slot(&self, addr: u32) -> usize
        ensures slot { fold (older self.now.cache) None (set_of addr self.now.cache) ≡ Some result }
        ensures within { result < length self.now.cache.slots }
    {
        let first = self.first_slot(addr);
        let mut oldest = first;
        for way in 1..self.shape.ways as usize {
            if self.slots.slot(first + way).used() < self.slots.slot(oldest).used() {
                oldest = first + way;
            }
        }
        oldest
    }

    /// The slot that a fill takes.
    fn victim_slot(&self, addr: u32) -> usize
        requires { IsCleanSet addr self.now.cache }
        ensures slot { result ≡ victim addr self.now.cache }
        ensures within { result < length self.now.cache.slots }
    {
        match self.matching(addr) {
            Some(i) => i,
            None => self.victim_of_others(addr),
        }
    }

    /// The slot that a fill takes where its line is not present.
    fn victim_of_others(&self, addr: u32) -> usize
        requires { IsCleanSet addr self.now.cache }
        ensures slot { result ≡ victim_by addr self.now.cache None }
        ensures within { result < length self.now.cache.slots }
    {
        match self.empty_slot(addr) {
            Some(i) => i,
            None => self.oldest_slot(addr),
        }
    }

    /// The slot becomes the most recently used.
    #[inline(always)]
    fn use_slot(&mut self, i: usize)
        requires slot { i < length self.old.cache.slots }
        requires room { self.old.cache.uses + 1 < 2 ^ 32 }
        ensures used { self.new ≡ with_cache (used i self.old.cache) self.old }
        ensures keeps { Keeps 1 self.old self.new }
    {
        self.uses += 1;
        self.slots.set_used(i, self.uses);
    }

    // ---- what is done to a cache

    /// Looks an access up, of 1, 2, 4 or 8 bytes at a multiple of that.
    #[inline(always)]
    pub fn look(&mut self, addr: u32, len: u8) -> Look
        requires access { IsAccess addr len }
        requires room { self.old.cache.uses + 1 < 2 ^ 32 }
        ensures answer { result ≡ answer_of addr len self.old (look addr len self.old.cache).answer }
        ensures looked { self.new ≡ with_cache (look addr len self.old.cache).cache self.old }
        ensures clean { IsCleanSet addr self.new.cache }
        ensures keeps { Keeps 1 self.old self.new }
        ensures fits { FitsIn len result }
    {
        if self.is_clean_set(addr) {
            self.look_in_clean(addr, len)
        } else {
            self.look_in_struck(addr, len)
        }
    }

    /// The look-up in a set in which no tag byte is struck, which needs no check.
    #[inline(always)]
    fn look_in_clean(&mut self, addr: u32, len: u8) -> Look
        requires access { IsAccess addr len }
        requires unstruck { IsCleanSet addr self.old.cache }
        requires room { self.old.cache.uses + 1 < 2 ^ 32 }
        ensures answer { result ≡ answer_of addr len self.old (look addr len self.old.cache).answer }
        ensures looked { self.new ≡ with_cache (look addr len self.old.cache).cache self.old }
        ensures clean { IsCleanSet addr self.new.cache }
        ensures keeps { Keeps 1 self.old self.new }
        ensures fits { FitsIn len result }
    {
        match self.matching(addr) {
            Some(i) => self.look_in(i, addr, len),
            None => Look::Miss(Why::Absent),
        }
    }

    /// The look-up in a set that is checked first.
    #[cold]
    #[inline(never)]
    fn look_in_struck(&mut self, addr: u32, len: u8) -> Look
        requires access { IsAccess addr len }
        requires room { self.old.cache.uses + 1 < 2 ^ 32 }
        ensures answer { result ≡ answer_of addr len self.old (look addr len self.old.cache).answer }
        ensures looked { self.new ≡ with_cache (look addr len self.old.cache).cache self.old }
        ensures clean { IsCleanSet addr self.new.cache }
        ensures keeps { Keeps 1 self.old self.new }
        ensures fits { FitsIn len result }
    {
        let dropped = self.check_marked(addr);
        match self.matching(addr) {
            Some(i) => self.look_in(i, addr, len),
            None => Look::Miss(absent_cause(dropped)),
        }
    }

    /// The look-up in the slot in which the line is present.
    #[inline(always)]
    fn look_in(&mut self, i: usize, addr: u32, len: u8) -> Look
        requires slot { i < length self.old.cache.slots }
        requires unstruck { has_struck_tag (slot_at i self.old.cache) ≡ false }
        requires access { IsAccess addr len }
        requires room { self.old.cache.uses + 1 < 2 ^ 32 }
        ensures answer { result ≡ answer_of addr len self.old (look_in addr len i self.old.cache).answer }
        ensures looked { self.new ≡ with_cache (look_in addr len i self.old.cache).cache self.old }
        ensures keeps { Keeps 1 self.old self.new }
        ensures fits { FitsIn len result }
    {
        if !self.slots.slot(i).has_wanted_words(addr, len) {
            return Look::Miss(Why::Word);
        }
        if self.slots.slot(i).has_struck_byte(addr, len) {
            self.slots.drop_by_byte(i, addr, len);
            self.byte_errors = raised(self.byte_errors);
            return Look::Miss(Why::Byte);
        }
        let value = self.slots.slot(i).value(addr, len);
        let way = self.way_of(i);
        self.use_slot(i);
        Look::Hit { value, way }
    }

    /// The way of a slot.
    #[inline(always)]
    fn way_of(&self, i: usize) -> u8
        ensures { result ≡ way_of i self.now.cache }
    {
        (i % self.shape.ways as usize) as u8
    }

    /// The way that a fill of the line of an address takes: that in which the line is present, else the lowest without a line,
    /// else the least recently used. The set was checked, as by a look-up of the address.
    pub fn victim(&self, line: u32) -> u8
        requires { IsCleanSet line self.now.cache }
        ensures { result ≡ way_of (victim line self.now.cache) self.now.cache }
    {
        self.way_of(self.victim_slot(line))
    }

    /// Fills the line of an address into the way that `victim` gives, with eight words, and a valid bit for each: bit `j` for
    /// word `j`.
    pub fn fill(&mut self, line: u32, way: u8, words: &[u32; 8], valid: u8)
        requires way { way ≡ way_of (victim line self.old.cache) self.old.cache }
        requires room { self.old.cache.uses + 1 < 2 ^ 32 }
        ensures filled { self.new ≡ filled_cache line valid words.now self.old }
        ensures keeps { Keeps 1 self.old self.new }
    {
        let i = self.first_slot(line) + usize::from(way);
        self.fill_slot(i, line, words, valid);
    }

    /// A slot is filled.
    fn fill_slot(&mut self, i: usize, line: u32, words: &[u32], valid: u8)
        requires slot { i < length self.old.cache.slots }
        requires words { length words.now ≡ 8 }
        requires room { self.old.cache.uses + 1 < 2 ^ 32 }
        ensures filled { self.new ≡ filled_in i line valid words.now self.old }
        ensures keeps { Keeps 1 self.old self.new }
    {
        self.slots.fill(i, line, valid, words);
        self.use_slot(i);
    }

    /// A store of this core: where its line is present, the bytes in valid words are written. No line is allocated.
    pub fn update(&mut self, addr: u32, len: u8, value: u64)
        requires access { IsAccess addr len }
        requires room { self.old.cache.uses + 1 < 2 ^ 32 }
        ensures stored { self.new ≡ stored_cache addr len value self.old }
        ensures keeps { Keeps 1 self.old self.new }
    {
        self.check_set(addr);
        match self.matching(addr) {
            Some(i) => self.store_in(i, addr, len, value),
            None => {}
        }
    }

    /// A store of this core writes its bytes to the line in a slot.
    fn store_in(&mut self, i: usize, addr: u32, len: u8, value: u64)
        requires slot { i < length self.old.cache.slots }
        requires unstruck { has_struck_tag (slot_at i self.old.cache) ≡ false }
        requires access { IsAccess addr len }
        requires room { self.old.cache.uses + 1 < 2 ^ 32 }
        ensures stored { self.new ≡ stored_by addr len value self.old (Some i) }
        ensures keeps { Keeps 1 self.old self.new }
    {
        self.slots.store(i, addr, len, value);
        self.use_slot(i);
    }

    /// Snoops a store at an address: where its line is present, it is dropped.
    pub fn drop_line(&mut self, addr: u32)
        ensures dropped { self.new ≡ with_cache (snooped self.old.cache addr) self.old }
        ensures clean { (a : ℕ) → IsCleanSet a self.old.cache → IsCleanSet a self.new.cache }
        ensures keeps { Keeps 0 self.old self.new }
    {
        self.check_set(addr);
        match self.matching(addr) {
            Some(i) => self.drop_slot(i),
            None => {}
        }
    }

    /// The line in a slot is dropped.
    fn drop_slot(&mut self, slot: usize)
        requires { slot < length self.old.cache.slots }
        ensures dropped { self.new ≡ with_cache (with_slot dropped slot self.old.cache) self.old }
        ensures keeps { Keeps 0 self.old self.new }
    {
        self.slots.drop_line(slot);
    }

    /// Drops every line, without a check (FLUSH).
    pub fn drop_all(&mut self)
        ensures dropped { self.new ≡ with_cache (flushed self.old.cache) self.old }
        ensures keeps { Keeps 0 self.old self.new }
    {
        for i in 0..(self.shape.ways * self.shape.sets) as usize {
            self.slots.drop_line(i);
        }
    }

    // ---- flips

    /// A flip of the script, by its number, strikes a bit, below 9, of a unit. It is declined where one was applied to the unit
    /// since it was written.
    pub fn flip(&mut self, number: u32, at: Unit, bit: u8) -> Flipped
        requires unit { IsUnit at self.old.cache }
        requires bit { bit < byte_bits }
        requires number { number < self.old.flips }
        requires once { IsToCome number self.old.cache }
        ensures answer { result ≡ flip_answer (history_of_unit at self.old.cache) }
        ensures struck { self.new ≡ with_cache (struck_at number bit at self.old.cache) self.old }
        ensures keeps { Keeps 0 self.old self.new }
    {
        let i = self.slot_of(at);
        let byte = usize::from(at.byte);
        if at.tag {
            self.may_be_struck[usize::from(at.set)] = true;
            self.slots.flip_tag(i, byte, number, bit)
        } else {
            self.slots.flip_line(i, byte, number, bit)
        }
    }

    /// The slot of a unit.
    fn slot_of(&self, at: Unit) -> usize
        requires { IsUnit at self.now.cache }
        ensures slot { result ≡ slot_of_unit at self.now.cache }
        ensures within { result < length self.now.cache.slots }
    {
        (u32::from(at.set) * self.shape.ways + u32::from(at.way)) as usize
    }

    /// The counters of parity errors.
    pub fn counts(&self) -> Counts
        ensures shown { result ≡ record { tag_errors = self.now.cache.tag_errors; byte_errors = self.now.cache.byte_errors } }
        ensures tag_errors { self.now.cache.tag_errors ≤ 3 }
        ensures byte_errors { self.now.cache.byte_errors ≤ 3 }
    {
        Counts {
            tag_errors: self.tag_errors,
            byte_errors: self.byte_errors,
        }
    }

    /// What became of a flip of the script so far, by its number: late where it struck no unit.
    pub fn fate(&self, number: u32) -> Fate
        requires { number < self.now.flips }
        ensures struck { (at : Unit) → IsUnit at self.now.cache → has_struck number (history_of_unit at self.now.cache) ≡ true
            → result ≡ fate_of byte_budget number (history_of_unit at self.now.cache) }
        ensures late { IsToCome number self.now.cache → result ≡ Late }
    {
        self.slots.fate(number)
    }
}
