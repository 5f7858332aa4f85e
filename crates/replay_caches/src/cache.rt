ghost use Rattle.std.specs.Prelude.{◌≡◌, ◌+◌, ◌*◌, ◌/◌, ◌%◌, ◌^◌, ◌<◌, ◌≤◌, ◌==◌, true, false, not, ℕ, Some, None, fold, find, length, if◌then◌else◌, IfOk, IfSome};
ghost use Rattle.flip_ledger.specs.Follows.{has_struck};
ghost use Rattle.lf_model.specs.Caches.Cache.{empty_cache, slot_at, with_slot, set_of, matching, way_of, raised, used, IsCacheShape};
ghost use Rattle.lf_model.specs.Caches.Change.{older, victim, update_by, updated, snooped, filled, flushed};
ghost use Rattle.lf_model.specs.Caches.Look.{check_way, checked, look, look_in};
ghost use Rattle.lf_model.specs.Caches.Slot.{history_at, holds, is_present, has_struck_tag, dropped, filled_slot};
ghost use Rattle.lf_model.specs.Course.Arrays.{struck_tag, struck_line};
ghost use Rattle.lf_model.specs.Fates.{fate_of};
ghost use Rattle.lf_model.specs.Flips.{byte_budget};
ghost use Rattle.lf_model.specs.declared.bus.Why.TheVariants.{Tag, Absent};
ghost use Rattle.lf_model.specs.declared.trace.Fate.TheVariants.{Late};
ghost use Rattle.replay_caches.specs.CacheState.{byte_bits, with_cache, answer_of, victim_by};
ghost use Rattle.replay_caches.specs.Keeps.{Keeps};
ghost use Rattle.replay_caches.specs.SlotsState.{IsToCome};

use crate::answer::{Counts, LookUp};
use crate::part::Part;
use crate::slots::Slots;
use lf_model::bus::Why;
use lf_model::config::Shape;
use lf_model::trace::Fate;
use std::alloc::{AllocError, Global};
use std::marker::Model;

/// A counter of parity errors with one more: it stops at 3.
fn raised(count: u8) -> u8
    requires { count ≤ 3 }
    ensures count { result ≡ raised count }
    ensures few { result ≤ 3 }
{
    if count < 3 { count + 1 } else { count }
}

/// Why a look-up misses where no line matches: a tag where the check dropped a way.
fn absent_cause(dropped: bool) -> Why
    ensures { result ≡ (if dropped then Tag else Absent) }
{
    if dropped { Why::Tag } else { Why::Absent }
}

/// A cache, and what became of the flips of the script that are for it.
#[derive(Drop)]
pub struct Cache {
    shape: Shape,
    /// Way `w` of set `s` is slot `s * ways + w`.
    slots: Slots,
    /// The uses of slots so far.
    uses: u64,
    tag_errors: u8,
    byte_errors: u8,
}

impl Model for Cache {
    ghost use Rattle.replay_caches.specs.CacheState.{CacheState};

    ghost Value = { CacheState };

    ghost use Rattle.replay_caches.specs.CacheInside.{seen, IsKept};

    ghost view = { seen };

    ghost invariant = { IsKept };
}

impl Cache {
    /// A cache at reset, for a script of so many flips, none of which has come.
    ///
    /// # Errors
    ///
    /// Memory ran out.
    pub fn new(alloc: Global, shape: Shape, flips: u32) -> Result<Cache, AllocError>
        requires { IsCacheShape shape }
        ensures { IfOk result (λ cache. cache ≡ record { cache = empty_cache shape; flips = flips }) }
    {
        Ok(Cache {
            shape,
            slots: Slots::new(alloc, (shape.ways * shape.sets) as usize, flips)?,
            uses: 0,
            tag_errors: 0,
            byte_errors: 0,
        })
    }

    /// The slot of way 0 of the set of an address.
    fn first_slot(&self, addr: u32) -> usize
        ensures first { result ≡ addr / 32 % self.now.cache.shape.sets * self.now.cache.shape.ways }
        ensures within { result + self.now.cache.shape.ways ≤ length self.now.cache.slots }
        ensures some { 1 ≤ self.now.cache.shape.ways }
        ensures fits { result < 2 ^ 32 }
    {
        (addr / 32 % self.shape.sets * self.shape.ways) as usize
    }

    // ---- the tag check

    /// A way is checked: where a tag byte is struck its line is dropped, and the counter rises. Answers whether it is.
    fn check_way(&mut self, i: usize) -> bool
        requires { i < length self.old.cache.slots }
        ensures struck { result ≡ has_struck_tag (slot_at i self.old.cache) }
        ensures checked { self.new ≡ with_cache (check_way (record { dropped = false; cache = self.old.cache }) i).cache self.old }
        ensures keeps { Keeps 0 self.old self.new }
    {
        let is_struck = self.slots.has_struck_tag(i);
        if is_struck {
            self.slots.drop_by_tag(i);
            self.tag_errors = raised(self.tag_errors);
        }
        is_struck
    }

    /// The set of an address is checked, way by way. Answers whether a way was dropped.
    fn check_set(&mut self, addr: u32) -> bool
        ensures dropped { result ≡ (checked addr self.old.cache).dropped }
        ensures checked { self.new ≡ with_cache (checked addr self.old.cache).cache self.old }
        ensures keeps { Keeps 0 self.old self.new }
    {
        let first = self.first_slot(addr);
        let mut dropped = false;
        for way in 0..self.shape.ways as usize {
            if self.check_way(first + way) {
                dropped = true;
            }
        }
        dropped
    }

    // ---- the slots of a set

    /// The slot in which the line of an address is present.
    fn matching(&self, addr: u32) -> Option<usize>
        ensures slot { result ≡ matching addr self.now.cache }
        ensures within { IfSome result (λ i. i < length self.now.cache.slots) }
    {
        let first = self.first_slot(addr);
        for way in 0..self.shape.ways as usize {
            if self.slots.holds(first + way, addr) {
                return Some(first + way);
            }
        }
        None
    }

    /// The lowest slot without a line.
    fn empty_slot(&self, addr: u32) -> Option<usize>
        ensures slot { result ≡ find (λ i. not (is_present (slot_at i self.now.cache))) (set_of addr self.now.cache) }
        ensures within { IfSome result (λ i. i < length self.now.cache.slots) }
    {
        let first = self.first_slot(addr);
        for way in 0..self.shape.ways as usize {
            if !self.slots.is_present(first + way) {
                return Some(first + way);
            }
        }
        None
    }

    /// The least recently used slot.
    fn oldest_slot(&self, addr: u32) -> usize
        ensures slot { fold (older self.now.cache) None (set_of addr self.now.cache) ≡ Some result }
        ensures within { result < length self.now.cache.slots }
    {
        let first = self.first_slot(addr);
        let mut oldest = first;
        for way in 1..self.shape.ways as usize {
            if self.slots.used(first + way) < self.slots.used(oldest) {
                oldest = first + way;
            }
        }
        oldest
    }

    /// The slot that a fill takes.
    fn victim(&self, addr: u32) -> usize
        ensures slot { result ≡ victim addr self.now.cache }
        ensures within { result < length self.now.cache.slots }
    {
        match self.matching(addr) {
            Some(i) => i,
            None => self.victim_of_others(addr),
        }
    }

    /// The slot that a fill takes where its line is not present.
    fn victim_of_others(&self, addr: u32) -> usize
        ensures slot { result ≡ victim_by addr self.now.cache None }
        ensures within { result < length self.now.cache.slots }
    {
        match self.empty_slot(addr) {
            Some(i) => i,
            None => self.oldest_slot(addr),
        }
    }

    /// The slot becomes the most recently used.
    fn use_slot(&mut self, i: usize)
        requires slot { i < length self.old.cache.slots }
        requires room { self.old.cache.uses + 1 < 2 ^ 64 }
        ensures used { self.new ≡ with_cache (used i self.old.cache) self.old }
        ensures keeps { Keeps 1 self.old self.new }
    {
        self.uses += 1;
        self.slots.set_used(i, self.uses);
    }

    // ---- what is done to a cache

    /// Looks up so many bytes at an address.
    pub fn look(&mut self, addr: u32, len: u8) -> LookUp
        requires { self.old.cache.uses + 1 < 2 ^ 64 }
        ensures answer { result ≡ answer_of (look addr len self.old.cache).answer }
        ensures looked { self.new ≡ with_cache (look addr len self.old.cache).cache self.old }
        ensures keeps { Keeps 1 self.old self.new }
    {
        let dropped = self.check_set(addr);
        match self.matching(addr) {
            Some(i) => self.look_in(i, addr, len),
            None => LookUp::Miss(absent_cause(dropped)),
        }
    }

    /// The look-up in the slot in which the line is present.
    fn look_in(&mut self, i: usize, addr: u32, len: u8) -> LookUp
        requires slot { i < length self.old.cache.slots }
        requires room { self.old.cache.uses + 1 < 2 ^ 64 }
        ensures answer { result ≡ answer_of (look_in addr len i self.old.cache).answer }
        ensures looked { self.new ≡ with_cache (look_in addr len i self.old.cache).cache self.old }
        ensures keeps { Keeps 1 self.old self.new }
    {
        if !self.slots.has_wanted_words(i, addr, len) {
            return LookUp::Miss(Why::Word);
        }
        if self.slots.has_struck_byte(i, addr, len) {
            self.slots.drop_by_byte(i, addr, len);
            self.byte_errors = raised(self.byte_errors);
            return LookUp::Miss(Why::Byte);
        }
        self.use_slot(i);
        LookUp::Hit { slot: i }
    }

    /// The way of a slot.
    pub fn way_of(&self, slot: usize) -> u8
        ensures { result ≡ way_of slot self.now.cache }
    {
        (slot % self.shape.ways as usize) as u8
    }

    /// The way that a fill of the line of an address takes.
    pub fn fill_way(&self, addr: u32) -> u8
        ensures { result ≡ way_of (victim addr self.now.cache) self.now.cache }
    {
        self.way_of(self.victim(addr))
    }

    /// An own store of so many bytes: where its line is present, its bytes in valid words are written. No line is allocated.
    pub fn update(&mut self, addr: u32, len: u8)
        requires { self.old.cache.uses + 1 < 2 ^ 64 }
        ensures updated { self.new ≡ with_cache (updated addr len self.old.cache) self.old }
        ensures keeps { Keeps 1 self.old self.new }
    {
        self.check_set(addr);
        match self.matching(addr) {
            Some(i) => self.store_in(i, addr, len),
            None => {}
        }
    }

    /// An own store writes its bytes to the line in a slot.
    fn store_in(&mut self, i: usize, addr: u32, len: u8)
        requires slot { i < length self.old.cache.slots }
        requires room { self.old.cache.uses + 1 < 2 ^ 64 }
        ensures stored { self.new ≡ with_cache (update_by addr len self.old.cache (Some i)) self.old }
        ensures keeps { Keeps 1 self.old self.new }
    {
        self.slots.store(i, addr, len);
        self.use_slot(i);
    }

    /// Snoops a store at an address: where its line is present, it is dropped.
    pub fn snoop(&mut self, addr: u32)
        ensures snooped { self.new ≡ with_cache (snooped self.old.cache addr) self.old }
        ensures keeps { Keeps 0 self.old self.new }
    {
        self.check_set(addr);
        match self.matching(addr) {
            Some(i) => self.drop_slot(i),
            None => {}
        }
    }

    /// The line in a slot is dropped.
    fn drop_slot(&mut self, slot: usize)
        requires { slot < length self.old.cache.slots }
        ensures dropped { self.new ≡ with_cache (with_slot dropped slot self.old.cache) self.old }
        ensures keeps { Keeps 0 self.old self.new }
    {
        self.slots.drop_line(slot);
    }

    /// Fills the line of an address in, with these valid bits, bit `j` for word `j`: into the slot in which it is present, else
    /// the lowest way without a line, else the least recently used way.
    pub fn fill(&mut self, addr: u32, valid: u8)
        requires { self.old.cache.uses + 1 < 2 ^ 64 }
        ensures filled { self.new ≡ with_cache (filled addr valid self.old.cache) self.old }
        ensures keeps { Keeps 1 self.old self.new }
    {
        let slot = self.victim(addr);
        self.fill_slot(slot, addr, valid);
    }

    /// A slot is filled.
    fn fill_slot(&mut self, i: usize, addr: u32, valid: u8)
        requires slot { i < length self.old.cache.slots }
        requires room { self.old.cache.uses + 1 < 2 ^ 64 }
        ensures filled { self.new ≡ with_cache (used i (with_slot (filled_slot addr valid) i self.old.cache)) self.old }
        ensures keeps { Keeps 1 self.old self.new }
    {
        self.slots.fill(i, addr, valid);
        self.use_slot(i);
    }

    /// Drops every line, without a check (FLUSH).
    pub fn flush(&mut self)
        ensures flushed { self.new ≡ with_cache (flushed self.old.cache) self.old }
        ensures keeps { Keeps 0 self.old self.new }
    {
        for i in 0..(self.shape.ways * self.shape.sets) as usize {
            self.slots.drop_line(i);
        }
    }

    // ---- flips

    /// The slot of a way of a set.
    fn slot_of(&self, way: u8, set: u16) -> usize
        requires way { way < self.now.cache.shape.ways }
        requires set { set < self.now.cache.shape.sets }
        ensures slot { result ≡ set * self.now.cache.shape.ways + way }
        ensures within { result < length self.now.cache.slots }
    {
        (u32::from(set) * self.shape.ways + u32::from(way)) as usize
    }

    /// A flip of the script, by its number, strikes a bit, below 9, of a tag byte of a way of a set.
    pub fn strike_tag(&mut self, number: u32, way: u8, set: u16, byte: u8, bit: u8)
        requires way { way < self.old.cache.shape.ways }
        requires set { set < self.old.cache.shape.sets }
        requires byte { byte < 4 }
        requires bit { bit < byte_bits }
        requires number { number < self.old.flips }
        requires once { IsToCome number self.old.cache.slots }
        ensures struck { self.new ≡ with_cache (struck_tag number bit way set byte self.old.cache) self.old }
        ensures keeps { Keeps 0 self.old self.new }
    {
        let slot = self.slot_of(way, set);
        self.slots
            .strike(number, slot, Part::Tag, usize::from(byte), bit);
    }

    /// A flip of the script, by its number, strikes a bit, below 9, of a byte of the line of a way of a set.
    pub fn strike_line(&mut self, number: u32, way: u8, set: u16, byte: u8, bit: u8)
        requires way { way < self.old.cache.shape.ways }
        requires set { set < self.old.cache.shape.sets }
        requires byte { byte < 32 }
        requires bit { bit < byte_bits }
        requires number { number < self.old.flips }
        requires once { IsToCome number self.old.cache.slots }
        ensures struck { self.new ≡ with_cache (struck_line number bit way set byte self.old.cache) self.old }
        ensures keeps { Keeps 0 self.old self.new }
    {
        let slot = self.slot_of(way, set);
        self.slots
            .strike(number, slot, Part::Line, usize::from(byte), bit);
    }

    /// The counters of parity errors.
    pub fn counts(&self) -> Counts
        ensures { result ≡ record { tag_errors = self.now.cache.tag_errors; byte_errors = self.now.cache.byte_errors } }
    {
        Counts {
            tag_errors: self.tag_errors,
            byte_errors: self.byte_errors,
        }
    }

    /// What became of a flip of the script so far, by its number: late where it struck no byte.
    pub fn fate(&self, number: u32) -> Fate
        requires { number < self.now.flips }
        ensures tag { (slot byte : ℕ) → has_struck number (history_at byte (slot_at slot self.now.cache).tag_histories) ≡ true
            → result ≡ fate_of byte_budget number (history_at byte (slot_at slot self.now.cache).tag_histories) }
        ensures line { (slot byte : ℕ) → has_struck number (history_at byte (slot_at slot self.now.cache).line_histories) ≡ true
            → result ≡ fate_of byte_budget number (history_at byte (slot_at slot self.now.cache).line_histories) }
        ensures late { IsToCome number self.now.cache.slots → result ≡ Late }
    {
        self.slots.fate(number)
    }
}
