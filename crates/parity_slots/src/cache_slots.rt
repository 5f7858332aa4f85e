ghost use Rattle.std.specs.Prelude.{◌≡◌, ◌+◌, ◌*◌, ◌<◌, ◌≤◌, true, false, ℕ, List, length, replicate, IfOk, vec_len};
ghost use Rattle.flip_ledger.specs.Follows.{has_struck};
ghost use Rattle.lf_model.specs.Caches.Slot.{has_struck_tag, dropped, dropped_by_tag, dropped_by_byte};
ghost use Rattle.lf_model.specs.Fates.{fate_of};
ghost use Rattle.lf_model.specs.Flips.{byte_budget};
ghost use Rattle.lf_model.specs.declared.trace.Fate.TheVariants.{Late};
ghost use Rattle.parity_slots.specs.Kept.{most_slots};
ghost use Rattle.parity_slots.specs.SlotState.{empty_state, IsAccess, filled_state, stored_state, tag_flipped, line_flipped, used_in, flip_answer};
ghost use Rattle.parity_slots.specs.SlotsState.{reset_slots, slot_in, state_in, changed, with_state, IsToCome};
ghost use Rattle.parity_slots.specs.Units.{slot_units, histories_of, unit_of};
ghost use Rattle.parity_units.specs.Bytes.{byte_bits};

use crate::cache_slot::Slot;
use flip_ledger::FlipLedger;
use ft_cells::Flipped;
use lf_model::trace::Fate;
use parity_units::note_flip;
use std::alloc::{AllocError, Global};
use std::marker::Model;

/// The units of a slot: its four tag bytes, and the 32 bytes of its line.
const SLOT_UNITS: usize = 36;

/// The slots of a cache, and what became of the flips of the script that are for them. Slots are numbered from 0.
#[derive(Drop)]
pub struct Slots {
    slots: Vec<Slot>,
    ledger: FlipLedger,
}

impl Model for Slots {
    ghost use Rattle.parity_slots.specs.SlotsState.{SlotsState};

    ghost Value = { SlotsState };

    ghost use Rattle.parity_slots.specs.Kept.{seen, IsKept};

    ghost view = { seen };

    ghost invariant = { IsKept };
}

/// So many slots at reset.
fn empty_slots(alloc: Global, count: usize) -> Result<Vec<Slot>, AllocError>
    ensures { IfOk result (λ slots. slots.items ≡ replicate count empty_state) }
{
    let mut slots = Vec::with_capacity(alloc, count)?;
    for _i in 0..count {
        slots.push(Slot::new())?;
    }
    Ok(slots)
}

impl Slots {
    /// So many slots at reset, at most 1,024, for a script of so many flips, none of which has come.
    ///
    /// # Errors
    ///
    /// Memory ran out.
    pub fn new(alloc: Global, count: usize, flips: u32) -> Result<Slots, AllocError>
        requires { count ≤ most_slots }
        ensures { IfOk result (λ slots. slots ≡ reset_slots count flips) }
    {
        Ok(Slots {
            slots: empty_slots(alloc, count)?,
            ledger: FlipLedger::new(alloc, SLOT_UNITS * count, flips)?,
        })
    }

    /// A slot, to read it.
    #[inline]
    pub fn slot(&self, i: usize) -> &Slot
        requires { i < length self.now.slots }
        ensures { result.now ≡ state_in i self.now }
    {
        &self.slots[i]
    }

    /// A slot is used.
    #[inline]
    pub fn set_used(&mut self, i: usize, at: u32)
        requires { i < length self.old.slots }
        ensures { self.new ≡ changed (used_in at) i self.old }
    {
        self.slots[i].set_used(at);
    }

    /// The line of a slot is dropped.
    pub fn drop_line(&mut self, i: usize)
        requires { i < length self.old.slots }
        ensures { self.new ≡ changed dropped i self.old }
    {
        self.slots[i].drop_line(&mut self.ledger, SLOT_UNITS * i);
    }

    /// A tag check found a tag byte of a slot struck, and drops its line.
    #[cold]
    #[inline(never)]
    pub fn drop_by_tag(&mut self, i: usize)
        requires { i < length self.old.slots }
        ensures { self.new ≡ changed dropped_by_tag i self.old }
    {
        self.slots[i].drop_by_tag(&mut self.ledger, SLOT_UNITS * i);
    }

    /// A look-up found a byte of the words that it wants struck, and drops the line of a slot.
    #[cold]
    #[inline(never)]
    pub fn drop_by_byte(&mut self, i: usize, addr: u32, len: u8)
        requires slot { i < length self.old.slots }
        requires access { IsAccess addr len }
        ensures { self.new ≡ changed (dropped_by_byte addr len) i self.old }
    {
        self.slots[i].drop_by_byte(&mut self.ledger, SLOT_UNITS * i, addr, len);
    }

    /// The line of an address is filled into a slot, with these valid bits, and eight words.
    pub fn fill(&mut self, i: usize, addr: u32, valid: u8, words: &[u32])
        requires slot { i < length self.old.slots }
        requires words { length words.now ≡ 8 }
        ensures { self.new ≡ with_state (filled_state addr valid words.now (state_in i self.old)) i self.old }
    {
        self.slots[i].fill(&mut self.ledger, SLOT_UNITS * i, addr, valid, words);
    }

    /// A store of this core writes its bytes to the line of a slot, in the words that are valid.
    pub fn store(&mut self, i: usize, addr: u32, len: u8, value: u64)
        requires slot { i < length self.old.slots }
        requires access { IsAccess addr len }
        requires unstruck { has_struck_tag (slot_in i self.old) ≡ false }
        ensures { self.new ≡ with_state (stored_state addr len value (state_in i self.old)) i self.old }
    {
        self.slots[i].store(&mut self.ledger, SLOT_UNITS * i, addr, len, value);
    }

    /// A flip of the script, by its number, strikes a bit, below 9, of a tag byte of a slot. It is declined where one was applied
    /// to the byte since it was written.
    pub fn flip_tag(&mut self, i: usize, byte: usize, number: u32, bit: u8) -> Flipped
        requires slot { i < length self.old.slots }
        requires byte { byte < 4 }
        requires bit { bit < byte_bits }
        requires number { number < self.old.flips }
        requires once { IsToCome number self.old.slots }
        ensures answer { result ≡ flip_answer (unit_of (slot_in i self.old) byte) }
        ensures struck { self.new ≡ changed (tag_flipped byte number bit) i self.old }
    {
        let answer = self.slots[i].flip_tag(byte, number, bit);
        note_flip(&mut self.ledger, number, SLOT_UNITS * i + byte, answer);
        answer
    }

    /// A flip of the script strikes a bit of a byte, below 32, of the line of a slot, likewise.
    pub fn flip_line(&mut self, i: usize, byte: usize, number: u32, bit: u8) -> Flipped
        requires slot { i < length self.old.slots }
        requires byte { byte < 32 }
        requires bit { bit < byte_bits }
        requires number { number < self.old.flips }
        requires once { IsToCome number self.old.slots }
        ensures answer { result ≡ flip_answer (unit_of (slot_in i self.old) (byte + 4)) }
        ensures struck { self.new ≡ changed (line_flipped byte number bit) i self.old }
    {
        let answer = self.slots[i].flip_line(byte, number, bit);
        note_flip(
            &mut self.ledger,
            number,
            SLOT_UNITS * i + (byte + 4),
            answer,
        );
        answer
    }

    /// What became of a flip of the script so far, by its number: late where it struck no unit.
    pub fn fate(&self, number: u32) -> Fate
        requires { number < self.now.flips }
        ensures struck { (unit : ℕ) → unit < slot_units * length self.now.slots → has_struck number (histories_of self.now.slots unit) ≡ true
            → result ≡ fate_of byte_budget number (histories_of self.now.slots unit) }
        ensures late { IsToCome number self.now.slots → result ≡ Late }
    {
        self.ledger.fate(number)
    }
}
