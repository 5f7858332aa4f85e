ghost use Rattle.std.specs.Prelude.{◌≡◌, ◌<◌, ◌≤◌, ◌↔◌, [], ◌∷◌, ◌++◌, length, IsOk, IsNone, IfSome, OnOk, OnErr, IfNone, slice_get};

use crate::place::Place;
use arrayvec::ArrayVec;
use lf_model::bus::Pending;
use lf_model::step::Full;
use std::marker::Model;

/// The stores that a buffer has places for.
const MOST: usize = 8;

/// The stores of a core that wait for the bus, in the order in which the core made them (SPARC V8, chapter 6, memory model).
/// Contracts see it as the list of these stores, the oldest first, and its depth: how many may wait.
#[derive(Drop)]
pub struct Buffer {
    waiting: ArrayVec<Place, MOST>,
    depth: u32,
}

impl Model for Buffer {
    ghost use Rattle.store_buffer.specs.BufferState.{BufferState};

    ghost Value = { BufferState };

    ghost use Rattle.store_buffer.specs.Inside.{seen, IsBuffer};

    ghost view = { seen };

    ghost invariant = { IsBuffer };
}

impl Buffer {
    /// A buffer of this depth, 1 to 8, in which no store waits.
    pub fn new(depth: u32) -> Buffer
        requires least { 1 ≤ depth }
        requires most { depth ≤ 8 }
        ensures empty { result ≡ record { waiting = []; depth = depth } }
    {
        Buffer {
            waiting: ArrayVec::new(),
            depth,
        }
    }

    /// How many stores wait: 0 to the depth.
    pub fn len(&self) -> u32
        ensures length { result ≡ length self.now.waiting }
        ensures within { result ≤ self.now.depth }
    {
        self.waiting.len() as u32
    }

    /// Puts a store at the end.
    ///
    /// # Errors
    ///
    /// As many stores wait as may; then nothing is changed.
    pub fn push(&mut self, p: Pending) -> Result<(), Full>
        ensures room { IsOk result ↔ (length self.old.waiting < self.old.depth) }
        ensures added { OnOk result (self.new ≡ record self.old { waiting = self.old.waiting ++ p ∷ [] }) }
        ensures full { OnErr result (length self.old.waiting ≡ self.old.depth) }
        ensures unchanged { OnErr result (self.new ≡ self.old) }
    {
        if self.len() == self.depth {
            return Err(Full);
        }
        self.waiting.push(Place::of(p));
        Ok(())
    }

    /// The store that has waited longest.
    pub fn front(&self) -> Option<Pending>
        ensures oldest { result ≡ slice_get self.now.waiting 0 }
        ensures empty { IsNone result ↔ (self.now.waiting ≡ []) }
    {
        self.waiting.as_slice().first().map(|place| place.store())
    }

    /// Takes out the store that has waited longest.
    pub fn pop(&mut self) -> Option<Pending>
        ensures oldest { IfSome result (λ p. self.old ≡ record self.new { waiting = p ∷ self.new.waiting }) }
        ensures empty { IsNone result ↔ (self.old.waiting ≡ []) }
        ensures unchanged { IfNone result (self.new ≡ self.old) }
    {
        self.waiting.pop_at(0).map(Place::store)
    }
}
