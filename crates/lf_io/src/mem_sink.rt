ghost use Rattle.std.specs.Prelude.{◌≡◌, ◌≢◌, ℕ, ◌+◌, ◌-◌, ◌<◌, ◌≤◌, ◌⊎◌, ◌↔◌, List, [], ◌++◌, length, take, min, Option, Some, Ok, vec_len, vec_capacity, IsErr, IfOk, OnErr};
ghost use Rattle.lf_io.specs.Count.{Rose};
ghost use Rattle.lf_io.specs.Memory.{no_calls, IsNextFailing, IsFull, after_call, after_fault};

use crate::calls::CallCounter;
use crate::failed::Failed;
use crate::sink::Sink;
use std::alloc::{AllocError, Global};
use std::marker::Model;

/// A sink in memory, with room for a number of bytes, whose writes fail at will.
///
/// The calls of `write` are counted from 1, and the count stays at its last value. For a piece
/// that is not empty, a call whose number is in the list, or that finds no room left, is a fault.
#[derive(Debug, Drop)]
pub struct MemSink {
    taken: Vec<u8>,
    room: usize,
    calls: CallCounter,
}

impl Model for MemSink {
    ghost use Rattle.std.specs.Prelude.{◌≤◌, vec_len, vec_capacity};
    ghost use Rattle.lf_io.specs.Memory.{MemorySink};

    ghost Value = { MemorySink };

    ghost view = { λ it. record { taken = it.taken.items; room = it.room; calls = it.calls } };

    ghost invariant = { λ it. (vec_len it.taken ≤ it.room) × (it.room ≤ vec_capacity it.taken) };
}

impl MemSink {
    /// Reserves `room` bytes. `fails` has the numbers of the calls that fail.
    pub fn new(alloc: Global, room: usize, fails: &[u64]) -> Result<Self, AllocError>
        ensures { IfOk result (λ it. it ≡ record { taken = []; room = room; calls = no_calls fails.now }) }
    {
        Ok(MemSink {
            taken: Vec::with_capacity(alloc, room)?,
            room,
            calls: CallCounter::new(alloc, fails)?,
        })
    }

    /// The bytes taken so far.
    pub fn taken(&self) -> &[u8]
        ensures { result.now ≡ self.now.taken }
    {
        &self.taken
    }
}

impl Sink for MemSink {
    ghost taken = { λ it. Some it.taken };

    ghost faults = { λ it. it.calls.faults };

    fn write(&mut self, piece: &[u8]) -> Result<usize, Failed>
        ensures within { IfOk result (λ n. n ≤ length piece.now) }
        ensures progress { IfOk result (λ n. 0 < length piece.now → 0 < n) }
        ensures empty { piece.now ≡ [] → result ≡ Ok 0 }
        ensures taken { IfOk result (λ n. self.new.taken ≡ self.old.taken ++ take n piece.now) }
        ensures refused { OnErr result (self.new.taken ≡ self.old.taken) }
        ensures cause { OnErr result (Rose self.old.calls.faults self.new.calls.faults) }
        ensures never_falls { self.old.calls.faults ≤ self.new.calls.faults }

        // What this object says beyond the trait.
        ensures fault { IsErr result ↔ ((piece.now ≢ []) × (IsNextFailing self.old.calls ⊎ IsFull self.old)) }
        ensures amount { IfOk result (λ n. n ≡ min (length piece.now) (self.old.room - length self.old.taken)) }
        ensures room { self.new.room ≡ self.old.room }
        ensures counted { IfOk result (λ _. self.new.calls ≡ after_call self.old.calls) }
        ensures failed { OnErr result (self.new.calls ≡ after_fault self.old.calls) }
    {
        let left = self.room - self.taken.len();
        if !piece.is_empty() && (left == 0 || self.calls.is_next_failing()) {
            return Err(self.calls.count_fault());
        }
        self.calls.count_call();
        let n = piece.len().min(left);
        match self.taken.extend_from_slice(&piece[..n]) {
            Ok(()) => Ok(n),
            Err(_) => unreachable!(),
        }
    }
}
