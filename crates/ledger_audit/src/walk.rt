ghost use Rattle.std.specs.Prelude.{◌≡◌, ◌↔◌, ◌<◌, ◌≤◌, ◌+◌, ◌*◌, ◌%◌, ◌^◌, ◌==◌, [], ℕ, All, false, not, length, map, filter, slice_index, if◌then◌else◌, IsTrue};
ghost use Rattle.std.specs.List.{range_with_len};
ghost use Rattle.lf_model.specs.Bus.Walk.{scrubber, walk_start, next_line, next_transfer, words_noted, walked, walk_by};
ghost use Rattle.ledger_audit.specs.FirstPlaces.{WalkFailsFirst};
ghost use Rattle.ledger_audit.specs.WalkState.{IsScrubRange, reported_at};

use crate::syndromes::syndrome_of;
use arrayvec::ArrayVec;
use lf_model::bus::{Transfer, TurnKind, Why};
use lf_model::image::Range;
use lf_model::place::Place;
use lf_model::setup::Setup;
use lf_model::trace::Trace;
use std::marker::Model;

/// The scrubber's number as a master of the bus.
const MASTER: u32 = 8;

/// The walk of the scrubber along its range, as far as its transfers have come.
#[derive(Drop)]
pub(crate) struct Walk {
    range: Range,
    /// The line that it looks at next.
    line: u32,
    /// The words that it still has to fix.
    noted: ArrayVec<u32, 8>,
    turns: u32,
}

impl Model for Walk {
    ghost use Rattle.ledger_audit.specs.WalkState.{WalkState};

    ghost Value = { WalkState };

    ghost use Rattle.ledger_audit.specs.WalkInside.{seen, IsWalk};

    ghost view = { seen };

    ghost invariant = { IsWalk };
}

/// The words that a look read not clean.
fn words_noted(look: &Transfer) -> ArrayVec<u32, 8>
    requires few { look.now.words ≤ 8 }
    requires line { look.now.addr + 32 ≤ 2 ^ 32 }
    ensures { result.items ≡ words_noted look.now }
{
    let mut noted = ArrayVec::new();
    for place in 0..look.words {
        if syndrome_of(look, place) != 0 {
            noted.push(look.addr + 4 * u32::from(place));
        }
    }
    noted
}

/// The transfer is this one, but for what memory answered: the number of words and their syndromes.
fn is_but_for_answer(transfer: &Transfer, asked: &Transfer) -> bool
    ensures { IsTrue result ↔ record asked.now { words = transfer.now.words; syn = transfer.now.syn } ≡ transfer.now }
{
    transfer.turn == asked.turn
        && transfer.master == asked.master
        && transfer.step == asked.step
        && transfer.addr == asked.addr
        && transfer.kind == asked.kind
        && transfer.why == asked.why
        && transfer.way == asked.way
        && transfer.len == asked.len
}

impl Walk {
    /// The walk along a range, before its first transfer.
    pub(crate) fn new(range: Range) -> Walk
        requires { IsScrubRange range }
        ensures { result ≡ record { range = range; walk = walk_start range } }
    {
        Walk {
            range,
            line: range.first,
            noted: ArrayVec::new(),
            turns: 0,
        }
    }

    /// How many transfers it made.
    pub(crate) fn turns(&self) -> u32
        ensures { result ≡ self.now.walk.turns }
    {
        self.turns
    }

    /// Its next transfer, at this turn of the bus, before memory answers.
    pub(crate) fn next(&self, turn: u32) -> Transfer
        ensures { result ≡ next_transfer turn self.now.walk self.now.walk.noted }
    {
        let (kind, addr) = if self.noted.is_empty() {
            (TurnKind::Look, self.line)
        } else {
            (TurnKind::Fix, self.noted[0])
        };
        Transfer {
            syn: 0,
            turn,
            master: MASTER,
            step: self.turns,
            addr,
            kind,
            why: Why::None,
            way: 0,
            words: 0,
            len: 0,
        }
    }

    /// The line after the one that it looks at next, round the range.
    fn next_line(&self) -> u32
        ensures { result ≡ next_line self.now.range self.now.walk.line }
    {
        if self.line + 32 == self.range.first + self.range.length {
            self.range.first
        } else {
            self.line + 32
        }
    }

    /// It makes its next transfer, to which memory answered this.
    pub(crate) fn advance(&mut self, made: &Transfer)
        requires few { made.now.words ≤ 8 }
        requires line { self.old.walk.noted ≡ [] → made.now.addr ≡ self.old.walk.line }
        requires turns { self.old.walk.turns + 1 < 2 ^ 32 }
        ensures { self.new ≡ record self.old { walk = walked self.old.range made.now self.old.walk self.old.walk.noted } }
    {
        if self.noted.is_empty() {
            self.noted = words_noted(made);
            self.line = self.next_line();
        } else {
            self.noted.remove(0);
        }
        self.turns += 1;
    }

    /// A transfer of the trace, at this turn, is the next of the walk, or another master's. Then the walk goes on.
    fn follow(&mut self, transfer: &Transfer, turn: u32) -> bool
        requires few { transfer.now.words ≤ 8 }
        requires turn { turn + 1 < 2 ^ 32 }
        requires turns { self.old.walk.turns ≤ turn }
        ensures walked { IsTrue result → self.new ≡ record self.old { walk = walk_by self.old.range self.old.walk transfer.now } }
        ensures turns { self.new.walk.turns ≤ turn + 1 }
        ensures right { IsTrue result → transfer.now.master ≡ scrubber → reported_at turn self.old.walk transfer.now ≡ transfer.now }
        ensures wrong { result ≡ false → (transfer.now.master ≡ scrubber → reported_at turn self.old.walk transfer.now ≡ transfer.now) → ⊥ }
    {
        if transfer.master != MASTER {
            return true;
        }
        if !is_but_for_answer(transfer, &self.next(turn)) {
            return false;
        }
        self.advance(transfer);
        true
    }
}

/// The first transfer of the scrubber that is not the next of its walk: it looks at its range line by line, round and round, and after
/// each look makes one fix for each word that the look read not clean, in the order of their addresses. Then, at the end, whether it
/// made all of its turns. What memory answered is taken as it is reported.
///
/// It takes time by transfers, and no memory.
pub fn scrub_walk(setup: &Setup, trace: &Trace) -> Option<Place>
    requires range { IsScrubRange setup.now.config.scrub }
    requires few { length trace.now.transfers < 2 ^ 32 }
    requires words { All (λ t. t.words ≤ 8) trace.now.transfers }
    ensures first { WalkFailsFirst setup.now trace.now result }
{
    let mut walk = Walk::new(setup.config.scrub);
    for (turn, transfer) in trace.transfers.as_slice().iter().enumerate() {
        if !walk.follow(transfer, turn as u32) {
            return Some(Place::Transfer(turn as u32));
        }
    }
    if walk.turns() == setup.config.scrub_turns {
        None
    } else {
        Some(Place::Final)
    }
}
