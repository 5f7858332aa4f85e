ghost use Rattle.std.specs.Prelude.{◌≡◌, ◌↔◌, ◌+◌, ◌-◌, ◌*◌, ◌<◌, ◌≤◌, ◌^◌, ◌++◌, ◌∷◌, [], ℕ, length, IsTrue, IfOk, replicate, slice_set};
ghost use Rattle.lf_model.specs.Operation.{made, kind_made};
ghost use Rattle.lf_model.specs.State.{cell};
ghost use Rattle.tso_thread.specs.ReplayInside.{answering_in, seen_in, room_in};
ghost use Rattle.tso_thread.specs.ReplayState.{ReadsFit, IsFront, IsNextEntry, read_next, is_load, is_atomic, is_read_at};

use crate::made::NothingMade;
use crate::program::Program;
use crate::replay::Replay;
use ghost_value::Ghost;
use lf_model::addresses;
use lf_model::bus::{Entry, OpKind, Why};
use lf_model::step::{Full, Look, RegBad};
use lf_model::trace::Op;
use std::alloc::{AllocError, Global};
use v8_exec::Ports;

/// A load of these bytes.
fn is_load_at(op: &Op, addr: u32, len: u8) -> bool
    ensures { result ≡ is_read_at is_load op.now addr len }
{
    matches!(op.kind, OpKind::Load) && op.addr == addr && op.len == len
}

/// An atomic on these bytes.
fn is_atomic_at(op: &Op, addr: u32, len: u8) -> bool
    ensures { result ≡ is_read_at is_atomic op.now addr len }
{
    matches!(op.kind, OpKind::Atomic) && op.addr == addr && op.len == len
}

/// The kind that a program makes: a lost store is a store.
fn is_kind_made(kind: OpKind, of: OpKind) -> bool
    ensures { IsTrue result ↔ kind ≡ kind_made of }
{
    match of {
        OpKind::Load => matches!(kind, OpKind::Load),
        OpKind::Store | OpKind::Lost => matches!(kind, OpKind::Store),
        OpKind::Atomic => matches!(kind, OpKind::Atomic),
    }
}

/// An operation of the trace as the program makes it.
fn is_made(entry: &Entry, op: &Op) -> bool
    ensures { IsTrue result ↔ entry.now ≡ made op.now }
{
    is_kind_made(entry.kind, op.kind)
        && entry.core == op.core
        && entry.k == op.k
        && entry.addr == op.addr
        && entry.len == op.len
        && entry.got == op.got
        && entry.put == op.put
}

impl<'a> Replay<'a> {
    /// The parts of a core at reset, with room for so many bytes of output.
    ///
    /// # Errors
    ///
    /// Memory ran out.
    pub(crate) fn new(
        alloc: Global,
        program: &'a Program<'a>,
        ops: &'a [Op],
        core: u32,
        room: u32,
    ) -> Result<Replay<'a>, AllocError>
        requires fit { ReadsFit ops.now }
        ensures program { IfOk result (λ replay. replay.program.now.setup.now ≡ program.entry.now.setup.now) }
        ensures ops { IfOk result (λ replay. replay.ops.now ≡ ops.entry.now) }
        ensures core { IfOk result (λ replay. replay.core ≡ core) }
        ensures cells { IfOk result (λ replay. replay.cells ≡ slice_set (replicate 136 0) (cell 0 8) core) }
        ensures empty { IfOk result (λ replay. (replay.out.items ≡ []) × (replay.made ≡ [])) }
        ensures room { room < 2 ^ 32 - 1 → IfOk result (λ replay. room ≤ room_in replay) }
    {
        let mut cells = [0; 136];
        cells[8] = core;
        Ok(Replay {
            program,
            ops,
            core,
            cells,
            out: Vec::with_capacity(alloc, room as usize)?,
            count: 0,
            agrees: true,
            made: Ghost::of(&NothingMade),
        })
    }

    /// The operations that were made are the first ones of the trace.
    pub(crate) fn agrees(&self) -> bool
        ensures { IsTrue result ↔ IsFront self.now.made self.now.ops.now }
    {
        self.agrees
    }

    /// The operations that were made are as many as those of the trace.
    pub(crate) fn is_whole(&self) -> bool
        ensures { IsTrue result ↔ length self.now.made ≡ length self.now.ops.now }
    {
        self.count == self.ops.len()
    }

    /// What the next operation of the trace read, if it is a load of these bytes.
    fn next_load(&self, addr: u32, len: u8) -> Option<u64>
        ensures { result ≡ read_next is_load (answering_in self.now) addr len }
    {
        match self.ops.get(self.count) {
            Some(op) if is_load_at(op, addr, len) => Some(op.got),
            _ => None,
        }
    }

    /// What the next operation of the trace read, if it is an atomic on these bytes.
    pub(crate) fn next_atomic(&self, addr: u32, len: u8) -> Option<u64>
        ensures { result ≡ read_next is_atomic (answering_in self.now) addr len }
    {
        match self.ops.get(self.count) {
            Some(op) if is_atomic_at(op, addr, len) => Some(op.got),
            _ => None,
        }
    }

    /// It is the next operation of the trace.
    fn is_next(&self, entry: &Entry) -> bool
        ensures { IsTrue result ↔ IsNextEntry self.now.ops.now (length self.now.made) entry.now }
    {
        match self.ops.get(self.count) {
            Some(op) => is_made(entry, op),
            None => false,
        }
    }

    /// With this one, too, the operations that were made are the first ones of the trace.
    fn agrees_with(&self, entry: &Entry) -> bool
        ensures { IsTrue result ↔ IsFront (self.now.made ++ entry.now ∷ []) self.now.ops.now }
    {
        self.agrees && self.is_next(entry)
    }

    /// Counts an operation that was made.
    pub(crate) fn note(&mut self, kind: OpKind, addr: u32, len: u8, got: u64, put: u64)
        requires room { 0 < room_in self.old }
        ensures seen { seen_in self.new ≡ record (seen_in self.old) {
          ops = self.old.made
              ++ record { got = got; put = put; core = self.old.core; k = length self.old.made; addr = addr; kind = kind; len = len } ∷ [];
        } }
        ensures ops { self.new.ops ≡ self.old.ops }
        ensures made { length self.new.made ≡ length self.old.made + 1 }
        ensures room { room_in self.old ≤ room_in self.new + 1 }
    {
        let entry = Entry {
            got,
            put,
            core: self.core,
            k: self.count as u32,
            addr,
            kind,
            len,
        };
        self.agrees = self.agrees_with(&entry);
        self.count += 1;
        self.made.change(&entry);
    }
}

impl<'a> Ports for Replay<'a> {
    ghost use Rattle.tso_thread.specs.ReplayInside.{answering_in, seen_in, room_in};
    ghost use Rattle.tso_thread.specs.ReplayState.{Answering, replay_touch, replay_answers};

    ghost State = { Answering };

    ghost state = { answering_in };

    ghost touch = { replay_touch };

    ghost answers = { replay_answers };

    ghost seen = { seen_in };

    ghost room = { room_in };

    fn reg(&mut self, cell: usize) -> Result<u32, RegBad> {
        Ok(self.cells[cell])
    }

    fn set_reg(&mut self, cell: usize, v: u32) {
        self.cells[cell] = v;
    }

    fn load(&mut self, addr: u32, len: u8) -> Look {
        match self.next_load(addr, len) {
            Some(value) => {
                self.note(OpKind::Load, addr, len, value, 0);
                Look::Hit { value, way: 0 }
            }
            None => Look::Miss(Why::Absent),
        }
    }

    fn store(&mut self, addr: u32, len: u8, value: u64) -> Result<(), Full> {
        self.note(OpKind::Store, addr, len, 0, value);
        Ok(())
    }

    fn waiting(&self) -> bool {
        false
    }

    fn is_text(&self, addr: u32, len: u8) -> bool {
        self.program.touches_text(addr, len)
    }

    fn in_ram(&self, addr: u32, len: u8) -> bool {
        addresses::is_in_ram(self.program.setup.config.ram, addr, len)
    }

    fn out(&mut self, byte: u8) {
        if self.out.push(byte).is_err() {
            unreachable!()
        }
    }

    fn flush(&mut self) {}
}
