ghost use Rattle.std.specs.Prelude.{◌≡◌, ◌+◌, ◌^◌, ◌<◌, true, length, vec_len, IfOk};
ghost use Rattle.std.specs.List.{list_all};
ghost use Rattle.std.specs.Vec.{vec_capacity};
ghost use Rattle.core_laws.specs.SeenSoFar.{lost_from, losing};
ghost use Rattle.core_parts.specs.RecordState.{reset_record, fits_bytes};
ghost use Rattle.core_parts.specs.Work.{with_operation};
ghost use Rattle.lf_model.specs.Promise.Regular.{is_regular_op};

use lf_model::bus::OpKind;
use lf_model::trace::Op;
use std::alloc::{AllocError, Global};
use std::marker::Model;

/// What a core made: its steps, how much of the log and of the transfers it has seen, and its memory operations.
#[derive(Drop)]
pub struct Record {
    core: u32,
    steps: u32,
    seen: u32,
    turns: u32,
    ops: Vec<Op>,
    seen_by: Vec<u32>,
}

impl Model for Record {
    ghost use Rattle.core_parts.specs.RecordState.{RecordState};

    ghost Value = { RecordState };

    ghost use Rattle.core_parts.specs.RecordInside.{kept, IsRecord};

    ghost view = { kept };

    ghost invariant = { IsRecord };
}

/// A memory operation as an instruction makes it.
#[derive(Clone, Copy, Debug)]
pub struct Operation {
    /// The number read by a load or an atomic, else 0.
    pub got: u64,
    /// The number stored by a store or an atomic, else 0.
    pub put: u64,
    pub kind: OpKind,
    pub addr: u32,
    pub len: u8,
    /// The way that a load hit, else 0.
    pub way: u8,
}

/// What a core leaves of its operations.
#[derive(Drop)]
pub struct Completed {
    /// The operations, in program order.
    pub ops: Vec<Op>,
    /// For each of them, how many entries of the log the core had seen as it retired.
    pub seen_by: Vec<u32>,
}

/// The operation, which is lost if it is a store from number `first` on.
fn lost_from(first: u32, op: Op) -> Op
    ensures { result ≡ lost_from first op }
{
    let is_store = matches!(op.kind, OpKind::Store | OpKind::Lost);
    if is_store && first <= op.k {
        Op {
            kind: OpKind::Lost,
            ..op
        }
    } else {
        op
    }
}

/// The stores from number `first` on are lost.
fn lose_from(ops: &mut Vec<Op>, first: u32)
    ensures items { ops.new.items ≡ losing first ops.old.items }
    ensures length { vec_len ops.new ≡ vec_len ops.old }
    ensures reserved { vec_capacity ops.new ≡ vec_capacity ops.old }
{
    for i in 0..ops.len() {
        ops[i] = lost_from(first, ops[i]);
    }
}

impl Record {
    /// The record of core number `core` before its first step, with room for so many operations.
    ///
    /// # Errors
    ///
    /// Memory ran out.
    pub fn new(alloc: Global, core: u32, room: u32) -> Result<Record, AllocError>
        ensures reset { IfOk result (λ r. r ≡ reset_record core room) }
    {
        Ok(Record {
            core,
            steps: 0,
            seen: 0,
            turns: 0,
            ops: Vec::with_capacity(alloc, room as usize)?,
            seen_by: Vec::with_capacity(alloc, room as usize)?,
        })
    }

    /// The core's number.
    pub fn core(&self) -> u32
        ensures number { result ≡ self.now.core }
    {
        self.core
    }

    /// How many steps the core made.
    pub fn steps(&self) -> u32
        ensures steps { result ≡ self.now.steps }
    {
        self.steps
    }

    /// How many entries the log had as its last turn ended.
    pub fn seen(&self) -> u32
        ensures entries { result ≡ self.now.seen }
    {
        self.seen
    }

    /// How many operations it made.
    pub fn made(&self) -> u32
        ensures operations { result ≡ length self.now.ops }
    {
        self.ops.len() as u32
    }

    /// Each operation is one that a report can show. The call computes nothing: what it ensures holds of every record.
    pub fn fits(&self)
        ensures fit { list_all is_regular_op self.now.ops ≡ true }
    {
        let _ = &self.ops;
    }

    /// A step ends.
    pub fn end_step(&mut self)
        requires room { self.old.steps + 1 < 2 ^ 32 }
        ensures ended { self.new ≡ record self.old { steps = self.old.steps + 1 } }
    {
        self.steps += 1;
    }

    /// The core has seen so many entries of the log.
    pub fn see(&mut self, entries: u32)
        ensures { self.new ≡ record self.old { seen = entries } }
    {
        self.seen = entries;
    }

    /// A turn ends, after which the bus has made so many transfers.
    pub fn end_turn(&mut self, turns: u32)
        ensures ended { self.new ≡ record self.old { turns = turns } }
    {
        self.turns = turns;
    }

    /// An operation retires in the step that is begun. It is of 1, 2, 4 or 8 bytes, and its numbers have no more.
    pub fn retire(&mut self, made: Operation)
        requires room { length self.old.ops < self.old.room }
        requires fits { fits_bytes self.old made ≡ true }
        ensures { self.new ≡ with_operation made self.old }
    {
        let op = Op {
            got: made.got,
            put: made.put,
            core: self.core,
            k: self.ops.len() as u32,
            step: self.steps,
            addr: made.addr,
            kind: made.kind,
            len: made.len,
            way: made.way,
        };
        self.ops.push_reserved(op);
        self.seen_by.push_reserved(self.seen);
    }

    /// The stores from number `first` on never reach memory.
    pub fn lose_from(&mut self, first: u32)
        ensures lost { self.new ≡ record self.old { ops = losing first self.old.ops } }
    {
        lose_from(&mut self.ops, first);
    }

    /// The operations, with no memory taken.
    pub fn into_completed(self) -> Completed
        ensures ops { result.ops.items ≡ self.ops }
        ensures seen_by { result.seen_by.items ≡ self.seen_by }
    {
        let Record { ops, seen_by, .. } = self;
        Completed { ops, seen_by }
    }
}
