ghost use Rattle.std.specs.Prelude.{◌≡◌, ◌↔◌, ◌<◌, ◌+◌, ◌^◌, ◌&&◌, ℕ, None, Some, length, filter, slice_index_or, if◌then◌else◌, IsTrue, List};
ghost use Rattle.std.specs.List.{range_with_len};
ghost use Rattle.std.specs.Option.{ForSome};
ghost use Rattle.lf_model.specs.Course.Core.{is_store};
ghost use Rattle.lf_model.specs.Ledger.CoreAccount.{lost_reported};
ghost use Rattle.lf_model.specs.Once.{OnceAtCore};
ghost use Rattle.lf_model.specs.Operation.{of_core, is_lost};
ghost use Rattle.lf_model.specs.ProgramOrder.{program_order};
ghost use Rattle.lf_model.specs.declared.trace.Op.{Op};
ghost use Rattle.ledger_audit.specs.LostStores.{is_kept, lost_with, none_before, before_with, lost_of, before_of, TellsLost};

use crate::given::Stores;
use crate::sorted::is_lost;
use lf_model::bus::OpKind;
use lf_model::trace::Op;

/// The lost stores of a core: how many, and the numbers of the first and the last in its program.
#[derive(Clone, Copy)]
struct Lost {
    count: u32,
    first: u32,
    last: u32,
}

/// How many stores of a core reached memory that come in its program before the first, and before the last, of its lost stores.
#[derive(Clone, Copy)]
struct Before {
    first: u32,
    last: u32,
}

/// The lost stores of each core, and the stores before them.
#[derive(Drop)]
pub(crate) struct LostStores {
    lost: [Option<Lost>; 8],
    before: [Before; 8],
}

/// A store that reached memory.
fn is_kept(op: &Op) -> bool
    ensures { result ≡ is_kept op.now }
{
    matches!(op.kind, OpKind::Store)
}

/// The lost stores of a core with one more.
fn lost_with(lost: Option<Lost>, number: u32) -> Lost
    requires few { ForSome lost (λ l. l.count + 1 < 2 ^ 32) }
    ensures { result ≡ lost_with lost number }
{
    match lost {
        Some(lost) => Lost {
            count: lost.count + 1,
            first: lost.first.min(number),
            last: lost.last.max(number),
        },
        None => Lost {
            count: 1,
            first: number,
            last: number,
        },
    }
}

/// Notes an operation, if that is a lost store.
fn note_lost(lost: &mut [Option<Lost>; 8], op: &Op)
    requires few { (c : ℕ) → c < 8 → ForSome (slice_index_or lost.old c None) (λ l. l.count + 1 < 2 ^ 32) }
    ensures { (c : ℕ) → c < 8
        → slice_index_or lost.new c None ≡ (if of_core c op.now && is_lost op.now then Some (lost_with (slice_index_or lost.old c None) op.now.k) else slice_index_or lost.old c None) }
{
    if !is_lost(op) || op.core >= 8 {
        return;
    }
    let core = op.core as usize;
    lost[core] = Some(lost_with(lost[core], op.k));
}

/// The lost stores of each core.
fn lost_in(order: &[Op]) -> [Option<Lost>; 8]
    requires few { length order.now < 2 ^ 32 }
    ensures { (c : ℕ) → c < 8 → slice_index_or result c None ≡ lost_of c order.now }
{
    let mut lost = [None; 8];
    for place in (0..order.len()).rev() {
        note_lost(&mut lost, &order[place]);
    }
    lost
}

/// The stores before the lost ones of a core, with one more that has this number, if it comes before them.
fn before_with(lost: Option<Lost>, number: u32, before: Before) -> Before
    requires few_first { before.first + 1 < 2 ^ 32 }
    requires few_last { before.last + 1 < 2 ^ 32 }
    ensures { result ≡ before_with lost number before }
{
    match lost {
        Some(lost) => Before {
            first: before.first + u32::from(number < lost.first),
            last: before.last + u32::from(number < lost.last),
        },
        None => before,
    }
}

/// Counts an operation, if that is a store which reached memory and comes before the lost stores of its core.
fn note_kept(before: &mut [Before; 8], lost: &[Option<Lost>; 8], op: &Op)
    requires few_first { (c : ℕ) → c < 8 → (slice_index_or before.old c none_before).first + 1 < 2 ^ 32 }
    requires few_last { (c : ℕ) → c < 8 → (slice_index_or before.old c none_before).last + 1 < 2 ^ 32 }
    ensures { (c : ℕ) → c < 8
        → slice_index_or before.new c none_before ≡ (if of_core c op.now && is_kept op.now then before_with (slice_index_or lost.now c None) op.now.k (slice_index_or before.old c none_before) else slice_index_or before.old c none_before) }
{
    if !is_kept(op) || op.core >= 8 {
        return;
    }
    let core = op.core as usize;
    before[core] = before_with(lost[core], op.k, before[core]);
}

/// The stores before the lost ones of each core.
fn before_in(order: &[Op], lost: &[Option<Lost>; 8]) -> [Before; 8]
    requires few { length order.now < 2 ^ 32 }
    ensures { (c : ℕ) → c < 8 → slice_index_or result c none_before ≡ before_of c (slice_index_or lost.now c None) order.now }
{
    let mut before = [Before { first: 0, last: 0 }; 8];
    for place in (0..order.len()).rev() {
        note_kept(&mut before, lost, &order[place]);
    }
    before
}

/// The lost stores of each core in an order.
///
/// It takes time by operations, and no memory.
pub(crate) fn lost_stores(order: &[Op]) -> LostStores
    requires few { length order.now < 2 ^ 32 }
    ensures { TellsLost order.now result }
{
    let lost = lost_in(order);
    LostStores {
        lost,
        before: before_in(order, &lost),
    }
}

/// The lost stores of a core are these: as many, with as many stores before the first of them as before the last.
fn are_these(lost: Lost, before: Before, given: Stores) -> bool
    ensures { IsTrue result ↔ ((lost.count ≡ given.count) × (before.first ≡ given.first) × (before.last ≡ given.first)) }
{
    lost.count == given.count && before.first == given.first && before.last == given.first
}

impl LostStores {
    /// The lost stores of a core are these.
    pub(crate) fn are(&self, core: u32, given: Stores) -> bool
        requires core { core < 8 }
        ensures { (order : List Op) → TellsLost order self.now → OnceAtCore order core
            → (IsTrue result ↔ range_with_len given.first given.count ≡ lost_reported (filter is_store (program_order core order))) }
    {
        match self.lost[core as usize] {
            Some(lost) => are_these(lost, self.before[core as usize], given),
            None => given.count == 0,
        }
    }
}
