ghost use Rattle.std.specs.Prelude.{◌≡◌, ◌↔◌, ◌<◌, ◌≤◌, ◌+◌, ◌-◌, ◌^◌, ◌&&◌, ℕ, true, None, max, nat_le, length, slice_index, slice_index_or, if◌then◌else◌, IsTrue, IfOk, IfSome};
ghost use Rattle.lf_model.specs.Operation.{of_core, reads, enters, made, touches, byte_of, byte_got, byte_put};
ghost use Rattle.lf_model.specs.Order.{LoadOpAt, StoreStoreAt};
ghost use Rattle.lf_model.specs.Places.{AtPlace, FailsFirstIn, FailsNowhereIn};
ghost use Rattle.lf_model.specs.Start.{ram_first, is_in_ram};
ghost use Rattle.lf_model.specs.Value.{ValueAt};
ghost use Rattle.ram_words.specs.Ram.{IsInRam};
ghost use Rattle.tso_audit.specs.FirstPlaces.{HasCoresBelow, LieInRam, HaveEightBytes, ValueFailsFirst};
ghost use Rattle.tso_audit.specs.LastPlaces.{store_of, at_address, byte_before, HasLaterPlaces, AreBeforeReads, start_in, ValueOf, earlier_of};
ghost use Rattle.tso_thread.specs.ReplayState.{no_op};

use crate::sequence::{reads, stores};
use lf_model::addresses::RAM_FIRST;
use lf_model::bus::OpKind;
use lf_model::place::Place;
use lf_model::setup::Setup;
use lf_model::trace::{Op, Trace};
use ram_words::initial_bytes;
use std::alloc::{AllocError, Global};

/// A load or an atomic of a core.
fn is_read_of(op: &Op, core: u32) -> bool
    ensures { result ≡ (reads op.now && of_core core op.now) }
{
    reads(op) && op.core == core
}

/// A store or an atomic of a core, lost or not.
fn is_store_of(op: &Op, core: u32) -> bool
    ensures { result ≡ store_of core op.now }
{
    stores(op) && op.core == core
}

/// It reaches memory with a number stored.
fn enters(op: &Op) -> bool
    ensures { result ≡ enters op.now }
{
    matches!(op.kind, OpKind::Store | OpKind::Atomic)
}

/// Byte `i`, from the most significant, of a number of `len` bytes.
fn byte_of(value: u64, len: u8, i: u8) -> u8
    requires len { len ≤ 8 }
    requires within { i < len }
    ensures { result ≡ byte_of value len i }
{
    let after = u32::from(len - 1 - i);
    ((value >> (8 * after)) % 256) as u8
}

/// The byte that an operation stores at an address that it touches.
fn byte_put(op: &Op, addr: u32) -> u8
    requires len { op.now.len ≤ 8 }
    requires touched { IsTrue (touches addr (made op.now)) }
    ensures { result ≡ byte_put addr (made op.now) }
{
    byte_of(op.put, op.len, (addr - op.addr) as u8)
}

/// Notes that the bytes of an operation are put just before this place, unless a later one is noted there.
fn note(places: &mut [u32], op: &Op, place: u32)
    requires ram { IsTrue (is_in_ram (length places.old) op.now.addr op.now.len) }
    ensures places { (x : ℕ) → x < length places.old
        → slice_index places.new x ≡ max (slice_index places.old x) (if touches (ram_first + x) (made op.now) then place else 0) }
{
    let first = (op.addr - RAM_FIRST) as usize;
    for x in first..first + usize::from(op.len) {
        places[x] = places[x].max(place);
    }
}

/// Notes a store or an atomic that reaches memory.
pub(crate) fn note_entered(places: &mut [u32], op: &Op, place: u32)
    requires ram { IsTrue (is_in_ram (length places.old) op.now.addr op.now.len) }
    ensures places { (x : ℕ) → x < length places.old
        → slice_index places.new x ≡ max (slice_index places.old x) (if at_address (ram_first + x) enters op.now then place else 0) }
{
    if enters(op) {
        note(places, op, place);
    }
}

/// Notes a store or an atomic of a core, lost or not.
fn note_store_of(places: &mut [u32], op: &Op, core: u32, place: u32)
    requires ram { IsTrue (is_in_ram (length places.old) op.now.addr op.now.len) }
    ensures places { (x : ℕ) → x < length places.old
        → slice_index places.new x ≡ max (slice_index places.old x) (if at_address (ram_first + x) (store_of core) op.now then place else 0) }
{
    if is_store_of(op, core) {
        note(places, op, place);
    }
}

/// A store or an atomic of a core whose number is not below `k`.
fn is_later_store(op: &Op, core: u32, k: u32) -> bool
    ensures { result ≡ (store_of core op.now && nat_le k op.now.k) }
{
    is_store_of(op, core) && k <= op.k
}

/// Notes the stores and atomics of a core from place `from` on, up to the first whose number is not below `k`. Its place is the
/// result, or the length of the order where there is none.
fn note_own(places: &mut [u32], order: &[Op], core: u32, k: u32, from: usize) -> usize
    requires within { from ≤ length order.now }
    requires few { length order.now < 2 ^ 32 }
    requires ram { LieInRam (length places.old) order.now }
    ensures places { (i : ℕ) → HasLaterPlaces order.now core i from places.old → HasLaterPlaces order.now core i result places.new }
    ensures ordered { from ≤ result }
    ensures within { result ≤ length order.now }
    ensures below { (j : ℕ) → from ≤ j → j < result → store_of core (slice_index_or order.now j no_op) ≡ true
        → (slice_index_or order.now j no_op).k < k }
    ensures stops { result < length order.now
        → (store_of core (slice_index_or order.now result no_op) && nat_le k (slice_index_or order.now result no_op).k) ≡ true }
{
    for j in from..order.len() {
        if is_later_store(&order[j], core, k) {
            return j;
        }
        note_store_of(places, &order[j], core, j as u32 + 1);
    }
    order.len()
}

/// The byte of RAM at an address that stands after its later place: that which the operation before the place put, or that at the
/// start.
pub(crate) fn byte_before(order: &[Op], at_start: &[u8], places: &[u32], addr: u32) -> u8
    requires first { ram_first ≤ addr }
    requires end { addr - ram_first < length places.now }
    requires same_size { length at_start.now ≡ length places.now }
    requires within { slice_index places.now (addr - ram_first) ≤ length order.now }
    requires lengths { HaveEightBytes order.now }
    requires touched { 0 < slice_index places.now (addr - ram_first)
        → IsTrue (touches addr (made (slice_index_or order.now (slice_index places.now (addr - ram_first) - 1) no_op))) }
    ensures { result ≡ byte_before order.now addr (start_in at_start.now addr) (slice_index places.now (addr - ram_first)) }
{
    let x = (addr - RAM_FIRST) as usize;
    let place = places[x] as usize;
    if place == 0 {
        return at_start[x];
    }
    byte_put(&order[place - 1], addr)
}

/// Each byte that a load or an atomic reads is that which stands after its later place.
fn reads_the_last(order: &[Op], at_start: &[u8], places: &[u32], op: &Op) -> bool
    requires ram { IsTrue (is_in_ram (length places.now) op.now.addr op.now.len) }
    requires small { length places.now ≤ 2 ^ 24 }
    requires same_size { length at_start.now ≡ length places.now }
    requires len { op.now.len ≤ 8 }
    requires lengths { HaveEightBytes order.now }
    requires within { (x : ℕ) → x < length places.now → slice_index places.now x ≤ length order.now }
    requires touched { (x : ℕ) → x < length places.now → 0 < slice_index places.now x
        → IsTrue (touches (ram_first + x) (made (slice_index_or order.now (slice_index places.now x - 1) no_op))) }
    ensures { IsTrue result ↔ ((a : ℕ) → touches a (made op.now) ≡ true
        → byte_got a (made op.now) ≡ byte_before order.now a (start_in at_start.now a) (slice_index places.now (a - ram_first))) }
{
    for i in 0..op.len {
        let addr = op.addr + u32::from(i);
        if byte_of(op.got, op.len, i) != byte_before(order, at_start, places, addr) {
            return false;
        }
    }
    true
}

/// Tries Value at place `i`, if a load or an atomic of the core stands there, once its own stores before it are noted: the place
/// from which on they are not noted yet, or None where a byte is not what Value says.
fn try_read(
    places: &mut [u32],
    order: &[Op],
    at_start: &[u8],
    core: u32,
    i: usize,
    own: usize,
) -> Option<usize>
    requires place { i < length order.now }
    requires few { length order.now < 2 ^ 32 }
    requires small { length at_start.now ≤ 2 ^ 24 }
    requires same_size { length at_start.now ≡ length places.old }
    requires ram { LieInRam (length at_start.now) order.now }
    requires lengths { HaveEightBytes order.now }
    requires load_op { FailsNowhereIn LoadOpAt order.now }
    requires store_store { FailsNowhereIn StoreStoreAt order.now }
    requires within { own ≤ length order.now }
    requires noted { HasLaterPlaces order.now core i own places.old }
    requires before { AreBeforeReads order.now core i own }
    ensures right { IfSome result (λ next. AtPlace (ValueOf core (start_in at_start.now)) order.now i) }
    ensures within { IfSome result (λ next. next ≤ length order.now) }
    ensures noted { IfSome result (λ next. HasLaterPlaces order.now core i next places.new) }
    ensures before { IfSome result (λ next. AreBeforeReads order.now core i next) }
    ensures wrong { result ≡ None → AtPlace (ValueOf core (start_in at_start.now)) order.now i → ⊥ }
{
    if !is_read_of(&order[i], core) {
        return Some(own);
    }
    let next = note_own(places, order, core, order[i].k, own);
    if reads_the_last(order, at_start, places, &order[i]) {
        Some(next)
    } else {
        None
    }
}

/// The first load or atomic of a core that does not read what Value says, by a table in which nothing is noted yet.
fn first_wrong_read_by(
    places: &mut [u32],
    order: &[Op],
    at_start: &[u8],
    core: u32,
) -> Option<usize>
    requires few { length order.now < 2 ^ 32 }
    requires small { length at_start.now ≤ 2 ^ 24 }
    requires same_size { length at_start.now ≡ length places.old }
    requires ram { LieInRam (length at_start.now) order.now }
    requires lengths { HaveEightBytes order.now }
    requires load_op { FailsNowhereIn LoadOpAt order.now }
    requires store_store { FailsNowhereIn StoreStoreAt order.now }
    requires nothing_noted { HasLaterPlaces order.now core 0 0 places.old }
    ensures { FailsFirstIn (ValueOf core (start_in at_start.now)) order.now result }
{
    // The stores and atomics of the core from this place on are not noted yet, but for those in memory so far.
    let mut own = 0;
    for (i, op) in order.iter().enumerate() {
        match try_read(places, order, at_start, core, i, own) {
            Some(next) => own = next,
            None => return Some(i),
        }
        note_entered(places, op, i as u32 + 1);
    }
    None
}

/// The first load or atomic of a core that does not read what Value says.
fn first_wrong_read(
    alloc: Global,
    order: &[Op],
    at_start: &[u8],
    core: u32,
) -> Result<Option<usize>, AllocError>
    requires few { length order.now < 2 ^ 32 }
    requires small { length at_start.now ≤ 2 ^ 24 }
    requires ram { LieInRam (length at_start.now) order.now }
    requires lengths { HaveEightBytes order.now }
    requires load_op { FailsNowhereIn LoadOpAt order.now }
    requires store_store { FailsNowhereIn StoreStoreAt order.now }
    ensures { IfOk result (FailsFirstIn (ValueOf core (start_in at_start.now)) order.now) }
{
    // Of each byte of RAM one more than the later of two places, and 0 where it has none: that of the last store or atomic in memory
    // so far, and that of the last of this core's that the program makes before the last read.
    let mut places = vec![in alloc; 0u32; at_start.len()]?;
    Ok(first_wrong_read_by(&mut places, order, at_start, core))
}

/// The lesser of two places, where there are any.
fn earlier(a: Option<usize>, b: Option<usize>) -> Option<usize>
    ensures { result ≡ earlier_of a b }
{
    match (a, b) {
        (Some(a), Some(b)) => Some(a.min(b)),
        (Some(a), None) => Some(a),
        (None, b) => b,
    }
}

/// The first load or atomic of all cores that does not read what Value says.
fn first_wrong_read_of_all(
    alloc: Global,
    order: &[Op],
    at_start: &[u8],
    cores: u32,
) -> Result<Option<usize>, AllocError>
    requires few { length order.now < 2 ^ 32 }
    requires small { length at_start.now ≤ 2 ^ 24 }
    requires cores { HasCoresBelow cores order.now }
    requires ram { LieInRam (length at_start.now) order.now }
    requires lengths { HaveEightBytes order.now }
    requires load_op { FailsNowhereIn LoadOpAt order.now }
    requires store_store { FailsNowhereIn StoreStoreAt order.now }
    ensures { IfOk result (FailsFirstIn (ValueAt (start_in at_start.now)) order.now) }
{
    let mut first = None;
    for core in 0..cores {
        first = earlier(first, first_wrong_read(alloc, order, at_start, core)?);
    }
    Ok(first)
}

/// The first place at which Value fails, of a trace whose operations lie in RAM, are of cores of the setup, and keep LoadOp and
/// StoreStore: each byte that a load or an atomic reads is that of the later, in memory order, of the last store or atomic in memory
/// before it and the last of its own core that the program makes before it, else that at the start (SPARC V8, appendix K).
///
/// A pass for each core keeps a table of places by the bytes of RAM, four bytes for each: it takes time by cores times operations,
/// and no more memory than five times the RAM.
///
/// # Errors
///
/// Memory ran out.
pub fn value(alloc: Global, setup: &Setup, trace: &Trace) -> Result<Option<Place>, AllocError>
    requires few_operations { length trace.now.order < 2 ^ 32 }
    requires ram { setup.now.config.ram ≤ 2 ^ 24 }
    requires image { IsInRam setup.now.config.ram setup.now.image }
    requires cores { HasCoresBelow setup.now.config.cores trace.now.order }
    requires addresses { LieInRam setup.now.config.ram trace.now.order }
    requires lengths { HaveEightBytes trace.now.order }
    requires load_op { FailsNowhereIn LoadOpAt trace.now.order }
    requires store_store { FailsNowhereIn StoreStoreAt trace.now.order }
    ensures first { IfOk result (ValueFailsFirst setup.now trace.now) }
{
    let at_start = initial_bytes(alloc, setup.config.ram, &setup.image)?;
    let order = trace.order.as_slice();
    match first_wrong_read_of_all(alloc, order, &at_start, setup.config.cores)? {
        Some(place) => Ok(Some(Place::Order(place as u32))),
        None => Ok(None),
    }
}
