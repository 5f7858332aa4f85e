ghost use Rattle.std.specs.Prelude.{◌≡◌, ◌↔◌, ◌<◌, ◌≤◌, ◌+◌, ◌-◌, ◌^◌, ℕ, All, length, slice_index, slice_index_or, IsTrue, IfOk, IfSome, slice_get};
ghost use Rattle.lf_model.specs.Operation.{made, touches};
ghost use Rattle.lf_model.specs.Places.{FailsNowhere};
ghost use Rattle.lf_model.specs.Results.{ResultAtFinal};
ghost use Rattle.lf_model.specs.Start.{ram_first, is_in_ram, number_at};
ghost use Rattle.ram_words.specs.Ram.{IsInRam};
ghost use Rattle.tso_audit.specs.FirstPlaces.{LieInRam, HaveEightBytes, WatchRam};
ghost use Rattle.tso_audit.specs.LastPlaces.{HasLaterPlaces, byte_left, ShowsLeft};
ghost use Rattle.tso_thread.specs.ReplayState.{no_op};

use crate::reading::{byte_before, note_entered};
use lf_model::setup::Setup;
use lf_model::trace::{Op, Trace, Word2};
use ram_words::initial_bytes;
use std::alloc::{AllocError, Global};

/// Notes all stores and atomics that reach memory, in a table in which nothing is noted yet.
fn note_all(places: &mut [u32], order: &[Op])
    requires few { length order.now < 2 ^ 32 }
    requires ram { LieInRam (length places.old) order.now }
    requires nothing_noted { HasLaterPlaces order.now 0 0 0 places.old }
    ensures { HasLaterPlaces order.now 0 (length order.now) 0 places.new }
{
    for (i, op) in order.iter().enumerate() {
        note_entered(places, op, i as u32 + 1);
    }
}

/// The big-endian word of RAM at an address that stands after the places of its bytes.
#[tactic(auto, unfolding(lf_model::specs::Start::number_at))]
fn word_left(order: &[Op], at_start: &[u8], places: &[u32], addr: u32) -> u32
    requires ram { IsTrue (is_in_ram (length places.now) addr 4) }
    requires small { length places.now ≤ 2 ^ 24 }
    requires same_size { length at_start.now ≡ length places.now }
    requires lengths { HaveEightBytes order.now }
    requires within { (x : ℕ) → x < length places.now → slice_index places.now x ≤ length order.now }
    requires touched { (x : ℕ) → x < length places.now → 0 < slice_index places.now x
        → IsTrue (touches (ram_first + x) (made (slice_index_or order.now (slice_index places.now x - 1) no_op))) }
    ensures { result ≡ number_at (byte_left order.now at_start.now places.now) addr 4 }
{
    u32::from_be_bytes([
        byte_before(order, at_start, places, addr),
        byte_before(order, at_start, places, addr + 1),
        byte_before(order, at_start, places, addr + 2),
        byte_before(order, at_start, places, addr + 3),
    ])
}

/// A watched word has no value, or that which stands in RAM after the places of its bytes.
fn shows_word(order: &[Op], at_start: &[u8], places: &[u32], word: &Word2) -> bool
    requires ram { IsTrue (is_in_ram (length places.now) word.now.addr 4) }
    requires small { length places.now ≤ 2 ^ 24 }
    requires same_size { length at_start.now ≡ length places.now }
    requires lengths { HaveEightBytes order.now }
    requires within { (x : ℕ) → x < length places.now → slice_index places.now x ≤ length order.now }
    requires touched { (x : ℕ) → x < length places.now → 0 < slice_index places.now x
        → IsTrue (touches (ram_first + x) (made (slice_index_or order.now (slice_index places.now x - 1) no_op))) }
    ensures { IsTrue result ↔ ShowsLeft order.now at_start.now places.now word.now }
{
    match word.value {
        Some(value) => value == word_left(order, at_start, places, word.addr),
        None => true,
    }
}

/// Each watched word shows what is left in RAM.
fn show_words(order: &[Op], at_start: &[u8], places: &[u32], watch: &[Word2]) -> bool
    requires ram { WatchRam (length places.now) watch.now }
    requires small { length places.now ≤ 2 ^ 24 }
    requires same_size { length at_start.now ≡ length places.now }
    requires lengths { HaveEightBytes order.now }
    requires noted { HasLaterPlaces order.now 0 (length order.now) 0 places.now }
    ensures { IsTrue result ↔ ((i : ℕ) → i < length watch.now → IfSome (slice_get watch.now i) (ShowsLeft order.now at_start.now places.now)) }
{
    for word in watch {
        if !shows_word(order, at_start, places, word) {
            return false;
        }
    }
    true
}

/// Whether each watched word of a trace that has a value has that of memory at the end, in a trace whose operations and watched
/// words lie in RAM. It is the part of Result that stands for the whole trace.
///
/// # Errors
///
/// Memory ran out.
pub fn watched_words(alloc: Global, setup: &Setup, trace: &Trace) -> Result<bool, AllocError>
    requires few_operations { length trace.now.order < 2 ^ 32 }
    requires ram { setup.now.config.ram ≤ 2 ^ 24 }
    requires image { IsInRam setup.now.config.ram setup.now.image }
    requires addresses { LieInRam setup.now.config.ram trace.now.order }
    requires lengths { HaveEightBytes trace.now.order }
    requires watch { WatchRam setup.now.config.ram trace.now.watch }
    ensures right { IfOk result (λ right. IsTrue right ↔ FailsNowhere (length trace.now.watch) (ResultAtFinal setup.now trace.now)) }
{
    let at_start = initial_bytes(alloc, setup.config.ram, &setup.image)?;
    let order = trace.order.as_slice();
    let mut places = vec![in alloc; 0u32; at_start.len()]?;
    note_all(&mut places, order);
    Ok(show_words(order, &at_start, &places, trace.watch.as_slice()))
}
