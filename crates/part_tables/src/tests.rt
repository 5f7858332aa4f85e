use std::process::Abort;

mod arithmetic;
mod buffer;
mod byte_parity;
mod caches;
mod cells;
mod decoding;
mod encoding;
mod flips;
mod image_memory;
mod memory;
mod numbers;
mod products;
mod registers;
mod text;
mod traps;
mod windows;
mod word_code;

/// The row of a table, known by one of its numbers, is as the calls answer. (An assertion with a message of its own in each loop
/// would cost the prover three times as much.)
fn expect(rt: &impl Abort, row: u32, holds: bool) {
    assert!(rt; holds, "row of {row:x}");
}
