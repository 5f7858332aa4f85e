use std::process::Abort;

mod log;
mod scrubbing;
mod status;
mod turns;

/// The row of a table, known by one of its numbers, is as the calls answer. (An assertion with a message of its own in each loop
/// would cost the prover three times as much.)
fn expect(rt: &impl Abort, row: u32, holds: bool) {
    assert!(rt; holds, "row of {row:x}");
}
