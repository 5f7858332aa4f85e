use std::process::Abort;

mod errors;
mod images;
mod read_back;
mod reports;
mod texts;

/// The row of a table, by its number, is as the calls answer. (An assertion with a message of its own in each loop would cost the
/// prover three times as much.)
fn expect(rt: &impl Abort, row: usize, holds: bool) {
    assert!(rt; holds, "row {row}");
}
