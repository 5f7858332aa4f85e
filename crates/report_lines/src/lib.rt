//! The lines of a report, read back: each kind of line by a reader of its own.
//!
//! `specs/CoreLines.antt`, `specs/TransferLine.antt` and `specs/OutcomeLines.antt` say how each kind of line is read. The laws
//! in `proofs/` say that what is read was spelled so, and that what is spelled so is read.
#![tactic(auto)]

mod endings;
mod left;
mod operands;
mod outcome;
mod output;
mod registers;
mod syndromes;
mod transfer;

pub use endings::{Ending, end_line};
pub use left::{fits, passed};
pub use outcome::{fate, operation, status, watched};
pub use output::output_line;
pub use registers::{Control, control_line, parity_line, register_lines};
pub use transfer::transfer_line;
