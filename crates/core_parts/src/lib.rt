//! The parts of one core of the LEON3FT multiprocessor (GRLIB, LEON3FT): its register cells, parity caches and store buffer, the record
//! of what it made, and what holds of them.
//!
//! An instruction works on `Parts` through the ports of `v8_exec`. `Parts::begin_step` lets the flips of a step strike the arrays, and
//! `Arrays::fate` says what became of each flip. `good_words`, `good_text_words` and `good_wanted` read a line that a fill got.
//!
//! The definitions say what a core is (`specs/CoreValue.antt`), what its parts are to an instruction (`specs/Work.antt`), what a step needs
//! of them (`specs/CanRun.antt`), the seat of a core along its course (`specs/Seat.antt`), and what its steps and turns leave of its parts
//! (`specs/Moves.antt`, `specs/Completes.antt`). Only the calls named `new` take memory.
#![tactic(auto)]

mod arrays;
mod fates;
mod fill;
mod parts;
mod phase;
mod ports;
mod record;
mod site;
mod strikes;

pub use arrays::Arrays;
pub use fill::{good_text_words, good_wanted, good_words};
pub use parts::Parts;
pub use phase::{CoreState, Phase};
pub use record::{Completed, Operation, Record};
pub use site::Site;
