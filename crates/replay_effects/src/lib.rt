//! A core's instructions, as the replay of an audit makes them, by the definitions of a run alone and with nothing of the machine: no
//! bus, no caches, no store buffer and no flip.
//!
//! `Thread` is the run of a core so far, with the numbers that its loads and atomics read. `footprint` says what the instruction at PC
//! reads, accesses and writes, by its effect in the definitions, and leaves the run as it is; `retire` makes it, with the next number.
//! `attempt` tries an instruction by its footprint: over `LookUps`, which read and look up the arrays of the core, it comes to what the
//! course of the core says, and leaves the arrays so. No call takes memory.
#![tactic(auto)]

mod attempting;
mod footprint;
mod look_ups;
mod made;
mod notes;
mod outcome;
mod ports;
mod thread;
mod trial;
mod tried;

pub use attempting::attempt;
pub use footprint::{Access, AccessKind, Footprint};
pub use look_ups::{LookUp, LookUps};
pub use outcome::Outcome;
pub use thread::Thread;
