//! The threads of a trace made again: each core's instructions, from reset, over the definitions of a run, where its loads and atomics
//! read what its operations in the trace say. Nothing of the machine is used: no bus, no caches, no store buffer and no flip.
//!
//! | call | answers |
//! |---|---|
//! | `thread` | the first core whose instructions do not make just its operations in the trace, or are too many |
//! | `results_of_cores` | the first core whose result does not show the state that its instructions leave |
//! | `count_of` | how many operations of an order are of a core |
//!
//! `Program` is the program of a setup, laid out for fetches: the word at PC, and whether bytes are text.
#![tactic(auto)]

mod execution;
mod made;
mod ports;
mod program;
mod program_order;
mod replay;
mod running;
mod shown;

pub use execution::thread;
pub use program::Program;
pub use program_order::count_of;
pub use shown::results_of_cores;
