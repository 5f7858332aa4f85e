//! One instruction of a SPARC V8 core (SPARC V8, appendix B): decoded, its registers read, its traps tried in
//! order, and its effect made through the ports to the parts of the core.
#![tactic(auto)]

mod barrier;
mod branch;
mod calculate;
mod calculation;
mod common;
mod conditions;
mod execute;
mod memory;
mod operands;
mod ports;
mod program_counter;
mod refuse;
mod retire;
mod state_register;
mod trap;
mod windows;
mod words;

pub use execute::{exec, fetch_trap};
pub use lf_model::control::{Arch, Ctl};
pub use lf_model::step::{Did, Turn};
pub use ports::Ports;
pub use retire::finish_atomic;
pub use v8_windows::cell;
