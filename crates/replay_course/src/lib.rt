//! The course of a core, as the replay of an audit makes it, by the definitions alone and with nothing of the machine.
//!
//! `step_needs` says which turn on the bus a step needs, by what its instruction comes to. `CoreArrays` are the arrays of a core, over
//! which its instructions are tried, and what one that retires or stops does to them. `Core` is a core on its course: contracts see
//! what it runs on and how far it has come. So far it begins at reset, and takes the stores of others.
//!
//! `Core::new` and `snoop` take memory, and no other call does.
#![tactic(auto)]

mod core_arrays;
mod course;
mod ground;
mod need;
mod progress;
mod replayed_core;

pub use core_arrays::CoreArrays;
pub use ground::{Given, Ground};
pub use need::{Need, step_needs};
pub use progress::{Completion, ErrorTrap};
pub use replayed_core::Core;
