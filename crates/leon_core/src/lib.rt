//! One core of the LEON3FT multiprocessor: its register cells, parity caches and store buffer, and the steps that it makes (GRLIB,
//! LEON3FT).
//!
//! `Core::new` gives a core at reset, and takes all the memory that its run needs. `Core::local_step` makes a step of it, up to a turn on
//! the bus where it needs one, and `Core::bus_step` makes that turn. `Core::start_step` begins a step in which the schedule drains a store.
//! `Core::finish` gives the record of a core that has ended.
//!
//! What a running core is, and that its steps keep it, stands in `core_course`; that its turns keep it, in `turn_course`.
#![tactic(auto)]

mod bus_step;
mod finish;
mod local_step;
mod one_core;
mod room;

pub use one_core::Core;
