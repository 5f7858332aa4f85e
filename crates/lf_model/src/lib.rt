//! The public types of the simulator, and the definitions that say what a run of it means.
//!
//! The types are those of the LEON3FT multiprocessor: its image and configuration, the flips that strike
//! it, its instruction words, what a core and the bus hand to each other, and the trace that a run leaves.
//! The definitions stand in `specs/`, one module each; `docs/ARCHITECTURE.md` says in which order to read
//! them. SPARC V8 means The SPARC Architecture Manual, Version 8, and GRLIB the GRLIB IP Core User's Manual.
#![tactic(auto)]

pub mod addresses;
pub mod bus;
pub mod config;
pub mod control;
pub mod flip;
pub mod image;
pub mod instruction;
pub mod listed;
pub mod place;
pub mod record;
pub mod setup;
pub mod step;
pub mod touch;
pub mod trace;
pub mod trap;
