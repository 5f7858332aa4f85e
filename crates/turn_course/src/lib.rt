//! A core's turn on the AHB bus as a whole (GRLIB, LEON3FT): what it leaves of the core, and that all that holds of the core's course
//! is kept.
//!
//! The crate has no code. `specs/BusStep.antt` says what a core is once its turn has ended, whether its words were good or one of them
//! stopped it; the modules of `proofs/` show, kind by kind, that this core is right over the whole log and all transfers.
#![tactic(auto)]
