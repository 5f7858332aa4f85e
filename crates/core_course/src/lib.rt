//! One core of the LEON3FT multiprocessor (GRLIB, LEON3FT): what holds of it from step to step.
//!
//! The crate has no code. `specs/CoreOk.antt` says what a running core is; the modules of `proofs/` show that what a step leaves of it
//! keeps that, and what a core that has ended shows.
#![tactic(auto)]
