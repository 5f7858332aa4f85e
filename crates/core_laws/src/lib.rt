//! Laws of what a running core keeps: of its course over the transfers on the bus, which it goes through without knowing its
//! end, of what it has seen of memory order, and that PC and nPC are multiples of 4.
//!
//! The crate has no code. A module of `specs/` says what holds of a core that has not ended, over the definitions of
//! `lf_model`; the modules of `proofs/` show how a step, a turn on the bus and an end carry it on, up to the record that the core
//! leaves.
#![tactic(auto)]
