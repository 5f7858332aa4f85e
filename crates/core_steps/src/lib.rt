//! One step of a core of the LEON3FT multiprocessor (GRLIB, LEON3FT) up to a turn on the bus: what the instruction at PC comes to.
//!
//! `attempt` tries the instruction of a step whose flips have struck. Its contract, `specs/Tries.antt`, is in the terms of the course of
//! a core (`lf_model`, `Course`). It keeps what holds of a core (`IsCore` of `core_parts`), and `specs/RunsAfter.antt` says for what
//! the core then still has room. The modules of `proofs/` show what the seat of the core's next step takes of it: where the
//! instruction retires or puts the core into error mode (`Retiring`), meets a bad register cell (`Stopping`), or needs a turn on
//! the bus (`Needing`); that a store retires only where the store buffer has room (`StoreRoom`); and that an access is aligned and in
//! RAM (`AccessFits`).
#![tactic(auto)]

mod step;

pub use step::attempt;
