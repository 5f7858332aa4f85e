//! A core's turn on the AHB bus (GRLIB, LEON3FT): a fill, a drain, an atomic or a snoop, and what it leaves of the core's parts.
//!
//! `make_turn` catches up with the log and makes the one transfer of the turn. The definitions say what it asks
//! (`specs/CanTurn.antt`), what a turn makes of a core as its users see it (`specs/AfterTurn.antt`), which transfer the core asks the
//! bus for and what it comes to (`specs/AskedTurn.antt`), and both together (`specs/MakesTurn.antt`). The laws (`proofs/`) say that all
//! this is the course's.
#![tactic(auto)]

mod atomics;
mod fills;
mod stores;
mod turn;

pub use turn::make_turn;
