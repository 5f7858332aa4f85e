//! The machine as a whole: its cores, the bus with the memory behind it, and the scrubber, which make the events of a schedule and
//! then go round until all have ended.
//!
//! `play` runs a setup by a schedule, and gives the trace. `specs/Machine.antt` says what holds of the machine between two events,
//! `specs/MachineMade.antt` what it has made. The modules of `proofs/` show that each event keeps the first, that it brings the machine
//! to where the definitions of a schedule bring all actors, that the records that a machine leaves at its end are right together, and
//! that the trace that is gathered from them follows its schedule.
#![tactic(auto)]

mod ending;
mod events;
mod machine;
mod run;

pub use run::play;
