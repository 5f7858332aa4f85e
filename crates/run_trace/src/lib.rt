//! The trace of a run, gathered from the records that its cores and its bus leave.
//!
//! `gather` calls no core and no bus: it reads their records, and puts the memory operations of all cores into one order.
#![tactic(auto)]

mod fates;
mod order;
mod parts;
mod record;
mod trace;

pub use record::Records;
pub use trace::gather;
