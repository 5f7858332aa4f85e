//! The audit of the ledger of a trace: whether all that it reports accounts for each other, and the first place where it does not.
//!
//! Each call goes by the definitions that say what a run means, with nothing of the machine, and takes no memory.
//!
//! By the trace alone:
//!
//! | call | rule |
//! |---|---|
//! | `steps` | the steps of each core fit its transfers, and as many retired an instruction as were counted |
//! | `scrub_walk` | the transfers of the scrubber are its walk, and it made all of its turns |
//!
//! Against what is given, as the run of all masters over the transfers will give it, `first_difference` compares two accounts: that of
//! what is given, and that which the trace reports. It goes over these places, and answers the first at which they differ:
//!
//! | place | what is compared |
//! |---|---|
//! | core | the turns that it owes, the error traps that it met, its lost stores, its counters of parity errors, the registers without a value |
//! | operation of the order | the entry of the log; its step, and of a load the way and the entries that it saw; that the order is sorted there |
//! | transfer | all that is reported of it, and that its master needed it |
//! | flip | what became of it |
//! | whole trace | AHBSTAT, the watched words without a value, the turns of the scrubber |
//!
//! The run itself is not here, nor the call that tries all rules in their order.
#![tactic(auto)]

mod ahb;
mod core_steps;
mod cores;
mod entries;
mod final_place;
mod flips;
mod given;
mod lost;
mod order;
mod places;
mod sorted;
mod syndromes;
mod transfers;
mod walk;

pub use core_steps::steps;
pub use given::{Completion, CoreGiven, ErrorTrap, Given, LogEntry, Need, Stores, TurnGiven};
pub use places::first_difference;
pub use walk::scrub_walk;
