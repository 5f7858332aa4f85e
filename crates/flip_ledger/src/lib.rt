//! The flips of a script, for the arrays that they strike: memory words, register cells, and tag bytes and line bytes of caches.
//!
//! A `FlipPlan` gives the flips of one owner, a core or memory, as its steps or turns begin. A `FlipLedger` keeps which flips
//! stand in each unit of one array, and what became of each flip. Contracts speak of the history of each unit. A cost comes with
//! flips and with writes of units that flips struck, and with no other step or write. Only the calls named `new` take memory.
#![tactic(auto)]

mod fates;
mod ledger;
mod plan;
mod record;
mod standing;

pub use ledger::FlipLedger;
pub use plan::{FlipPlan, Owner, Strike, Target};
pub use record::Write;
