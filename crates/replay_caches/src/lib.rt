//! The caches of a core that a script strikes, as the replay of an audit keeps them, by the definitions alone and with nothing of the
//! machine.
//!
//! Contracts see the cache of the definitions, with the history of each tag byte and of each byte of its lines. At run time a cache
//! has the tag and the last use of each slot, and the units of replay_units for the histories: 36 for each slot. A look-up, a store, a
//! snooped store and a fill take time by the ways of a set and the bytes of a line, FLUSH by the slots; only `Cache::new` takes memory.
#![tactic(auto)]

mod answer;
mod cache;
mod part;
mod slots;
mod stored;

pub use answer::{Counts, LookUp};
pub use cache::Cache;
