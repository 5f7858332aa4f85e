//! The arrays of a core that a script strikes, as the replay of an audit keeps them, by the definitions alone and with nothing of the
//! machine: its register cells, and its two caches, which `replay_caches` has.
//!
//! Contracts see the arrays of the course, and how many steps of the core began. `begin` lets the flips of the next step strike; no
//! other call does. Each call on cells takes time by the cells that it is given, and only the calls named `new` take memory.
#![tactic(auto)]

mod arrays;
mod cells;
mod parts;
mod strikes;

pub use arrays::Arrays;
pub use cells::Cells;
