//! Ghost values: values that only contracts see.
//!
//! A `Ghost<T>` has no bytes, and its calls cost nothing in a program that is built. To a contract it is a `T`. So a struct
//! can keep, beside the few bits that it needs at run time, the whole history that these bits come from, and its contract
//! can say in one equation what a call does to that history.
//!
//! # How to use it
//!
//! 1. Name the value by a type of your own: a struct with no fields, whose `impl Model` has as `Value` what contracts are to
//!    see, as `List Moment`, and any `view`. No value of this type is ever made.
//! 2. Give the struct a field `history: Ghost<History>`, and let its `view` show the field.
//! 3. Begin with `Ghost::of(&x)`. The type of `x` says by `Shown` which value that is. A value is copied by
//!    `Ghost::of(&ghost)`.
//! 4. In each method that changes the value, call `change(&by)`. The type of `by` says by `Change` what becomes of the value,
//!    from the fields of `by`. A struct of the arguments serves, as `Struck { number, bit }`.
//! 5. Tie the fields to the ghost value by the `invariant` of the `impl Model`. Each method then has to prove it.
//!
//! `src/tests.rt` is a small example. A `Ghost` may be moved, dropped, put into a struct literal, assigned to a field and kept
//! in a `Vec` of structs, with no proof by hand. It is not `Copy` and not `Clone`, and has no `impl` of `Send` or `Sync`.
//!
//! # What may be relied on
//!
//! The clauses of `of` and `change`, and that a move leaves the value as it was. These say what the value is, and never what
//! the program's bytes are. A contract that speaks of a ghost value alone promises a caller nothing yet: what ties the value to
//! bytes is the `invariant`, which the prover demands of every method, and the clauses of the methods that answer, as
//! `is_struck`. Such a clause says what the answer is by the ghost value. So each type with a `Ghost` has, beside the clauses
//! on how the value changes, a clause for each answer, and each method that takes `&mut self` says what becomes of the value.
//! One that does not may change it to anything.
//!
//! # Why it is sound
//!
//! A `Ghost` owns no memory, so no value of it contradicts anything that a proof knows. `of` is the only function that picks
//! one. It is proved by hand (`proofs/ghosts/Ghost/of/Proof.antt`), since the borrow checker cannot know which value is
//! meant. That proof is checked as every other is. No axiom and no `unsafe` is in it.
#![tactic(auto)]

mod ghosts;
#[cfg(test)]
mod tests;

pub use ghosts::{Change, Ghost, Shown};
