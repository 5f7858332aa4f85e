//! Tests of `work_gen` through its public calls. Nothing is built on it.
#![tactic(auto)]

#[cfg(test)]
mod tests;
