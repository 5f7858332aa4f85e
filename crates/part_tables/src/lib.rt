//! Tests of the small crates through their public calls, a file for each: numbers and codes, protected cells, what is made of
//! lists, and the parts of the instruction set. Nothing is built on it.
#![tactic(auto)]

#[cfg(test)]
mod tests;
