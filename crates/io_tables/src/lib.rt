//! Tests of `lf_io` through its public calls: files, output and gates, in memory and of the system. Nothing is built on it.
#![tactic(auto)]

#[cfg(test)]
mod tests;
