//! Tests of the AHB bus, its log and status registers, and the scrubber, through their public calls. Nothing is built on it.
#![tactic(auto)]

#[cfg(test)]
mod tests;
