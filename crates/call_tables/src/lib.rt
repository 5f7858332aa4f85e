//! Tests of whole calls, through `plain_call` of `leon_main`, over files and a sink in memory: the rows that tell words, files,
//! statuses and reports apart. The folder cases/ has more. Nothing is built on this crate.
#![tactic(auto)]

#[cfg(test)]
mod tests;
