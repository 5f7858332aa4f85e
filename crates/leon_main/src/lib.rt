//! The calls that the simulator's program makes: what the words of a call ask for, the files of a run, its report, the verdict of an
//! audit, and the lines of refusals and faults. `plain_call` does one call, over any files and any output.
#![tactic(auto)]

mod answer;
mod call;
mod fault;
mod reading;
mod run_file;
mod verdict;
mod words;

pub use call::{exit_code_of, plain_call};
pub use words::WordsErr;
