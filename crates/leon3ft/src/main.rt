//! The simulator's program: it hands the words of its call, the real files and the real output to `leon_main`.
#![tactic(auto)]

use leon_main::{WordsErr, exit_code_of};
use lf_io::{RealFiles, RealSink};
use std::env;
use std::process::ExitCode;

// The words of the call, the program's name first. Which they are is the system's to say, and no clause can.
fn words_of(rt: &HostRuntime) -> Result<Vec<String>, WordsErr> {
    let words = env::args(rt).map_err(WordsErr::of_system)?;
    Ok(words.collect(rt.alloc())?)
}

// The runtime has no value that a clause could name. What is done with what it gives, `exit_code_of` says.
fn main(rt: HostRuntime) -> ExitCode {
    let alloc = rt.alloc();
    let mut files = RealFiles::new(alloc, &rt);
    let mut out = RealSink::new(&rt);
    exit_code_of(alloc, words_of(&rt), &mut files, &mut out)
}
