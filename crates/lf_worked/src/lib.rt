//! Worked reports: programs of a few instructions with their whole reports, as tests of the definitions of `lf_model`.
//!
//! The crate has no code. A module of `specs/` is one report: its setup, its schedule, its trace and its lines, as
//! closed terms, under a comment that says what the program does and what was checked by hand. The module of the same
//! name in `proofs/` shows by computation that the definition of a report gives these lines, that the trace meets all
//! that is promised of a run, and that the records of its cores and its bus are right. The modules `Wrong..` refute
//! reports with a few lines changed, each by the clause that it breaks, with the two values that differ.
//!
//! A change of a definition that gives another meaning is refused here. So a new definition gets a report that shows
//! it, and a changed one keeps its reports, or a reader judges which of them is wrong.
#![tactic(auto)]
