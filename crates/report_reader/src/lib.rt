//! Reports read back: the trace of which a text is the report, or the first line that does not fit.
//!
//! `specs/Whole.antt` says how a report is read line by line, over the lines of `report_lines`, `specs/Dashes.antt` which dashes
//! a store has to show, and `specs/Laws.antt` states the laws of reports.
#![tactic(auto)]

mod cores;
mod dashes;
mod error;
mod items;
mod lines;
mod reader;
mod whole;

pub use error::ReportErr;
pub use reader::{equal_texts_have_equal_traces, no_report_begins_another, read_report};
