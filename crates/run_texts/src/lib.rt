//! Readers of the texts of a run: its configuration, its script of bit flips, and its schedule.
//!
//! A configuration is a TOML document in UTF-8, as the crate `toml` reads it, and each key is optional. What is told of
//! another text comes in this order: it is no such document; it has an unknown key; then, key by key in the order of
//! `Key`, the value is of another kind or out of its range. A value that is no table, in the place of one, is of
//! another kind at the first key of that table.
//!
//! A script has a line for each flip, of one of these forms:
//!
//! * `mem TURN ADDR BIT`: bit BIT, below 39, of the cell of the word at ADDR flips as turn TURN of the bus begins.
//! * `reg CORE STEP CELL BIT`: bit BIT, below 39, of register cell CELL, below 136, of core CORE flips as step STEP of that
//!   core begins.
//! * `itag CORE STEP WAY SET BYTE BIT`: bit BIT, below 9, of byte BYTE, below 4, of the tag in this way and set of the instruction
//!   cache of core CORE flips as step STEP of that core begins; bit 8 is the parity of the byte. `dtag` is the same of the data
//!   cache.
//! * `idat CORE STEP WAY SET BYTE BIT`: the same of byte BYTE, below 32, of the line there. `ddat` is the same of the data cache.
//!
//! CORE is below the number of cores, STEP below the steps that each may make, WAY and SET below those of the cache. A script
//! has at most 65,536 flips.
//!
//! A schedule has a line for each event, which comes N times, 1 to 8,000,000; without N it comes once:
//!
//! * `core CORE [N]`: a step of this core, or the drain of a waiting store after its last.
//! * `drain CORE [N]`: the drain of a waiting store of this core.
//! * `scrub [N]`: a turn of the scrubber.
//!
//! Lines end with a line feed or with a carriage return and a line feed, and the last may lack it. Fields are separated by
//! spaces and tabs, which are ignored at a line's ends. Empty lines and lines whose first field begins with `#` are passed over.
//! A number is 1 to 10 decimal digits, an address 8 hexadecimal digits of either case. Of another text the first faulty line is
//! told, with its first fault in the order of `TextWhy`.
//!
//! `specs/Keys.antt` is the table of the keys of a configuration, `specs/Document.antt` says what a document has at
//! them, and `specs/Configuration.antt` what is answered to a text. `specs/Text.antt` says what the lines of a text
//! are, the fields of a line and the numbers that they write, and `specs/Grammar.antt` which texts are read line by line and
//! which line of another text is told. `specs/FlipLine.antt` says which faults a line of a script may have and which flip it
//! spells, and `specs/EventLine.antt` the same of a schedule; `specs/Faults.antt` has the words of faults.
#![tactic(auto)]

mod config;
mod config_error;
mod document;
mod error;
mod event_line;
mod fields;
mod flip_line;
mod keys;
mod lines;
mod numbers;
mod schedule;
mod script;
mod values;

pub use config::read_config;
pub use config_error::ConfigErr;
pub use error::{TextErr, TextWhy};
pub use keys::Key;
pub use schedule::read_schedule;
pub use script::read_script;
