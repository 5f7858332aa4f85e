//! The register file of a core under the (39,32) code (GRLIB, LEON3FT, fault tolerance): 136 cells, each of which corrects one
//! turned bit, and detects two.
//!
//! A read writes a corrected value back. Contracts see of each cell the value last written and its history. A cell that no flip
//! struck costs no code and no record. Only `RegFile::new` and `RegFile::with_values` take memory.
#![tactic(auto)]

mod regfile;

pub use regfile::{CELL_COUNT, RegFile};
