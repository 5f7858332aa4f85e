//! Reader and writer of ELF executables for the simulator: 32-bit big-endian files for SPARC, as the System V
//! Application Binary Interface lays them out.
//!
//! `specs/Fields.antt` has the layout of the headers, `specs/Refusals.antt` the conditions under which a file is
//! refused, `specs/Spelled.antt` the image of a file that is not, and `specs/Written.antt` the file of an image.
#![tactic(auto)]

mod conditions;
mod error;
mod fields;
mod header;
mod reader;
mod refusal;
mod writer;

pub use error::ImageErr;
pub use reader::read_image;
pub use refusal::{Refusal, refusal_name};
pub use writer::write_image;
