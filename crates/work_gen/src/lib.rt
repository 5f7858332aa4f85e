//! Generated programs: from two numbers an image whose code is straight, with loads, stores and atomics at pseudo-random places of its
//! data, and a script of pseudo-random flips for a run of it. The same numbers always give the same image and the same script.
//!
//! `specs/Draws.antt` has the pseudo-random sequence, `specs/Program.antt` the instruction that each draw makes, `specs/Encoding.antt`
//! the words, `specs/Layout.antt` the image, and `specs/Drill.antt` the setup of a run of it.
#![tactic(auto)]

mod code;
mod draws;
mod drill;
mod image;
mod program;

pub use drill::make_setup;
pub use image::make;
