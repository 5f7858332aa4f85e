//! AHBSTAT, the AHB failing address and status registers (GRLIB, AHBSTAT): the first word that was read not clean since the
//! registers were cleared. No call takes memory.
#![tactic(auto)]

mod note;
mod size;
mod status;

pub use size::Size;
pub use status::Status;
