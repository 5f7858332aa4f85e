use lf_model::bus::Why;

/// What a look-up answers.
#[derive(Clone, Copy, Debug)]
pub enum LookUp {
    /// The line is present in this slot, its wanted words are valid, and none of their bytes is struck.
    Hit { slot: usize },
    Miss(Why),
}

/// The counters of parity errors of a cache: each stops at 3.
#[derive(Clone, Copy, Debug)]
pub struct Counts {
    pub tag_errors: u8,
    pub byte_errors: u8,
}
