/// Where a thread can be held up, as a test does to try a schedule.
pub trait Gate {
    /// Called by thread `who` before its step `step`. It tells nothing and changes nothing that
    /// its caller sees.
    fn at(&self, who: u32, step: u32);
}

/// The gate that holds no thread up.
#[derive(Clone, Copy, Debug, Default, PartialEq, Eq, Hash)]
pub struct NoGate;

impl Gate for NoGate {
    fn at(&self, _who: u32, _step: u32) {}
}
