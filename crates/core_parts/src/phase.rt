use lf_model::step::Turn;
use lf_model::trace::CoreEnd;

/// Where a core is in its steps.
#[derive(Clone, Copy, Debug)]
pub enum Phase {
    /// No step is begun.
    Between,
    /// A step is begun: its flips have struck.
    Begun,
    /// The step that is begun needs this turn on the bus.
    Needs(Turn),
    /// The core has ended.
    Ended(CoreEnd),
}

/// Whether a core goes on.
#[derive(Clone, Copy, Debug)]
pub enum CoreState {
    /// It has steps left.
    Running,
    /// All its steps are made, and a store still waits.
    Draining,
    /// It has ended.
    Ended(CoreEnd),
}
