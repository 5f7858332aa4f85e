//! Where a rule about a trace fails.

/// A place of a trace. Rules are tried at the cores first, then at the operations of the order, the transfers, the flips, and
/// last at what stands for the whole trace.
#[derive(Clone, Copy, Debug, PartialEq, Eq)]
pub enum Place {
    /// A core, by its number.
    Core(u32),
    /// A memory operation, by its place in the order.
    Order(u32),
    /// A transfer, by its turn.
    Transfer(u32),
    /// A flip, by its place in the script.
    Flip(u32),
    /// The whole trace: AHBSTAT, the watched words, and the counts.
    Final,
}
