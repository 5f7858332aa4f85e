/// The registers that an instruction reads, in order.
#[derive(Clone, Copy, Debug, PartialEq, Eq)]
pub struct Reads {
    /// Register numbers, 0 from `count` on.
    pub regs: [u8; 4],
    /// How many registers are read, at most 4.
    pub count: u8,
}
