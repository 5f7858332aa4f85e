/// What a memory operation read and stored, its length, and the way of a load.
#[derive(Clone, Copy, Debug)]
pub struct Operands {
    pub got: u64,
    pub put: u64,
    pub len: u8,
    pub way: u8,
}
