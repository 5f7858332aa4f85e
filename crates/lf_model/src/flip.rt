use crate::listed::Listed;

/// The flips of a script, in its order.
pub type Flips = Listed<Flip>;

/// One upset: a bit of the machine turns, at a turn of the bus or at a step of a core.
#[derive(Clone, Copy, Debug)]
pub enum Flip {
    /// Bit `bit` (below 39) of the memory word at `addr`, as turn `turn` of the bus begins.
    Mem {
        turn: u32,
        addr: u32,
        bit: u8,
    },
    /// Bit `bit` (below 39) of register cell `cell` (below 136), as step `step` of core `core` begins.
    Reg {
        core: u32,
        step: u32,
        cell: u8,
        bit: u8,
    },
    /// Bit `bit` (below 9) of tag byte `byte` (below 4) of a way and set of a cache.
    Tag {
        core: u32,
        step: u32,
        fetch: bool,
        way: u8,
        set: u16,
        byte: u8,
        bit: u8,
    },
    /// Bit `bit` (below 9) of line byte `byte` (below 32) of a way and set of a cache.
    Line {
        core: u32,
        step: u32,
        fetch: bool,
        way: u8,
        set: u16,
        byte: u8,
        bit: u8,
    },
}
