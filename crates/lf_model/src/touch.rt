//! What the steps and turns of a core do to its register cells and its caches.

/// One access to an array of a core.
#[derive(Clone, Copy, Debug, PartialEq, Eq)]
pub enum Touch {
    /// A step begins: the script's flips for it strike.
    StartStep(u32),
    /// The fetch cache is looked up at an address.
    LookFetch(u32),
    /// A register cell is read; where the read corrects it, it is written back.
    ReadCell(usize),
    /// A register cell is written.
    WriteCell(usize),
    /// The data cache is looked up for so many bytes at an address.
    LookData { addr: u32, len: u8 },
    /// An own store of so many bytes at an address updates the data cache with its value.
    StoreData { addr: u32, len: u8, value: u64 },
    /// Both caches are emptied.
    FlushCaches,
    /// The data cache snoops a store at an address.
    SnoopData(u32),
    /// The line of an address is filled into the fetch cache, with these valid bits.
    FillFetch { addr: u32, valid: u8 },
    /// The line of an address is filled into the data cache, with these valid bits.
    FillData { addr: u32, valid: u8 },
}
