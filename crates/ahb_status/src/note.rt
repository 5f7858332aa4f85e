ghost use Rattle.std.specs.Prelude.{◌≡◌, ◌<◌};

use crate::size::Size;

/// The weight of the lowest bit of HMASTER, bits 6:3 of the status word.
const HMASTER: u32 = 1 << 3;
/// The access was a write.
const HWRITE: u32 = 1 << 7;
/// New error: one was noted.
const NE: u32 = 1 << 8;
/// Correctable error.
const CE: u32 = 1 << 9;

/// A word that was read not clean, and the access that read it.
#[derive(Clone, Copy)]
pub struct Note {
    pub addr: u32,
    pub size: Size,
    pub master: u32,
    pub write: bool,
    pub fixable: bool,
    ghost is_master: { master < 9 },
}

impl Note {
    ghost use Rattle.ahb_status.specs.Inside.{registers_of};

    /// The status word with this note.
    pub fn status(&self) -> u32
        ensures { result ≡ (registers_of self.now).status }
    {
        let access = self.size.hsize() + HMASTER * self.master + HWRITE * u32::from(self.write);
        access + NE + CE * u32::from(self.fixable)
    }
}
