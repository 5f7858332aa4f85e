ghost use Rattle.std.specs.Prelude.{◌≡◌, [], IfOk};
ghost use Rattle.leon_core.specs.RoomInside.{IsReserved};

use lf_model::trace::{Fate, Word2};
use std::alloc::{AllocError, Global};

/// Room for what a core leaves at its end, reserved before its first step.
#[derive(Drop)]
pub(crate) struct Room {
    /// The registers of its result.
    pub(crate) regs: Vec<Option<u32>>,
    /// One fate for each flip of the script.
    pub(crate) fates: Vec<Fate>,
    /// The word that its stop names.
    pub(crate) named: Vec<Word2>,
}

impl Room {
    /// Room for a script of so many flips.
    ///
    /// # Errors
    ///
    /// Memory ran out.
    pub(crate) fn new(alloc: Global, flips: u32) -> Result<Room, AllocError>
        ensures empty { IfOk result (λ room. room.named.items ≡ []) }
        ensures reserved { IfOk result (IsReserved flips) }
    {
        Ok(Room {
            regs: Vec::with_capacity(alloc, 32)?,
            fates: Vec::with_capacity(alloc, flips as usize)?,
            named: Vec::with_capacity(alloc, 1)?,
        })
    }
}
