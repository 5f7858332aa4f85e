use crate::refusal::{Fault, refusal_name};
use std::alloc::AllocError;
use std::error::Error;
use std::fmt;

/// Why a file gave no image.
#[derive(Clone, Copy, Debug, PartialEq, Eq)]
pub enum ImageErr {
    /// The bytes are refused.
    Refused {
        /// The number of the refusal, from 1 to 14; `refusal_name` gives its name.
        number: u8,
        /// The place in the file that it tells, in bytes.
        offset: u32,
    },
    /// Memory ran out.
    Memory,
}

impl fmt::Display for ImageErr {
    fn fmt<W: fmt::Write>(&self, f: &mut fmt::Formatter<W>) -> fmt::Result {
        match self {
            ImageErr::Refused { number, offset } => {
                write!(f, "refused at byte {offset}: {}", refusal_name(*number))
            }
            ImageErr::Memory => f.write_str("no memory is left"),
        }
    }
}

impl Error for ImageErr {}

impl From<AllocError> for ImageErr {
    ghost use Rattle.std.specs.Prelude.{◌≡◌};
    ghost use Rattle.elf_image.specs.declared.error.ImageErr.TheVariants.{Memory};

    ghost from_gives = { λ _ e. e ≡ Memory };

    fn from(_error: AllocError) -> ImageErr {
        ImageErr::Memory
    }
}

impl From<Fault> for ImageErr {
    ghost use Rattle.std.specs.Prelude.{◌≡◌};
    ghost use Rattle.elf_image.specs.declared.error.ImageErr.TheVariants.{Refused};
    ghost use Rattle.elf_image.specs.Names.{number_of};

    ghost from_gives = { λ fault e. e ≡ Refused (number_of fault.refusal) fault.offset };

    fn from(fault: Fault) -> ImageErr {
        ImageErr::Refused {
            number: fault.refusal.number(),
            offset: fault.offset,
        }
    }
}
