use crate::keys::Key;
use std::alloc::AllocError;
use std::error::Error;
use std::fmt;

/// Why a configuration was not read. Where several faults hold, the first in this order is told, and of those at keys
/// the first of the first key.
#[derive(Clone, Copy, Debug, PartialEq, Eq)]
pub enum ConfigErr {
    /// The text is no TOML document in UTF-8, or an integer in it does not fit 64 bits.
    Text,
    /// There is a key that no configuration has, at the top or in a section.
    Key,
    /// The value at this key is of another kind, or a value that is no table is named as the key's section.
    Kind(Key),
    /// The value at this key is out of its range.
    Range(Key),
    /// Memory ran out.
    Memory,
}

impl fmt::Display for ConfigErr {
    fn fmt<W: fmt::Write>(&self, f: &mut fmt::Formatter<W>) -> fmt::Result {
        match self {
            ConfigErr::Text => f.write_str("the text is no TOML document"),
            ConfigErr::Key => f.write_str("there is an unknown key"),
            ConfigErr::Kind(key) => write!(f, "the value of {} is of another kind", key.name()),
            ConfigErr::Range(key) => write!(f, "the value of {} is out of its range", key.name()),
            ConfigErr::Memory => f.write_str("no memory is left"),
        }
    }
}

impl Error for ConfigErr {}

impl From<AllocError> for ConfigErr {
    ghost use Rattle.std.specs.Prelude.{◌≡◌};
    ghost use Rattle.run_texts.specs.declared.config_error.ConfigErr.TheVariants.{Memory};

    ghost from_gives = { λ _ e. e ≡ Memory };

    fn from(_error: AllocError) -> ConfigErr {
        ConfigErr::Memory
    }
}
