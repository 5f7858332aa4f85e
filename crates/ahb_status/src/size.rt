ghost use Rattle.std.specs.Prelude.{◌≡◌};
ghost use Rattle.lf_model.specs.Bus.Status.{size_by_length};
ghost use Rattle.ahb_status.specs.Note.{hsize};

/// The size of an access on the bus (AMBA 2.0 AHB, HSIZE).
#[derive(Clone, Copy, Debug, PartialEq, Eq)]
pub enum Size {
    /// A byte: HSIZE 0.
    Byte,
    /// A half, two bytes: HSIZE 1.
    Half,
    /// A word, or a line word by word: HSIZE 2.
    Word,
}

impl Size {
    /// The size in which the bus makes an access of so many bytes: 8 are two words.
    pub fn of_length(len: u8) -> Size
        ensures { hsize result ≡ size_by_length len }
    {
        match len {
            1 => Size::Byte,
            2 => Size::Half,
            _ => Size::Word,
        }
    }

    /// HSIZE.
    pub fn hsize(self) -> u32
        ensures { result ≡ hsize self }
    {
        match self {
            Size::Byte => 0,
            Size::Half => 1,
            Size::Word => 2,
        }
    }
}
