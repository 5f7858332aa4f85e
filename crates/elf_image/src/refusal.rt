ghost use Rattle.std.specs.Prelude.{◌≡◌, ◌<◌, ◌^◌};
ghost use Rattle.elf_image.specs.Names.{number_of, name_of, refusal_of, refusal_name};

/// Why a file is refused. Where several hold, the first in this order is told.
#[derive(Clone, Copy, Debug)]
pub enum Refusal {
    /// The file is an archive.
    Archive = 1,
    /// The file ends before its header does.
    Short,
    /// The file does not begin as an ELF file.
    Magic,
    /// The file is not of the 32-bit class.
    Class,
    /// The data are not big-endian.
    Order,
    /// The version is not the current one.
    Version,
    /// The file is no executable.
    FileType,
    /// The machine is not SPARC.
    Machine,
    /// The headers of segments or sections are of another size, too many, none, or not in the file.
    Table,
    /// The program is linked dynamically.
    Dynamic,
    /// A section in memory is compressed.
    Compressed,
    /// A segment does not lie in the file or in RAM, or overlaps an earlier one.
    Segment,
    /// A segment is writable and executable, and no section says which part of it is code.
    WritableCode,
    /// The entry is no text word.
    Entry,
}

impl Refusal {
    /// All refusals, in the order of their numbers.
    const ALL: [Refusal; 14] = [
        Refusal::Archive,
        Refusal::Short,
        Refusal::Magic,
        Refusal::Class,
        Refusal::Order,
        Refusal::Version,
        Refusal::FileType,
        Refusal::Machine,
        Refusal::Table,
        Refusal::Dynamic,
        Refusal::Compressed,
        Refusal::Segment,
        Refusal::WritableCode,
        Refusal::Entry,
    ];

    /// The number of the refusal, from 1 on.
    pub fn number(self) -> u8
        ensures { result ≡ number_of self }
    {
        self as u8
    }

    /// The refusal with this number.
    pub fn from_number(number: u8) -> Option<Refusal>
        ensures { result ≡ refusal_of number }
    {
        Refusal::ALL
            .iter()
            .copied()
            .find(|refusal| refusal.number() == number)
    }

    /// The name of the refusal.
    pub fn name(self) -> &'static str
        ensures { result.now ≡ name_of self }
    {
        match self {
            Refusal::Archive => "Archive",
            Refusal::Short => "Short",
            Refusal::Magic => "Magic",
            Refusal::Class => "Class",
            Refusal::Order => "Order",
            Refusal::Version => "Version",
            Refusal::FileType => "Type",
            Refusal::Machine => "Machine",
            Refusal::Table => "Table",
            Refusal::Dynamic => "Dynamic",
            Refusal::Compressed => "Compressed",
            Refusal::Segment => "Segment",
            Refusal::WritableCode => "WritableCode",
            Refusal::Entry => "Entry",
        }
    }
}

/// The name of the refusal with this number; no text where there is none.
pub fn refusal_name(number: u8) -> &'static str
    ensures { result.now ≡ refusal_name number }
{
    match Refusal::from_number(number) {
        Some(refusal) => refusal.name(),
        None => "",
    }
}

/// A refusal of a file, and the place in the file that it tells.
#[derive(Clone, Copy, Debug)]
pub struct Fault {
    pub refusal: Refusal,
    pub offset: u32,
}

impl Fault {
    ghost use Rattle.elf_image.specs.declared.refusal.Fault.{Fault};

    /// The refusal that tells this offset.
    pub fn new(refusal: Refusal, offset: u32) -> Fault
        ensures { result ≡ record { refusal = refusal; offset = offset } }
    {
        Fault { refusal, offset }
    }

    /// The refusal that tells this place.
    pub fn at(refusal: Refusal, place: usize) -> Fault
        requires { place < 2 ^ 32 }
        ensures { result ≡ record { refusal = refusal; offset = place } }
    {
        Fault {
            refusal,
            offset: place as u32,
        }
    }
}
