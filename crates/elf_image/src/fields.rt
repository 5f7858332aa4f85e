//! Where the fields of the headers stand, by the names of the standard, and how they are read.

ghost use Rattle.std.specs.Prelude.{◌≡◌, ◌≤◌, ◌+◌, length};
ghost use Rattle.elf_image.specs.Fields.{number_at};

use byteorder::{BigEndian, ByteOrder};

/// The size of the file header, in bytes.
pub const FILE_HEADER_SIZE: usize = 52;

pub const E_TYPE: usize = 16;

pub const E_MACHINE: usize = 18;

pub const E_VERSION: usize = 20;

pub const E_ENTRY: usize = 24;

pub const E_PHOFF: usize = 28;

pub const E_SHOFF: usize = 32;

pub const E_EHSIZE: usize = 40;

pub const E_PHENTSIZE: usize = 42;

pub const E_PHNUM: usize = 44;

pub const E_SHENTSIZE: usize = 46;

pub const E_SHNUM: usize = 48;

/// The size of a program header, in bytes.
pub const PROGRAM_HEADER_SIZE: usize = 32;

pub const P_TYPE: usize = 0;

pub const P_OFFSET: usize = 4;

pub const P_VADDR: usize = 8;

pub const P_PADDR: usize = 12;

pub const P_FILESZ: usize = 16;

pub const P_MEMSZ: usize = 20;

pub const P_FLAGS: usize = 24;

pub const P_ALIGN: usize = 28;

/// The size of a section header, in bytes.
pub const SECTION_HEADER_SIZE: usize = 40;

pub const SH_FLAGS: usize = 8;

pub const SH_ADDR: usize = 12;

pub const SH_SIZE: usize = 20;

/// The number in the two bytes from `place` on.
#[tactic(auto, unfolding(crate::specs::Fields::number_at))]
pub fn half(file: &[u8], place: usize) -> u16
    requires { place + 2 ≤ length file.now }
    ensures { result ≡ number_at file.now 2 place }
{
    BigEndian::read_u16(&file[place..])
}

/// The number in the four bytes from `place` on.
#[tactic(auto, unfolding(crate::specs::Fields::number_at))]
pub fn word(file: &[u8], place: usize) -> u32
    requires { place + 4 ≤ length file.now }
    ensures { result ≡ number_at file.now 4 place }
{
    BigEndian::read_u32(&file[place..])
}
