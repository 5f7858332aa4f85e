ghost use Rattle.std.specs.Prelude.{◌≡◌, ◌≤◌, ◌<◌, ◌^◌, ◌+◌, ◌*◌, length, IfOk, filter};
ghost use Rattle.elf_image.specs.Tables.{IsInside};
ghost use Rattle.elf_image.specs.Headers.{file_header_of, program_at, section_at, headers_of, is_load, is_executable, is_writable, is_dynamic, is_code, is_compressed, has, meet};

use crate::fields::{
    E_ENTRY, E_PHENTSIZE, E_PHNUM, E_PHOFF, E_SHENTSIZE, E_SHNUM, E_SHOFF, P_FILESZ, P_FLAGS,
    P_MEMSZ, P_OFFSET, P_TYPE, P_VADDR, PROGRAM_HEADER_SIZE, SECTION_HEADER_SIZE, SH_ADDR,
    SH_FLAGS, SH_SIZE, half, word,
};
use lf_model::image::Range;
use std::alloc::{AllocError, Global};

/// The type of a loadable segment.
pub const PT_LOAD: u32 = 1;

/// The type of the segment that a dynamic linker reads.
const PT_DYNAMIC: u32 = 2;

/// The type of the segment that names a dynamic linker.
const PT_INTERP: u32 = 3;

/// The flag of an executable segment.
pub const PF_X: u32 = 1;

/// The flag of a writable segment.
pub const PF_W: u32 = 2;

/// The flag of a readable segment.
pub const PF_R: u32 = 4;

/// The flag of a section that takes memory.
const SHF_ALLOC: u32 = 0x002;

/// The flag of a section of machine code.
const SHF_EXECINSTR: u32 = 0x004;

/// The flag of a section whose bytes are compressed.
const SHF_COMPRESSED: u32 = 0x800;

/// Where the headers of one kind stand in a file, one after the other.
#[derive(Clone, Copy, Debug)]
pub struct HeaderTable {
    /// The place of the first.
    pub place: u32,
    /// The size of each, in bytes.
    pub entry_size: u16,
    /// Their number.
    pub count: u16,
}

/// What the header of a file says of its program.
#[derive(Clone, Copy, Debug)]
pub struct FileHeader {
    /// The address of the first instruction.
    pub entry: u32,
    /// The headers of the segments.
    pub programs: HeaderTable,
    /// The headers of the sections.
    pub sections: HeaderTable,
}

/// The header of a segment.
#[derive(Clone, Copy, Debug)]
pub struct ProgramHeader {
    /// Its own place in the file.
    pub place: u32,
    /// The type of the segment.
    pub kind: u32,
    /// The place of the bytes of the segment in the file.
    pub offset: u32,
    /// The addresses of the segment.
    pub memory: Range,
    /// The number of its bytes in the file.
    pub file_size: u32,
    pub flags: u32,
}

/// The header of a section.
#[derive(Clone, Copy, Debug)]
pub struct SectionHeader {
    /// Its own place in the file.
    pub place: u32,
    pub flags: u32,
    /// The addresses of the section.
    pub memory: Range,
}

/// `flags` have the flag, which is one bit.
fn has(flags: u32, flag: u32) -> bool
    ensures { result ≡ has flags flag }
{
    flags & flag != 0
}

/// Two ranges have an address in common. Neither is empty.
pub fn meet(a: Range, b: Range) -> bool
    ensures { result ≡ meet a b }
{
    u64::from(a.first) < u64::from(b.first) + u64::from(b.length)
        && u64::from(b.first) < u64::from(a.first) + u64::from(a.length)
}

impl FileHeader {
    /// The header at the front of a file.
    pub fn read(file: &[u8]) -> FileHeader
        requires { 52 ≤ length file.now }
        ensures { result ≡ file_header_of file.now }
    {
        FileHeader {
            entry: word(file, E_ENTRY),
            programs: HeaderTable {
                place: word(file, E_PHOFF),
                entry_size: half(file, E_PHENTSIZE),
                count: half(file, E_PHNUM),
            },
            sections: HeaderTable {
                place: word(file, E_SHOFF),
                entry_size: half(file, E_SHENTSIZE),
                count: half(file, E_SHNUM),
            },
        }
    }
}

impl ProgramHeader {
    /// The program header at a place of a file.
    fn read(file: &[u8], place: usize) -> ProgramHeader
        requires inside { place + 32 ≤ length file.now }
        requires file_size { length file.now < 2 ^ 32 }
        ensures { result ≡ program_at file.now place }
    {
        ProgramHeader {
            place: place as u32,
            kind: word(file, place + P_TYPE),
            offset: word(file, place + P_OFFSET),
            memory: Range {
                first: word(file, place + P_VADDR),
                length: word(file, place + P_MEMSZ),
            },
            file_size: word(file, place + P_FILESZ),
            flags: word(file, place + P_FLAGS),
        }
    }

    /// The program headers of a table of a file.
    pub fn read_all(
        alloc: Global,
        file: &[u8],
        table: HeaderTable,
    ) -> Result<Vec<ProgramHeader>, AllocError>
        requires inside { IsInside (length file.now) 32 table }
        requires file_size { length file.now < 2 ^ 32 }
        ensures { IfOk result (λ headers. headers.items ≡ headers_of (program_at file.now) 32 table) }
    {
        let mut headers = Vec::with_capacity(alloc, usize::from(table.count))?;
        for i in 0..usize::from(table.count) {
            let place = table.place as usize + PROGRAM_HEADER_SIZE * i;
            headers.push(ProgramHeader::read(file, place))?;
        }
        Ok(headers)
    }

    /// The segment is loadable, and takes memory.
    fn is_load(&self) -> bool
        ensures { result ≡ is_load self.now }
    {
        self.kind == PT_LOAD && self.memory.length > 0
    }

    /// The program is linked dynamically.
    pub fn is_dynamic(&self) -> bool
        ensures { result ≡ is_dynamic self.now }
    {
        self.kind == PT_DYNAMIC || self.kind == PT_INTERP
    }

    pub fn is_executable(&self) -> bool
        ensures { result ≡ is_executable self.now }
    {
        has(self.flags, PF_X)
    }

    pub fn is_writable(&self) -> bool
        ensures { result ≡ is_writable self.now }
    {
        has(self.flags, PF_W)
    }

    /// Those of these headers whose segments are loadable and take memory.
    pub fn loads_of(
        alloc: Global,
        programs: &[ProgramHeader],
    ) -> Result<Vec<ProgramHeader>, AllocError>
        ensures { IfOk result (λ loads. loads.items ≡ filter is_load programs.now) }
    {
        programs
            .iter()
            .copied()
            .filter(|p| p.is_load())
            .collect(alloc)
    }
}

impl SectionHeader {
    /// The section header at a place of a file.
    fn read(file: &[u8], place: usize) -> SectionHeader
        requires inside { place + 40 ≤ length file.now }
        requires file_size { length file.now < 2 ^ 32 }
        ensures { result ≡ section_at file.now place }
    {
        SectionHeader {
            place: place as u32,
            flags: word(file, place + SH_FLAGS),
            memory: Range {
                first: word(file, place + SH_ADDR),
                length: word(file, place + SH_SIZE),
            },
        }
    }

    /// The section headers of a table of a file.
    pub fn read_all(
        alloc: Global,
        file: &[u8],
        table: HeaderTable,
    ) -> Result<Vec<SectionHeader>, AllocError>
        requires inside { IsInside (length file.now) 40 table }
        requires file_size { length file.now < 2 ^ 32 }
        ensures { IfOk result (λ headers. headers.items ≡ headers_of (section_at file.now) 40 table) }
    {
        let mut headers = Vec::with_capacity(alloc, usize::from(table.count))?;
        for i in 0..usize::from(table.count) {
            let place = table.place as usize + SECTION_HEADER_SIZE * i;
            headers.push(SectionHeader::read(file, place))?;
        }
        Ok(headers)
    }

    /// The section is machine code in memory, and not empty.
    pub fn is_code(&self) -> bool
        ensures { result ≡ is_code self.now }
    {
        has(self.flags, SHF_ALLOC) && has(self.flags, SHF_EXECINSTR) && self.memory.length > 0
    }

    /// The section takes memory, and its bytes are compressed.
    pub fn is_compressed(&self) -> bool
        ensures { result ≡ is_compressed self.now }
    {
        has(self.flags, SHF_ALLOC) && has(self.flags, SHF_COMPRESSED)
    }
}
