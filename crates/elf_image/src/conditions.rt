//! The conditions under which a file is refused, in their order.

ghost use Rattle.std.specs.Prelude.{◌≡◌, ◌≤◌, ◌<◌, ◌^◌, ◌+◌, ◌*◌, [], ◌∷◌, length, IfNone, MatchResult, All, map, false};
ghost use Rattle.lf_model.specs.Start.{is_in_ram, is_text_word};
ghost use Rattle.elf_image.specs.Refusals.{first_fault, identification_conditions, kind_conditions, table_conditions, file_conditions, header_conditions, is_outside, dynamic, compressed, is_cut_off, is_overlapping, misplaced, has_code, writable_code, bad_entry};
ghost use Rattle.elf_image.specs.Tables.{TablesIn, HeaderIn, IsHeaderOf};

use crate::fields::{
    E_ENTRY, E_MACHINE, E_PHENTSIZE, E_PHNUM, E_PHOFF, E_SHENTSIZE, E_SHOFF, E_TYPE, E_VERSION,
    FILE_HEADER_SIZE, P_FLAGS, PROGRAM_HEADER_SIZE, SECTION_HEADER_SIZE, half, word,
};
use crate::header::{FileHeader, HeaderTable, ProgramHeader, SectionHeader, meet};
use crate::refusal::{Fault, Refusal};
use lf_model::addresses::{RAM_FIRST, is_text_word};
use lf_model::image::Range;

/// How an archive begins.
const ARCHIVE: &[u8] = b"!<arch>\n";

/// How an ELF file begins.
pub const MAGIC: &[u8] = b"\x7FELF";

/// The place of the class, and the class of 32-bit files.
const EI_CLASS: usize = 4;

pub const ELFCLASS32: u8 = 1;

/// The place of the order of data, and the order of big-endian files.
const EI_DATA: usize = 5;

pub const ELFDATA2MSB: u8 = 2;

/// The place of the version, and the current version.
const EI_VERSION: usize = 6;

pub const EV_CURRENT: u8 = 1;

/// The type of an executable file.
pub const ET_EXEC: u16 = 2;

/// The machine SPARC.
pub const EM_SPARC: u16 = 2;

/// The largest number of program headers.
const MOST_PROGRAM_HEADERS: u16 = 64;

/// What refuses the identification at the front of a file.
#[tactic(auto, unfolding(crate::specs::Refusals::identification_conditions))]
pub fn identification_fault(file: &[u8]) -> Option<Fault>
    requires { length file.now < 2 ^ 32 }
    ensures first { result ≡ first_fault (identification_conditions file.now) }
    ensures long { IfNone result (52 ≤ length file.now) }
{
    if file.starts_with(ARCHIVE) {
        return Some(Fault::at(Refusal::Archive, 0));
    }
    if file.len() < FILE_HEADER_SIZE {
        return Some(Fault::at(Refusal::Short, file.len()));
    }
    if !file.starts_with(MAGIC) {
        return Some(Fault::at(Refusal::Magic, 0));
    }
    if file[EI_CLASS] != ELFCLASS32 {
        return Some(Fault::at(Refusal::Class, EI_CLASS));
    }
    if file[EI_DATA] != ELFDATA2MSB {
        return Some(Fault::at(Refusal::Order, EI_DATA));
    }
    if file[EI_VERSION] != EV_CURRENT {
        return Some(Fault::at(Refusal::Version, EI_VERSION));
    }
    None
}

/// What refuses the version, the type and the machine of a file.
#[tactic(auto, unfolding(crate::specs::Refusals::kind_conditions))]
pub fn kind_fault(file: &[u8]) -> Option<Fault>
    requires { 52 ≤ length file.now }
    ensures { result ≡ first_fault (kind_conditions file.now) }
{
    if word(file, E_VERSION) != u32::from(EV_CURRENT) {
        return Some(Fault::at(Refusal::Version, E_VERSION));
    }
    if half(file, E_TYPE) != ET_EXEC {
        return Some(Fault::at(Refusal::FileType, E_TYPE));
    }
    if half(file, E_MACHINE) != EM_SPARC {
        return Some(Fault::at(Refusal::Machine, E_MACHINE));
    }
    None
}

/// The headers of a table, each of this size, do not lie in a file of `len` bytes.
fn is_outside(len: usize, size: usize, table: HeaderTable) -> bool
    requires { size < 2 ^ 16 }
    ensures { result ≡ is_outside len size table }
{
    len < table.place as usize + size * usize::from(table.count)
}

/// What refuses the tables of headers of a file of `len` bytes.
#[tactic(auto, unfolding(crate::specs::Refusals::table_conditions))]
pub fn table_fault(len: usize, header: FileHeader) -> Option<Fault>
    ensures first { result ≡ first_fault (table_conditions len header) }
    ensures inside { IfNone result (TablesIn len header) }
{
    let (programs, sections) = (header.programs, header.sections);
    if programs.count == 0 || programs.count > MOST_PROGRAM_HEADERS {
        return Some(Fault::at(Refusal::Table, E_PHNUM));
    }
    if usize::from(programs.entry_size) != PROGRAM_HEADER_SIZE {
        return Some(Fault::at(Refusal::Table, E_PHENTSIZE));
    }
    if is_outside(len, PROGRAM_HEADER_SIZE, programs) {
        return Some(Fault::at(Refusal::Table, E_PHOFF));
    }
    if sections.count != 0 && usize::from(sections.entry_size) != SECTION_HEADER_SIZE {
        return Some(Fault::at(Refusal::Table, E_SHENTSIZE));
    }
    if sections.count != 0 && is_outside(len, SECTION_HEADER_SIZE, sections) {
        return Some(Fault::at(Refusal::Table, E_SHOFF));
    }
    None
}

/// The header of a file, or what refuses it.
#[tactic(auto, using(crate::proofs::FaultLemmas::first_fault_append), unfolding(crate::specs::Refusals::file_conditions))]
pub fn file_header(file: &[u8]) -> Result<FileHeader, Fault>
    requires { length file.now < 2 ^ 32 }
    ensures { MatchResult result (IsHeaderOf file.now) (λ fault. first_fault (file_conditions file.now) ≡ Some fault) }
{
    if let Some(fault) = identification_fault(file) {
        return Err(fault);
    }
    if let Some(fault) = kind_fault(file) {
        return Err(fault);
    }
    let header = FileHeader::read(file);
    match table_fault(file.len(), header) {
        Some(fault) => Err(fault),
        None => Ok(header),
    }
}

/// What refuses a program that asks for a dynamic linker.
pub fn dynamic_fault(programs: &[ProgramHeader]) -> Option<Fault>
    ensures { result ≡ first_fault (map dynamic programs.now) }
{
    for program in programs {
        if program.is_dynamic() {
            return Some(Fault::new(Refusal::Dynamic, program.place));
        }
    }
    None
}

/// What refuses sections in memory that are compressed.
pub fn compressed_fault(sections: &[SectionHeader]) -> Option<Fault>
    ensures { result ≡ first_fault (map compressed sections.now) }
{
    for section in sections {
        if section.is_compressed() {
            return Some(Fault::new(Refusal::Compressed, section.place));
        }
    }
    None
}

/// All of `memory` lies in RAM of `ram` bytes.
fn is_in_ram(ram: u32, memory: Range) -> bool
    ensures { result ≡ is_in_ram ram memory.first memory.length }
{
    let end = u64::from(memory.first) + u64::from(memory.length);
    RAM_FIRST <= memory.first && end <= u64::from(RAM_FIRST) + u64::from(ram)
}

impl ProgramHeader {
    /// The segment has bytes, and they do not lie in a file of `len` bytes.
    fn is_cut_off(&self, len: usize) -> bool
        ensures { result ≡ is_cut_off len self.now }
    {
        self.file_size != 0 && (len as u64) < u64::from(self.offset) + u64::from(self.file_size)
    }

    /// One of these segments that stands before this one has an address of its memory.
    fn is_overlapping(&self, loads: &[ProgramHeader]) -> bool
        ensures { result ≡ is_overlapping loads.now self.now }
    {
        loads
            .iter()
            .any(|q| q.place < self.place && meet(q.memory, self.memory))
    }

    /// The loadable segment has more bytes than memory, or does not lie in the file or in RAM, or overlaps an earlier
    /// one.
    fn is_misplaced(&self, ram: u32, len: usize, loads: &[ProgramHeader]) -> bool
        ensures { result ≡ (misplaced ram len loads.now self.now).holds }
    {
        self.memory.length < self.file_size
            || self.is_cut_off(len)
            || !is_in_ram(ram, self.memory)
            || self.is_overlapping(loads)
    }

    /// One of these sections is code, a part of which lies in the segment.
    fn has_code(&self, sections: &[SectionHeader]) -> bool
        ensures { result ≡ has_code sections.now self.now }
    {
        sections
            .iter()
            .any(|s| s.is_code() && meet(s.memory, self.memory))
    }

    /// The segment is writable and executable, and has no part of a section of code.
    fn is_writable_code(&self, sections: &[SectionHeader]) -> bool
        ensures { result ≡ (writable_code sections.now self.now).holds }
    {
        self.is_writable() && self.is_executable() && !self.has_code(sections)
    }
}

/// What refuses loadable segments by where their bytes and their memory lie, with RAM of `ram` bytes and a file of `len`
/// bytes.
pub fn segment_fault(ram: u32, len: usize, loads: &[ProgramHeader]) -> Option<Fault>
    ensures { result ≡ first_fault (map (misplaced ram len loads.now) loads.now) }
{
    for load in loads {
        if load.is_misplaced(ram, len, loads) {
            return Some(Fault::new(Refusal::Segment, load.place));
        }
    }
    None
}

/// What refuses segments that are writable and executable.
pub fn writable_code_fault(sections: &[SectionHeader], loads: &[ProgramHeader]) -> Option<Fault>
    requires { All (λ load. HeaderIn load.place) loads.now }
    ensures { result ≡ first_fault (map (writable_code sections.now) loads.now) }
{
    for load in loads {
        if load.is_writable_code(sections) {
            let place = load.place as usize + P_FLAGS;
            return Some(Fault::at(Refusal::WritableCode, place));
        }
    }
    None
}

/// What refuses the headers of segments and sections, with RAM of `ram` bytes and a file of `len` bytes.
#[tactic(auto, using(crate::proofs::FaultLemmas::first_fault_append), unfolding(crate::specs::Refusals::header_conditions))]
pub fn header_fault(
    ram: u32,
    len: usize,
    programs: &[ProgramHeader],
    sections: &[SectionHeader],
    loads: &[ProgramHeader],
) -> Option<Fault>
    requires { All (λ load. HeaderIn load.place) loads.now }
    ensures { result ≡ first_fault (header_conditions ram len programs.now sections.now loads.now) }
{
    dynamic_fault(programs)
        .or_else(|| compressed_fault(sections))
        .or_else(|| segment_fault(ram, len, loads))
        .or_else(|| writable_code_fault(sections, loads))
}

/// What refuses the entry, with the text of the segments.
pub fn entry_fault(text: &[Range], entry: u32) -> Option<Fault>
    ensures { result ≡ first_fault (bad_entry text.now entry ∷ []) }
{
    if entry % 4 != 0 || !is_text_word(text, entry) {
        return Some(Fault::at(Refusal::Entry, E_ENTRY));
    }
    None
}
