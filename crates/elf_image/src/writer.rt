ghost use Rattle.std.specs.Prelude.{◌≡◌, ◌≤◌, ◌<◌, ◌^◌, ◌++◌, length, IfOk, OnOk, All, ℕ};
ghost use Rattle.lf_model.specs.declared.image.Image.{Image};
ghost use Rattle.elf_image.specs.Written.{file_header, program_header, program_headers, flags_of, contents, written_program, written, IsPlain};
ghost use Rattle.elf_image.specs.Answer.{IsFileOf};

use crate::conditions::{ELFCLASS32, ELFDATA2MSB, EM_SPARC, ET_EXEC, EV_CURRENT};
use crate::fields::{
    E_EHSIZE, E_ENTRY, E_MACHINE, E_PHENTSIZE, E_PHNUM, E_PHOFF, E_SHENTSIZE, E_TYPE, E_VERSION,
    FILE_HEADER_SIZE, P_ALIGN, P_FILESZ, P_FLAGS, P_MEMSZ, P_OFFSET, P_PADDR, P_TYPE, P_VADDR,
    PROGRAM_HEADER_SIZE, SECTION_HEADER_SIZE,
};
use crate::header::{PF_R, PF_W, PF_X, PT_LOAD};
use byteorder::{BigEndian, ByteOrder};
use lf_model::image::{Image, Segment};
use std::alloc::{AllocError, Global};

/// The front of the identification: the magic number, 32-bit class, big-endian data and the current version.
const IDENTIFICATION: [u8; 7] = [0x7F, b'E', b'L', b'F', ELFCLASS32, ELFDATA2MSB, EV_CURRENT];

/// The alignment of a segment, in bytes.
const WORD: u32 = 4;

/// The header of a file by its entry and its number of program headers, which come right after it. The file has no
/// section headers.
#[tactic(auto, unfolding(crate::specs::Written::file_header))]
fn file_header(entry: u32, programs: u16) -> [u8; FILE_HEADER_SIZE]
    ensures { result ≡ file_header entry programs }
{
    let mut header = [0; FILE_HEADER_SIZE];
    header[..7].copy_from_slice(&IDENTIFICATION);
    BigEndian::write_u16(&mut header[E_TYPE..], ET_EXEC);
    BigEndian::write_u16(&mut header[E_MACHINE..], EM_SPARC);
    BigEndian::write_u32(&mut header[E_VERSION..], u32::from(EV_CURRENT));
    BigEndian::write_u32(&mut header[E_ENTRY..], entry);
    BigEndian::write_u32(&mut header[E_PHOFF..], FILE_HEADER_SIZE as u32);
    BigEndian::write_u16(&mut header[E_EHSIZE..], FILE_HEADER_SIZE as u16);
    BigEndian::write_u16(&mut header[E_PHENTSIZE..], PROGRAM_HEADER_SIZE as u16);
    BigEndian::write_u16(&mut header[E_PHNUM..], programs);
    BigEndian::write_u16(&mut header[E_SHENTSIZE..], SECTION_HEADER_SIZE as u16);
    header
}

/// The header of a loadable segment: the place of its bytes in the file, its address, its number of bytes in the
/// file and in memory, and its flags.
#[tactic(auto, unfolding(crate::specs::Written::program_header))]
fn program_header(
    offset: u32,
    addr: u32,
    file_size: u32,
    size: u32,
    flags: u32,
) -> [u8; PROGRAM_HEADER_SIZE]
    ensures { result ≡ program_header offset addr file_size size flags }
{
    let mut header = [0; PROGRAM_HEADER_SIZE];
    BigEndian::write_u32(&mut header[P_TYPE..], PT_LOAD);
    BigEndian::write_u32(&mut header[P_OFFSET..], offset);
    BigEndian::write_u32(&mut header[P_VADDR..], addr);
    BigEndian::write_u32(&mut header[P_PADDR..], addr);
    BigEndian::write_u32(&mut header[P_FILESZ..], file_size);
    BigEndian::write_u32(&mut header[P_MEMSZ..], size);
    BigEndian::write_u32(&mut header[P_FLAGS..], flags);
    BigEndian::write_u32(&mut header[P_ALIGN..], WORD);
    header
}

/// The flags of a segment.
fn flags_of(segment: &Segment) -> u32
    ensures { result ≡ flags_of segment.now }
{
    PF_R + PF_W * u32::from(segment.write) + PF_X * u32::from(segment.exec)
}

/// Adds the program headers of these segments, whose bytes stand one after the other from `first` on in the file.
fn push_headers(file: &mut Vec<u8>, segments: &[Segment], first: u32) -> Result<(), AllocError>
    requires few { length segments.now ≤ 64 }
    requires short { All (λ s. length s.bytes ≤ 2 ^ 24) segments.now }
    requires front { first ≤ 2 ^ 12 }
    ensures { OnOk result (file.new.items ≡ file.old.items ++ program_headers first segments.now) }
{
    let mut place = first;
    for segment in segments {
        let size = segment.bytes.len() as u32;
        let header = program_header(place, segment.addr, size, segment.size, flags_of(segment));
        file.extend_from_slice(&header)?;
        place += size;
    }
    Ok(())
}

/// Adds the bytes of these segments, one after the other.
fn push_contents(file: &mut Vec<u8>, segments: &[Segment]) -> Result<(), AllocError>
    ensures { OnOk result (file.new.items ≡ file.old.items ++ contents segments.now) }
{
    for segment in segments {
        file.extend_from_slice(segment.bytes.as_slice())?;
    }
    Ok(())
}

/// The file of a program by its entry and its segments.
#[tactic(auto, unfolding(crate::specs::Written::written_program))]
fn program_file(alloc: Global, entry: u32, segments: &[Segment]) -> Result<Vec<u8>, AllocError>
    requires few { length segments.now ≤ 64 }
    requires short { All (λ s. length s.bytes ≤ 2 ^ 24) segments.now }
    ensures bytes { IfOk result (λ file. file.items ≡ written_program entry segments.now) }
    ensures field { entry < 2 ^ 32 }
{
    let first = FILE_HEADER_SIZE + PROGRAM_HEADER_SIZE * segments.len();
    let mut file = Vec::new(alloc);
    file.extend_from_slice(&file_header(entry, segments.len() as u16))?;
    push_headers(&mut file, segments, first as u32)?;
    push_contents(&mut file, segments)?;
    Ok(file)
}

/// Writes an image as an ELF file: its header, a program header for each segment, and the bytes of the segments, in their
/// order and without gaps. Text is not written, since the flags of the segments tell it.
pub fn write_image(alloc: Global, i: &Image) -> Result<Vec<u8>, AllocError>
    requires few { length i.now.segments ≤ 64 }
    requires short { All (λ s. length s.bytes ≤ 2 ^ 24) i.now.segments }
    ensures bytes { IfOk result (λ file. file.items ≡ written i.now) }

    // Reading the file gives back the image, for each RAM for which a file can give it.
    ensures reads_back { IfOk result (λ file. (ram : ℕ) → ram ≤ 2 ^ 24 → IsPlain ram i.now → IsFileOf ram file.items i.now) }
{
    let file = program_file(alloc, i.entry, i.segments.as_slice())?;
    Ok(file)
}
