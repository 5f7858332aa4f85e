ghost use Rattle.std.specs.Prelude.{◌≡◌, ◌≤◌, ◌<◌, ◌^◌, ◌+◌, ◌*◌, ◌++◌, length, IfOk, IfErr, OnOk, MatchResult, IsTrue, All, map, take, drop, false};
ghost use Rattle.std.specs.List.{flat_map};
ghost use Rattle.lf_model.specs.declared.image.Image.{Image};
ghost use Rattle.lf_model.specs.Start.{IsLoadable};
ghost use Rattle.elf_image.specs.Headers.{is_executable, is_writable, meet};
ghost use Rattle.elf_image.specs.Spelled.{common, code_in, text_in, text_of, segment_of, image_of};
ghost use Rattle.elf_image.specs.Refusals.{is_cut_off};
ghost use Rattle.elf_image.specs.Answer.{IsFileOf, IsCause};

use crate::conditions::{entry_fault, file_header, header_fault};
use crate::error::ImageErr;
use crate::header::{ProgramHeader, SectionHeader, meet};
use lf_model::image::{Bytes, Image, Range, Ranges, Segment, Segments};
use lf_model::listed::Listed;
use std::alloc::{AllocError, Global};

/// The addresses that two ranges have in common.
fn common(a: Range, b: Range) -> Range
    requires { IsTrue (meet a b) }
    ensures { result ≡ common a b }
{
    let first = a.first.max(b.first);
    let a_end = u64::from(a.first) + u64::from(a.length);
    let b_end = u64::from(b.first) + u64::from(b.length);
    Range {
        first,
        length: (a_end.min(b_end) - u64::from(first)) as u32,
    }
}

/// Adds the parts of sections of code that lie in a segment.
fn push_code(
    text: &mut Ranges,
    sections: &[SectionHeader],
    load: ProgramHeader,
) -> Result<(), AllocError>
    ensures { OnOk result (text.new ≡ text.old ++ flat_map (code_in load) sections.now) }
{
    for section in sections {
        if section.is_code() && meet(section.memory, load.memory) {
            text.push(common(section.memory, load.memory))?;
        }
    }
    Ok(())
}

/// Adds the text of a segment.
#[tactic(auto, unfolding(crate::specs::Spelled::text_in))]
fn push_text(
    text: &mut Ranges,
    sections: &[SectionHeader],
    load: ProgramHeader,
) -> Result<(), AllocError>
    ensures { OnOk result (text.new ≡ text.old ++ text_in sections.now load) }
{
    if !load.is_executable() {
        return Ok(());
    }
    if load.is_writable() {
        return push_code(text, sections, load);
    }
    text.push(load.memory)
}

/// The text of segments.
fn text_of(
    alloc: Global,
    sections: &[SectionHeader],
    loads: &[ProgramHeader],
) -> Result<Ranges, AllocError>
    ensures { IfOk result (λ text. text ≡ text_of sections.now loads.now) }
{
    let mut text = Listed::new(alloc);
    for load in loads {
        push_text(&mut text, sections, *load)?;
    }
    Ok(text)
}

/// The bytes of a segment that the file gives.
fn bytes_of(alloc: Global, file: &[u8], load: ProgramHeader) -> Result<Bytes, AllocError>
    requires { is_cut_off (length file.now) load ≡ false }
    ensures { IfOk result (λ bytes. bytes ≡ take load.file_size (drop load.offset file.now)) }
{
    if load.file_size == 0 {
        return Ok(Listed::new(alloc));
    }
    let start = load.offset as usize;
    let bytes = &file[start..start + load.file_size as usize];
    Ok(Listed::from_vec(Vec::from_slice(alloc, bytes)?))
}

/// The segments of these headers.
fn segments_of(alloc: Global, file: &[u8], loads: &[ProgramHeader]) -> Result<Segments, AllocError>
    requires { All (λ load. is_cut_off (length file.now) load ≡ false) loads.now }
    ensures { IfOk result (λ segments. segments ≡ map (segment_of file.now) loads.now) }
{
    let mut segments = Listed::new(alloc);
    for load in loads {
        segments.push(Segment {
            addr: load.memory.first,
            bytes: bytes_of(alloc, file, *load)?,
            size: load.memory.length,
            write: load.is_writable(),
            exec: load.is_executable(),
        })?;
    }
    Ok(segments)
}

/// The image of a file, or what refuses it.
#[tactic(auto, using(crate::proofs::FaultLemmas::first_fault_append), unfolding(crate::specs::Refusals::conditions))]
fn image_of(alloc: Global, file: &[u8], ram: u32) -> Result<Image, ImageErr>
    requires { length file.now < 2 ^ 32 }
    ensures found { IfOk result (IsFileOf ram file.now) }
    ensures refused { IfErr result (IsCause ram file.now) }
{
    let header = file_header(file)?;
    let programs = ProgramHeader::read_all(alloc, file, header.programs)?;
    let sections = SectionHeader::read_all(alloc, file, header.sections)?;
    let loads = ProgramHeader::loads_of(alloc, &programs)?;
    if let Some(fault) = header_fault(ram, file.len(), &programs, &sections, &loads) {
        return Err(fault.into());
    }
    let text = text_of(alloc, &sections, &loads)?;
    if let Some(fault) = entry_fault(text.as_slice(), header.entry) {
        return Err(fault.into());
    }
    Ok(Image {
        entry: header.entry,
        segments: segments_of(alloc, file, &loads)?,
        text,
    })
}

/// Reads the image that an ELF file holds, for RAM of `ram` bytes.
///
/// The file is refused where one of the conditions of `specs/Refusals.antt` holds, and the first of them is told. Else
/// the image is the one that the bytes spell, as `specs/Spelled.antt` says. Want of memory may come at any file.
pub fn read_image(alloc: Global, b: &[u8], ram: u32) -> Result<Image, ImageErr>
    requires { length b.now < 2 ^ 32 }
    // An image is one that the file spells, and that is answered wherever there is one.
    ensures found { IfOk result (IsFileOf ram b.now) }
    ensures only { (image : Image) → IsFileOf ram b.now image
        → MatchResult result (λ i. i ≡ image) (λ e. e ≡ ImageErr.Memory) }

    // A refusal is the first that holds.
    ensures refused { IfErr result (IsCause ram b.now) }
    ensures loadable { IfOk result (IsLoadable ram) }
{
    image_of(alloc, b, ram)
}
