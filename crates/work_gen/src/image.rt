ghost use Rattle.std.specs.Prelude.{◌≡◌, ◌≤◌, ◌+◌, ℕ, IfOk};
ghost use Rattle.lf_model.specs.Start.{ram_first, IsLoadable};
ghost use Rattle.work_gen.specs.Layout.{code_length, data_address, data_end, segments, text, instructions, generated_image, HoldsProgram};

use crate::code::code_of;
use lf_model::addresses::RAM_FIRST;
use lf_model::image::{Bytes, Image, Range, Ranges, Segment, Segments};
use std::alloc::{AllocError, Global};

/// The bytes of the data.
const DATA_LENGTH: u32 = 1024;

/// The data begin at a multiple of this many bytes.
const DATA_ALIGNMENT: u32 = 4096;

/// The bytes of the code.
fn code_length(size: u32) -> u32
    requires { size ≤ 100000 }
    ensures { result ≡ code_length size }
{
    4 * (size + 8)
}

/// The address of the data.
fn data_address(size: u32) -> u32
    requires { size ≤ 100000 }
    ensures { result ≡ data_address size }
{
    let pages = (code_length(size) + DATA_ALIGNMENT - 1) / DATA_ALIGNMENT;
    RAM_FIRST + pages * DATA_ALIGNMENT
}

/// The first address behind the data.
pub fn data_end(size: u32) -> u32
    requires { size ≤ 100000 }
    ensures { result ≡ data_end size }
{
    data_address(size) + DATA_LENGTH
}

/// The segments of a program with this code.
fn segments_of(alloc: Global, code: Vec<u8>, size: u32) -> Result<Segments, AllocError>
    requires { size ≤ 100000 }
    ensures { IfOk result (λ listed. listed ≡ segments code.items size) }
{
    let mut segments = Vec::with_capacity(alloc, 2)?;
    segments.push(Segment {
        addr: RAM_FIRST,
        bytes: Bytes::from_vec(code),
        size: code_length(size),
        write: false,
        exec: true,
    })?;
    segments.push(Segment {
        addr: data_address(size),
        bytes: Bytes::new(alloc),
        size: DATA_LENGTH,
        write: true,
        exec: false,
    })?;
    Ok(Segments::from_vec(segments))
}

/// The text of a program.
fn text_of(alloc: Global, size: u32) -> Result<Ranges, AllocError>
    requires { size ≤ 100000 }
    ensures { IfOk result (λ listed. listed ≡ text size) }
{
    let mut text = Vec::with_capacity(alloc, 1)?;
    text.push(Range {
        first: RAM_FIRST,
        length: code_length(size),
    })?;
    Ok(Ranges::from_vec(text))
}

/// The image of the program of a start and a size, from 16 to 100,000: `size` pseudo-random instructions between start-up code and
/// end, and 1,024 bytes of data.
///
/// # Errors
///
/// Memory ran out.
#[tactic(auto, unfolding(crate::specs::Layout::generated_image))]
pub fn make(alloc: Global, start: u64, size: u32) -> Result<Image, AllocError>
    requires least { 16 ≤ size }
    requires most { size ≤ 100000 }
    ensures image { IfOk result (λ image. image ≡ generated_image start size) }

    // It can be loaded into each RAM that reaches to the end of the data, and its words are the program's instructions.
    ensures loadable { IfOk result (λ image. (ram : ℕ) → data_end size ≤ ram_first + ram → IsLoadable ram image) }
    ensures decodes { IfOk result (HoldsProgram (instructions start size)) }
{
    let address = data_address(size);
    let code = code_of(alloc, address, start, size)?;
    let segments = segments_of(alloc, code, size)?;
    let text = text_of(alloc, size)?;
    Ok(Image {
        entry: RAM_FIRST,
        segments,
        text,
    })
}
