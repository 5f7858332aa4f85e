ghost use Rattle.std.specs.Prelude.{◌≡◌, ◌+◌, ◌-◌, ◌*◌, ◌^◌, ◌<◌, ◌≤◌, ◌&&◌, ℕ, nat_le, nat_lt, if◌then◌else◌, length, slice_index, vec_len, IsTrue, IfOk};
ghost use Rattle.lf_model.specs.Start.{ram_first, is_in_ram, covers, byte_in, initial_byte, number_at};
ghost use Rattle.ram_words.specs.Ram.{IsInRam, first_words};

use lf_model::addresses::RAM_FIRST;
use lf_model::image::{Image, Segment};
use std::alloc::{AllocError, Global};

/// Writes `content` from byte `at` on.
fn put(bytes: &mut [u8], at: usize, content: &[u8])
    requires { at + length content.now ≤ length bytes.old }
    ensures { (k : ℕ) → slice_index bytes.new k
        ≡ (if nat_le at k && nat_lt k (at + length content.now) then slice_index content.now (k - at) else slice_index bytes.old k) }
{
    bytes[at..at + content.len()].copy_from_slice(content);
}

/// Writes 0 from byte `from` to before byte `to`.
fn clear(bytes: &mut [u8], from: usize, to: usize)
    requires ordered { from ≤ to }
    requires within { to ≤ length bytes.old }
    ensures { (k : ℕ) → slice_index bytes.new k
        ≡ (if nat_le from k && nat_lt k to then 0 else slice_index bytes.old k) }
{
    bytes[from..to].fill(0);
}

/// Writes a segment to its place in the bytes of RAM: the bytes that its file gives, and 0 up to its size.
fn load(bytes: &mut [u8], segment: &Segment)
    requires { IsTrue (is_in_ram (length bytes.old) segment.now.addr segment.now.size) }
    ensures { (k : ℕ) → k < length bytes.old → slice_index bytes.new k
        ≡ (if covers (ram_first + k) segment.now then byte_in (ram_first + k) segment.now else slice_index bytes.old k) }
{
    let first = (segment.addr - RAM_FIRST) as usize;
    let size = segment.size as usize;
    let given = segment.bytes.as_slice();
    let given = &given[..given.len().min(size)];
    put(bytes, first, given);
    clear(bytes, first + given.len(), first + size);
}

/// The bytes of RAM at the start. The last segment is loaded first, so that a byte in two segments is that of the first.
pub fn initial_bytes(alloc: Global, ram: u32, image: &Image) -> Result<Vec<u8>, AllocError>
    requires { IsInRam ram image.now }
    ensures length { IfOk result (λ bytes. vec_len bytes ≡ ram) }
    ensures bytes { IfOk result (λ bytes. (k : ℕ) → k < ram
        → slice_index bytes.items k ≡ initial_byte image.now (ram_first + k)) }
{
    let segments = image.segments.as_slice();
    let mut bytes = vec![in alloc; 0; ram as usize]?;
    for i in (0..segments.len()).rev() {
        load(bytes.as_mut_slice(), &segments[i]);
    }
    Ok(bytes)
}

/// The big-endian word of the four bytes from byte `at` on.
#[tactic(auto, unfolding(lf_model::specs::Start::number_at))]
pub fn word_at(bytes: &[u8], at: usize) -> u32
    requires { at + 4 ≤ length bytes.now }
    ensures { result ≡ number_at (slice_index bytes.now) at 4 }
{
    u32::from_be_bytes([bytes[at], bytes[at + 1], bytes[at + 2], bytes[at + 3]])
}

/// The words of RAM at the start. `ram` is a multiple of 4.
pub fn initial_words(alloc: Global, ram: u32, image: &Image) -> Result<Vec<u32>, AllocError>
    requires { IsInRam ram image.now }
    ensures { IfOk result (λ words. words.items ≡ first_words ram image.now) }
{
    let bytes = initial_bytes(alloc, ram, image)?;
    let count = bytes.len() / 4;
    let mut words = Vec::with_capacity(alloc, count)?;
    for place in 0..count {
        words.push(word_at(&bytes, 4 * place))?;
    }
    Ok(words)
}
