use leon_main::plain_call;
use lf_io::{MemFiles, MemSink};
use std::alloc::{AllocError, Global};
use std::process::Abort;

mod calls;
mod images;
mod runs;

/// A call that runs the image of a test, with a configuration, a script and a schedule.
const PLAY: &str = "leon3ft play image configuration script schedule";

/// The ELF header, and the program header of a read-and-execute segment at 40000000 hex, its entry, to p_filesz.
const HEADERS: [u8; 68] = [
    0x7f, 0x45, 0x4c, 0x46, 0x01, 0x02, 0x01, 0x00, 0x00, 0x00, 0x00, 0x00, 0x00, 0x00, 0x00, 0x00,
    0x00, 0x02, 0x00, 0x02, 0x00, 0x00, 0x00, 0x01, 0x40, 0x00, 0x00, 0x00, 0x00, 0x00, 0x00, 0x34,
    0x00, 0x00, 0x00, 0x00, 0x00, 0x00, 0x00, 0x00, 0x00, 0x34, 0x00, 0x20, 0x00, 0x01, 0x00, 0x28,
    0x00, 0x00, 0x00, 0x00, 0x00, 0x00, 0x00, 0x01, 0x00, 0x00, 0x00, 0x54, 0x40, 0x00, 0x00, 0x00,
    0x40, 0x00, 0x00, 0x00,
];

/// SETHI and OR make a byte, ST writes it to the output word, and Ticc halts the core.
const OUTPUT: [u32; 5] = [
    0x0320_0000,
    0x9010_2041,
    0xd020_6100,
    0x91d0_2000,
    0x0100_0000,
];

/// The row of a table, by its number, or the call of a file or of the sink that fails, is answered as it has to be. (A message of
/// its own in each loop would cost the prover three times as much.)
fn expect(rt: &impl Abort, row: usize, holds: bool) {
    assert!(rt; holds, "row or call {row}");
}

/// The file of a program.
fn image(alloc: Global, words: &[u32]) -> Result<Vec<u8>, AllocError> {
    let count = u32::try_from(words.len()).unwrap_or(0);
    let size = count.wrapping_mul(4).to_be_bytes();
    let mut bytes = Vec::from_slice(alloc, &HEADERS)?;
    bytes.extend_from_slice(&size)?;
    bytes.extend_from_slice(&size)?;
    bytes.extend_from_slice(&[0, 0, 0, 5, 0, 0, 0, 4])?;
    for word in words {
        bytes.extend_from_slice(&word.to_be_bytes())?;
    }
    Ok(bytes)
}

/// The words of a call, between which there is one space each.
fn words_of(alloc: Global, call: &str) -> Result<Vec<String>, AllocError> {
    let mut words = Vec::new(alloc);
    for word in call.split(' ') {
        words.push(String::from_str(alloc, word)?)?;
    }
    Ok(words)
}

/// The status of a call, and what a sink took of which these writes fail.
fn called(
    alloc: Global,
    call: &str,
    files: &mut MemFiles,
    writes: &[u64],
) -> Result<(u8, MemSink), AllocError> {
    let mut out = MemSink::new(alloc, 4096, writes)?;
    let words = words_of(alloc, call)?;
    let status = plain_call(alloc, &words, files, &mut out);
    Ok((status, out))
}
