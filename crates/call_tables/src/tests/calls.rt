use super::{HEADERS, OUTPUT, called, expect, image, words_of};
use leon_main::plain_call;
use lf_io::{CleanFiles, CleanSink, MemFiles, MemSink};
use std::alloc::{AllocError, Global};
use std::test::Fail;

/// Calls, each with its status and its text. The folder cases/ has more.
static CALLS: [(&str, u8, &str); 13] = [
    ("leon3ft codes 00000000", 0, "0C\n"),
    ("leon3ft codes FFFFFFFF", 0, "0C\n"),
    ("leon3ft codes 00000001", 0, "43\n"),
    ("leon3ft codes 80000000", 0, "79\n"),
    ("leon3ft codes 0", 2, "error 2 usage\n"),
    ("leon3ft run image empty empty", 2, "error 2 usage\n"),
    ("leon3ft play image empty empty", 2, "error 2 usage\n"),
    (
        "leon3ft play short empty empty empty",
        4,
        "error 4 Short 51\n",
    ),
    (
        "leon3ft play absent empty empty empty",
        3,
        "error 3 image\n",
    ),
    (
        "leon3ft play image no-cores empty empty",
        6,
        "error 6 range machine.cores\n",
    ),
    (
        "leon3ft play image empty bit-39 empty",
        5,
        "error 5 script 1 range\n",
    ),
    (
        "leon3ft play image empty empty bit-39",
        5,
        "error 5 schedule 1 word\n",
    ),
    (
        "leon3ft play image spaces empty empty",
        12,
        "error 12 configuration 1048576\n",
    ),
];

/// The files that these calls name. A configuration is one byte too long.
fn all_files(alloc: Global) -> Result<MemFiles, AllocError> {
    let mut files = MemFiles::new(alloc, &[])?;
    files.put("image", &image(alloc, &OUTPUT)?)?;
    files.put("short", &HEADERS[..51])?;
    files.put("empty", b"")?;
    files.put("no-cores", b"machine.cores = 0")?;
    files.put("bit-39", b"mem 0 40000000 39\n")?;
    files.put("spaces", &vec![in alloc; b' '; 1_048_577]?)?;
    Ok(files)
}

#[test]
fn calls_are_answered(rt: HostRuntime) -> Result<(), Fail> {
    let mut files = all_files(rt.alloc())?;
    for (row, (call, want, text)) in CALLS.iter().enumerate() {
        let (status, out) = called(rt.alloc(), call, &mut files, &[])?;
        expect(&rt, row, status == *want && out.taken() == text.as_bytes());
    }
    Ok(())
}

#[test]
fn no_words_are_not_taken(rt: HostRuntime) -> Result<(), Fail> {
    let alloc = rt.alloc();
    let mut out = MemSink::new(alloc, 64, &[])?;
    let status = plain_call(alloc, &[], &mut CleanFiles::new(alloc), &mut out);
    assert!(rt; status == 2 && out.taken() == b"error 2 usage\n".as_slice());
    Ok(())
}

/// Calls over files and a sink that never fail, each with its status.
static CLEAN_CALLS: [(&str, u8); 4] = [
    ("leon3ft codes 00000001", 0),
    ("leon3ft codes 1", 2),
    ("leon3ft play absent absent absent absent", 4),
    ("leon3ft play image absent absent absent", 0),
];

/// Among files that never fail, a missing one reads as an empty one.
#[test]
fn clean_files_and_a_clean_sink(rt: HostRuntime) -> Result<(), Fail> {
    let alloc = rt.alloc();
    let mut files = CleanFiles::new(alloc);
    files.put("image", &image(alloc, &OUTPUT)?)?;
    for (row, (call, want)) in CLEAN_CALLS.iter().enumerate() {
        let words = words_of(alloc, call)?;
        let status = plain_call(alloc, &words, &mut files, &mut CleanSink::new());
        expect(&rt, row, status == *want);
    }
    Ok(())
}
