use lf_io::{CleanFiles, CleanSink, Failed, MemFiles, MemSink, ReadErr, put_all, read_whole};
use std::alloc::{AllocError, Global};
use std::test::Fail;

// 149,998 bytes, which three reads of 65,536 bytes at most give, and a fourth ends.
fn long_file(alloc: Global) -> Result<Vec<u8>, AllocError> {
    (0..149_998).map(|at| (at % 251) as u8).collect(alloc)
}

#[test]
fn reads_whole_files_within_the_limit(rt: HostRuntime) -> Result<(), Fail> {
    let alloc = rt.alloc();
    let mut files = MemFiles::new(alloc, &[])?;
    files.put("a", b"old")?;
    files.put("a", b"hello")?;
    files.put("empty", b"")?;
    let rows = [
        ("a", 5, Ok("hello")),
        ("a", 4_294_967_295, Ok("hello")),
        ("a", 4, Err(ReadErr::TooLong(5))),
        ("a", 0, Err(ReadErr::TooLong(1))),
        ("empty", 0, Ok("")),
        ("missing", 5, Err(ReadErr::Fault)),
        ("a", 6, Ok("hello")),
    ];
    for (name, limit, want) in rows {
        let got = read_whole(alloc, &mut files, name, limit);
        match (got, want) {
            (Ok(bytes), Ok(text)) => assert!(rt; bytes.as_slice() == text.as_bytes()),
            (Err(error), Err(wanted)) => assert!(rt; error == wanted),
            _ => panic!(rt; "{name}, {limit}"),
        }
    }
    Ok(())
}

#[test]
fn clean_files_and_sinks_never_fail(rt: HostRuntime) -> Result<(), Fail> {
    let alloc = rt.alloc();
    let mut files = CleanFiles::new(alloc);
    files.put("a", b"hello")?;
    let bytes = read_whole(alloc, &mut files, "a", 5)?;
    assert!(rt; bytes.as_slice() == b"hello".as_slice());
    let missing = read_whole(alloc, &mut files, "missing", 0)?;
    assert!(rt; missing.is_empty());
    let mut out = CleanSink::new();
    assert!(rt; put_all(&mut out, b"hello").is_ok());
    Ok(())
}

#[test]
fn each_read_fails_in_turn(rt: HostRuntime) -> Result<(), Fail> {
    let alloc = rt.alloc();
    let bytes = long_file(alloc)?;
    for call in 1..100 {
        let mut files = MemFiles::new(alloc, &[call])?;
        files.put("long", &bytes)?;
        match read_whole(alloc, &mut files, "long", 149_998) {
            Ok(whole) => {
                // Four reads come.
                assert!(rt; call == 5);
                assert!(rt; whole.as_slice() == bytes.as_slice());
                return Ok(());
            }
            Err(error) => assert!(rt; error == ReadErr::Fault),
        }
        // The next attempt, with no call on the list, is as if nothing had failed.
        let whole = read_whole(alloc, &mut files, "long", 149_998)?;
        assert!(rt; whole.as_slice() == bytes.as_slice());
    }
    panic!(rt; "every run met a failure")
}

fn write_pieces(out: &mut MemSink) -> Result<(), Failed> {
    put_all(out, b"one,")?;
    put_all(out, b"two,")?;
    put_all(out, b"")?;
    put_all(out, b"three")
}

#[test]
fn each_write_fails_in_turn(rt: HostRuntime) -> Result<(), Fail> {
    let taken = ["", "one,", "one,two,", "one,two,three"];
    for (call, want) in (1..).zip(taken) {
        let mut out = MemSink::new(rt.alloc(), 13, &[call])?;
        let done = write_pieces(&mut out);
        assert!(rt; out.taken() == want.as_bytes());
        // Three writes come.
        assert!(rt; done.is_ok() == (call == 4));
    }
    Ok(())
}

#[test]
fn a_full_sink_takes_what_has_room(rt: HostRuntime) -> Result<(), Fail> {
    let mut out = MemSink::new(rt.alloc(), 5, &[])?;
    assert!(rt; put_all(&mut out, b"abc").is_ok());
    assert!(rt; put_all(&mut out, b"def").is_err());
    assert!(rt; put_all(&mut out, b"").is_ok());
    assert!(rt; out.taken() == b"abcde".as_slice());
    Ok(())
}

#[test]
fn prints_errors(rt: HostRuntime) -> Result<(), Fail> {
    let alloc = rt.alloc();
    let rows = [
        (ReadErr::Fault, "a read failed"),
        (ReadErr::TooLong(5), "the file has at least 5 bytes"),
        (ReadErr::Memory, "no memory is left"),
    ];
    for (error, want) in rows {
        let text = error.to_string(alloc)?;
        assert!(rt; text.as_str() == want);
    }
    let text = Failed.to_string(alloc)?;
    assert!(rt; text.as_str() == "a file or a sink failed");
    Ok(())
}
