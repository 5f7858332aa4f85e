use lf_io::{Failed, Files, RealFiles, RealSink, Sink, read_whole};
use std::fmt::Display;
use std::io::Write;
use std::os::fd::AsRawFd;
use std::test::Fail;
use std::{fs, io};

const NAME: &str = "lf_io_real_files.txt";

// A name of the same length.
const OTHER: &str = "lf_io_more_files.txt";

#[test]
fn reads_real_files(rt: HostRuntime) -> Result<(), Fail> {
    fs::write(&rt, NAME, "abc")?;
    let mut files = RealFiles::new(rt.alloc(), &rt);
    for (at, want, text) in [(0, 2, b"ab"), (2, 1, b"c-"), (3, 0, b"--"), (1, 2, b"bc")] {
        let mut buf = [b'-'; 2];
        let n = files.read(NAME, at, &mut buf);
        assert!(rt; n == Ok(want) && buf == *text);
    }
    let mut buf = [0; 2];
    assert!(rt; files.read("lf_io_missing.txt", 0, &mut buf) == Err(Failed));
    assert!(rt; files.faults() == 1);
    assert!(rt; files.read(NAME, 0, &mut buf) == Ok(2));
    fs::remove_file(&rt, NAME)?;
    Ok(())
}

#[test]
fn reads_each_file_by_its_name(rt: HostRuntime) -> Result<(), Fail> {
    fs::write(&rt, NAME, "abc")?;
    fs::write(&rt, OTHER, "xyz")?;
    let mut files = RealFiles::new(rt.alloc(), &rt);
    for (name, text) in [(NAME, "abc"), (OTHER, "xyz"), (NAME, "abc")] {
        let bytes = read_whole(rt.alloc(), &mut files, name, 3)?;
        assert!(rt; bytes.as_slice() == text.as_bytes());
    }
    fs::remove_file(&rt, NAME)?;
    fs::remove_file(&rt, OTHER)?;
    Ok(())
}

// A pipe is read from its start to its end, in two pieces, and gives nothing twice.
#[test]
fn reads_a_pipe_once(rt: HostRuntime) -> Result<(), Fail> {
    let (reader, mut writer) = io::pipe(&rt)?;
    let name = format!(in rt.alloc(); "/dev/fd/{}", reader.as_raw_fd())?;
    let mut files = RealFiles::new(rt.alloc(), &rt);
    let mut buf = [b'-'; 2];
    writer.write_all(b"abc")?;
    for (at, text) in [(0, "ab"), (2, "c")] {
        let n = files.read(&name, at, &mut buf);
        assert!(rt; n == Ok(text.len()) && &buf[..text.len()] == text.as_bytes());
    }
    drop(writer);
    assert!(rt; files.read(&name, 3, &mut buf) == Ok(0));
    assert!(rt; files.read(&name, 0, &mut buf) == Err(Failed));
    assert!(rt; files.faults() == 1);
    Ok(())
}

// A folder opens, and cannot be read.
#[test]
fn folders_are_faults(rt: HostRuntime) {
    let mut files = RealFiles::new(rt.alloc(), &rt);
    assert!(rt; files.read(".", 0, &mut [0; 2]) == Err(Failed));
    assert!(rt; files.faults() == 1);
}

// A standard output that fails.
struct Closed;

fn broken<T>() -> io::Result<T> {
    Err(io::Error::from(io::ErrorKind::BrokenPipe))
}

impl Print for Closed {
    fn print<D: Display + Drop>(&self, _value: D) -> io::Result<()> {
        broken()
    }

    fn println<D: Display + Drop>(&self, _value: D) -> io::Result<()> {
        broken()
    }

    fn write_all(&self, _bytes: &[u8]) -> io::Result<()> {
        broken()
    }
}

#[test]
fn writes_to_standard_output(rt: HostRuntime) {
    let mut out = RealSink::new(&rt);
    assert!(rt; out.write(b"x") == Ok(1) && out.write(b"") == Ok(0));
    assert!(rt; out.faults() == 0);
    let mut closed = RealSink::new(&Closed);
    assert!(rt; closed.write(b"x") == Err(Failed) && closed.write(b"") == Ok(0));
    assert!(rt; closed.faults() == 1);
}
