ghost use Rattle.std.specs.Prelude.{◌≡◌, ℕ, ◌+◌, ◌^◌, ◌<◌, ◌≤◌, length, None, IsTrue, IfOk};

use crate::failed::Failed;
use crate::files::Files;
use crate::sink::Sink;
use std::alloc::Global;
use std::fs::File;
use std::io;
use std::io::{Read, Seek, SeekFrom};
use std::marker::Model;
use std::rt::Files as FileSystem;

/// The files of the system, of which it tells nothing. Each failure of the system is a fault.
///
/// The file that was read last stays open. It is moved only for a read at another place than the one where it is, so
/// that what cannot move, as a pipe, is read once from its start to its end.
#[derive(Drop)]
pub struct RealFiles<'a, R: FileSystem> {
    rt: &'a R,
    alloc: Global,
    kept: Option<OpenedFile<R::File>>,
    faults: u64,
}

// A file that is open.
#[derive(Drop)]
struct OpenedFile<F> {
    // The name that it was opened by, where there was memory for it.
    name: Option<String>,
    file: F,
    // The place of the next byte that it gives.
    place: u64,
}

impl<F: Read + Seek> OpenedFile<F> {
    ghost use Rattle.lf_io.specs.Opened.{IsOpenedBy};

    fn is_opened_by(&self, name: &str) -> bool
        ensures { IsTrue result → IsOpenedBy self.now.name name.now }
    {
        match &self.name {
            Some(kept) => kept.as_str() == name,
            None => false,
        }
    }

    // After an error its place is not known, and it is not to be read again.
    fn read_at(&mut self, at: u64, buf: &mut [u8]) -> io::Result<usize>
        requires { at < 2 ^ 63 }
        ensures within { IfOk result (λ n. n ≤ length buf.new) }
        ensures place { IfOk result (λ n. self.new.place ≡ at + n) }
        ensures name { self.new.name ≡ self.old.name }
    {
        if self.place != at {
            self.file.seek(SeekFrom::Start(at))?;
        }
        let n = self.file.read(buf)?;
        self.place = at + n as u64;
        Ok(n)
    }
}

impl<'a, R: FileSystem> Model for RealFiles<'a, R> {
    ghost use Rattle.std.specs.Prelude.{ℕ};

    ghost Value = { ℕ };

    ghost view = { λ it. it.faults };
}

impl<'a, R: FileSystem> RealFiles<'a, R> {
    ghost use Rattle.lf_io.specs.Opened.{IsOpenedBy};

    /// No fault is counted yet.
    pub fn new(alloc: Global, rt: &'a R) -> Self
        ensures { result ≡ 0 }
    {
        RealFiles {
            rt,
            alloc,
            kept: None,
            faults: 0,
        }
    }

    /// How many faults were counted, of files of whatever name.
    pub fn faults(&self) -> u64
        ensures { result ≡ self.now }
    {
        self.faults
    }

    // That the system opens the file of this name, no clause can say.
    fn open_anew(&self, name: &str) -> io::Result<OpenedFile<R::File>>
        ensures opened_by { IfOk result (λ opened. IsOpenedBy opened.name name.now) }
        ensures first { IfOk result (λ opened. opened.place ≡ 0) }
    {
        let file = File::open(self.rt, name)?;
        Ok(OpenedFile {
            name: String::from_str(self.alloc, name).ok(),
            file,
            place: 0,
        })
    }

    fn open(&mut self, name: &str) -> io::Result<OpenedFile<R::File>>
        ensures opened_by { IfOk result (λ opened. IsOpenedBy opened.name name.now) }
        ensures same { self.new ≡ self.old }
    {
        match self.kept.take() {
            Some(kept) if kept.is_opened_by(name) => Ok(kept),
            _ => self.open_anew(name),
        }
    }

    // After an error no file stays open.
    fn read_at(&mut self, name: &str, at: u64, buf: &mut [u8]) -> io::Result<usize>
        requires { at < 2 ^ 63 }
        ensures within { IfOk result (λ n. n ≤ length buf.new) }
        ensures same { self.new ≡ self.old }
    {
        let mut opened = self.open(name)?;
        let n = opened.read_at(at, buf)?;
        self.kept = Some(opened);
        Ok(n)
    }
}

impl<'a, R: FileSystem> Files for RealFiles<'a, R> {
    ghost held = { λ _. None };

    ghost faults = { λ it _. it };

    // Which bytes come, and how many, is the system's to say: no clause can, beyond the trait's.
    fn read(&mut self, name: &str, at: u64, buf: &mut [u8]) -> Result<usize, Failed> {
        match self.read_at(name, at, buf) {
            Ok(n) => Ok(n),
            Err(_) => {
                self.faults = self.faults.saturating_add(1);
                Err(Failed)
            }
        }
    }
}

/// Standard output, of which it tells nothing. Each failure of the system is a fault.
#[derive(Drop)]
pub struct RealSink<'a, P: Print> {
    rt: &'a P,
    faults: u64,
}

impl<'a, P: Print> Model for RealSink<'a, P> {
    ghost use Rattle.std.specs.Prelude.{ℕ};

    ghost Value = { ℕ };

    ghost view = { λ it. it.faults };
}

impl<'a, P: Print> RealSink<'a, P> {
    /// No fault is counted yet.
    pub fn new(rt: &'a P) -> Self
        ensures { result ≡ 0 }
    {
        RealSink { rt, faults: 0 }
    }

    /// How many faults were counted.
    pub fn faults(&self) -> u64
        ensures { result ≡ self.now }
    {
        self.faults
    }
}

impl<'a, P: Print> Sink for RealSink<'a, P> {
    ghost taken = { λ _. None };

    ghost faults = { λ it. it };

    // How many bytes go is the system's to say: no clause can, beyond the trait's.
    fn write(&mut self, piece: &[u8]) -> Result<usize, Failed> {
        if piece.is_empty() {
            return Ok(0);
        }
        match self.rt.write_some(piece) {
            Ok(n) if n > 0 => Ok(n),
            _ => {
                self.faults = self.faults.saturating_add(1);
                Err(Failed)
            }
        }
    }
}
