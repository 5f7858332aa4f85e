ghost use Rattle.std.specs.Prelude.{◌≡◌, ℕ, ◌≤◌, List, [], length, Option, Some, None, Ok, unwrap_or, IfOk, IsOk, OnOk, OnErr};
ghost use Rattle.std.specs.FinMap as map;
ghost use Rattle.lf_io.specs.Held.{ReadsAt};
ghost use Rattle.lf_io.specs.Memory.{read_length, filled};

use crate::failed::Failed;
use crate::files::Files;
use crate::sink::Sink;
use crate::stored::{StoredFiles, copy_from};
use std::alloc::{AllocError, Global};
use std::marker::Model;

/// Files in memory that never fail. A missing name reads as an empty file.
#[derive(Debug, Drop)]
pub struct CleanFiles {
    files: StoredFiles,
}

impl Model for CleanFiles {
    ghost use Rattle.lf_io.specs.Codes.{stored_code};
    ghost use Rattle.lf_io.specs.Memory.{Stored};

    ghost Value = { Stored };

    ghost coded = { stored_code };

    ghost view = { λ it. it.files };
}

impl CleanFiles {
    /// Holds no file, and takes no memory.
    pub fn new(alloc: Global) -> Self
        ensures { result ≡ map.empty }
    {
        CleanFiles {
            files: StoredFiles::new(alloc),
        }
    }

    /// Adds a file, or replaces it.
    pub fn put(&mut self, name: &str, bytes: &[u8]) -> Result<(), AllocError>
        ensures ok { OnOk result (self.new ≡ map.insert self.old name.now bytes.now) }
        ensures err { OnErr result (self.new ≡ self.old) }
    {
        self.files.put(name, bytes)
    }
}

impl Files for CleanFiles {
    ghost held = { λ it. Some (map.get it) };

    ghost faults = { λ _ _. 0 };

    fn read(&mut self, name: &str, at: u64, buf: &mut [u8]) -> Result<usize, Failed>
        ensures within { IfOk result (λ n. n ≤ length buf.new) }
        ensures bytes { IfOk result (λ n. ReadsAt (unwrap_or (map.get self.old name.now) []) at buf.new n) }
        ensures kept { self.new ≡ self.old }

        // What this object says beyond the trait.
        ensures clean { IsOk result }
        ensures amount { IfOk result (λ n. n ≡ read_length (unwrap_or (map.get self.old name.now) []) at (length buf.old)) }
        ensures filled { buf.new ≡ filled (unwrap_or (map.get self.old name.now) []) at buf.old }
    {
        let file = self.files.get(name).unwrap_or(&[]);
        Ok(copy_from(file, at, buf))
    }
}

/// A sink that takes every piece whole, and keeps and tells nothing.
#[derive(Clone, Copy, Debug, Default, PartialEq, Eq, Hash)]
pub struct CleanSink;

impl CleanSink {
    /// Takes no memory.
    pub fn new() -> Self
        ensures { result ≡ record {} }
    {
        CleanSink
    }
}

impl Sink for CleanSink {
    ghost taken = { λ _. None };

    ghost faults = { λ _. 0 };

    fn write(&mut self, piece: &[u8]) -> Result<usize, Failed>
        ensures { result ≡ Ok (length piece.now) }
    {
        Ok(piece.len())
    }
}
