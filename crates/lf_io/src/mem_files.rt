ghost use Rattle.std.specs.Prelude.{◌≡◌, ℕ, ◌≤◌, ◌⊎◌, ◌↔◌, List, [], length, Option, Some, unwrap_or, IsErr, IsNone, IfOk, IfSome, OnOk, OnErr};
ghost use Rattle.std.specs.FinMap as map;
ghost use Rattle.lf_io.specs.Count.{Rose};
ghost use Rattle.lf_io.specs.Held.{content, ReadsAt};
ghost use Rattle.lf_io.specs.Memory.{no_calls, IsNextFailing, after_call, after_fault, read_length, filled};

use crate::calls::CallCounter;
use crate::failed::Failed;
use crate::files::Files;
use crate::stored::{StoredFiles, copy_from};
use std::alloc::{AllocError, Global};
use std::marker::Model;

/// Files in memory, whose reads fail at will.
///
/// The calls of `read` are counted from 1, and the count stays at its last value. A call whose
/// number is in the list, or that names a missing file, is a fault. The one count of faults is
/// that of every name.
#[derive(Debug, Drop)]
pub struct MemFiles {
    files: StoredFiles,
    calls: CallCounter,
}

impl Model for MemFiles {
    ghost use Rattle.lf_io.specs.Memory.{MemoryFiles};
    ghost use Rattle.lf_io.specs.Codes.{memory_files_code};

    ghost Value = { MemoryFiles };

    ghost coded = { memory_files_code };

    ghost view = { λ it. record { files = it.files; calls = it.calls } };
}

impl MemFiles {
    /// Holds no file. `fails` has the numbers of the calls that fail.
    pub fn new(alloc: Global, fails: &[u64]) -> Result<Self, AllocError>
        ensures { IfOk result (λ it. it ≡ record { files = map.empty; calls = no_calls fails.now }) }
    {
        Ok(MemFiles {
            files: StoredFiles::new(alloc),
            calls: CallCounter::new(alloc, fails)?,
        })
    }

    /// Adds a file, or replaces it.
    pub fn put(&mut self, name: &str, bytes: &[u8]) -> Result<(), AllocError>
        ensures ok { OnOk result (self.new ≡ record self.old { files = map.insert self.old.files name.now bytes.now }) }
        ensures err { OnErr result (self.new ≡ self.old) }
    {
        self.files.put(name, bytes)
    }
}

impl Files for MemFiles {
    ghost held = { λ it. Some (map.get it.files) };

    ghost faults = { λ it _. it.calls.faults };

    fn read(&mut self, name: &str, at: u64, buf: &mut [u8]) -> Result<usize, Failed>
        ensures within { IfOk result (λ n. n ≤ length buf.new) }
        ensures bytes { IfOk result (λ n. ReadsAt (unwrap_or (map.get self.old.files name.now) []) at buf.new n) }
        ensures cause { OnErr result (Rose self.old.calls.faults self.new.calls.faults) }
        ensures kept { self.new.files ≡ self.old.files }
        ensures never_falls { self.old.calls.faults ≤ self.new.calls.faults }

        // What this object says beyond the trait.
        ensures fault { IsErr result ↔ (IsNextFailing self.old.calls ⊎ IsNone (map.get self.old.files name.now)) }
        ensures amount { IfOk result (λ n. IfSome (map.get self.old.files name.now) (λ file. n ≡ read_length file at (length buf.old))) }
        ensures filled { OnOk result (IfSome (map.get self.old.files name.now) (λ file. buf.new ≡ filled file at buf.old)) }
        ensures counted { OnOk result (self.new.calls ≡ after_call self.old.calls) }
        ensures failed { OnErr result (self.new.calls ≡ after_fault self.old.calls) }
        ensures same { OnErr result (buf.new ≡ buf.old) }
    {
        if self.calls.is_next_failing() {
            return Err(self.calls.count_fault());
        }
        match self.files.get(name) {
            Some(file) => {
                self.calls.count_call();
                Ok(copy_from(file, at, buf))
            }
            None => Err(self.calls.count_fault()),
        }
    }
}
