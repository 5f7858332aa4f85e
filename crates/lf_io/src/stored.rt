ghost use Rattle.std.specs.Prelude.{◌≡◌, length, OnOk, OnErr};
ghost use Rattle.std.specs.Option.{option_copied};
ghost use Rattle.std.specs.FinMap as map;
ghost use Rattle.lf_io.specs.Held.{ReadsAt};
ghost use Rattle.lf_io.specs.Memory.{read_length, filled};

use std::alloc::{AllocError, Global};
use std::collections::BTreeMap;
use std::marker::Model;

// Files in memory, by name.
#[derive(Debug, Drop)]
pub struct StoredFiles {
    alloc: Global,
    files: BTreeMap<String, Vec<u8>>,
}

impl Model for StoredFiles {
    ghost use Rattle.std.specs.Prelude.{map};
    ghost use Rattle.std.specs.FinMap.{from_entries};
    ghost use Rattle.lf_io.specs.Codes.{stored_code};
    ghost use Rattle.lf_io.specs.Memory.{Stored, shown_file};

    ghost Value = { Stored };

    ghost coded = { stored_code };

    ghost view = { λ it. from_entries (map shown_file it.files.entries) };
}

impl StoredFiles {
    pub fn new(alloc: Global) -> Self
        ensures { result ≡ map.empty }
    {
        StoredFiles {
            alloc,
            files: BTreeMap::new(alloc),
        }
    }

    pub fn get(&self, name: &str) -> Option<&[u8]>
        ensures { option_copied result ≡ map.get self.now name.now }
    {
        match self.files.get(name) {
            Some(file) => Some(file.as_slice()),
            None => None,
        }
    }

    pub fn put(&mut self, name: &str, bytes: &[u8]) -> Result<(), AllocError>
        ensures ok { OnOk result (self.new ≡ map.insert self.old name.now bytes.now) }
        ensures err { OnErr result (self.new ≡ self.old) }
    {
        let name = String::from_str(self.alloc, name)?;
        let bytes = Vec::from_slice(self.alloc, bytes)?;
        self.files.insert(name, bytes)?;
        Ok(())
    }
}

/// Copies bytes of the file from the byte `at` on, as many as there are and as `buf` has room for.
pub fn copy_from(file: &[u8], at: u64, buf: &mut [u8]) -> usize
    ensures reads { ReadsAt file.now at buf.new result }
    ensures amount { result ≡ read_length file.now at (length buf.old) }
    ensures after { buf.new ≡ filled file.now at buf.old }
{
    let rest = &file[file.len().min(at as usize)..];
    let n = rest.len().min(buf.len());
    buf[..n].copy_from_slice(&rest[..n]);
    n
}
