ghost use Rattle.std.specs.Prelude.{◌≡◌, ℕ, ◌<◌, ◌^◌, ◌≤◌, List, length, Option, IfOk, OnErr, IfSome};
ghost use Rattle.lf_io.specs.Count.{Rose};
ghost use Rattle.lf_io.specs.Held.{FileMap, content, ReadsAt};

use crate::failed::Failed;

/// Files that are read by name.
///
/// An object means two things: what it `held`, a map from names to bytes that it may not tell,
/// and for each name the count of its `faults`, which never falls.
pub trait Files {
    ghost held: { Self → Option FileMap };

    ghost faults: { Self → List ℕ → ℕ };

    /// Reads bytes of the file `name` from the byte `at` on, at most as many as `buf` has room
    /// for, and answers how many. 0 with room left is the end of the file. A missing name is a
    /// fault, or reads as an empty file. No file has a byte at 2^63 or past it, so that no read
    /// there can be made to fail.
    fn read(&mut self, name: &str, at: u64, buf: &mut [u8]) -> Result<usize, Failed>
        requires { at < 2 ^ 63 }
        ensures within { IfOk result (λ n. n ≤ length buf.new) }
        ensures bytes { IfOk result (λ n. IfSome (content (held self.old) name.now) (λ file. ReadsAt file at buf.new n)) }

        // A fault is counted for the very name that was read.
        ensures cause { OnErr result (Rose (faults self.old name.now) (faults self.new name.now)) }
        ensures kept { held self.new ≡ held self.old }
        ensures never_falls { (other : List ℕ) → faults self.old other ≤ faults self.new other };
}
