ghost use Rattle.std.specs.Prelude.{◌≡◌, ◌≢◌, ℕ, ◌+◌, ◌^◌, ◌<◌, ◌≤◌, List, length, vec_len, Ok, IfOk, IfErr, OnOk, OnErr};
ghost use Rattle.lf_io.specs.Count.{Rose};
ghost use Rattle.lf_io.specs.Held.{content};
ghost use Rattle.lf_io.specs.Answers.{IsWhole, HasCause, IsStart, ReachesTo, EndsBy};
ghost use Rattle.lf_io.specs.declared.read.ReadErr.TheVariants.{Fault, Memory};

use crate::failed::Failed;
use crate::files::Files;
use std::alloc::Global;
use std::error::Error;
use std::fmt;

/// How many bytes are asked for at once, at most.
const PIECE: usize = 65_536;

/// Why a file was not read whole.
#[derive(Clone, Copy, Debug, PartialEq, Eq, Hash)]
pub enum ReadErr {
    /// A read failed, and the count of the file's name rose.
    Fault,
    /// The file has at least this many bytes, one more than the limit.
    TooLong(u64),
    /// There was no memory left for the bytes, of which there are not more than the limit.
    Memory,
}

impl fmt::Display for ReadErr {
    fn fmt<W: fmt::Write>(&self, f: &mut fmt::Formatter<W>) -> fmt::Result {
        match self {
            ReadErr::Fault => f.write_str("a read failed"),
            ReadErr::TooLong(least) => write!(f, "the file has at least {least} bytes"),
            ReadErr::Memory => f.write_str("no memory is left"),
        }
    }
}

impl Error for ReadErr {}

impl From<Failed> for ReadErr {
    ghost from_gives = { λ _ e. e ≡ Fault };

    fn from(_failed: Failed) -> ReadErr {
        ReadErr::Fault
    }
}

// Reads bytes from a place on into `piece`, and answers how many came. They are added to `bytes` where these end at that
// place and memory is left; else `bytes` stays as it is.
fn read_more<F: Files>(
    files: &mut F,
    name: &str,
    place: usize,
    piece: &mut [u8],
    bytes: &mut Vec<u8>,
) -> Result<usize, Failed>
    requires room { 0 < length piece.old }
    requires place { place < 2 ^ 63 }
    requires reaches { vec_len bytes.old ≤ place }
    ensures start { OnOk result (IsStart (content (F.held files.old) name.now) bytes.old.items → IsStart (content (F.held files.old) name.now) bytes.new.items) }
    ensures within { IfOk result (λ n. n ≤ length piece.old) }
    ensures reaches { IfOk result (λ n. vec_len bytes.new ≤ place + n) }
    ensures had { IfOk result (λ n. 0 < n → ReachesTo (content (F.held files.old) name.now) (place + n)) }
    ensures end { result ≡ Ok 0 → EndsBy (content (F.held files.old) name.now) place }
    ensures cause { OnErr result (Rose (F.faults files.old name.now) (F.faults files.new name.now)) }
    ensures kept { F.held files.new ≡ F.held files.old }
    ensures never_falls { (other : List ℕ) → F.faults files.old other ≤ F.faults files.new other }
{
    let n = files.read(name, place as u64, piece)?;
    if bytes.len() == place {
        let _ = bytes.extend_from_slice(&piece[..n]);
    }
    Ok(n)
}

// The bytes of a file of this length, where memory was left for all of them.
fn all_of(bytes: Vec<u8>, length: usize) -> Result<Vec<u8>, ReadErr>
    ensures all { IfOk result (λ all. (all ≡ bytes) × (vec_len bytes ≡ length)) }
    ensures memory { IfErr result (λ err. (err ≡ Memory) × (vec_len bytes ≢ length)) }
{
    if bytes.len() == length {
        Ok(bytes)
    } else {
        Err(ReadErr::Memory)
    }
}

/// Reads the whole file `name`, of at most `limit` bytes.
///
/// Where memory runs out the file is read on all the same, so that a file that is too long never answers `Memory`.
pub fn read_whole<F: Files>(
    alloc: Global,
    files: &mut F,
    name: &str,
    limit: u64,
) -> Result<Vec<u8>, ReadErr>
    requires { limit < 2 ^ 32 }
    ensures whole { IfOk result (λ bytes. IsWhole (content (F.held files.old) name.now) limit bytes.items) }
    ensures cause { IfErr result (HasCause (content (F.held files.old) name.now) limit (F.faults files.old name.now) (F.faults files.new name.now)) }

    // What stays, whatever the answer.
    ensures kept { F.held files.new ≡ F.held files.old }
    ensures never_falls { (other : List ℕ) → F.faults files.old other ≤ F.faults files.new other }
{
    let most = limit as usize;
    let mut piece = [0; PIECE];
    let mut bytes = Vec::new(alloc);
    let mut place = 0;
    while place <= most {
        let room = PIECE.min(most + 1 - place);
        let n = read_more(files, name, place, &mut piece[..room], &mut bytes)?;
        if n == 0 {
            return all_of(bytes, place);
        }
        place += n;
    }
    Err(ReadErr::TooLong(limit + 1))
}
