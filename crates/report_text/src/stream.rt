ghost use Rattle.std.specs.Prelude.{◌≡◌, ◌+◌, ◌≤◌, false, true, [], length, OnOk, OnErr};
ghost use Rattle.arrayvec.specs.ArrayVec.{array_vec_len};
ghost use Rattle.lf_model.specs.Report.{count_line};
ghost use Rattle.report_text.specs.Written.{Writes, progress};

use crate::fields::{PIECE, Piece, put, put_count};
use arrayvec::ArrayVec;
use lf_io::{Failed, Sink, put_all};

/// The most bytes that a line may take, or the part of a line that is put into a piece at once.
const LINE: usize = 1200;

/// A text on its way to a sink, which takes it piece by piece. After a fault of the sink nothing more is written.
#[derive(Drop)]
pub struct Stream {
    pub piece: Piece,
    pub has_failed: bool,
}

impl Stream {
    /// The text of which nothing is written yet.
    pub fn new() -> Stream
        ensures empty { result.piece.items ≡ [] }
        ensures whole { result.has_failed ≡ false }
    {
        Stream {
            piece: ArrayVec::new(),
            has_failed: false,
        }
    }

    /// Writes the bytes that wait. After a fault they are dropped.
    pub fn flush<K: Sink>(&mut self, out: &mut K)
        ensures written { Writes (progress (K.taken out.old) (K.faults out.old) self.old)
            (progress (K.taken out.new) (K.faults out.new) self.new) [] }
        ensures empty { self.new.piece.items ≡ [] }
    {
        self.has_failed = has_failed_with(out, &self.piece, self.has_failed);
        self.piece.clear();
    }

    /// Makes room for a line.
    pub fn make_room<K: Sink>(&mut self, out: &mut K)
        ensures written { Writes (progress (K.taken out.old) (K.faults out.old) self.old)
            (progress (K.taken out.new) (K.faults out.new) self.new) [] }
        ensures room { array_vec_len self.new.piece + 1200 ≤ 4096 }
    {
        if self.piece.len() > PIECE - LINE {
            self.flush(out);
        }
    }

    /// Appends bytes that fit a line.
    pub fn append<K: Sink>(&mut self, out: &mut K, bytes: &[u8])
        requires short { length bytes.now ≤ 1200 }
        ensures written { Writes (progress (K.taken out.old) (K.faults out.old) self.old)
            (progress (K.taken out.new) (K.faults out.new) self.new) bytes.now }
    {
        self.make_room(out);
        put(&mut self.piece, bytes);
    }

    /// Appends a line that says how many lines follow: its first word with the space behind it, and the number.
    pub fn append_count<K: Sink>(&mut self, out: &mut K, head: &[u8], n: usize)
        requires short { length head.now ≤ 100 }
        ensures written { Writes (progress (K.taken out.old) (K.faults out.old) self.old)
            (progress (K.taken out.new) (K.faults out.new) self.new) (count_line head.now n) }
    {
        self.make_room(out);
        put_count(&mut self.piece, head, n);
    }

    /// Tells whether the sink has failed.
    pub fn result(&self) -> Result<(), Failed>
        ensures ok { OnOk result (self.now.has_failed ≡ false) }
        ensures err { OnErr result (self.now.has_failed ≡ true) }
    {
        if self.has_failed { Err(Failed) } else { Ok(()) }
    }
}

/// Writes a piece, unless a write failed before, and tells whether one has failed by now.
fn has_failed_with<K: Sink>(out: &mut K, piece: &Piece, has_failed: bool) -> bool
    ensures written { Writes
        (record { taken = K.taken out.old; faults = K.faults out.old; waiting = piece.now.items; failed = has_failed })
        (record { taken = K.taken out.new; faults = K.faults out.new; waiting = []; failed = result }) [] }
{
    if has_failed {
        return true;
    }
    match put_all(out, piece.as_slice()) {
        Ok(()) => false,
        Err(_) => true,
    }
}
