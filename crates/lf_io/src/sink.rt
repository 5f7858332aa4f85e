ghost use Rattle.std.specs.Prelude.{◌≡◌, ℕ, ◌<◌, ◌≤◌, List, [], length, take, Option, Ok, IfOk, OnErr};
ghost use Rattle.lf_io.specs.Count.{Rose};
ghost use Rattle.lf_io.specs.Taken.{Takes, TakesNothing};

use crate::failed::Failed;

/// What takes bytes, in order.
///
/// An object means two things: the bytes `taken`, which it may not tell, and the count of its
/// `faults`, which never falls.
pub trait Sink {
    ghost taken: { Self → Option (List ℕ) };

    ghost faults: { Self → ℕ };

    /// Takes the first bytes of the piece, at least one where there is one, and answers how many.
    /// A device that takes none of them has failed.
    fn write(&mut self, piece: &[u8]) -> Result<usize, Failed>
        ensures within { IfOk result (λ n. n ≤ length piece.now) }
        ensures progress { IfOk result (λ n. 0 < length piece.now → 0 < n) }
        ensures empty { piece.now ≡ [] → result ≡ Ok 0 }
        ensures taken { IfOk result (λ n. Takes (taken self.old) (taken self.new) (take n piece.now)) }
        ensures refused { OnErr result (TakesNothing (taken self.old) (taken self.new)) }
        ensures cause { OnErr result (Rose (faults self.old) (faults self.new)) }
        ensures never_falls { faults self.old ≤ faults self.new };
}
