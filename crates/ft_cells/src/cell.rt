ghost use Rattle.std.specs.Prelude.{◌≡◌, ◌<◌, ◌^◌, true, false, [], ◌∷◌, length, nat_lt, Some, None, IfSome};
ghost use Rattle.lf_num.specs.Toggles.{struck};
ghost use Rattle.ft_cells.specs.Cells.{fresh, FlipsCell, IsCell};

use crate::flipped::Flipped;
use crate::protect::Protect;
use std::marker::Model;
use std::snapshot::Snapshot;

/// A cell that keeps a value under a code: the bits of the code, the number of flips that turned one of them since the value was
/// written, and, for contracts alone, that value. A cell that no flip turned is the encoding of its value.
#[derive(Drop)]
pub struct Cell<P: Protect> {
    bits: P::Code,
    /// The flips applied since the value was written, at most the code's budget.
    hits: u8,
    /// The value last written.
    written: Snapshot<P::Value>,
}

impl<P: Protect> Model for Cell<P> {
    ghost use Rattle.ft_cells.specs.Cells.{CellState};

    ghost Value = { CellState P.Value };

    ghost use Rattle.ft_cells.specs.Stored.{state_of, AreStored};

    ghost view = { λ cell. state_of P.BITS (P.number cell.bits) (P.encoded cell.written.value) cell.written.value cell.hits };

    ghost invariant = { λ cell. AreStored P.BITS P.BUDGET (P.number cell.bits) (P.encoded cell.written.value) cell.hits (P.is_value cell.written.value) };
}

impl<P: Protect> Cell<P> {
    /// The cell of a value that was just written.
    #[inline]
    pub fn new(v: P::Value) -> Cell<P>
        ensures { result ≡ fresh v }
    {
        Cell {
            bits: P::fresh(v),
            hits: 0,
            written: Snapshot::of(&v),
        }
    }

    /// Writes a value anew.
    #[inline]
    pub fn write(&mut self, v: P::Value)
        ensures { self.new ≡ fresh v }
    {
        *self = Cell::new(v);
    }

    /// Whether flips were applied since the value was written.
    #[inline]
    pub fn is_struck(&self) -> bool
        ensures { result ≡ nat_lt 0 self.now.hits }
    {
        self.hits > 0
    }

    /// The bits as they stand: those of the value's code, with the toggled ones turned.
    pub fn bits(&self) -> P::Code
        ensures bits { P.number result ≡ struck (P.encoded self.now.value) self.now.toggled }
        ensures fits { P.number result < 2 ^ P.BITS }
        ensures value { P.is_value self.now.value ≡ true }
        ensures cell { IsCell P.BITS P.BUDGET self.now }
    {
        self.bits
    }

    /// What the cell reads as. No code is computed where no flip struck it.
    #[inline]
    pub fn read(&self) -> P::Answer
        ensures answer { result ≡ P.answer self.now.value self.now.toggled }
        ensures cell { IsCell P.BITS P.BUDGET self.now }

        // With no toggled bit it reads clean; with one it shows no other value, and tells of it; with two it shows none.
        ensures clean { self.now.toggled ≡ [] → (P.shown result ≡ Some self.now.value) × (P.is_clean result ≡ true) }
        ensures told { length self.now.toggled ≡ 1 → (P.is_clean result ≡ false) × IfSome (P.shown result) (λ v. v ≡ self.now.value) }
        ensures lost { P.BUDGET ≡ 2 → length self.now.toggled ≡ 2 → (P.is_clean result ≡ false) × (P.shown result ≡ None) }
    {
        if self.hits == 0 {
            return P::unstruck(self.bits);
        }
        self.read_struck()
    }

    #[cold]
    #[inline(never)]
    fn read_struck(&self) -> P::Answer
        ensures answer { result ≡ P.answer self.now.value self.now.toggled }
        ensures value { P.is_value self.now.value ≡ true }
        ensures cell { IsCell P.BITS P.BUDGET self.now }
    {
        P::read(self.bits)
    }

    /// Turns a bit of the cell. Declined, with nothing changed, where the budget of flips was applied since the value was
    /// written.
    pub fn flip(&mut self, bit: u8) -> Flipped
        requires { bit < P.BITS }
        ensures flips { FlipsCell P.BITS P.BUDGET self.old bit result self.new }

        // A flip of the one toggled bit turns it back.
        ensures back { result ≡ Flipped.Applied → self.old.toggled ≡ bit ∷ [] → self.new.toggled ≡ [] }
    {
        if self.hits == P::BUDGET {
            return Flipped::Declined(self.hits);
        }
        self.bits = P::turn(self.bits, bit);
        self.hits += 1;
        Flipped::Applied
    }
}
