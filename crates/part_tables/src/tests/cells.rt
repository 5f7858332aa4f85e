ghost use Rattle.std.specs.Prelude.{◌<◌, All};

use super::expect;
use edac_code::Read39;
use ft_cells::{Byte9, Cell, Flipped, Protect, Word39};
use std::process::Abort;

/// Flips a bit of a cell that must take it.
fn flip<P: Protect>(rt: &impl Abort, cell: &mut Cell<P>, bit: u8)
    requires { bit < P.BITS }
{
    assert!(rt; cell.flip(bit) == Flipped::Applied);
    assert!(rt; cell.is_struck());
}

/// A word's cell with some bits flipped, one after another.
fn word(rt: &impl Abort, value: u32, bits: &[u8]) -> Cell<Word39> {
    let mut cell = Cell::new(value);
    for bit in bits {
        assert!(rt; *bit < 39);
        flip(rt, &mut cell, *bit);
    }
    cell
}

#[test]
fn words_under_the_code(rt: HostRuntime) {
    // The columns of the code: 4f of bit 0, 4a of bit 1, 75 of bit 31, 40 of bit 38.
    let reads: [(u32, &[u8], Read39); 7] = [
        (0x0000_005a, &[], Read39::Clean(0x0000_005a)),
        (0x0000_005a, &[0], Read39::Fixed(0x0000_005a, 0)),
        (0xdead_beef, &[38], Read39::Fixed(0xdead_beef, 38)),
        (0x0000_005a, &[0, 1], Read39::Bad(0x05)),
        (0xdead_beef, &[31, 38], Read39::Bad(0x35)),
        (0x0000_005a, &[0, 0], Read39::Clean(0x0000_005a)),
        (0xffff_ffff, &[38, 38], Read39::Clean(0xffff_ffff)),
    ];
    for (value, bits, answer) in reads {
        expect(&rt, value, word(&rt, value, bits).read() == answer);
    }
}

#[test]
fn words_at_their_budget(rt: HostRuntime) {
    let mut cell = word(&rt, 0x0000_005a, &[0, 0]);
    assert!(rt; cell.flip(1) == Flipped::Declined(2));
    assert!(rt; cell.bits().bits() == 0x1e_0000_005a);
    cell.write(0x0000_0077);
    assert!(rt; !cell.is_struck());
    flip(&rt, &mut cell, 1);
    assert!(rt; cell.bits().bits() == 0x0f_0000_0075);
    assert!(rt; cell.read() == Read39::Fixed(0x0000_0077, 1));
}

#[test]
fn bytes_with_their_parity(rt: HostRuntime) {
    let mut cell: Cell<Byte9> = Cell::new(0x5b);
    assert!(rt; cell.read() == Some(0x5b));
    assert!(rt; cell.bits() == 0x15b);
    flip(&rt, &mut cell, 8);
    assert!(rt; cell.read().is_none());
    assert!(rt; cell.flip(8) == Flipped::Declined(1));
    assert!(rt; cell.read().is_none());
    cell.write(0x80);
    assert!(rt; cell.read() == Some(0x80));
    flip(&rt, &mut cell, 7);
    assert!(rt; cell.bits() == 0x100);
    assert!(rt; cell.read().is_none());
}
