ghost use Rattle.std.specs.Prelude.{◌≡◌, true};

use crate::protect::Protect;
use parity_code::{get9, put9};

/// A byte with its parity: nine bits, of which one flip is detected. One flip is taken between two writes.
#[derive(Clone, Copy, Debug)]
pub struct Byte9;

impl Protect for Byte9 {
    ghost use Rattle.ft_cells.specs.Codes.{is_byte, shown_byte, is_some_byte};
    ghost use Rattle.parity_code.specs.Parity.{code, read_of};
    ghost use Rattle.ft_cells.specs.Laws.{byte_fits, byte_reads_back, byte_one_flip, byte_two_flips, byte_turned_back};

    type Value = u8;

    type Code = u16;

    type Answer = Option<u8>;

    const BITS: u8 = 9;

    const BUDGET: u8 = 1;

    ghost BITS = { 9 };

    ghost BUDGET = { 1 };

    ghost number = { λ bits. bits };

    ghost is_value = { is_byte };

    ghost encoded = { code };

    ghost answer = { read_of };

    ghost shown = { shown_byte };

    ghost is_clean = { is_some_byte };

    ghost encoding_fits = { byte_fits };

    ghost reads_back = { byte_reads_back };

    ghost one_flip = { byte_one_flip };

    ghost two_flips = { byte_two_flips };

    ghost turned_back = { byte_turned_back };

    fn fresh(v: u8) -> u16 {
        put9(v)
    }

    fn unstruck(c: u16) -> Option<u8> {
        Some((c % 256) as u8)
    }

    fn read(c: u16) -> Option<u8> {
        get9(c)
    }

    fn turn(c: u16, bit: u8) -> u16 {
        c ^ (1 << bit)
    }
}
