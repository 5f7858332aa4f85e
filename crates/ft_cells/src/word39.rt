ghost use Rattle.std.specs.Prelude.{◌≡◌, true};

use crate::protect::Protect;
use edac_code::{Coded39, Read39};

/// A word under the (39,32) code: one turned bit is put right, two are detected. Two flips are taken between two writes.
#[derive(Clone, Copy, Debug)]
pub struct Word39;

impl Protect for Word39 {
    ghost use Rattle.ft_cells.specs.Codes.{is_word, shown_word, is_clean_word};
    ghost use Rattle.edac_code.specs.Code.{code};
    ghost use Rattle.edac_code.specs.Kept.{bits_of};
    ghost use Rattle.edac_code.specs.Reading.{read_of};
    ghost use Rattle.ft_cells.specs.Laws.{word_fits, word_reads_back, word_one_flip, word_two_flips, word_turned_back};

    type Value = u32;

    type Code = Coded39;

    type Answer = Read39;

    const BITS: u8 = 39;

    const BUDGET: u8 = 2;

    ghost BITS = { 39 };

    ghost BUDGET = { 2 };

    ghost number = { bits_of };

    ghost is_value = { is_word };

    ghost encoded = { code };

    ghost answer = { read_of };

    ghost shown = { shown_word };

    ghost is_clean = { is_clean_word };

    ghost encoding_fits = { word_fits };

    ghost reads_back = { word_reads_back };

    ghost one_flip = { word_one_flip };

    ghost two_flips = { word_two_flips };

    ghost turned_back = { word_turned_back };

    #[inline]
    fn fresh(v: u32) -> Coded39 {
        Coded39::of(v)
    }

    #[inline]
    fn unstruck(c: Coded39) -> Read39 {
        Read39::Clean(c.word())
    }

    fn read(c: Coded39) -> Read39 {
        c.read()
    }

    fn turn(c: Coded39, bit: u8) -> Coded39 {
        c.turned(bit)
    }
}
