ghost use Rattle.std.specs.Prelude.{◌≡◌, ◌∷◌};
ghost use Rattle.lf_model.specs.Course.Arrays.{struck_by};
ghost use Rattle.lf_model.specs.Flips.Moment.{Written, Named};
ghost use Rattle.coded_words.specs.Ways.{how_of, write_of};

use flip_ledger::Write;
use ghost_value::{Change, Shown};
use std::marker::Model;

/// How a word is written.
#[derive(Clone, Copy, Debug)]
pub enum How {
    /// By a store of words, or a plain write of a register.
    Whole,
    /// By a store of a byte or half, which corrects the rest of the word.
    ByPartStore,
    /// By LDSTUB or SWAP, which corrects what it reads.
    ByAtomic,
    /// By a fix of the scrubber.
    ByFix,
    /// By the write-back of a register read.
    ByReadBack,
}

impl How {
    /// Whole, or with a correction.
    pub(crate) fn write(self) -> Write
        ensures { result ≡ write_of self }
    {
        match self {
            How::Whole => Write::Whole,
            How::ByPartStore | How::ByAtomic | How::ByFix | How::ByReadBack => Write::Correcting,
        }
    }
}

/// What contracts see of a `Ghost<History>`: the history of a word. No value of this type is made.
#[derive(Drop)]
pub(crate) struct History;

impl Model for History {
    ghost use Rattle.std.specs.Prelude.{List, []};
    ghost use Rattle.lf_model.specs.Flips.{Moment};

    ghost Value = { List Moment };

    ghost view = { λ _. [] };
}

/// The history of a word that nothing befell.
#[derive(Drop)]
pub(crate) struct Empty;

impl Shown<History> for Empty {
    ghost use Rattle.std.specs.Prelude.{[]};

    ghost shown = { λ _. [] };
}

/// A flip of the script strikes a bit.
#[derive(Drop)]
pub(crate) struct Strike {
    pub(crate) number: u32,
    pub(crate) bit: u8,
}

impl Change<History> for Strike {
    ghost after = { λ strike h. struck_by strike.number strike.bit h };
}

/// The word is written.
#[derive(Drop)]
pub(crate) struct Rewrite {
    pub(crate) how: How,
}

impl Change<History> for Rewrite {
    ghost after = { λ rewrite h. Written (how_of rewrite.how) ∷ h };
}

/// An error trap names the word.
#[derive(Drop)]
pub(crate) struct Naming;

impl Change<History> for Naming {
    ghost after = { λ _ h. Named ∷ h };
}
