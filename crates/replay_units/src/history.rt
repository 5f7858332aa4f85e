ghost use Rattle.std.specs.Prelude.{◌≡◌, ◌∷◌, [], replicate};
ghost use Rattle.lf_model.specs.Caches.Slot.{befalls};
ghost use Rattle.lf_model.specs.Course.Arrays.{struck_by};
ghost use Rattle.replay_units.specs.Ways.{how_of, write_of};
ghost use Rattle.replay_units.specs.Units.{written_by, found, named};

use flip_ledger::Write;
use ghost_value::{Change, Shown};
use std::marker::Model;

/// How a unit is written.
#[derive(Clone, Copy, Debug)]
pub enum How {
    /// With a value that does not depend on what it held: a store of words, a fill, an own store to its byte, a drop or a flush, a
    /// plain write of its register.
    Whole,
    /// By a store of a byte or half, which corrects the rest of its word.
    ByPartStore,
    /// By LDSTUB or SWAP, which corrects what it reads.
    ByAtomic,
    /// By a fix of the scrubber.
    ByFix,
    /// By the write-back of a register read.
    ByReadBack,
}

impl How {
    /// Whole, or with a correction.
    pub(crate) fn write(self) -> Write
        ensures { result ≡ write_of self }
    {
        match self {
            How::Whole => Write::Whole,
            How::ByPartStore | How::ByAtomic | How::ByFix | How::ByReadBack => Write::Correcting,
        }
    }
}

/// What contracts see of a `Ghost<Histories>`: the history of each unit. No value of this type is made.
#[derive(Drop)]
pub(crate) struct Histories;

impl Model for Histories {
    ghost use Rattle.std.specs.Prelude.{List, []};
    ghost use Rattle.lf_model.specs.Flips.{Moment};

    ghost Value = { List (List Moment) };

    ghost view = { λ _. [] };
}

/// So many units to which nothing happened.
#[derive(Drop)]
pub(crate) struct Fresh {
    pub(crate) units: usize,
}

impl Shown<Histories> for Fresh {
    ghost shown = { λ fresh. replicate fresh.units [] };
}

/// A flip of the script strikes a bit of a unit.
#[derive(Drop)]
pub(crate) struct Strike {
    pub(crate) number: u32,
    pub(crate) unit: usize,
    pub(crate) bit: u8,
}

impl Change<Histories> for Strike {
    ghost after = { λ strike hs. befalls (struck_by strike.number strike.bit) strike.unit hs };
}

/// A unit is written.
#[derive(Drop)]
pub(crate) struct Rewrite {
    pub(crate) unit: usize,
    pub(crate) how: How,
}

impl Change<Histories> for Rewrite {
    ghost after = { λ rewrite hs. befalls (written_by (how_of rewrite.how)) rewrite.unit hs };
}

/// A check finds a unit struck.
#[derive(Drop)]
pub(crate) struct Finding {
    pub(crate) unit: usize,
}

impl Change<Histories> for Finding {
    ghost after = { λ finding hs. befalls found finding.unit hs };
}

/// An error trap names a unit.
#[derive(Drop)]
pub(crate) struct Naming {
    pub(crate) unit: usize,
}

impl Change<Histories> for Naming {
    ghost after = { λ naming hs. befalls named naming.unit hs };
}
