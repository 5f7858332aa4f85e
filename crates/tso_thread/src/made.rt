use ghost_value::{Change, Shown};
use lf_model::bus::Entry;
use std::marker::Model;

/// What contracts see of a `Ghost<Made>`: the operations that were made. No value of this type is made.
#[derive(Drop)]
pub(crate) struct Made;

impl Model for Made {
    ghost use Rattle.std.specs.Prelude.{List, []};
    ghost use Rattle.lf_model.specs.declared.bus.Entry.{Entry};

    ghost Value = { List Entry };

    ghost view = { λ _. [] };
}

/// No operation was made.
#[derive(Drop)]
pub(crate) struct NothingMade;

impl Shown<Made> for NothingMade {
    ghost use Rattle.std.specs.Prelude.{[]};

    ghost shown = { λ _. [] };
}

impl Change<Made> for Entry {
    ghost use Rattle.std.specs.Prelude.{[], ◌∷◌, ◌++◌};

    ghost after = { λ entry made. made ++ entry ∷ [] };
}
