use ghost_value::{Change, Shown};
use lf_model::bus::OpKind;
use std::marker::Model;

/// What contracts see of a `Ghost<Made>`: the operations that were made. No value of this type is made.
#[derive(Drop)]
pub(crate) struct Made;

impl Model for Made {
    ghost use Rattle.std.specs.Prelude.{List, []};
    ghost use Rattle.lf_model.specs.declared.bus.Entry.{Entry};

    ghost Value = { List Entry };

    ghost view = { λ _. [] };
}

/// What contracts see of a `Ghost<Output>`: the bytes of output. No value of this type is made.
#[derive(Drop)]
pub(crate) struct Output;

impl Model for Output {
    ghost use Rattle.std.specs.Prelude.{ℕ, List, []};

    ghost Value = { List ℕ };

    ghost view = { λ _. [] };
}

/// Nothing was made or put out.
#[derive(Drop)]
pub(crate) struct Nothing;

impl Shown<Made> for Nothing {
    ghost use Rattle.std.specs.Prelude.{[]};

    ghost shown = { λ _. [] };
}

impl Shown<Output> for Nothing {
    ghost use Rattle.std.specs.Prelude.{[]};

    ghost shown = { λ _. [] };
}

/// An operation, without its number.
#[derive(Drop)]
pub(crate) struct Operation {
    pub(crate) core: u32,
    pub(crate) kind: OpKind,
    pub(crate) addr: u32,
    pub(crate) len: u8,
    pub(crate) got: u64,
    pub(crate) put: u64,
}

impl Change<Made> for Operation {
    ghost use Rattle.replay_effects.specs.Operations.{with_operation};

    ghost after = { with_operation };
}

/// A byte of output.
#[derive(Drop)]
pub(crate) struct Byte(pub(crate) u8);

impl Change<Output> for Byte {
    ghost use Rattle.std.specs.Prelude.{[], ◌∷◌, ◌++◌};

    ghost after = { λ byte out. out ++ byte.0 ∷ [] };
}
