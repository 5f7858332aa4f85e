ghost use Rattle.std.specs.Prelude.{map, [], ◌∷◌, ◌++◌};
ghost use Rattle.coded_words.specs.Past.{past_at, named_behind, named_since};
ghost use Rattle.coded_words.specs.Words.{history_of};
ghost use Rattle.lf_model.specs.Caches.Slot.{history_at};

use crate::history::History;
use crate::word::Word;
use ghost_value::{Change, Ghost, Shown};
use std::marker::Model;

/// What contracts see of a `Ghost<Past>`: the histories of an array's words as each earlier turn ended. No value of this type is
/// made.
#[derive(Drop)]
pub(crate) struct Past;

impl Model for Past {
    ghost use Rattle.std.specs.Prelude.{List, []};
    ghost use Rattle.lf_model.specs.Flips.{Moment};

    ghost Value = { List (List (List Moment)) };

    ghost view = { λ _. [] };
}

/// No turn has ended.
#[derive(Drop)]
pub(crate) struct NoPast;

impl Shown<Past> for NoPast {
    ghost shown = { λ _. [] };
}

/// A turn ends.
#[derive(Drop)]
pub(crate) struct TurnEnd<'a> {
    pub(crate) words: &'a Vec<Word>,
}

impl<'a> Change<Past> for TurnEnd<'a> {
    ghost after = { λ end past. past ++ map history_of end.words.now.items ∷ [] };
}

/// An error trap named a word as a turn ended: its history is different now.
#[derive(Drop)]
pub(crate) struct NamingThen<'a> {
    pub(crate) past: &'a Ghost<Past>,
    pub(crate) place: usize,
    pub(crate) turn: u32,
}

impl<'a> Change<History> for NamingThen<'a> {
    ghost after = { λ naming h. named_behind (history_at naming.place (past_at naming.turn naming.past.now)) h };
}

/// And so are those as that turn and later ones ended.
#[derive(Drop)]
pub(crate) struct NamingSince {
    pub(crate) place: usize,
    pub(crate) turn: u32,
}

impl Change<Past> for NamingSince {
    ghost after = { λ naming past. named_since naming.turn naming.place past };
}
