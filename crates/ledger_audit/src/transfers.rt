ghost use Rattle.std.specs.Prelude.{◌≡◌, ◌↔◌, ◌<◌, length, IsTrue};
ghost use Rattle.lf_model.specs.Ledger.Account.{without_length, need_reported, turn_reported};
ghost use Rattle.lf_model.specs.Places.{FailsFirst};
ghost use Rattle.ledger_audit.specs.Account.{need_seen, turn_given};
ghost use Rattle.ledger_audit.specs.FirstPlaces.{SameTurnAt};

use crate::given::{Need, TurnGiven};
use lf_model::bus::Transfer;

/// The transfer is reported as it was made. No line shows its length.
fn is_as_made(made: &Transfer, told: &Transfer) -> bool
    ensures { IsTrue result ↔ without_length made.now ≡ told.now }
{
    made.turn == told.turn
        && made.master == told.master
        && made.step == told.step
        && made.kind == told.kind
        && made.why == told.why
        && made.addr == told.addr
        && made.way == told.way
        && made.words == told.words
        && made.syn == told.syn
        && told.len == 0
}

/// The master of a transfer needed it as it is reported.
fn is_as_needed(need: Need, told: &Transfer) -> bool
    ensures { IsTrue result ↔ need_seen need ≡ need_reported told.now }
{
    match need {
        Need::Turn { kind, why } => kind == told.kind && why == told.why,
        Need::NoTurn | Need::RegisterStop { .. } => false,
    }
}

/// The transfer is reported as it was made and needed.
fn is_same_turn(given: &TurnGiven, told: &Transfer) -> bool
    ensures { IsTrue result ↔ turn_given given.now ≡ turn_reported told.now }
{
    is_as_made(&given.transfer, told) && is_as_needed(given.need, told)
}

/// The trace reports the transfer of a turn as it was made and needed.
fn is_same_turn_at(given: &[TurnGiven], told: &[Transfer], turn: usize) -> bool
    requires { turn < length told.now }
    ensures { IsTrue result ↔ SameTurnAt given.now told.now turn }
{
    match given.get(turn) {
        Some(given) => is_same_turn(given, &told[turn]),
        None => false,
    }
}

/// The first turn whose transfer the trace reports otherwise.
pub(crate) fn first_other_turn(given: &[TurnGiven], told: &[Transfer]) -> Option<usize>
    ensures { FailsFirst (length told.now) (SameTurnAt given.now told.now) result }
{
    for turn in 0..told.len() {
        if !is_same_turn_at(given, told, turn) {
            return Some(turn);
        }
    }
    None
}
