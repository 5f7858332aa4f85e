ghost use Rattle.std.specs.Prelude.{◌≡◌};
ghost use Rattle.lf_model.specs.Course.Outcome.{drains, trap_needs, outcome_needs, step_needs};
ghost use Rattle.replay_effects.specs.Attempts.{outcome_of};
ghost use Rattle.replay_course.specs.Outcomes.{came_to, need_of};

use lf_model::bus::{TurnKind, Why};
use replay_effects::Outcome;

/// What a step needs of the bus.
#[derive(Clone, Copy, Debug)]
pub enum Need {
    NoTurn,
    Turn { kind: TurnKind, why: Why },
    /// The stop by a bad register cell.
    RegisterStop { cell: u8 },
}

/// A store that waits drains first, for this cause.
pub(crate) fn drains(waits: bool, why: Why, need: Need) -> Need
    ensures { need_of result ≡ drains waits why (need_of need) }
{
    if waits {
        Need::Turn {
            kind: TurnKind::Store,
            why,
        }
    } else {
        need
    }
}

/// What a trap needs, by whether traps are enabled.
fn trap_needs(et: bool, waits: bool) -> Need
    ensures { need_of result ≡ trap_needs et waits }
{
    if et {
        Need::NoTurn
    } else {
        drains(waits, Why::End, Need::NoTurn)
    }
}

/// A turn that comes behind the drain of a store that waits.
fn turn_behind(waits: bool, first: Why, kind: TurnKind, why: Why) -> Need
    ensures { need_of result ≡ drains waits first (need_of (Need.Turn kind why)) }
{
    drains(waits, first, Need::Turn { kind, why })
}

/// What an instruction that was tried needs: by whether traps are enabled, whether a store waits, and whether the store buffer is full.
fn outcome_needs(et: bool, waits: bool, full: bool, outcome: Outcome) -> Need
    ensures { need_of result ≡ outcome_needs et waits full (outcome_of outcome) }
{
    match outcome {
        Outcome::NoText | Outcome::OrdinaryTrap => trap_needs(et, waits),
        Outcome::FetchMiss(why) => turn_behind(waits, Why::Miss, TurnKind::Fetch, why),
        Outcome::LoadMiss(why) => turn_behind(waits, Why::Miss, TurnKind::Load, why),
        Outcome::Atomic => turn_behind(waits, Why::Atomic, TurnKind::Atomic, Why::None),
        Outcome::BadRegister(cell) => drains(waits, Why::End, Need::RegisterStop { cell }),
        Outcome::Store => drains(full, Why::Full, Need::NoTurn),
        Outcome::Barrier(why) => drains(waits, why, Need::NoTurn),
        Outcome::LoadHit(_) | Outcome::Other => Need::NoTurn,
    }
}

/// What a step needs, whose instruction came to this or was not tried. A core whose window of steps without a turn is over needs a
/// turn before all else.
pub fn step_needs(
    window_over: bool,
    et: bool,
    waits: bool,
    full: bool,
    outcome: Option<Outcome>,
) -> Need
    ensures { need_of result ≡ step_needs window_over et waits full (came_to outcome) }
{
    if window_over {
        return turn_behind(waits, Why::Window, TurnKind::Snoop, Why::Window);
    }
    match outcome {
        Some(outcome) => outcome_needs(et, waits, full, outcome),
        None => Need::NoTurn,
    }
}
