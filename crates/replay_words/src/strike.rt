ghost use Rattle.std.specs.Prelude.{◌≡◌, ◌+◌, ◌≤◌, fold};
ghost use Rattle.flip_ledger.specs.Plan.{IsPlanned, strikes_of, due_at};
ghost use Rattle.replay_words.specs.Places.{AreDistinct};
ghost use Rattle.replay_words.specs.Striking.{with_strike, MayStrike, IsPending};

use crate::places::Places;
use flip_ledger::{FlipPlan, Owner, Strike, Target};
use lf_model::flip::Flips;
use replay_units::Units;
use std::snapshot::Snapshot;

/// A flip of the script strikes its word.
fn strike(units: &mut Units, places: &Places, strike: Strike)
    requires { MayStrike places.now units.old strike }
    ensures { units.new ≡ with_strike places.now units.old strike }
{
    if let Target::Word { addr } = strike.target {
        if let Some(place) = places.find(u64::from(addr)) {
            units.strike(strike.number, place, strike.bit);
        }
    }
}

/// The flips of a turn strike memory, in the order of the script.
pub(crate) fn strike_due(
    units: &mut Units,
    places: &Places,
    plan: &mut FlipPlan,
    script: &Snapshot<Flips>,
    turn: u32,
)
    requires planned { IsPlanned Owner.Memory script.now.value turn plan.old }
    requires pending { IsPending script.now.value places.now units.old plan.old }
    requires distinct { AreDistinct places.now }
    ensures struck { units.new ≡ fold (with_strike places.now) units.old (due_at turn (strikes_of Owner.Memory script.now.value)) }
    ensures planned { IsPlanned Owner.Memory script.now.value (turn + 1) plan.new }
    ensures pending { IsPending script.now.value places.now units.new plan.new }
{
    'due: while let Some(next) = plan.next_due(turn) {
        strike(units, places, next);
    }
}
