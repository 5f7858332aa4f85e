ghost use Rattle.std.specs.Prelude.{◌≡◌, ◌+◌};
ghost use Rattle.flip_ledger.specs.Plan.{IsPlanned};
ghost use Rattle.lf_model.specs.Course.Arrays.{begun};
ghost use Rattle.replay_arrays.specs.Aims.{own_flips};
ghost use Rattle.replay_arrays.specs.Striking.{arrays_of, with_arrays, with_strike, MayStrike, IsPending};

use crate::parts::Parts;
use flip_ledger::{FlipPlan, Owner, Strike, Target};
use lf_model::flip::Flips;
use std::snapshot::Snapshot;

/// A flip of the script strikes an array of a core.
fn strike(parts: &mut Parts, strike: Strike)
    requires { MayStrike parts.old strike }
    ensures { parts.new ≡ with_arrays parts.old (with_strike (arrays_of parts.old) strike) }
{
    let number = strike.number;
    let bit = strike.bit;
    match strike.target {
        Target::Word { .. } => {}
        Target::Register { cell } => parts.cells.strike(number, cell, bit),
        Target::Tag {
            fetch: true,
            way,
            set,
            byte,
        } => parts.fetch_cache.strike_tag(number, way, set, byte, bit),
        Target::Tag {
            fetch: false,
            way,
            set,
            byte,
        } => parts.data_cache.strike_tag(number, way, set, byte, bit),
        Target::Line {
            fetch: true,
            way,
            set,
            byte,
        } => parts.fetch_cache.strike_line(number, way, set, byte, bit),
        Target::Line {
            fetch: false,
            way,
            set,
            byte,
        } => parts.data_cache.strike_line(number, way, set, byte, bit),
    }
}

/// The flips of a step strike the arrays of a core, in the order of the script. The plan gives these.
pub(crate) fn strike_due(
    parts: &mut Parts,
    plan: &mut FlipPlan,
    script: &Snapshot<Flips>,
    core: u32,
    step: u32,
)
    requires planned { IsPlanned (Owner.Core core) script.now.value step plan.old }
    requires pending { IsPending core script.now.value parts.old plan.old }
    ensures begun { parts.new ≡ with_arrays parts.old (begun (own_flips core script.now.value) step (arrays_of parts.old)) }
    ensures planned { IsPlanned (Owner.Core core) script.now.value (step + 1) plan.new }
    ensures pending { IsPending core script.now.value parts.new plan.new }
{
    'due: while let Some(next) = plan.next_due(step) {
        strike(parts, next);
    }
}
