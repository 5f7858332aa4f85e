ghost use Rattle.std.specs.Prelude.{◌≡◌, ◌+◌, ◌≤◌, length, fold};
ghost use Rattle.std.specs.List.{AllByRecursion};
ghost use Rattle.flip_ledger.specs.Plan.{IsPlanned, strikes_of, due_at};
ghost use Rattle.bus_memory.specs.Strikes.{with_strike, MayStrike, Came, AimsAt};

use flip_ledger::{FlipPlan, Owner, Strike, Target};
use ft_memory::Memory;
use lf_model::flip::Flips;
use std::snapshot::Snapshot;

/// A flip of the script strikes memory.
fn strike(memory: &mut Memory, strike: Strike)
    requires { MayStrike memory.old strike }
    ensures { memory.new ≡ record memory.old { histories = with_strike memory.old.histories strike } }
{
    if let Target::Word { addr } = strike.target {
        let _ = memory.flip(strike.number, addr, strike.bit);
    }
}

/// The flips of a turn strike memory, in the order of the script.
pub fn strike_due(memory: &mut Memory, plan: &mut FlipPlan, script: &Snapshot<Flips>, turn: u32)
    requires planned { IsPlanned Owner.Memory script.now.value turn plan.old }
    requires came { Came script.now.value turn memory.old.histories }
    requires aims { AllByRecursion (AimsAt (length memory.old.histories)) script.now.value }
    requires flips { memory.old.flips ≡ length script.now.value }
    ensures struck { memory.new ≡ record memory.old { histories = fold with_strike memory.old.histories (due_at turn (strikes_of Owner.Memory script.now.value)) } }
    ensures planned { IsPlanned Owner.Memory script.now.value (turn + 1) plan.new }
{
    'due: while let Some(next) = plan.next_due(turn) {
        strike(memory, next);
    }
}
