ghost use Rattle.std.specs.Prelude.{◌≡◌, ℕ, map, true, length};
ghost use Rattle.ahb_bus.specs.Asks.{IsCoreTurn, HasEntryLeft, IsCauseOf};
ghost use Rattle.ahb_bus.specs.BusOk.{BusOk};
ghost use Rattle.ahb_bus.specs.BusState.{answered};
ghost use Rattle.core_parts.specs.Work.{waiting_in};
ghost use Rattle.lf_model.specs.Course.Syndromes.{enters_log};
ghost use Rattle.lf_model.specs.declared.bus.TurnKind.TheVariants.{Store};
ghost use Rattle.lf_model.specs.declared.step.Turn.TheVariants as turns;
ghost use Rattle.core_turns.specs.AskedTurn.{asked_drain, turn_answer};
ghost use Rattle.core_turns.specs.Drains.{FirstCanStore, drained_if};
ghost use Rattle.core_turns.specs.MakesTurn.{drained_by};

use ahb_bus::{Bus, Who};
use core_parts::Parts;
use lf_model::bus::{Bad, Why};
use lf_model::step::Did;

/// Drains the store that has waited longest. If its word is bad, it is lost, and so are those after it.
///
/// # Errors
///
/// The store is of a byte or half, and its word is bad.
pub fn drain(who: Who, parts: &mut Parts, bus: &mut Bus, why: Why) -> Result<Did, Bad>
    requires begun { bus.old.begun ≡ true }
    requires ok { BusOk bus.old }
    requires turn { IsCoreTurn who bus.old }
    requires entry { HasEntryLeft who bus.old }
    requires cause { IsCauseOf Store why }
    requires waits { FirstCanStore bus.old.setup parts.old.buffer.waiting }
    requires seen { parts.old.«record».seen ≡ length bus.old.log }
    ensures parts { parts.new ≡ drained_if (enters_log (answered bus.old (asked_drain bus.old who why (map waiting_in parts.old.buffer.waiting)))) parts.old }
    ensures made { bus.new ≡ drained_by bus.old who why parts.old.buffer.waiting }
    ensures answer { (pc : ℕ) → result ≡ turn_answer pc (turns.Drain why) (answered bus.old (asked_drain bus.old who why (map waiting_in parts.old.buffer.waiting))) }
    ensures ok { BusOk bus.new }
{
    let Some(store) = parts.buffer.front() else {
        unreachable!()
    };
    if let Err(bad) = bus.store(who, why, &store) {
        parts.lose_waiting();
        return Err(bad);
    }
    parts.buffer.pop();
    parts.record.see(bus.log().len());
    Ok(Did::Turned)
}
