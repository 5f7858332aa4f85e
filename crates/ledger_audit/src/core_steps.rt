ghost use Rattle.std.specs.Prelude.{◌≡◌, ◌↔◌, ◌<◌, ◌≤◌, ◌^◌, ◌+◌, ◌==◌, ◌&&◌, ◌||◌, ◌++◌, true, None, Some, not, nat_lt, nat_le, length, count_by, if◌then◌else◌, IsTrue};
ghost use Rattle.std.specs.List.{list_all, list_any};
ghost use Rattle.lf_model.specs.Course.Core.{is_register_stop, is_stop_at};
ghost use Rattle.lf_model.specs.Ledger.Rule.{StepsAt, TriedBefore, NoneLeft};
ghost use Rattle.lf_model.specs.Ledger.Steps.{own_transfers, in_steps, past_steps, ascends_from, is_last_drain, is_of_last_step, retires_instruction, stops_in_last, retiring_steps, is_halt, last_retires, HasSteps};
ghost use Rattle.lf_model.specs.Names.{same_kind};
ghost use Rattle.lf_model.specs.Places.{FailsFirst};
ghost use Rattle.lf_model.specs.declared.bus.TurnKind.TheVariants.{Atomic};
ghost use Rattle.lf_model.specs.declared.place.Place.TheVariants.{Core};

use lf_model::bus::{Transfer, TurnKind, Why};
use lf_model::place::Place;
use lf_model::setup::Setup;
use lf_model::trace::{CoreEnd, CoreResult, Trace};

/// An error trap of this type stops a core at a transfer: 01 at a fetch, 09 at a load or an atomic, 2B at a store.
fn stops_at_transfer(tt: u8) -> bool
    ensures { result ≡ (tt == 1 || tt == 9 || tt == 0x2b) }
{
    tt == 0x01 || tt == 0x09 || tt == 0x2b
}

/// The core stopped at the transfer of this turn.
fn is_stop_at(turn: u32, end: &CoreEnd) -> bool
    ensures { result ≡ is_stop_at turn end.now }
{
    match *end {
        CoreEnd::Stop { tt, place, .. } => place == turn && stops_at_transfer(tt),
        CoreEnd::Halt(_) | CoreEnd::Limit => false,
    }
}

/// A bad register cell stopped the core: trap type 20.
pub(crate) fn is_register_stop(end: &CoreEnd) -> bool
    ensures { result ≡ is_register_stop end.now }
{
    match *end {
        CoreEnd::Stop { tt, .. } => tt == 0x20,
        CoreEnd::Halt(_) | CoreEnd::Limit => false,
    }
}

/// The core entered error mode.
fn is_halt(end: &CoreEnd) -> bool
    ensures { result ≡ is_halt end.now }
{
    matches!(*end, CoreEnd::Halt(_))
}

/// A transfer that retires its instruction: an atomic, unless it is the place of the core's stop.
fn retires(transfer: &Transfer, end: &CoreEnd) -> bool
    ensures { result ≡ retires_instruction end.now transfer.now }
{
    matches!(transfer.kind, TurnKind::Atomic) && !is_stop_at(transfer.turn, end)
}

/// A store that drains after the last step that the configuration allows.
fn is_last_drain(transfer: &Transfer, limit: u32) -> bool
    ensures { result ≡ is_last_drain limit transfer.now }
{
    transfer.step == limit
        && matches!(transfer.kind, TurnKind::Store)
        && matches!(transfer.why, Why::End)
}

/// A transfer of the core in one of its steps.
fn is_in_steps(transfer: &Transfer, core: u32, steps: u32) -> bool
    ensures { result ≡ (transfer.now.master == core && nat_lt transfer.now.step steps) }
{
    transfer.master == core && transfer.step < steps
}

/// A transfer of the core after its last step.
fn is_past_steps(transfer: &Transfer, core: u32, steps: u32) -> bool
    ensures { result ≡ (transfer.now.master == core && nat_le steps transfer.now.step) }
{
    transfer.master == core && steps <= transfer.step
}

/// The transfer is of the last step.
fn is_of_last_step(transfer: &Transfer, steps: u32) -> bool
    ensures { result ≡ is_of_last_step steps transfer.now }
{
    u64::from(transfer.step) + 1 == u64::from(steps)
}

/// The first step that the next transfer of the core may be of, after this transfer, if that is not before the first one that it
/// may be of itself. After the last step come no more transfers of steps.
fn next_step(transfer: &Transfer, core: u32, steps: u32, first: u64) -> Option<u64>
    ensures { result ≡ (if transfer.now.master == core then (if nat_lt transfer.now.step steps then (if nat_le first transfer.now.step then Some (transfer.now.step + 1) else None) else Some steps) else Some first) }
{
    if transfer.master != core {
        return Some(first);
    }
    if transfer.step >= steps {
        return Some(u64::from(steps));
    }
    if u64::from(transfer.step) < first {
        return None;
    }
    Some(u64::from(transfer.step) + 1)
}

/// The transfers of the core in its steps come before those after them, each of a later step than the one before.
fn are_in_order(transfers: &[Transfer], core: u32, steps: u32) -> bool
    ensures ordered { IsTrue result → own_transfers core transfers.now ≡ in_steps steps (own_transfers core transfers.now) ++ past_steps steps (own_transfers core transfers.now) }
    ensures ascending { IsTrue result → ascends_from 0 (in_steps steps (own_transfers core transfers.now)) ≡ true }
    ensures found { own_transfers core transfers.now ≡ in_steps steps (own_transfers core transfers.now) ++ past_steps steps (own_transfers core transfers.now)
        → ascends_from 0 (in_steps steps (own_transfers core transfers.now)) ≡ true → IsTrue result }
{
    let mut first = 0;
    for transfer in transfers {
        match next_step(transfer, core, steps, first) {
            Some(next) => first = next,
            None => return false,
        }
    }
    true
}

/// How many transfers the core made in its steps.
fn count_in_steps(transfers: &[Transfer], core: u32, steps: u32) -> usize
    ensures { result ≡ count_by (λ t. t.master == core && nat_lt t.step steps) transfers.now }
{
    transfers
        .iter()
        .filter(|transfer| is_in_steps(transfer, core, steps))
        .count()
}

/// How many it made after its last step.
fn count_past_steps(transfers: &[Transfer], core: u32, steps: u32) -> usize
    ensures { result ≡ count_by (λ t. t.master == core && nat_le steps t.step) transfers.now }
{
    transfers
        .iter()
        .filter(|transfer| is_past_steps(transfer, core, steps))
        .count()
}

/// How many of its transfers retire an instruction.
fn count_retiring(transfers: &[Transfer], core: u32, told: &CoreResult) -> usize
    ensures counted { result ≡ count_by (λ t. (t.master == core && nat_lt t.step told.now.steps) && retires_instruction told.now.end t) transfers.now }
    ensures few { result ≤ length transfers.now }
{
    transfers
        .iter()
        .filter(|transfer| is_in_steps(transfer, core, told.steps) && retires(transfer, &told.end))
        .count()
}

/// Each of its transfers after its last step is a store that drains after the last step that the configuration allows.
fn are_last_drains(transfers: &[Transfer], core: u32, steps: u32, limit: u32) -> bool
    ensures { result ≡ list_all (λ t. not (t.master == core && nat_le steps t.step) || is_last_drain limit t) transfers.now }
{
    transfers.iter().all(|transfer| {
        !is_past_steps(transfer, core, steps) || is_last_drain(transfer, limit)
    })
}

/// It made a transfer in its last step.
fn makes_last(transfers: &[Transfer], core: u32, steps: u32) -> bool
    ensures { result ≡ list_any (λ t. (t.master == core && nat_lt t.step steps) && is_of_last_step steps t) transfers.now }
{
    transfers.iter().any(|transfer| is_in_steps(transfer, core, steps)
        && is_of_last_step(transfer, steps))
}

/// A transfer does not keep the last step from retiring an instruction: it is of another step, or retires one itself.
fn lets_last_retire(transfer: &Transfer, told: &CoreResult) -> bool
    ensures { result ≡ (not (is_of_last_step told.now.steps transfer.now) || retires_instruction told.now.end transfer.now) }
{
    !is_of_last_step(transfer, told.steps) || retires(transfer, &told.end)
}

/// Its last step retires an instruction, by its transfers.
fn last_retires(transfers: &[Transfer], core: u32, told: &CoreResult) -> bool
    ensures { result ≡ list_all (λ t. not (t.master == core && nat_lt t.step told.now.steps) || (not (is_of_last_step told.now.steps t) || retires_instruction told.now.end t)) transfers.now }
{
    transfers.iter().all(|transfer| {
        !is_in_steps(transfer, core, told.steps) || lets_last_retire(transfer, told)
    })
}

/// The last step retires nothing, as a bad register cell stopped the core in it.
fn stops_in_last(transfers: &[Transfer], core: u32, told: &CoreResult) -> bool
    ensures { result ≡ (is_register_stop told.now.end && not (list_any (λ t. (t.master == core && nat_lt t.step told.now.steps) && is_of_last_step told.now.steps t) transfers.now)) }
{
    is_register_stop(&told.end) && !makes_last(transfers, core, told.steps)
}

/// How many of its steps retire an instruction: those without a transfer, but for a stop by a register cell, and those whose
/// transfer does.
fn retiring_steps(transfers: &[Transfer], core: u32, told: &CoreResult) -> u64
    requires few { length transfers.now < 2 ^ 32 }
    ensures { result ≡ retiring_steps told.now.end told.now.steps (in_steps told.now.steps (own_transfers core transfers.now)) }
{
    let made = count_in_steps(transfers, core, told.steps) as u64;
    let stopped = u64::from(stops_in_last(transfers, core, told));
    let without = u64::from(told.steps)
        .saturating_sub(made)
        .saturating_sub(stopped);
    without + count_retiring(transfers, core, told) as u64
}

/// Eight stores at most drain after the last step, and none unless the core made all steps that the configuration allows.
fn may_drain(drains: usize, steps: u32, limit: u32) -> bool
    ensures { result ≡ (nat_le drains 8 && (drains == 0 || steps == limit)) }
{
    drains <= 8 && (drains == 0 || steps == limit)
}

/// All of these hold.
fn all_hold(ordered: bool, drained: bool, allowed: bool, counted: bool, halted: bool) -> bool
    ensures { result ≡ (ordered && (drained && (allowed && (counted && halted)))) }
{
    ordered && drained && allowed && counted && halted
}

/// Its last step retires an instruction, if it entered error mode.
fn halts_in_last(transfers: &[Transfer], core: u32, told: &CoreResult) -> bool
    ensures { result ≡ (not (is_halt told.now.end) || list_all (λ t. not (t.master == core && nat_lt t.step told.now.steps) || (not (is_of_last_step told.now.steps t) || retires_instruction told.now.end t)) transfers.now) }
{
    !is_halt(&told.end) || last_retires(transfers, core, told)
}

/// The steps of a core and its transfers are as they should be.
fn has_steps(setup: &Setup, told: &CoreResult, core: u32, transfers: &[Transfer]) -> bool
    requires few { length transfers.now < 2 ^ 32 }
    ensures { IsTrue result ↔ HasSteps setup.now told.now (own_transfers core transfers.now) }
{
    let limit = setup.config.steps;
    let ordered = are_in_order(transfers, core, told.steps);
    let drained = are_last_drains(transfers, core, told.steps, limit);
    let allowed = may_drain(
        count_past_steps(transfers, core, told.steps),
        told.steps,
        limit,
    );
    let counted = retiring_steps(transfers, core, told) == u64::from(told.n);
    let halted = halts_in_last(transfers, core, told);
    all_hold(ordered, drained, allowed, counted, halted)
}

/// The steps of core number `core` are as they should be, if the trace has that core.
fn has_steps_at(setup: &Setup, trace: &Trace, core: u32) -> bool
    requires few { length trace.now.transfers < 2 ^ 32 }
    ensures { IsTrue result ↔ StepsAt setup.now trace.now core }
{
    match trace.cores.as_slice().get(core as usize) {
        Some(told) => has_steps(setup, told, core, trace.transfers.as_slice()),
        None => true,
    }
}

/// The first core whose steps are not as they should be.
fn first_core(setup: &Setup, trace: &Trace) -> Option<u32>
    requires few { length trace.now.transfers < 2 ^ 32 }
    ensures { FailsFirst setup.now.config.cores (StepsAt setup.now trace.now) result }
{
    for core in 0..setup.config.cores {
        if !has_steps_at(setup, trace, core) {
            return Some(core);
        }
    }
    None
}

/// The first core whose steps do not fit its transfers: it made one transfer at most in each step, in their order, and after the
/// last step at most eight stores drained; as many steps retired an instruction as were counted, the last one of a core that
/// entered error mode among them.
///
/// It takes time by cores times transfers, and no memory.
pub fn steps(setup: &Setup, trace: &Trace) -> Option<Place>
    requires few { length trace.now.transfers < 2 ^ 32 }
    ensures first { TriedBefore setup.now.config.cores (StepsAt setup.now trace.now) Core NoneLeft result }
{
    match first_core(setup, trace) {
        Some(core) => Some(Place::Core(core)),
        None => None,
    }
}
