ghost use Rattle.std.specs.Prelude.{◌≡◌, ◌↔◌, ◌<◌, ◌≤◌, ◌^◌, [], ◌∷◌, length, map, is_none, IsTrue};
ghost use Rattle.lf_model.specs.Ledger.Account.{core_reported};
ghost use Rattle.lf_model.specs.Ledger.CoreAccount.{turns_reported, errors_reported};
ghost use Rattle.lf_model.specs.Ledger.Steps.{own_transfers};
ghost use Rattle.lf_model.specs.Once.{OnceAtCore};
ghost use Rattle.lf_model.specs.Places.{FailsFirst, FailsNowhere};
ghost use Rattle.ledger_audit.specs.Account.{trap_seen, core_given};
ghost use Rattle.ledger_audit.specs.FirstPlaces.{SameCoreAt};
ghost use Rattle.ledger_audit.specs.LostStores.{TellsLost};

use crate::core_steps::is_register_stop;
use crate::given::{CoreGiven, ErrorTrap};
use crate::lost::{LostStores, lost_stores};
use lf_model::bus::Transfer;
use lf_model::trace::{CoreEnd, CoreResult, Four, Trace};

/// How many transfers a core made.
fn count_turns(transfers: &[Transfer], core: u32) -> usize
    ensures { result ≡ length (own_transfers core transfers.now) }
{
    transfers
        .iter()
        .filter(|transfer| transfer.master == core)
        .count()
}

/// An error trap came with the last of these transfers or, if a register cell stopped the core, with none.
fn has_turns(trap: &ErrorTrap, end: &CoreEnd, turns: usize) -> bool
    ensures { IsTrue result ↔ trap.now.turns ≡ turns_reported end.now turns }
{
    match trap.turns {
        Some(made) => !is_register_stop(end) && made as usize == turns,
        None => is_register_stop(end),
    }
}

/// The end of a core names this error trap, with its last step.
fn is_named(trap: &ErrorTrap, shown: &CoreResult, turns: usize) -> bool
    ensures { IsTrue result ↔ trap_seen trap.now ∷ [] ≡ errors_reported shown.now.end shown.now.steps turns }
{
    match shown.end {
        CoreEnd::Stop { tt, place, syn } => {
            trap.trap_type == tt
                && trap.place == place
                && trap.syndrome == syn
                && trap.steps == shown.steps
                && has_turns(trap, &shown.end, turns)
        }
        CoreEnd::Halt(_) | CoreEnd::Limit => false,
    }
}

/// The end of a core names no error trap.
fn names_none(shown: &CoreResult, turns: usize) -> bool
    ensures { IsTrue result ↔ [] ≡ errors_reported shown.now.end shown.now.steps turns }
{
    match shown.end {
        CoreEnd::Stop { .. } => false,
        CoreEnd::Halt(_) | CoreEnd::Limit => true,
    }
}

/// The end of a core names the error traps that it met.
fn names_all(met: &[ErrorTrap], shown: &CoreResult, turns: usize) -> bool
    ensures { IsTrue result ↔ map trap_seen met.now ≡ errors_reported shown.now.end shown.now.steps turns }
{
    match met.len() {
        0 => names_none(shown, turns),
        1 => is_named(&met[0], shown, turns),
        _ => false,
    }
}

/// The counters of parity errors are the same.
fn is_same_parity(given: &Four, told: &Four) -> bool
    ensures { IsTrue result ↔ given.now ≡ told.now }
{
    given.fetch_tag == told.fetch_tag
        && given.fetch_byte == told.fetch_byte
        && given.data_tag == told.data_tag
        && given.data_byte == told.data_byte
}

/// Just these registers are shown without a value.
fn are_blank(blank: &[bool], registers: &[Option<u32>]) -> bool
    ensures { IsTrue result ↔ blank.now ≡ map is_none registers.now }
{
    if blank.len() != registers.len() {
        return false;
    }
    for number in 0..blank.len() {
        if blank[number] != registers[number].is_none() {
            return false;
        }
    }
    true
}

/// The trace reports of a core what is given of it.
fn is_same_core(
    given: &CoreGiven,
    shown: &CoreResult,
    core: u32,
    trace: &Trace,
    lost: &LostStores,
) -> bool
    requires core { core < 8 }
    requires numbered { OnceAtCore trace.now.order core }
    requires lost { TellsLost trace.now.order lost.now }
    ensures { IsTrue result ↔ core_given given.now ≡ core_reported trace.now core shown.now }
{
    let turns = count_turns(trace.transfers.as_slice(), core);
    given.owed == 0
        && names_all(given.errors.as_slice(), shown, turns)
        && lost.are(core, given.lost)
        && is_same_parity(&given.parity, &shown.parity)
        && are_blank(&given.blank, shown.regs.as_slice())
}

/// The trace reports of core number `core` what is given of it, if either has that core.
fn is_same_core_at(given: &[CoreGiven], core: u32, trace: &Trace, lost: &LostStores) -> bool
    requires core { core < 8 }
    requires numbered { OnceAtCore trace.now.order core }
    requires lost { TellsLost trace.now.order lost.now }
    ensures { IsTrue result ↔ SameCoreAt given.now trace.now core }
{
    match given.get(core as usize) {
        Some(given) => match trace.cores.as_slice().get(core as usize) {
            Some(shown) => is_same_core(given, shown, core, trace, lost),
            None => false,
        },
        None => trace.cores.len() <= core as usize,
    }
}

/// The first core of which the trace reports other than is given.
pub(crate) fn first_other_core(given: &[CoreGiven], trace: &Trace, cores: u32) -> Option<u32>
    requires cores { cores ≤ 8 }
    requires numbered { FailsNowhere cores (OnceAtCore trace.now.order) }
    requires few { length trace.now.order < 2 ^ 32 }
    ensures { FailsFirst cores (SameCoreAt given.now trace.now) result }
{
    let lost = lost_stores(trace.order.as_slice());
    for core in 0..cores {
        if !is_same_core_at(given, core, trace, &lost) {
            return Some(core);
        }
    }
    None
}
