ghost use Rattle.std.specs.Prelude.{◌≡◌};
ghost use Rattle.flip_ledger.specs.Rule.{fate_by, ended_by, stay_by, met_by, fate_in, stood_in};

use crate::fates::earlier;
use lf_model::trace::Fate;

/// How a unit is written.
#[derive(Clone, Copy, Debug)]
pub enum Write {
    /// With a value that does not depend on what it held: a store of words, a fill, an own store to its byte, a drop or a flush,
    /// a plain write of its register.
    Whole,
    /// With what it held, corrected: a part store, an atomic, a fix of the scrubber, the write-back of a register read.
    Correcting,
}

/// What happens to a unit while a flip stands in it.
#[derive(Clone, Copy, Debug)]
pub enum Encounter {
    /// A check finds it struck, and drops its line.
    Found,
    /// An error trap names it.
    Named,
    /// It is written, in this turn.
    Written { write: Write, turn: u32 },
}

/// An applied flip: its unit, the turn in which it struck, the one in which its unit was written, and its fate so far.
#[derive(Clone, Copy, Debug)]
pub struct Stay {
    pub unit: usize,
    pub since: u32,
    pub until: Option<u32>,
    pub fate: Fate,
}

/// What became of a flip so far.
#[derive(Clone, Copy, Debug)]
pub enum FlipState {
    ToCome,
    Declined,
    Applied(Stay),
}

/// The fate that an encounter gives, unless an earlier one holds.
fn fate_by(encounter: Encounter) -> Fate
    ensures { result ≡ fate_by encounter }
{
    match encounter {
        Encounter::Found => Fate::Discarded,
        Encounter::Named => Fate::Stopped,
        Encounter::Written { write, .. } => match write {
            Write::Whole => Fate::Overwritten,
            Write::Correcting => Fate::Repaired,
        },
    }
}

/// The end of a stay after an encounter: a write ends one that has not ended.
fn ended_by(encounter: Encounter, until: Option<u32>) -> Option<u32>
    ensures { result ≡ ended_by encounter until }
{
    match (encounter, until) {
        (Encounter::Written { turn, .. }, None) => Some(turn),
        _ => until,
    }
}

/// A stay after an encounter.
fn stay_by(encounter: Encounter, stay: Stay) -> Stay
    ensures { result ≡ stay_by encounter stay }
{
    Stay {
        unit: stay.unit,
        since: stay.since,
        until: ended_by(encounter, stay.until),
        fate: earlier(fate_by(encounter), stay.fate),
    }
}

impl FlipState {
    /// The state after an encounter of the flip's unit, in which it stands.
    pub fn met_by(self, encounter: Encounter) -> FlipState
        ensures { result ≡ met_by encounter self }
    {
        match self {
            FlipState::ToCome => FlipState::ToCome,
            FlipState::Declined => FlipState::Declined,
            FlipState::Applied(stay) => FlipState::Applied(stay_by(encounter, stay)),
        }
    }

    /// The flip's fate so far.
    pub fn fate(self) -> Fate
        ensures { result ≡ fate_in self }
    {
        match self {
            FlipState::ToCome => Fate::Late,
            FlipState::Declined => Fate::Declined,
            FlipState::Applied(stay) => stay.fate,
        }
    }

    /// The flip stood in the unit as this turn ended.
    pub fn stood_in(self, unit: usize, turn: u32) -> bool
        ensures { result ≡ stood_in unit turn self }
    {
        let FlipState::Applied(stay) = self else {
            return false;
        };
        let had_come = stay.unit == unit && stay.since <= turn;
        had_come
            && match stay.until {
                Some(until) => turn < until,
                None => true,
            }
    }
}
