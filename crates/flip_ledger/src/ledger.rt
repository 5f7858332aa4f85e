ghost use Rattle.std.specs.Prelude.{◌≡◌, ◌<◌, ◌≤◌, ℕ, [], true, false, List, length, map, All, IfOk, vec_len};
ghost use Rattle.lf_model.specs.Fates.{fate_of};
ghost use Rattle.lf_model.specs.Flips.{Moment, How};
ghost use Rattle.lf_model.specs.Flips.Moment.{Struck, Written, Found, Named};
ghost use Rattle.lf_model.specs.declared.trace.Fate.TheVariants.{Late};
ghost use Rattle.flip_ledger.specs.Ledger.{state_at, met, settled, named_where, fate_at, standing_in};
ghost use Rattle.flip_ledger.specs.Follows.{Gains, WasNamed, IsWrite, has_struck, IsNew, Follows, Remembers, Keeps};
ghost use Rattle.flip_ledger.specs.declared.record.FlipState.TheVariants.{ToCome};
ghost use Rattle.flip_ledger.specs.Standing.{numbers_of};

use crate::record::{Encounter, FlipState, Stay, Write};
use crate::standing::Standing;
use lf_model::trace::Fate;
use std::alloc::{AllocError, Global};
use std::marker::Model;

/// The flip of this number meets with something in its unit.
fn meet(flips: &mut Vec<FlipState>, number: u32, encounter: Encounter)
    requires { number < length flips.old.items }
    ensures { flips.new.items ≡ met encounter number flips.old.items }
{
    let here = number as usize;
    flips[here] = flips[here].met_by(encounter);
}

/// The flips that stand in a unit meet with something there.
fn settle(flips: &mut Vec<FlipState>, standing: Standing, encounter: Encounter)
    requires { All (λ number. number < length flips.old.items) (numbers_of standing) }
    ensures { flips.new.items ≡ settled encounter (numbers_of standing) flips.old.items }
{
    match standing {
        Standing::Empty => {}
        Standing::One(number) => meet(flips, number, encounter),
        Standing::Two { older, newer } => {
            meet(flips, older, encounter);
            meet(flips, newer, encounter);
        }
    }
}

/// A flip that stood in a unit as a turn ended was named by an error trap then.
fn named_where(flip: FlipState, unit: usize, turn: u32) -> FlipState
    ensures { result ≡ named_where unit turn flip }
{
    if flip.stood_in(unit, turn) {
        flip.met_by(Encounter::Named)
    } else {
        flip
    }
}

/// The flips that stood in a unit as a turn ended were named by an error trap then.
fn name_where(flips: &mut Vec<FlipState>, unit: usize, turn: u32)
    ensures { flips.new.items ≡ map (named_where unit turn) flips.old.items }
{
    for i in 0..flips.len() {
        flips[i] = named_where(flips[i], unit, turn);
    }
}

/// Which flips stand in each unit of an array, and what became of each flip of the script: the fates of docs/SPECIFICATION.md,
/// for units of any kind, which are numbered from 0.
///
/// Contracts speak of the units' histories, which nothing keeps at run time: a ledger that follows them has each flip's fate by
/// its unit's history. Time is the number of the current turn; an array whose past is never asked for leaves it at 0.
#[derive(Drop)]
pub struct FlipLedger {
    standing: Vec<Standing>,
    flips: Vec<FlipState>,
    turn: u32,
}

impl Model for FlipLedger {
    ghost use Rattle.flip_ledger.specs.Ledger.{Ledger};

    ghost Value = { Ledger };

    ghost use Rattle.flip_ledger.specs.Kept.{seen, IsKept};

    ghost view = { seen };

    ghost invariant = { IsKept };
}

impl FlipLedger {
    /// The ledger of so many units, each freshly written, for a script of so many flips, none of which has come.
    ///
    /// # Errors
    ///
    /// Memory ran out.
    pub fn new(alloc: Global, units: usize, flips: u32) -> Result<FlipLedger, AllocError>
        ensures units { IfOk result (λ ledger. length ledger.standing ≡ units) }
        ensures flips { IfOk result (λ ledger. length ledger.flips ≡ flips) }
        ensures turn { IfOk result (λ ledger. ledger.turn ≡ 0) }
        ensures follows { IfOk result (λ ledger. (budget : ℕ) (h : ℕ → List Moment) → IsNew h → Follows budget h ledger) }
    {
        Ok(FlipLedger {
            standing: vec![in alloc; Standing::Empty; units]?,
            flips: vec![in alloc; FlipState::ToCome; flips as usize]?,
            turn: 0,
        })
    }

    /// The number of the current turn.
    pub fn turn(&self) -> u32
        ensures { result ≡ self.now.turn }
    {
        self.turn
    }

    /// A turn begins. The histories up to now are remembered as those of the turns before it.
    pub fn begin(&mut self, turn: u32)
        requires { self.old.turn ≤ turn }
        ensures begun { self.new ≡ record self.old { turn = turn } }
        ensures follows { (budget : ℕ) (h : ℕ → List Moment) → Follows budget h self.old → Follows budget h self.new }
        ensures remembered { (budget t : ℕ) (h : ℕ → List Moment) → self.old.turn ≤ t → t < turn → Follows budget h self.old → Remembers budget t h self.new }
        ensures remembers { (budget t : ℕ) (past : ℕ → List Moment) → Remembers budget t past self.old → Remembers budget t past self.new }
    {
        self.turn = turn;
    }

    /// A flip of the script that comes now is applied to a unit.
    pub fn strike(&mut self, number: u32, unit: usize)
        requires unit { unit < length self.old.standing }
        requires number { number < length self.old.flips }
        requires late { state_at self.old number ≡ ToCome }
        requires room { length (standing_in self.old unit) < 2 }
        ensures keeps { Keeps self.old self.new }
        ensures follows { (budget bit : ℕ) (h new : ℕ → List Moment) → length (standing_in self.old unit) < budget
            → Gains unit (Struck number bit) h new → Follows budget h self.old → Follows budget new self.new }
    {
        self.standing[unit] = self.standing[unit].with(number);
        self.flips[number as usize] = FlipState::Applied(Stay {
            unit,
            since: self.turn,
            until: None,
            fate: Fate::Dormant,
        });
    }

    /// A flip of the script that comes now, for this unit, is declined.
    pub fn decline(&mut self, number: u32)
        requires number { number < length self.old.flips }
        requires late { state_at self.old number ≡ ToCome }
        ensures keeps { Keeps self.old self.new }
        ensures follows { (budget unit bit : ℕ) (h new : ℕ → List Moment) → unit < length self.old.standing → budget ≤ length (standing_in self.old unit)
            → Gains unit (Struck number bit) h new → Follows budget h self.old → Follows budget new self.new }
    {
        self.flips[number as usize] = FlipState::Declined;
    }

    /// A unit is written. Only that of a unit in which flips stand needs this call.
    pub fn written(&mut self, unit: usize, write: Write)
        requires { unit < length self.old.standing }
        ensures keeps { Keeps self.old self.new }
        ensures follows { (budget : ℕ) (how : How) (h new : ℕ → List Moment) → IsWrite write how
            → Gains unit (Written how) h new → Follows budget h self.old → Follows budget new self.new }
    {
        let turn = self.turn;
        settle(
            &mut self.flips,
            self.standing[unit],
            Encounter::Written { write, turn },
        );
        self.standing[unit] = Standing::Empty;
    }

    /// A check found a unit struck, and dropped its line.
    pub fn found(&mut self, unit: usize)
        requires { unit < length self.old.standing }
        ensures keeps { Keeps self.old self.new }
        ensures follows { (budget : ℕ) (h new : ℕ → List Moment) → Gains unit Found h new → Follows budget h self.old → Follows budget new self.new }
    {
        settle(&mut self.flips, self.standing[unit], Encounter::Found);
    }

    /// An error trap names a unit.
    pub fn named(&mut self, unit: usize)
        requires { unit < length self.old.standing }
        ensures keeps { Keeps self.old self.new }
        ensures follows { (budget : ℕ) (h new : ℕ → List Moment) → Gains unit Named h new → Follows budget h self.old → Follows budget new self.new }
    {
        settle(&mut self.flips, self.standing[unit], Encounter::Named);
    }

    /// An error trap named a unit as an earlier turn ended: its flips of then are stopped, unless they were repaired or found
    /// since.
    pub fn named_in(&mut self, unit: usize, turn: u32)
        requires unit { unit < length self.old.standing }
        ensures keeps { Keeps self.old self.new }
        ensures follows { (budget : ℕ) (h past new : ℕ → List Moment) → Remembers budget turn past self.old
            → WasNamed unit past h new → Follows budget h self.old → Follows budget new self.new }
    {
        name_where(&mut self.flips, unit, turn);
    }

    /// What became of a flip of the script so far, by its number.
    pub fn fate(&self, number: u32) -> Fate
        requires { number < length self.now.flips }
        ensures fate { result ≡ fate_at self.now number }
        ensures struck { (budget unit : ℕ) (h : ℕ → List Moment) → Follows budget h self.now → unit < length self.now.standing → has_struck number (h unit) ≡ true
            → result ≡ fate_of budget number (h unit) }
        ensures late { (budget : ℕ) (h : ℕ → List Moment) → Follows budget h self.now → ((unit : ℕ) → unit < length self.now.standing → has_struck number (h unit) ≡ false)
            → result ≡ Late }
    {
        self.flips[number as usize].fate()
    }
}
