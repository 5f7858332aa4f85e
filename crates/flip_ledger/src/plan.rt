ghost use Rattle.std.specs.Prelude.{◌≡◌, ◌^◌, ◌≤◌, length, IfOk};
ghost use Rattle.flip_ledger.specs.Plan.{is_of, time_of, target_of, bit_of, strike_of, strikes_of, IsPlanned, GivesDue};

use lf_model::flip::Flip;
use std::alloc::{AllocError, Global};
use std::marker::Model;

/// Whose units flips strike.
#[derive(Clone, Copy, Debug)]
pub enum Owner {
    /// A core: its register cells and its caches, as its steps begin.
    Core(u32),
    /// Memory: its words, as turns of the bus begin.
    Memory,
}

/// The unit that a flip strikes.
#[derive(Clone, Copy, Debug, PartialEq, Eq)]
pub enum Target {
    /// A memory word, by its address.
    Word {
        addr: u32,
    },
    /// A register cell, by its number.
    Register {
        cell: u8,
    },
    /// A tag byte of a way of a set, in the fetch cache or the data cache.
    Tag {
        fetch: bool,
        way: u8,
        set: u16,
        byte: u8,
    },
    /// A byte of the line of a way of a set, in the fetch cache or the data cache.
    Line {
        fetch: bool,
        way: u8,
        set: u16,
        byte: u8,
    },
}

/// A flip of the script, as the owner of its unit needs it.
#[derive(Clone, Copy, Debug, PartialEq, Eq)]
pub struct Strike {
    /// The step or turn that it comes with.
    pub at: u32,
    /// Its number in the script, from 0.
    pub number: u32,
    pub target: Target,
    /// The bit of the unit.
    pub bit: u8,
}

/// The flip is for a unit of this owner.
fn is_of(owner: Owner, flip: Flip) -> bool
    ensures { result ≡ is_of owner flip }
{
    match (owner, flip) {
        (Owner::Memory, Flip::Mem { .. }) => true,
        (Owner::Memory, _) | (Owner::Core(_), Flip::Mem { .. }) => false,
        (
            Owner::Core(number),
            Flip::Reg { core, .. } | Flip::Tag { core, .. } | Flip::Line { core, .. },
        ) => core == number,
    }
}

/// The step or turn that it comes with.
fn time_of(flip: Flip) -> u32
    ensures { result ≡ time_of flip }
{
    match flip {
        Flip::Mem { turn, .. } => turn,
        Flip::Reg { step, .. } | Flip::Tag { step, .. } | Flip::Line { step, .. } => step,
    }
}

/// Its unit.
fn target_of(flip: Flip) -> Target
    ensures { result ≡ target_of flip }
{
    match flip {
        Flip::Mem { addr, .. } => Target::Word { addr },
        Flip::Reg { cell, .. } => Target::Register { cell },
        Flip::Tag {
            fetch,
            way,
            set,
            byte,
            ..
        } => Target::Tag {
            fetch,
            way,
            set,
            byte,
        },
        Flip::Line {
            fetch,
            way,
            set,
            byte,
            ..
        } => Target::Line {
            fetch,
            way,
            set,
            byte,
        },
    }
}

/// The bit of its unit.
fn bit_of(flip: Flip) -> u8
    ensures { result ≡ bit_of flip }
{
    match flip {
        Flip::Mem { bit, .. }
        | Flip::Reg { bit, .. }
        | Flip::Tag { bit, .. }
        | Flip::Line { bit, .. } => bit,
    }
}

/// The strike of the flip of this number.
fn strike_of(number: u32, flip: Flip) -> Strike
    ensures { result ≡ strike_of (number, flip) }
{
    Strike {
        at: time_of(flip),
        number,
        target: target_of(flip),
        bit: bit_of(flip),
    }
}

/// The strikes of a script at the units of an owner, in its order.
fn strikes_of(alloc: Global, flips: &[Flip], owner: Owner) -> Result<Vec<Strike>, AllocError>
    requires { length flips.now ≤ 2 ^ 32 }
    ensures { IfOk result (λ strikes. strikes.items ≡ strikes_of owner flips.now) }
{
    let mut strikes = Vec::new(alloc);
    for number in 0..flips.len() {
        let flip = flips[number];
        if is_of(owner, flip) {
            strikes.push(strike_of(number as u32, flip))?;
        }
    }
    Ok(strikes)
}

/// The flips of a script that strike the units of one owner, in the order of their steps or turns, those of one step or turn in
/// the order of the script. It gives each of them once. Contracts see those that are still to come.
#[derive(Drop)]
pub struct FlipPlan {
    strikes: Vec<Strike>,
    next: usize,
}

impl Model for FlipPlan {
    ghost use Rattle.std.specs.Prelude.{List};
    ghost use Rattle.flip_ledger.specs.declared.plan.Strike.{Strike};

    ghost Value = { List Strike };

    ghost use Rattle.flip_ledger.specs.Pending.{pending, IsInOrder};

    ghost view = { pending };

    ghost invariant = { IsInOrder };
}

impl FlipPlan {
    /// The plan of a script of at most 2^32 flips for an owner.
    ///
    /// # Errors
    ///
    /// Memory ran out.
    pub fn new(alloc: Global, flips: &[Flip], owner: Owner) -> Result<FlipPlan, AllocError>
        requires { length flips.now ≤ 2 ^ 32 }
        ensures { IfOk result (IsPlanned owner flips.now 0) }
    {
        let mut strikes = strikes_of(alloc, flips, owner)?;
        strikes.sort_by_key(|strike| strike.at)?;
        Ok(FlipPlan { strikes, next: 0 })
    }

    /// The next flip, if its step or turn is this one or an earlier one. Called as a step or turn begins until it gives none, it
    /// gives the flips of that step or turn, in the order of the script.
    #[inline]
    pub fn next_due(&mut self, at: u32) -> Option<Strike>
        ensures { GivesDue at self.old result self.new }
    {
        if self.next == self.strikes.len() {
            return None;
        }
        let strike = self.strikes[self.next];
        if strike.at > at {
            return None;
        }
        self.next += 1;
        Some(strike)
    }
}
