ghost use Rattle.std.specs.Prelude.{◌≡◌, ◌+◌, ◌*◌, ◌-◌, ◌%◌, ◌^◌, ◌<◌, ◌≤◌, ◌==◌, ◌++◌, [], ◌∷◌, true, false, length, map, not, filter, slice_index, IsTrue, if◌then◌else◌};
ghost use Rattle.ahb_bus.specs.BusOk.{BusOk};
ghost use Rattle.lf_model.specs.Bus.Walk.{scrubber, walk_start, walk_after};
ghost use Rattle.scrubber.specs.WalkState.{IsScrubRange, MayWalk, walk_made, noted_in};

use ahb_bus::{Bus, Who};
use arrayvec::ArrayVec;
use lf_model::bus::Line;
use lf_model::config::Config;
use std::marker::Model;
use std::snapshot::Snapshot;

/// The scrubber's number as a master of the bus.
const MASTER: u32 = 8;

/// The scrubber, and how far its walk has come.
#[derive(Drop)]
pub struct Scrubber {
    /// The range that it walks: its first address, and the address after it.
    first: u32,
    end: u32,
    /// The turns that it makes in all, and those that it made.
    most: u32,
    turns: u32,
    /// The line that it looks at next.
    line: u32,
    /// The words that it still has to fix.
    noted: ArrayVec<u32, 8>,
    /// The configuration, for contracts alone.
    config: Snapshot<Config>,
}

impl Model for Scrubber {
    ghost use Rattle.scrubber.specs.WalkState.{WalkState};

    ghost Value = { WalkState };

    ghost use Rattle.scrubber.specs.Inside.{seen, IsScrubber};

    ghost view = { seen };

    ghost invariant = { IsScrubber };
}

/// The line after this one, round the range.
fn next_line(first: u32, end: u32, line: u32) -> u32
    requires { line + 32 < 2 ^ 32 }
    ensures { result ≡ (if line + 32 == end then first else line + 32) }
{
    if line + 32 == end { first } else { line + 32 }
}

/// The words of a line, at this address, that are not clean.
fn noted_in(line: u32, read: &Line) -> ArrayVec<u32, 8>
    requires { line + 32 ≤ 2 ^ 32 }
    ensures { result.items ≡ noted_in line read.now.syn }
{
    let mut noted = ArrayVec::new();
    for place in 0..8u32 {
        if read.syn[place as usize] != 0 {
            noted.push(line + 4 * place);
        }
    }
    noted
}

impl Scrubber {
    /// The scrubber of a configuration, before its first turn.
    pub fn new(config: &Config) -> Scrubber
        requires { IsScrubRange config.now }
        ensures { result ≡ record { config = config.now; walk = walk_start config.now.scrub } }
    {
        Scrubber {
            first: config.scrub.first,
            end: config.scrub.first + config.scrub.length,
            most: config.scrub_turns,
            turns: 0,
            line: config.scrub.first,
            noted: ArrayVec::new(),
            config: Snapshot::of(config),
        }
    }

    /// How many turns it still has to make.
    pub fn turns_left(&self) -> u32
        ensures { result ≡ self.now.config.scrub_turns - self.now.walk.turns }
    {
        self.most - self.turns
    }

    /// Makes its next turn on the bus: a fix of the first word that is noted, else a look at the next line.
    pub fn step(&mut self, bus: &mut Bus)
        requires left { self.old.walk.turns < self.old.config.scrub_turns }
        requires setup { bus.old.setup.config ≡ self.old.config }
        requires begun { bus.old.begun ≡ false }
        // The transfers of the scrubber are those that this one made.
        requires own { self.old.walk ≡ walk_after self.old.config.scrub bus.old.transfers }
        ensures made { bus.new ≡ walk_made self.old (record bus.old { begun = true }) }
        ensures walk { self.new ≡ record self.old { walk = walk_after self.old.config.scrub bus.new.transfers } }
        ensures ok { BusOk bus.new }
    {
        bus.turn_start();
        if self.noted.is_empty() {
            self.look(bus);
        } else {
            self.fix(bus);
        }
    }

    /// Looks at the next line, and notes its words that are not clean.
    fn look(&mut self, bus: &mut Bus)
        requires may { MayWalk self.old bus.old }
        requires begun { bus.old.begun ≡ true }
        requires none { self.old.walk.noted ≡ [] }
        ensures made { bus.new ≡ walk_made self.old bus.old }
        ensures walk { self.new ≡ record self.old { walk = walk_after self.old.config.scrub bus.new.transfers } }
        ensures ok { BusOk bus.new }
    {
        let read = bus.look(self.who(), self.line);
        self.noted = noted_in(self.line, &read);
        self.line = next_line(self.first, self.end, self.line);
        self.turns += 1;
    }

    /// Fixes the first word that is noted.
    fn fix(&mut self, bus: &mut Bus)
        requires may { MayWalk self.old bus.old }
        requires begun { bus.old.begun ≡ true }
        requires some { 0 < length self.old.walk.noted }
        ensures made { bus.new ≡ walk_made self.old bus.old }
        ensures walk { self.new ≡ record self.old { walk = walk_after self.old.config.scrub bus.new.transfers } }
        ensures ok { BusOk bus.new }
    {
        let who = self.who();
        let addr = self.noted.remove(0);
        bus.fix(who, addr);
        self.turns += 1;
    }

    /// It makes its transfer as master 8.
    fn who(&self) -> Who
        ensures { result ≡ record { master = scrubber; step = self.now.walk.turns } }
    {
        Who {
            master: MASTER,
            step: self.turns,
        }
    }
}
