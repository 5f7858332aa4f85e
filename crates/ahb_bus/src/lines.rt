ghost use Rattle.std.specs.Prelude.{◌≡◌, ◌%◌, [], true, false, IsTrue};
ghost use Rattle.bus_memory.specs.MemoryState.{line_shown, reads_line};
ghost use Rattle.lf_model.specs.Start.{is_in_ram};
ghost use Rattle.lf_model.specs.declared.bus.TurnKind.TheVariants.{Look};
ghost use Rattle.lf_model.specs.declared.bus.Why.TheVariants as whys;
ghost use Rattle.lf_model.specs.TransferLines.{makes_entry};
ghost use Rattle.ahb_bus.specs.Asks.{IsCoreTurn, IsScrubTurn, IsCauseOf, IsTaken, is_fill};
ghost use Rattle.ahb_bus.specs.BusOk.{BusOk};
ghost use Rattle.ahb_bus.specs.BusState.{memory_of, asked_by, after_turn};

use crate::bus::Bus;
use crate::noting::note_line;
use crate::record::Who;
use crate::transfer::asked;
use lf_model::bus::{Line, Transfer, TurnKind, Why};

impl Bus {
    /// Makes the turn's transfer a fill of a cache: reads the line of eight words at `line`, a multiple of 32 in RAM, for this way.
    /// The turn ends.
    pub fn fill(&mut self, w: Who, kind: TurnKind, why: Why, line: u32, way: u8) -> Line
        requires begun { self.old.begun ≡ true }
        requires turn { IsCoreTurn w self.old }
        requires kind { is_fill kind ≡ true }
        requires cause { IsCauseOf kind why }
        requires in_ram { IsTrue (is_in_ram (self.old.setup.config.ram) line 32) }
        requires aligned { line % 32 ≡ 0 }
        ensures line { result ≡ line_shown (memory_of self.old) line }
        ensures made { self.new ≡ after_turn (asked_by self.old w kind why line way 0) [] self.old.values self.old }
        ensures ok { BusOk self.new }
    {
        let made = Transfer {
            way,
            ..asked(self.memory.turns(), w, kind, why, line)
        };
        self.read_line(made)
    }

    /// Makes the turn's transfer a look of the scrubber: reads the line of eight words at `line`, a multiple of 32 in RAM. The
    /// turn ends.
    pub fn look(&mut self, w: Who, line: u32) -> Line
        requires begun { self.old.begun ≡ true }
        requires turn { IsScrubTurn w self.old }
        requires in_ram { IsTrue (is_in_ram (self.old.setup.config.ram) line 32) }
        requires aligned { line % 32 ≡ 0 }
        ensures line { result ≡ line_shown (memory_of self.old) line }
        ensures made { self.new ≡ after_turn (asked_by self.old w Look whys.None line 0 0) [] self.old.values self.old }
        ensures ok { BusOk self.new }
    {
        let made = asked(self.memory.turns(), w, TurnKind::Look, Why::None, line);
        self.read_line(made)
    }

    /// Reads a line.
    fn read_line(&mut self, asked: Transfer) -> Line
        requires begun { self.old.begun ≡ true }
        requires taken { IsTaken self.old asked }
        requires entry { makes_entry asked.kind ≡ false }
        requires length { asked.len ≡ 0 }
        requires kind { reads_line asked.kind ≡ true }
        requires in_ram { IsTrue (is_in_ram (self.old.setup.config.ram) asked.addr 32) }
        requires aligned { asked.addr % 32 ≡ 0 }
        ensures line { result ≡ line_shown (memory_of self.old) asked.addr }
        ensures made { self.new ≡ after_turn asked [] self.old.values self.old }
        ensures ok { BusOk self.new }
    {
        let line = self.memory.read_line(asked);
        note_line(&mut self.status, &asked, &line);
        line
    }
}
