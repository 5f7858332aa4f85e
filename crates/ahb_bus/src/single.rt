ghost use Rattle.std.specs.Prelude.{◌≡◌, ◌%◌, [], true, false, IsTrue};
ghost use Rattle.bus_memory.specs.MemoryState.{fix_answer};
ghost use Rattle.lf_model.specs.Start.{is_in_ram};
ghost use Rattle.lf_model.specs.declared.bus.TurnKind.TheVariants.{Snoop, Fix};
ghost use Rattle.lf_model.specs.declared.bus.Why.TheVariants as whys;
ghost use Rattle.lf_model.specs.TransferLines.{makes_entry};
ghost use Rattle.ahb_bus.specs.Asks.{IsCoreTurn, IsScrubTurn, IsTaken};
ghost use Rattle.ahb_bus.specs.BusOk.{BusOk};
ghost use Rattle.ahb_bus.specs.BusState.{memory_of, asked_by, after_turn};

use crate::bus::Bus;
use crate::noting::note_fix;
use crate::record::Who;
use crate::transfer::asked;
use bus_memory::Fixed;
use lf_model::bus::{Transfer, TurnKind, Why};

impl Bus {
    /// Makes the turn's transfer a snoop: a core catches up with the log, and does nothing else. The turn ends.
    pub fn snooped(&mut self, w: Who)
        requires begun { self.old.begun ≡ true }
        requires turn { IsCoreTurn w self.old }
        ensures made { self.new ≡ after_turn (asked_by self.old w Snoop whys.Window 0 0 0) [] self.old.values self.old }
        ensures ok { BusOk self.new }
    {
        let made = asked(self.memory.turns(), w, TurnKind::Snoop, Why::Window, 0);
        self.snoop(made);
    }

    fn snoop(&mut self, asked: Transfer)
        requires begun { self.old.begun ≡ true }
        requires taken { IsTaken self.old asked }
        requires entry { makes_entry asked.kind ≡ false }
        requires length { asked.len ≡ 0 }
        requires kind { asked.kind ≡ Snoop }
        ensures made { self.new ≡ after_turn asked [] self.old.values self.old }
        ensures ok { BusOk self.new }
    {
        self.memory.snoop(asked);
    }

    /// Makes the turn's transfer a fix of the scrubber: reads the word at `addr`, a multiple of 4 in RAM, once, and writes it back
    /// where it can be corrected. The turn ends.
    pub fn fix(&mut self, w: Who, addr: u32) -> Fixed
        requires begun { self.old.begun ≡ true }
        requires turn { IsScrubTurn w self.old }
        requires in_ram { IsTrue (is_in_ram (self.old.setup.config.ram) addr 4) }
        requires aligned { addr % 4 ≡ 0 }
        ensures answer { result ≡ fix_answer (memory_of self.old) addr }
        ensures made { self.new ≡ after_turn (asked_by self.old w Fix whys.None addr 0 0) [] self.old.values self.old }
        ensures ok { BusOk self.new }
    {
        let made = asked(self.memory.turns(), w, TurnKind::Fix, Why::None, addr);
        self.fix_word(made)
    }

    fn fix_word(&mut self, asked: Transfer) -> Fixed
        requires begun { self.old.begun ≡ true }
        requires taken { IsTaken self.old asked }
        requires entry { makes_entry asked.kind ≡ false }
        requires length { asked.len ≡ 0 }
        requires kind { asked.kind ≡ Fix }
        requires in_ram { IsTrue (is_in_ram (self.old.setup.config.ram) asked.addr 4) }
        requires aligned { asked.addr % 4 ≡ 0 }
        ensures answer { result ≡ fix_answer (memory_of self.old) asked.addr }
        ensures made { self.new ≡ after_turn asked [] self.old.values self.old }
        ensures ok { BusOk self.new }
    {
        let answer = self.memory.fix(asked);
        note_fix(&mut self.status, &asked, answer);
        answer
    }
}
