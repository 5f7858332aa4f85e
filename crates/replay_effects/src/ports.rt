ghost use Rattle.std.specs.Prelude.{◌≡◌};
ghost use Rattle.replay_effects.specs.Operations.{with_operation};
ghost use Rattle.replay_effects.specs.TrialInside.{noted_in, seen_in};

use crate::footprint::{Access, AccessKind};
use crate::made::{Byte, Operation};
use crate::notes::{fitted, note};
use crate::trial::Trial;
use lf_model::addresses;
use lf_model::bus::OpKind;
use lf_model::step::{Full, Look, RegBad};
use v8_exec::Ports;

impl<'a> Trial<'a> {
    /// Makes an operation.
    pub(crate) fn make(&mut self, operation: &Operation)
        ensures seen { seen_in self.new ≡ record (seen_in self.old) { ops = with_operation operation.now self.old.made } }
        ensures noted { noted_in self.new ≡ noted_in self.old }
    {
        self.made.change(operation);
    }
}

impl<'a> Ports for Trial<'a> {
    ghost use Rattle.replay_effects.specs.Noted.{Noted, trial_touch, trial_answers};
    ghost use Rattle.replay_effects.specs.TrialInside.{noted_in, seen_in, room_in};

    ghost State = { Noted };

    ghost state = { noted_in };

    ghost touch = { trial_touch };

    ghost answers = { trial_answers };

    ghost seen = { seen_in };

    ghost room = { room_in };

    fn reg(&mut self, cell: usize) -> Result<u32, RegBad> {
        note(&mut self.reads, cell);
        Ok(self.cells[cell])
    }

    fn set_reg(&mut self, cell: usize, v: u32) {
        note(&mut self.writes, cell);
        self.cells[cell] = v;
    }

    fn load(&mut self, addr: u32, len: u8) -> Look {
        self.access = Some(Access {
            kind: AccessKind::Load,
            addr,
            len,
            put: 0,
        });
        let value = fitted(self.got, len);
        self.make(&Operation {
            core: self.core,
            kind: OpKind::Load,
            addr,
            len,
            got: value,
            put: 0,
        });
        Look::Hit { value, way: 0 }
    }

    fn store(&mut self, addr: u32, len: u8, value: u64) -> Result<(), Full> {
        self.access = Some(Access {
            kind: AccessKind::Store,
            addr,
            len,
            put: value,
        });
        self.make(&Operation {
            core: self.core,
            kind: OpKind::Store,
            addr,
            len,
            got: 0,
            put: value,
        });
        Ok(())
    }

    fn waiting(&self) -> bool {
        self.waiting
    }

    fn is_text(&self, addr: u32, len: u8) -> bool {
        self.program.touches_text(addr, len)
    }

    fn in_ram(&self, addr: u32, len: u8) -> bool {
        addresses::is_in_ram(self.program.setup.config.ram, addr, len)
    }

    fn out(&mut self, byte: u8) {
        self.out.change(&Byte(byte));
    }

    fn flush(&mut self) {}
}
