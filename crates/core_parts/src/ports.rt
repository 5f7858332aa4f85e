ghost use Rattle.std.specs.Prelude.{◌≡◌, ◌+◌, ◌*◌, ◌^◌, ◌<◌, length};
ghost use Rattle.core_parts.specs.Work.{load_made, store_made, next_pending};
ghost use Rattle.parity_cache.specs.CacheState.{stored_cache};
ghost use Rattle.parity_slots.specs.SlotState.{IsAccess};
ghost use Rattle.v8_exec.specs.Reading.{FitsLook};

use crate::parts::Parts;
use crate::record::Operation;
use lf_model::bus::{OpKind, Pending};
use lf_model::step::{Full, Look, RegBad};
use v8_exec::Ports;

impl Parts {
    /// A look-up of the data cache that hit is a load, and retires.
    fn note_look(&mut self, addr: u32, len: u8, answer: Look)
        requires access { IsAccess addr len }
        requires fits { FitsLook len answer }
        requires room { length self.old.record.ops < self.old.record.room }
        ensures { self.new ≡ record self.old { «record» = load_made addr len answer self.old.record } }
    {
        if let Look::Hit { value, way } = answer {
            self.record.retire(Operation {
                kind: OpKind::Load,
                addr,
                len,
                got: value,
                put: 0,
                way,
            });
        }
    }

    /// The next operation as a store that waits.
    fn pending(&self, addr: u32, len: u8, value: u64) -> Pending
        ensures { result ≡ next_pending addr len value self.now.record }
    {
        Pending {
            value,
            addr,
            k: self.record.made(),
            step: self.record.steps(),
            len,
        }
    }

    /// A store that waits updates the data cache, and retires.
    fn retire_store(&mut self, addr: u32, len: u8, value: u64)
        requires access { IsAccess addr len }
        requires value { value < 2 ^ (8 * len) }
        requires uses { self.old.arrays.data_cache.cache.uses + 1 < 2 ^ 32 }
        requires room { length self.old.record.ops < self.old.record.room }
        ensures { self.new ≡ record self.old {
          arrays = record self.old.arrays { data_cache = stored_cache addr len value self.old.arrays.data_cache };
          «record» = store_made addr len value self.old.record;
        } }
    {
        self.arrays.data_cache.update(addr, len, value);
        self.record.retire(Operation {
            kind: OpKind::Store,
            addr,
            len,
            got: 0,
            put: value,
            way: 0,
        });
    }
}

impl Ports for Parts {
    ghost use Rattle.core_parts.specs.Inside.{state_in, seen_in, room_in};
    ghost use Rattle.core_parts.specs.Work.{WorkState, work_touch, work_answers};

    ghost State = { WorkState };

    ghost state = { state_in };

    ghost touch = { work_touch };

    ghost answers = { work_answers };

    ghost seen = { seen_in };

    ghost room = { room_in };

    fn reg(&mut self, cell: usize) -> Result<u32, RegBad> {
        self.arrays.registers.read(cell)
    }

    fn set_reg(&mut self, cell: usize, v: u32) {
        self.arrays.registers.write(cell, v);
    }

    fn load(&mut self, addr: u32, len: u8) -> Look {
        let answer = self.arrays.data_cache.look(addr, len);
        self.note_look(addr, len, answer);
        answer
    }

    fn store(&mut self, addr: u32, len: u8, value: u64) -> Result<(), Full> {
        let store = self.pending(addr, len, value);
        self.buffer.push(store)?;
        self.retire_store(addr, len, value);
        Ok(())
    }

    fn waiting(&self) -> bool {
        self.has_waiting()
    }

    fn is_text(&self, addr: u32, len: u8) -> bool {
        self.site.touches_text(addr, len)
    }

    fn in_ram(&self, addr: u32, len: u8) -> bool {
        self.site.is_in_ram(addr, len)
    }

    fn out(&mut self, byte: u8) {
        self.out.push_reserved(byte);
    }

    fn flush(&mut self) {
        self.arrays.fetch_cache.drop_all();
        self.arrays.data_cache.drop_all();
    }
}
