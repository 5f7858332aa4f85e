ghost use Rattle.std.specs.Prelude.{◌≡◌, false};
ghost use Rattle.bus_memory.specs.Names.{names_of};
ghost use Rattle.lf_model.specs.Records.BusRecord.{BusRecordOk};

use crate::bus::Bus;
use crate::record::BusRecord;
use bus_memory::MemoryRecord;
use lf_model::trace::Words2;

impl Bus {
    /// The record after the last turn. `named` has for each core the words that its stop names, each with the number of its
    /// transfer: a flip that stood in such a word then is stopped.
    pub fn finish(self, named: &[Words2]) -> BusRecord
        requires { self.begun ≡ false }
        ensures log { result.log.entries ≡ self.log }
        ensures transfers { result.transfers ≡ self.transfers }
        ensures ok { BusRecordOk self.setup result.log.entries result.transfers (record { addr = result.ahb_addr; status = result.ahb_status }) result.fates (names_of named.now) }
    {
        let Bus {
            memory,
            log,
            status,
            ..
        } = self;
        let (ahb_addr, ahb_status) = status.read();
        let MemoryRecord { transfers, fates } = memory.finish(named);
        BusRecord {
            log,
            transfers,
            ahb_addr,
            ahb_status,
            fates,
        }
    }
}
