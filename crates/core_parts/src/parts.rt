ghost use Rattle.std.specs.Prelude.{◌≡◌, ◌+◌, ◌^◌, ◌<◌, ◌≤◌, [], length, nat_lt, IfOk};
ghost use Rattle.core_laws.specs.SeenSoFar.{losing};
ghost use Rattle.core_parts.specs.Strikes.{arrays_of, with_arrays, own_flips};
ghost use Rattle.flip_ledger.specs.Plan.{IsPlanned};
ghost use Rattle.lf_model.specs.Caches.Cache.{IsCacheShape};
ghost use Rattle.lf_model.specs.Course.Arrays.{begun};
ghost use Rattle.lf_model.specs.declared.control.Arch.{Arch};

use crate::arrays::Arrays;
use crate::record::Record;
use crate::site::Site;
use crate::strikes::strike_due;
use flip_ledger::{FlipPlan, Owner};
use lf_model::setup::Setup;
use std::alloc::{AllocError, Global};
use store_buffer::Buffer;

/// The parts of a core that an instruction works on.
#[derive(Drop)]
pub struct Parts {
    pub arrays: Arrays,
    /// The stores that wait for the bus.
    pub buffer: Buffer,
    pub record: Record,
    /// The bytes written to the output word.
    pub out: Vec<u8>,
    pub site: Site,
}

/// The stores that wait are dropped.
fn drop_waiting(buffer: &mut Buffer)
    ensures { buffer.new ≡ record buffer.old { waiting = [] } }
{
    'waiting: while buffer.pop().is_some() {}
}

impl Parts {
    ghost use Rattle.core_parts.specs.CanRun.{CanRun};
    ghost use Rattle.core_parts.specs.Inside.{StartsAt};
    ghost use Rattle.core_parts.specs.IsCore.{IsCore};
    ghost use Rattle.core_parts.specs.Losing.{first_number};

    /// The parts of core number `core` at reset, with room for all that its steps may record.
    ///
    /// # Errors
    ///
    /// Memory ran out.
    pub fn new(alloc: Global, core: u32, s: &Setup) -> Result<Parts, AllocError>
        requires fetch_cache { IsCacheShape s.now.config.fetch_cache }
        requires data_cache { IsCacheShape s.now.config.load_cache }
        requires least_depth { 1 ≤ s.now.config.buffer }
        requires most_depth { s.now.config.buffer ≤ 8 }
        requires flips { length s.now.flips < 2 ^ 32 }
        ensures reset { IfOk result (StartsAt s.now core) }
    {
        let steps = s.config.steps as usize;
        let flips = s.flips.len() as u32;
        Ok(Parts {
            arrays: Arrays::new(alloc, core, &s.config, flips)?,
            buffer: Buffer::new(s.config.buffer),
            record: Record::new(alloc, core, s.config.steps)?,
            out: Vec::with_capacity(alloc, steps)?,
            site: Site::new(alloc, s)?,
        })
    }

    /// A step begins: the flips of the script that are for this core, and for this step, strike.
    #[inline(always)]
    pub fn begin_step(&mut self, plan: &mut FlipPlan)
        requires planned { IsPlanned (Owner.Core self.old.record.core) self.old.site.flips self.old.record.steps plan.old }
        requires runs { CanRun self.old.record.steps 0 self.old }
        ensures struck { self.new ≡ record self.old {
          arrays = with_arrays self.old.arrays (begun (own_flips self.old.record.core self.old.site.flips) self.old.record.steps (arrays_of self.old.arrays));
        } }
        ensures planned { IsPlanned (Owner.Core self.old.record.core) self.old.site.flips (self.old.record.steps + 1) plan.new }
        ensures runs { CanRun (self.old.record.steps + 1) 0 self.new }
        ensures core { (a : Arch) → IsCore a self.old → IsCore a self.new }
    {
        strike_due(&mut self.arrays, plan, &self.site, &self.record);
    }

    /// A store waits for the bus.
    pub fn has_waiting(&self) -> bool
        ensures some { result ≡ nat_lt 0 (length self.now.buffer.waiting) }
    {
        self.buffer.len() > 0
    }

    /// The stores that wait, of which there is one at least, never reach memory: the operations from the first of them on are lost.
    pub fn lose_waiting(&mut self)
        requires some { 0 < length self.old.buffer.waiting }
        ensures lost { self.new ≡ record self.old {
          buffer = record self.old.buffer { waiting = [] };
          «record» = record self.old.record { ops = losing (first_number self.old.buffer.waiting) self.old.record.ops };
        } }
    {
        let Some(first) = self.buffer.front() else {
            unreachable!()
        };
        drop_waiting(&mut self.buffer);
        self.record.lose_from(first.k);
    }
}
