ghost use Rattle.std.specs.Prelude.{◌≡◌, ◌≤◌, ◌↔◌, IsTrue, IfOk};
ghost use Rattle.lf_io.specs.Memory.{no_calls, IsNextFailing, after_call, after_fault};

use crate::failed::Failed;
use std::alloc::{AllocError, Global};
use std::marker::Model;

// The calls of an object in memory: how many came, which are to fail, and how many were faults.
#[derive(Debug, Drop)]
pub struct CallCounter {
    made: u64,
    failing: Vec<u64>,
    faults: u64,
}

impl Model for CallCounter {
    ghost use Rattle.lf_io.specs.Memory.{Calls};

    ghost Value = { Calls };

    ghost view = { λ it. record { made = it.made; failing = it.failing.items; faults = it.faults } };
}

impl CallCounter {
    pub fn new(alloc: Global, fails: &[u64]) -> Result<Self, AllocError>
        ensures { IfOk result (λ calls. calls ≡ no_calls fails.now) }
    {
        Ok(CallCounter {
            made: 0,
            failing: Vec::from_slice(alloc, fails)?,
            faults: 0,
        })
    }

    pub fn is_next_failing(&self) -> bool
        ensures { IsTrue result ↔ IsNextFailing self.now }
    {
        self.failing.contains(&self.made.saturating_add(1))
    }

    pub fn count_call(&mut self)
        ensures { self.new ≡ after_call self.old }
    {
        self.made = self.made.saturating_add(1);
    }

    pub fn count_fault(&mut self) -> Failed
        ensures counted { self.new ≡ after_fault self.old }
        ensures never_falls { self.old.faults ≤ self.new.faults }
    {
        self.made = self.made.saturating_add(1);
        self.faults = self.faults.saturating_add(1);
        Failed
    }
}
