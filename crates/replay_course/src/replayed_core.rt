ghost use Rattle.std.specs.Prelude.{◌≡◌, ◌<◌, ◌^◌, [], ◌∷◌, length, IfOk, OnOk, OnErr};
ghost use Rattle.std.specs.List.{AllByRecursion};
ghost use Rattle.lf_model.specs.Bus.Replay.{core_start};
ghost use Rattle.lf_model.specs.Caches.Cache.{IsCacheShape};
ghost use Rattle.lf_model.specs.Course.Course.{with_unseen};
ghost use Rattle.replay_arrays.specs.Aims.{AimsAt};
ghost use Rattle.replay_course.specs.Grounds.{ground_of};

use crate::core_arrays::CoreArrays;
use crate::course::{Course, Notes};
use crate::ground::Ground;
use crate::progress::Counts;
use replay_arrays::Arrays;
use replay_effects::Thread;
use std::alloc::{AllocError, Global};
use std::marker::Model;

/// A core of the replay: what it runs on, and how far it has come.
#[derive(Drop)]
pub struct Core<'a> {
    ground: Ground<'a>,
    course: Course<'a>,
    arrays: CoreArrays,
}

impl<'a> Model for Core<'a> {
    ghost use Rattle.lf_model.specs.Bus.Replay.{Core};

    ghost Value = { Core };

    ghost use Rattle.replay_course.specs.CoreInside.{seen, IsCore};

    ghost view = { seen };

    ghost invariant = { IsCore };
}

impl<'a> Core<'a> {
    /// A core at reset.
    ///
    /// # Errors
    ///
    /// Memory ran out.
    #[tactic(auto, unfolding(replay_effects::specs::Running::start))]
    pub fn new(alloc: Global, ground: Ground<'a>) -> Result<Core<'a>, AllocError>
        requires core { ground.core < 8 }
        requires few { length ground.program.now.setup.now.flips < 2 ^ 32 }
        requires fetch_cache { IsCacheShape ground.program.now.setup.now.config.fetch_cache }
        requires data_cache { IsCacheShape ground.program.now.setup.now.config.load_cache }
        requires aims { AllByRecursion (AimsAt ground.core ground.program.now.setup.now.config) ground.program.now.setup.now.flips }
        ensures { IfOk result (λ core. core ≡ core_start (ground_of ground.entry)) }
    {
        let arrays = Arrays::new(alloc, ground.program.setup, ground.core)?;
        let thread = Thread::new(ground.program, ground.given.answers, ground.core);
        Ok(Core {
            ground,
            course: Course {
                thread,
                counts: Counts::new(),
                notes: Notes::new(alloc),
            },
            arrays: CoreArrays { arrays },
        })
    }

    /// Another stored at this address: the data cache of the core is still to snoop it.
    ///
    /// # Errors
    ///
    /// Memory ran out, and the core is as before.
    pub fn snoop(&mut self, addr: u32) -> Result<(), AllocError>
        ensures unseen { OnOk result (self.new ≡ record self.old { progress = with_unseen (addr ∷ []) self.old.progress }) }
        ensures out_of_memory { OnErr result (self.new ≡ self.old) }
    {
        self.course.notes.unseen.push(addr)?;
        Ok(())
    }
}
