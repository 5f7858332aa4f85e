ghost use Rattle.std.specs.Prelude.{◌≡◌, IfOk};
ghost use Rattle.lf_model.specs.Caches.Cache.{IsCacheShape};
ghost use Rattle.lf_model.specs.Course.Arrays.{reset_arrays};
ghost use Rattle.replay_arrays.specs.Striking.{parts_with};

use crate::cells::Cells;
use lf_model::config::Config;
use replay_caches::Cache;
use std::alloc::{AllocError, Global};

/// The register cells and the caches of a core.
#[derive(Drop)]
pub(crate) struct Parts {
    pub(crate) cells: Cells,
    pub(crate) fetch_cache: Cache,
    pub(crate) data_cache: Cache,
}

impl Parts {
    /// The parts at reset, for a script of so many flips, none of which has come.
    ///
    /// # Errors
    ///
    /// Memory ran out.
    pub(crate) fn new(alloc: Global, config: &Config, flips: u32) -> Result<Parts, AllocError>
        requires fetch_cache { IsCacheShape config.now.fetch_cache }
        requires data_cache { IsCacheShape config.now.load_cache }
        ensures { IfOk result (λ parts. parts ≡ parts_with flips (reset_arrays config.now)) }
    {
        Ok(Parts {
            cells: Cells::new(alloc, flips)?,
            fetch_cache: Cache::new(alloc, config.fetch_cache, flips)?,
            data_cache: Cache::new(alloc, config.load_cache, flips)?,
        })
    }
}
